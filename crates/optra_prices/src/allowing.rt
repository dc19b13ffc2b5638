//! Which arcs may be taken at a node, told anew in tables that were made for all nodes.
//!
//! The room that the yes legs leave is held by the numbers of rows, so that no row is looked up in a map for an arc. A
//! bid's own yes legs are taken out of it while the bid's arcs are told.
ghost use Rattle.std.specs.Prelude.{◌≡◌, ◌<◌, ◌≤◌, [], true, false, IfOk, OnOk, length, slice_index_or, slice_set};
ghost use Rattle.optra_node.specs.Nodes.{instance_node};
ghost use Rattle.optra_node.specs.OwnDecisions.{decisions_for};
ghost use Rattle.optra_prices.specs.Terms.{setting};
ghost use Rattle.optra_prices.specs.Keepings.{IsBrought, AreBrought};
ghost use Rattle.optra_prices.specs.Rooms.{IsDecided};
ghost use Rattle.optra_prices.specs.Standings.{AreTables, HoldArcs};
ghost use Rattle.optra_prices.specs.NarrowArcs.{with_mark};
ghost use Rattle.optra_prices.specs.Tables.{no_arc};
ghost use Rattle.optra_prices.specs.Allowing.{AreAtUnlessTold, AreToldAnew, IsTableAnew, IsLetMark, RoomTells, IsTableFor};

use crate::arcs::Arcs;
use crate::claims::{add_placed, take_placed};
use crate::decided::Decided;
use crate::grouping::either;
use crate::numbering::{BidTable, Groups};
use crate::rooms::{Room, Told, tell_group};
use crate::row_numbers::RowNumbers;
use optra_graph::TimeGraph;
use optra_network::NoMemory;
use optra_node::OwnDecisions;
use optra_walk::{CodedRow, Instance, RowFamily};

/// Whether the arc may be taken, where it is known whether there is room for what it touches and whether the bid has
/// decisions of its own.
fn let_arc<F: RowFamily>(
    own: &OwnDecisions<'_, F>,
    number: u32,
    graph: &TimeGraph,
    k: u32,
    has_own: bool,
    has_room: bool,
) -> bool
    requires bid { number < length own.now.bids }
    requires within { k < length graph.now.dag.arcs }
    requires own { has_own ≡ false → decisions_for own.now.node number ≡ [] }
    ensures { IsLetMark own.now.net own.now.bids own.now.node number graph.now k
        has_room result }
{
    if !has_room {
        return false;
    }
    if !has_own {
        return true;
    }
    match graph.leg(k) {
        Some(leg) => own.let_by(number, leg),
        None => own.start_ok(number, graph.start(k).unwrap_or(0)),
    }
}

/// Says whether the arc may be taken, and tells whether that changed.
fn set_allowed(arcs: &mut Arcs, k: u32, allowed: bool) -> bool
    requires { k < length arcs.old }
    ensures set { arcs.new ≡ slice_set arcs.old k (with_mark (slice_index_or arcs.old k no_arc)
        allowed) }
    ensures same { result ≡ false → arcs.new ≡ arcs.old }
    ensures other { result ≡ true
        → slice_index_or arcs.new k no_arc ≡ slice_index_or arcs.old k no_arc → ⊥ }
{
    if arcs.slice().allowed(k as usize) == allowed {
        return false;
    }
    arcs.allow(k as usize, allowed);
    true
}

/// Tells anew which arcs of a bid's graph may be taken, group by group, and whether that changed for one of them.
fn allow_arcs<F: RowFamily>(
    own: &OwnDecisions<'_, F>,
    number: u32,
    room: &Room,
    graph: &TimeGraph,
    groups: &Groups,
    arcs: &mut Arcs,
) -> bool
    requires bid { number < length own.now.bids }
    requires tells { RoomTells (F.rows_of own.now.family own.now.net) own.now.bids
        own.now.node number room.now graph.now groups.now arcs.old }
    ensures told { AreToldAnew own.now.net (F.rows_of own.now.family own.now.net)
        own.now.bids own.now.node number graph.now arcs.old arcs.new }
    ensures same { result ≡ false → arcs.new ≡ arcs.old }
    ensures other { result ≡ true → arcs.new ≡ arcs.old → ⊥ }
{
    let has_own = !own.own(number).is_empty();
    let mut last = Told {
        group: 0,
        has_room: true,
    };
    let mut changed = false;
    for k in 0..graph.dag().arcs() {
        last = tell_group(room, groups, arcs.slice().group(k as usize), last);
        let allowed = let_arc(own, number, graph, k, has_own, last.has_room);
        let other = set_allowed(arcs, k, allowed);
        changed = either(changed, other);
    }
    changed
}

/// Says whether the bid has a yes leg, and tells whether that changed.
fn set_forced(old: &mut bool, forced: bool) -> bool
    ensures forced { old.new ≡ forced }
    ensures same { result ≡ false → old.new ≡ old.old }
    ensures other { result ≡ true → old.new ≡ old.old → ⊥ }
{
    let changed = *old != forced;
    *old = forced;
    changed
}

/// Brings a bid's table to the node, and tells whether an arc or whether the bid has a yes leg changed.
fn allow_table<F: RowFamily>(
    own: &OwnDecisions<'_, F>,
    number: u32,
    room: &Room,
    groups: &Groups,
    table: &mut BidTable<'_>,
) -> bool
    requires bid { number < length own.now.bids }
    requires tells { RoomTells (F.rows_of own.now.family own.now.net) own.now.bids
        own.now.node number room.now table.old.graph.now groups.now table.old.arcs }
    ensures anew { IsTableAnew own.now.net (F.rows_of own.now.family own.now.net)
        own.now.bids own.now.node number table.old table.new }
    ensures brought { IsBrought result table.old table.new }
{
    let arcs = allow_arcs(own, number, room, table.graph, groups, &mut table.arcs);
    let forced = set_forced(&mut table.forced, own.has_yes(number));
    either(arcs, forced)
}

/// Rows by number, and the groups that touch them.
#[derive(Drop)]
pub(crate) struct Grouping<'a, R: CodedRow> {
    pub(crate) numbering: &'a RowNumbers<R>,
    pub(crate) groups: &'a Groups,
}

/// Brings the table of a bid to the node, while the bid's own yes legs are out of the room.
fn allow_bid<F: RowFamily>(
    inst: Instance<'_>,
    rows: &F,
    own: &OwnDecisions<'_, F>,
    grouping: &Grouping<'_, F::Row>,
    decided: &mut Decided,
    number: u32,
    table: &mut BidTable<'_>,
) -> Result<bool, NoMemory>
    requires bid { number < length inst.bids.now }
    requires own_is { own.now ≡ instance_node rows.now inst.net.now inst.bids.now own.now.node }
    requires decided { IsDecided inst.net.now (F.rows_of rows.now inst.net.now) inst.bids.now
        grouping.now.numbering.now.rows.items own.now.node decided.old }
    requires table { IsTableFor inst.net.now (F.rows_of rows.now inst.net.now)
        (F.rows_used rows.now inst.net.now) inst.bids.now grouping.now.numbering.now.rows.items
        grouping.now.groups.now number table.old }
    ensures decided { OnOk result (IsDecided inst.entry.net.now
        (F.rows_of rows.now inst.entry.net.now) inst.entry.bids.now
        grouping.now.numbering.now.rows.items own.now.node decided.new) }
    ensures anew { OnOk result (IsTableAnew inst.entry.net.now
        (F.rows_of rows.now inst.entry.net.now) inst.entry.bids.now own.now.node number
        table.old table.new) }
    ensures brought { IfOk result (λ changed. IsBrought changed table.old table.new) }
{
    let _ = rows;
    let places = own.places(number);
    take_placed(&mut decided.room, &decided.claims, places);
    let changed = allow_table(own, number, &decided.room, grouping.groups, table);
    add_placed(&mut decided.room, &decided.claims, places)?;
    Ok(changed)
}

/// Brings the tables of the bids that are told to a node; those of the others are at it. Afterwards those are told of which
/// an arc may now be taken that could not be before, or the other way round, or which had no yes leg and have one, or the
/// other way round.
pub(crate) fn allow_told<F: RowFamily>(
    inst: Instance<'_>,
    rows: &F,
    own: &OwnDecisions<'_, F>,
    grouping: &Grouping<'_, F::Row>,
    decided: &mut Decided,
    told: &mut Vec<bool>,
    tables: &mut Vec<BidTable<'_>>,
) -> Result<(), NoMemory>
    requires own_is { own.now ≡ instance_node rows.now inst.net.now inst.bids.now own.now.node }
    requires decided { IsDecided inst.net.now (F.rows_of rows.now inst.net.now) inst.bids.now
        grouping.now.numbering.now.rows.items own.now.node decided.old }
    requires tables { HoldArcs inst.net.now (F.rows_of rows.now inst.net.now)
        (F.rows_used rows.now inst.net.now) inst.bids.now (length inst.bids.now)
        grouping.now.numbering.now.rows.items grouping.now.groups.now tables.old.items }
    requires told { length told.old.items ≡ length tables.old.items }
    requires others { AreAtUnlessTold (setting inst.net.now (F.rows_of rows.now inst.net.now)
        (F.rows_used rows.now inst.net.now) inst.bids.now own.now.node)
        grouping.now.numbering.now.rows.items grouping.now.groups.now told.old.items
        tables.old.items }
    ensures decided { OnOk result (IsDecided inst.entry.net.now
        (F.rows_of rows.now inst.entry.net.now) inst.entry.bids.now
        grouping.now.numbering.now.rows.items own.now.node decided.new) }
    ensures tables { OnOk result
        (AreTables (setting inst.entry.net.now (F.rows_of rows.now inst.entry.net.now)
        (F.rows_used rows.now inst.entry.net.now) inst.entry.bids.now own.now.node)
        (length inst.entry.bids.now) grouping.now.numbering.now.rows.items grouping.now.groups.now
        tables.new.items) }
    ensures brought { OnOk result (AreBrought told.new.items tables.old.items tables.new.items) }
{
    let bids = inst.bids;
    for number in 0..bids.len() {
        if !told[number] {
            continue;
        }
        told[number] = allow_bid(
            inst,
            rows,
            own,
            grouping,
            decided,
            number as u32,
            &mut tables[number],
        )?;
    }
    Ok(())
}
