//! Tables of arcs that are kept from node to node: what an arc adds and which rows it touches is the same at all nodes, and
//! so is what is known of a bid of which a node changes nothing.
ghost use Rattle.std.specs.Prelude.{◌≡◌, ◌≤◌, [], All, Contains, IfOk, OnOk, length, replicate, true};
ghost use Rattle.optra_node.specs.Nodes.{IsNode};
ghost use Rattle.optra_prices.specs.Courses.{HaveCapacities, replies_at};
ghost use Rattle.optra_prices.specs.Deads.{IsDeadAs};
ghost use Rattle.optra_prices.specs.Replies.{IsValuation};
ghost use Rattle.optra_prices.specs.Steps.{AreProper};
ghost use Rattle.optra_prices.specs.Paths.{IsPathResult};
ghost use Rattle.optra_prices.specs.Holders.{AreHolders};
ghost use Rattle.optra_prices.specs.Keepings.{AreKept, AreKeptAt, IsFirstStuckIn};
ghost use Rattle.optra_prices.specs.Rooms.{IsDecided};
ghost use Rattle.optra_prices.specs.Standings.{AllStand, AreCopies, AreTables, HoldArcs, IsSound};
ghost use Rattle.optra_prices.specs.Terms.{setting};
ghost use Rattle.optra_prices.specs.Uses.{lists_in};

use crate::allowing::{Grouping, allow_told};
use crate::arc_tables::ArcTables;
use crate::claims::claims_of;
use crate::columns::new_columns;
use crate::courses::{admit, go_to, priced_at};
use crate::decided::{Decided, decisions_of, move_room, shared_count};
use crate::filling::overfull_row;
use crate::following::go_along;
use crate::group_prices::GroupPrices;
use crate::holders::find_holders;
use crate::index::Index;
use crate::listing::first_levels;
use crate::loading::no_paths;
use crate::loads::Loads;
use crate::numbering::{BidTable, Standing};
use crate::opening::are_open;
use crate::path_ends::PathEnds;
use crate::rooms::{has_room_on_each, unused_room};
use crate::row_numbers::RowNumbers;
use crate::sessions::{Made, copy_standings, first_standings, made_tables, renew_all};
use crate::telling::tell_moved;
use crate::valuing::entries;
use crate::{Dead, Dual, Priced};
use optra_dag::Buffers;
use optra_graph::Graphs;
use optra_network::{Cents, NoMemory};
use optra_node::{Node, OwnDecisions, Prices, prices_by_used_rows, tests_tell_allowed};
use optra_walk::{Instance, RowFamily};
use std::alloc::Global;

/// No decision and no claim, with the room of each row that has a number. `NoMemory` is its only refusal.
fn no_decided<F: RowFamily>(
    alloc: Global,
    inst: Instance<'_>,
    rows: &F,
    numbering: &RowNumbers<F::Row>,
    loads: &Loads,
) -> Result<Decided, NoMemory>
    requires count { length loads.now.uses ≡ length numbering.now.rows.items }
    requires capacities { HaveCapacities (F.rows_of rows.now inst.net.now)
        numbering.now.rows.items loads.now.capacities }
    ensures { IfOk result (IsDecided inst.entry.net.now (F.rows_of rows.now inst.entry.net.now)
        inst.entry.bids.now numbering.now.rows.items []) }
{
    let _ = rows;
    let _ = numbering;
    let room = unused_room(alloc, loads)?;
    Ok(Decided {
        decisions: Vec::new(alloc),
        claims: Vec::new(alloc),
        room,
    })
}

/// Says of each arc whether the root allows it. Where there is room for each touch it does so, as tables are made. After
/// `NoMemory`, its only refusal, the tables serve no more.
fn allow_root<F: RowFamily>(
    alloc: Global,
    inst: Instance<'_>,
    rows: &F,
    grouping: &Grouping<'_, F::Row>,
    decided: &mut Decided,
    tables: &mut Vec<BidTable<'_>>,
) -> Result<(), NoMemory>
    requires decided { IsDecided inst.net.now (F.rows_of rows.now inst.net.now) inst.bids.now
        grouping.now.numbering.now.rows.items [] decided.old }
    requires tables { HoldArcs inst.net.now (F.rows_of rows.now inst.net.now)
        (F.rows_used rows.now inst.net.now) inst.bids.now (length inst.bids.now)
        grouping.now.numbering.now.rows.items grouping.now.groups.now tables.old.items }
    ensures decided { OnOk result (IsDecided inst.entry.net.now
        (F.rows_of rows.now inst.entry.net.now) inst.entry.bids.now
        grouping.now.numbering.now.rows.items [] decided.new) }
    ensures tables { OnOk result
        (AreTables (setting inst.entry.net.now (F.rows_of rows.now inst.entry.net.now)
        (F.rows_used rows.now inst.entry.net.now) inst.entry.bids.now [])
        (length inst.entry.bids.now) grouping.now.numbering.now.rows.items grouping.now.groups.now
        tables.new.items) }
{
    if are_open(tables) && has_room_on_each(&decided.room, &grouping.groups.touches.slice()) {
        return Ok(());
    }
    let node = Node::root(alloc);
    let mut told = vec![in alloc; true; inst.bids.len()]?;
    let own = OwnDecisions::new(alloc, inst, rows, &node)?;
    allow_told(inst, rows, &own, grouping, decided, &mut told, tables)
}

/// What the root decides, which is nothing; the tables say of each arc whether the root allows it.
fn decided_root<F: RowFamily>(
    alloc: Global,
    inst: Instance<'_>,
    rows: &F,
    grouping: &Grouping<'_, F::Row>,
    loads: &Loads,
    tables: &mut Vec<BidTable<'_>>,
) -> Result<Decided, NoMemory>
    requires count { length loads.now.uses ≡ length grouping.now.numbering.now.rows.items }
    requires capacities { HaveCapacities (F.rows_of rows.now inst.net.now)
        grouping.now.numbering.now.rows.items loads.now.capacities }
    requires tables { HoldArcs inst.net.now (F.rows_of rows.now inst.net.now)
        (F.rows_used rows.now inst.net.now) inst.bids.now (length inst.bids.now)
        grouping.now.numbering.now.rows.items grouping.now.groups.now tables.old.items }
    ensures decided { IfOk result (IsDecided inst.entry.net.now
        (F.rows_of rows.now inst.entry.net.now) inst.entry.bids.now
        grouping.now.numbering.now.rows.items []) }
    ensures tables { OnOk result
        (AreTables (setting inst.entry.net.now (F.rows_of rows.now inst.entry.net.now)
        (F.rows_used rows.now inst.entry.net.now) inst.entry.bids.now [])
        (length inst.entry.bids.now) grouping.now.numbering.now.rows.items grouping.now.groups.now
        tables.new.items) }
{
    let mut decided = no_decided(alloc, inst, rows, grouping.numbering, loads)?;
    allow_root(alloc, inst, rows, grouping, &mut decided, tables)?;
    Ok(decided)
}

/// What is known of the bids at the root, where no row has a price.
#[derive(Drop)]
struct Known {
    holders: Index,
    buffers: Buffers,
    zero: Vec<Standing>,
    standings: Vec<Standing>,
    counted: Vec<Vec<usize>>,
}

/// What is known of the bids of the tables at the root. `NoMemory` is its only refusal.
fn first_known(alloc: Global, tables: &[BidTable<'_>]) -> Result<Known, NoMemory>
    requires few { length tables.now ≤ 1000 }
    requires sound { All IsSound tables.now }
    ensures holders { IfOk result (λ known. AreHolders tables.now known.holders) }
    ensures zero { IfOk result (λ known. AllStand tables.now [] known.zero.items) }
    ensures standings { IfOk result (λ known. AreCopies known.zero.items known.standings.items) }
    ensures counted { IfOk result (λ known. lists_in known.counted.items
        ≡ replicate (length tables.now) []) }
{
    let holders = find_holders(alloc, tables)?;
    let mut buffers = Buffers::new(alloc);
    let free = GroupPrices {
        prices: &[],
        most: 0,
    };
    let zero = first_standings(alloc, &mut buffers, tables, free)?;
    let standings = copy_standings(alloc, &zero)?;
    let counted = no_paths(alloc, tables.len())?;
    Ok(Known {
        holders,
        buffers,
        zero,
        standings,
        counted,
    })
}

/// The tables of the bids' arcs. It needs at most 1,000 bids, and the graphs of the bids on the instance's network.
/// `NoMemory` is its only refusal.
pub fn keep_arcs<'g, F: RowFamily, G: Graphs>(
    alloc: Global,
    inst: Instance<'_>,
    graphs: &'g G,
    rows: &F,
) -> Result<ArcTables<'g, F::Row>, NoMemory>
    requires network { G.network graphs.now ≡ inst.net.now }
    requires held { All (λ bid. Contains (G.held graphs.now) bid.path) inst.bids.now }
    ensures { IfOk result (AreKept F.Row.cmp inst.entry.net.now
        (F.rows_of rows.now inst.entry.net.now) (F.rows_used rows.now inst.entry.net.now)
        inst.entry.bids.now) }
{
    let made = made_tables(alloc, inst, graphs, rows)?;
    let Made {
        numbering,
        groups,
        mut tables,
    } = made;
    let levels = first_levels(alloc, inst.net, rows, numbering.rows())?;
    let grouping = Grouping {
        numbering: &numbering,
        groups: &groups,
    };
    let decided = decided_root(alloc, inst, rows, &grouping, &levels.loads, &mut tables)?;
    let known = first_known(alloc, &tables)?;
    let columns = new_columns(alloc, groups)?;
    Ok(ArcTables {
        numbering,
        levels,
        columns,
        tables,
        decided,
        holders: known.holders,
        zero: known.zero,
        standings: known.standings,
        counted: known.counted,
        value: 0,
        buffers: known.buffers,
        fallen: Vec::new(alloc),
    })
}

/// Brings the tables to a node. A bid is searched again only where the node changes which of its arcs may be taken, or
/// whether it has a yes leg; for each other bid what was known of it stands. After `NoMemory`, its only refusal, the tables
/// serve no more.
pub fn bring_to<F: RowFamily>(
    alloc: Global,
    inst: Instance<'_>,
    rows: &F,
    node: &Node,
    kept: &mut ArcTables<'_, F::Row>,
) -> Result<(), NoMemory>
    requires node { IsNode inst.net.now (length inst.bids.now) node.now }
    requires kept { AreKept F.Row.cmp inst.net.now (F.rows_of rows.now inst.net.now)
        (F.rows_used rows.now inst.net.now) inst.bids.now kept.old }
    ensures { OnOk result (AreKeptAt F.Row.cmp inst.entry.net.now
        (F.rows_of rows.now inst.entry.net.now) (F.rows_used rows.now inst.entry.net.now)
        inst.entry.bids.now node.now kept.new) }
{
    let count = shared_count(&kept.decided.decisions, decisions_of(node));
    let entered = &decisions_of(node)[count..];
    let claims = claims_of(alloc, inst, rows, &kept.numbering, entered)?;
    tell_moved(inst, rows, node, kept, count, &claims)?;
    move_room(
        &mut kept.decided,
        inst,
        rows,
        &kept.numbering,
        node,
        count,
        claims,
    )?;
    let own = OwnDecisions::new(alloc, inst, rows, node)?;
    let grouping = Grouping {
        numbering: &kept.numbering,
        groups: &kept.columns.groups,
    };
    allow_told(
        inst,
        rows,
        &own,
        &grouping,
        &mut kept.decided,
        &mut kept.fallen,
        &mut kept.tables,
    )?;
    renew_all(
        &mut kept.buffers,
        &kept.tables,
        GroupPrices {
            prices: &[],
            most: 0,
        },
        &kept.fallen,
        &mut kept.zero,
    )?;
    renew_all(
        &mut kept.buffers,
        &kept.tables,
        GroupPrices {
            prices: &kept.columns.grouped,
            most: kept.columns.highest,
        },
        &kept.fallen,
        &mut kept.standings,
    )
}

/// The first bid that has a yes leg and no allowed walk, by what is known of the bids.
fn first_stuck(standings: &[Standing]) -> Option<u32>
    requires { length standings.now ≤ 1000 }
    ensures { IsFirstStuckIn standings.now result }
{
    'standings: for (number, standing) in standings.iter().enumerate() {
        if standing.stuck {
            return Some(number as u32);
        }
    }
    None
}

/// As [`crate::deads::dead`], by tables that are at the node.
pub fn dead_over<F: RowFamily>(
    inst: Instance<'_>,
    rows: &F,
    node: &Node,
    kept: &ArcTables<'_, F::Row>,
) -> Option<Dead<F::Row>>
    requires node { IsNode inst.net.now (length inst.bids.now) node.now }
    requires kept { AreKeptAt F.Row.cmp inst.net.now (F.rows_of rows.now inst.net.now)
        (F.rows_used rows.now inst.net.now) inst.bids.now node.now kept.now }
    ensures { IsDeadAs F.Row.cmp inst.entry.net.now (F.rows_of rows.now inst.entry.net.now)
        inst.entry.bids.now node.now result }
{
    tests_tell_allowed(inst, rows);
    prices_by_used_rows(inst, rows);
    if let Some(row) = overfull_row(inst, rows, node, kept) {
        return Some(Dead::Forced { row });
    }
    let bid = first_stuck(&kept.zero)?;
    Some(Dead::NoWalk { bid })
}

/// As [`crate::price_path`], over tables that are at the node. They stay there, at the prices of the result.
pub fn price_path_over<F: RowFamily>(
    alloc: Global,
    inst: Instance<'_>,
    rows: &F,
    node: &Node,
    kept: &mut ArcTables<'_, F::Row>,
    ends: &PathEnds<'_, F::Row>,
    incumbent: Cents,
) -> Result<Priced<F::Row>, NoMemory>
    requires node { IsNode inst.net.now (length inst.bids.now) node.now }
    requires kept { AreKeptAt F.Row.cmp inst.net.now (F.rows_of rows.now inst.net.now)
        (F.rows_used rows.now inst.net.now) inst.bids.now node.now kept.old }
    requires start { AreProper F.Row.cmp (F.rows_of rows.now inst.net.now) ends.now.start.now }
    ensures kept { OnOk result (AreKeptAt F.Row.cmp inst.entry.net.now
        (F.rows_of rows.now inst.entry.net.now) (F.rows_used rows.now inst.entry.net.now)
        inst.entry.bids.now node.now kept.new) }
    ensures path { IfOk result (IsPathResult F.Row.cmp inst.entry.net.now
        (F.rows_of rows.now inst.entry.net.now) inst.entry.bids.now node.now ends.now.start.now
        ends.now.steps incumbent) }
    ensures replies { IfOk result (λ priced. priced.dual.replies ≡ replies_at kept.new) }
{
    admit(alloc, inst, rows, node, kept, entries(ends.start))?;
    go_along(alloc, inst, rows, node, kept, ends, incumbent)
}

/// As [`crate::duals::dual`], over tables that are at the node. They stay there, at the prices.
pub fn dual_over<F: RowFamily>(
    alloc: Global,
    inst: Instance<'_>,
    rows: &F,
    node: &Node,
    kept: &mut ArcTables<'_, F::Row>,
    prices: &Prices<F::Row>,
) -> Result<Dual, NoMemory>
    requires node { IsNode inst.net.now (length inst.bids.now) node.now }
    requires kept { AreKeptAt F.Row.cmp inst.net.now (F.rows_of rows.now inst.net.now)
        (F.rows_used rows.now inst.net.now) inst.bids.now node.now kept.old }
    requires prices { AreProper F.Row.cmp (F.rows_of rows.now inst.net.now) prices.now }
    ensures kept { OnOk result (AreKeptAt F.Row.cmp inst.entry.net.now
        (F.rows_of rows.now inst.entry.net.now) (F.rows_used rows.now inst.entry.net.now)
        inst.entry.bids.now node.now kept.new) }
    ensures dual { IfOk result (IsValuation inst.entry.net.now
        (F.rows_of rows.now inst.entry.net.now) inst.entry.bids.now node.now prices.now) }
{
    admit(alloc, inst, rows, node, kept, entries(prices))?;
    go_to(inst, rows, node, kept, prices)?;
    let priced = priced_at(alloc, inst, rows, node, kept)?;
    Ok(priced.dual)
}
