//! What the arcs of a bid's table add to the value of a walk, and which of them may be taken beside what is placed.
ghost use Rattle.std.specs.Prelude.{◌≡◌, ◌&&◌, ◌+◌, ◌<◌, ◌↔◌, ℕ, [], Some, All, IsTrue, IfOk, OnOk, length, slice_get, slice_index_or};
ghost use Rattle.optra_bid.specs.declared.bids.Bid.{Bid};
ghost use Rattle.optra_graph.specs.Timed.{Timed, IsGraphOf, IsRoute, walk_of};
ghost use Rattle.optra_prices.specs.Keepings.{AreKept, AreKeptAt};
ghost use Rattle.optra_prices.specs.Parts.{AreParts, ArePartsOf, IsTableGraph, IsRoomIn, HasRoom, KeepsWithin, IsPutIn};
ghost use Rattle.optra_prices.specs.Tables.{AreGroups, allows_by, no_arc};

use crate::arc_slice::ArcSlice;
use crate::arc_tables::ArcTables;
use crate::numbering::{BidTable, Groups};
use crate::putting::{add_arcs, are_arcs_within, has_room_for_each, take_arcs};
use crate::rooms::{Room, Told, free_copy, tell_group};
use optra_graph::TimeGraph;
use optra_network::NoMemory;
use optra_node::Node;
use optra_walk::{Instance, RowFamily};
use std::alloc::Global;

/// What an arc adds to the value of a walk, in thousandths of a cent, and whether it may be taken.
#[derive(Clone, Copy)]
pub struct ArcPart {
    pub value: i64,
    pub allowed: bool,
}

/// The part of an arc, with whether there is room for what it touches.
fn part_of(arcs: &ArcSlice<'_>, k: usize, has_room: bool) -> ArcPart
    requires { k < length arcs.now }
    ensures value { result.value ≡ (slice_index_or arcs.now k no_arc).value }
    ensures allowed { result.allowed ≡ (allows_by arcs.now k && has_room) }
{
    ArcPart {
        value: arcs.value(k),
        allowed: arcs.allowed(k) && has_room,
    }
}

/// Puts the parts of a table's arcs in place of those that were there.
fn tell_table(
    parts: &mut Vec<ArcPart>,
    groups: &Groups,
    table: &BidTable<'_>,
    room: &Room,
) -> Result<(), NoMemory>
    requires groups { AreGroups groups.now.starts.items groups.now.touches }
    requires within { All (λ arc. arc.group + 1 < length groups.now.starts.items)
        table.now.arcs }
    ensures { OnOk result (ArePartsOf room.now groups.now.starts.items groups.now.touches
        table.now.arcs (length table.now.arcs) parts.new.items) }
{
    parts.clear();
    let arcs = table.arcs.slice();
    parts.reserve(arcs.len())?;
    let mut last = Told {
        group: 0,
        has_room: true,
    };
    for k in 0..arcs.len() {
        last = tell_group(room, groups, arcs.group(k), last);
        parts.push(part_of(&arcs, k, last.has_room))?;
    }
    Ok(())
}

/// The graph of a bid.
pub fn graph_of<'a, F: RowFamily>(
    inst: Instance<'_>,
    rows: &F,
    kept: &'a ArcTables<'_, F::Row>,
    number: u32,
) -> &'a TimeGraph
    requires kept { AreKept F.Row.cmp inst.net.now (F.rows_of rows.now inst.net.now)
        (F.rows_used rows.now inst.net.now) inst.bids.now kept.now }
    requires number { number < length inst.bids.now }
    ensures table { IsTableGraph kept.now number result.now }
    ensures graph { (bid : Bid) → slice_get inst.entry.bids.now number ≡ Some bid
        → IsGraphOf inst.entry.net.now bid.path result.now }
{
    let _ = inst.bids;
    let _ = rows;
    kept.tables[number as usize].graph
}

/// Puts the parts of all arcs of a bid's graph in place of those that were there. After `NoMemory`, its only refusal, there
/// may be any parts; the next call puts others in their place.
pub fn tell_parts<F: RowFamily>(
    parts: &mut Vec<ArcPart>,
    inst: Instance<'_>,
    rows: &F,
    node: &Node,
    kept: &ArcTables<'_, F::Row>,
    room: &Room,
    number: u32,
) -> Result<(), NoMemory>
    requires kept { AreKeptAt F.Row.cmp inst.net.now (F.rows_of rows.now inst.net.now)
        (F.rows_used rows.now inst.net.now) inst.bids.now node.now kept.now }
    requires number { number < length inst.bids.now }
    ensures { OnOk result ((bid : Bid) (t : Timed) (total : F.Row → ℕ)
        → slice_get inst.entry.bids.now number ≡ Some bid → IsTableGraph kept.now number t
        → IsRoomIn (F.rows_of rows.now inst.entry.net.now) kept.now total room.now
        → AreParts inst.entry.net.now (F.rows_of rows.now inst.entry.net.now) inst.entry.bids.now
        node.now total number bid t (length t.dag.arcs) parts.new.items) }
{
    let _ = rows;
    let _ = node;
    tell_table(
        parts,
        &kept.columns.groups,
        &kept.tables[number as usize],
        room,
    )
}

/// A room in which nothing is used. `NoMemory` is its only refusal.
pub fn free_room<F: RowFamily>(
    alloc: Global,
    inst: Instance<'_>,
    rows: &F,
    kept: &ArcTables<'_, F::Row>,
) -> Result<Room, NoMemory>
    requires { AreKept F.Row.cmp inst.net.now (F.rows_of rows.now inst.net.now)
        (F.rows_used rows.now inst.net.now) inst.bids.now kept.now }
    ensures { IfOk result (IsRoomIn (F.rows_of rows.now inst.entry.net.now) kept.now (λ row. 0)) }
{
    let _ = inst.net;
    let _ = rows;
    let room = free_copy(alloc, &kept.decided.room)?;
    Ok(room)
}

/// Whether there is room for each leg of the walk of a bid's path by itself. The path must be one of the bid's graph.
pub fn has_room_for_path<F: RowFamily>(
    inst: Instance<'_>,
    rows: &F,
    kept: &ArcTables<'_, F::Row>,
    room: &Room,
    number: u32,
    path: &[u32],
) -> bool
    requires kept { AreKept F.Row.cmp inst.net.now (F.rows_of rows.now inst.net.now)
        (F.rows_used rows.now inst.net.now) inst.bids.now kept.now }
    requires number { number < length inst.bids.now }
    requires route { (t : Timed) → IsTableGraph kept.now number t → (path.now ≡ [] → ⊥)
        → IsRoute t path.now }
    ensures { (bid : Bid) (t : Timed) (total : F.Row → ℕ) → slice_get inst.entry.bids.now number
        ≡ Some bid → IsTableGraph kept.now number t
        → IsRoomIn (F.rows_of rows.now inst.entry.net.now) kept.now total room.now → IsTrue result
        ↔ All (HasRoom (F.rows_of rows.now inst.entry.net.now) total bid.path.kind)
        (walk_of t path.now) }
{
    let _ = rows;
    has_room_for_each(
        room,
        &kept.columns.groups,
        &kept.tables[number as usize],
        path,
    )
}

/// Adds what the legs of the walk of a bid's path use to a room, where no row gets above its capacity by them together,
/// and tells whether that is so. The path must be one of the bid's graph. After `NoMemory`, its only refusal, some of it
/// may be added, and the room serves no more.
pub fn put_path<F: RowFamily>(
    room: &mut Room,
    inst: Instance<'_>,
    rows: &F,
    kept: &ArcTables<'_, F::Row>,
    number: u32,
    path: &[u32],
) -> Result<bool, NoMemory>
    requires kept { AreKept F.Row.cmp inst.net.now (F.rows_of rows.now inst.net.now)
        (F.rows_used rows.now inst.net.now) inst.bids.now kept.now }
    requires number { number < length inst.bids.now }
    requires route { (t : Timed) → IsTableGraph kept.now number t → (path.now ≡ [] → ⊥)
        → IsRoute t path.now }
    ensures { IfOk result (λ put. (bid : Bid) (t : Timed) (total : F.Row → ℕ)
        → slice_get inst.entry.bids.now number ≡ Some bid → IsTableGraph kept.now number t
        → KeepsWithin (F.rows_of rows.now inst.entry.net.now) total
        → IsRoomIn (F.rows_of rows.now inst.entry.net.now) kept.now total room.old
        → IsPutIn (F.rows_of rows.now inst.entry.net.now) kept.now bid.path.kind
        (walk_of t path.now) put total room.new) }
{
    let _ = rows;
    let groups = &kept.columns.groups;
    let table = &kept.tables[number as usize];
    add_arcs(room, groups, table, path)?;
    if are_arcs_within(room, groups, table, path) {
        return Ok(true);
    }
    take_arcs(room, groups, table, path);
    Ok(false)
}
