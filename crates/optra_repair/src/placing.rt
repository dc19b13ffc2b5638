//! Placing one bid beside what is placed.
ghost use Rattle.std.specs.Prelude.{◌≡◌, ◌+◌, ◌<◌, [], true, false, ℕ, IfOk, List, Some, length, slice_get};
ghost use Rattle.optra_bid.specs.declared.bids.Bid.{Bid};
ghost use Rattle.optra_graph.specs.Timed.{Timed, IsRoute, walk_of};
ghost use Rattle.optra_walk.specs.Families.{Entry};
ghost use Rattle.optra_prices.specs.Keepings.{AreKept, AreKeptAt};
ghost use Rattle.optra_prices.specs.Parts.{IsRoomIn, IsTableGraph};
ghost use Rattle.optra_prices.specs.Repairs.{IsGiven};
ghost use Rattle.optra_repair.specs.Placings.{AreTotals, AreWithin, IsPutWhole, use_of_walk};

use crate::worth::{Lent, best_allowed, worthiest};
use optra_network::NoMemory;
use optra_node::Node;
use optra_prices::ArcTables;
use optra_prices::parts::{graph_of, has_room_for_path, put_path};
use optra_prices::rooms::Room;
use optra_walk::{Instance, RowFamily, Walk};
use std::alloc::Global;

/// Whether a path has no arc.
fn is_no_path(path: &[u32]) -> bool
    ensures none { result ≡ true → path.now ≡ [] }
    ensures some { result ≡ false → path.now ≡ [] → ⊥ }
{
    path.is_empty()
}

/// The walk of a bid's path, where it fits as a whole; what it uses is then added to the room of the tables.
fn put<F: RowFamily>(
    alloc: Global,
    room: &mut Room,
    inst: Instance<'_>,
    rows: &F,
    kept: &ArcTables<'_, F::Row>,
    number: u32,
    path: &[u32],
) -> Result<Option<Walk>, NoMemory>
    requires kept { AreKept F.Row.cmp inst.net.now (F.rows_of rows.now inst.net.now)
        (F.rows_used rows.now inst.net.now) inst.bids.now kept.now }
    requires number { number < length inst.bids.now }
    requires route { (t : Timed) → IsTableGraph kept.now number t → IsRoute t path.now }
    ensures put { IfOk result (λ given. (bid : Bid) (t : Timed) (total : F.Row → ℕ)
        → slice_get inst.entry.bids.now number ≡ Some bid → IsTableGraph kept.now number t
        → AreWithin (F.rows_of rows.now inst.entry.net.now) total
        → IsRoomIn (F.rows_of rows.now inst.entry.net.now) kept.now total room.old
        → IsPutWhole (F.rows_of rows.now inst.entry.net.now) bid.path.kind (walk_of t path.now)
        given total (λ row. total row + use_of_walk (F.rows_of rows.now inst.entry.net.now)
        bid.path.kind given row)) }
    ensures room { IfOk result (λ given. (bid : Bid) (total : F.Row → ℕ)
        → slice_get inst.entry.bids.now number ≡ Some bid
        → AreWithin (F.rows_of rows.now inst.entry.net.now) total
        → IsRoomIn (F.rows_of rows.now inst.entry.net.now) kept.now total room.old
        → IsRoomIn (F.rows_of rows.now inst.entry.net.now) kept.now (λ row. total row
        + use_of_walk (F.rows_of rows.now inst.entry.net.now) bid.path.kind given row) room.new) }
{
    let graph = graph_of(inst, rows, kept, number);
    if !put_path(room, inst, rows, kept, number, path)? {
        return Ok(None);
    }
    let walk = graph.walk_of(alloc, path)?;
    Ok(Some(walk))
}

/// Gives the bid the first of its walks of greatest value, of those allowed of which each leg has room, where it is worth
/// more than 0 and fits as a whole. What it uses is then added to the room of the tables.
pub(crate) fn place<F: RowFamily>(
    alloc: Global,
    lent: &mut Lent,
    inst: Instance<'_>,
    rows: &F,
    node: &Node,
    kept: &ArcTables<'_, F::Row>,
    number: u32,
) -> Result<Option<Walk>, NoMemory>
    requires kept { AreKeptAt F.Row.cmp inst.net.now (F.rows_of rows.now inst.net.now)
        (F.rows_used rows.now inst.net.now) inst.bids.now node.now kept.now }
    requires number { number < length inst.bids.now }
    requires room { (total : F.Row → ℕ) × AreWithin (F.rows_of rows.now inst.net.now) total
        × IsRoomIn (F.rows_of rows.now inst.net.now) kept.now total lent.old.room }
    ensures given { IfOk result (λ given. (bid : Bid) (total : F.Row → ℕ) (placed : List Entry)
        → slice_get inst.entry.bids.now number ≡ Some bid
        → AreWithin (F.rows_of rows.now inst.entry.net.now) total
        → IsRoomIn (F.rows_of rows.now inst.entry.net.now) kept.now total lent.old.room
        → AreTotals (F.rows_of rows.now inst.entry.net.now) total placed
        → IsGiven inst.entry.net.now (F.rows_of rows.now inst.entry.net.now) inst.entry.bids.now
        node.now placed number bid given) }
    ensures room { IfOk result (λ given. (bid : Bid) (total : F.Row → ℕ)
        → slice_get inst.entry.bids.now number ≡ Some bid
        → AreWithin (F.rows_of rows.now inst.entry.net.now) total
        → IsRoomIn (F.rows_of rows.now inst.entry.net.now) kept.now total lent.old.room
        → IsRoomIn (F.rows_of rows.now inst.entry.net.now) kept.now (λ row. total row
        + use_of_walk (F.rows_of rows.now inst.entry.net.now) bid.path.kind given row) lent.new.room) }
{
    let best = best_allowed(inst, rows, node, kept, number);
    if is_no_path(best) {
        return Ok(None);
    }
    if has_room_for_path(inst, rows, kept, &lent.room, number, best) {
        return put(alloc, &mut lent.room, inst, rows, kept, number, best);
    }
    if !worthiest(lent, inst, rows, node, kept, number)? {
        return Ok(None);
    }
    let path = lent.buffers.path();
    put(alloc, &mut lent.room, inst, rows, kept, number, path)
}
