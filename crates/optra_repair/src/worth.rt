//! The walk that is worth most to a bid: of all that are allowed, and of those of which each leg has room.
ghost use Rattle.std.specs.Prelude.{◌≡◌, ◌<◌, ℕ, [], true, IfOk, OnOk, List, MatchBool, Some, length, pos, slice_get, ◌<ℤ◌, ◌≤ℤ◌};
ghost use Rattle.optra_bid.specs.declared.bids.Bid.{Bid};
ghost use Rattle.optra_walk.specs.Families.{Entry};
ghost use Rattle.optra_graph.specs.Timed.{Timed, IsRoute};
ghost use Rattle.optra_prices.specs.Arcs.{path_reply};
ghost use Rattle.optra_prices.specs.Keepings.{AreKeptAt};
ghost use Rattle.optra_prices.specs.Parts.{IsRoomIn, IsTableGraph};
ghost use Rattle.optra_repair.specs.Parts.{walk_found};
ghost use Rattle.optra_repair.specs.Placings.{AreTotals, AreWithin, IsBestAllowed, IsWorthiest};

use crate::finding::worth_path;
use optra_dag::Buffers;
use optra_network::NoMemory;
use optra_node::{Node, tests_tell_allowed};
use optra_prices::ArcTables;
use optra_prices::parts::{ArcPart, graph_of, tell_parts};
use optra_prices::rooms::Room;
use optra_prices::zero::{zero_path, zero_term};
use optra_walk::{Instance, RowFamily};

/// What one turn lends to the next: the room beside what is placed, the parts of the arcs, and the arrays of the search.
#[derive(Drop)]
pub(crate) struct Lent {
    pub(crate) room: Room,
    pub(crate) parts: Vec<ArcPart>,
    pub(crate) buffers: Buffers,
}

/// Whether a term is above 0.
fn gains(term: i128) -> bool
    ensures { MatchBool result (pos 0 <ℤ term) (term ≤ℤ pos 0) }
{
    term > 0
}

/// The path of the first of the bid's allowed walks of greatest value, where it is worth more than 0, and else no arc. No
/// graph is searched.
pub(crate) fn best_allowed<'a, F: RowFamily>(
    inst: Instance<'_>,
    rows: &F,
    node: &Node,
    kept: &'a ArcTables<'_, F::Row>,
    number: u32,
) -> &'a [u32]
    requires kept { AreKeptAt F.Row.cmp inst.net.now (F.rows_of rows.now inst.net.now)
        (F.rows_used rows.now inst.net.now) inst.bids.now node.now kept.now }
    requires number { number < length inst.bids.now }
    ensures best { (bid : Bid) (t : Timed) → slice_get inst.entry.bids.now number ≡ Some bid
        → IsTableGraph kept.now number t → IsBestAllowed inst.entry.net.now (F.rows_of rows.now
        inst.entry.net.now) inst.entry.bids.now node.now number bid (path_reply t result.now) }
    ensures route { (t : Timed) → IsTableGraph kept.now number t → (result.now ≡ [] → ⊥)
        → IsRoute t result.now }
{
    if !gains(zero_term(inst, rows, node, kept, number)) {
        return &[];
    }
    zero_path(inst, rows, node, kept, number)
}

/// Finds the path of the first of the bid's walks of greatest value, of those allowed of which each leg has room, and
/// tells whether it is worth more than 0; it is then in the buffers. The bid's graph is searched.
pub(crate) fn worthiest<F: RowFamily>(
    lent: &mut Lent,
    inst: Instance<'_>,
    rows: &F,
    node: &Node,
    kept: &ArcTables<'_, F::Row>,
    number: u32,
) -> Result<bool, NoMemory>
    requires kept { AreKeptAt F.Row.cmp inst.net.now (F.rows_of rows.now inst.net.now)
        (F.rows_used rows.now inst.net.now) inst.bids.now node.now kept.now }
    requires number { number < length inst.bids.now }
    requires room { (total : F.Row → ℕ) × IsRoomIn (F.rows_of rows.now inst.net.now) kept.now total
        lent.old.room }
    ensures worthiest { IfOk result (λ found. (bid : Bid) (t : Timed) (total : F.Row
        → ℕ) (placed : List Entry) → slice_get inst.entry.bids.now number ≡ Some bid
        → IsTableGraph kept.now number t → IsRoomIn (F.rows_of rows.now inst.entry.net.now) kept.now
        total lent.old.room → AreWithin (F.rows_of rows.now inst.entry.net.now) total
        → AreTotals (F.rows_of rows.now inst.entry.net.now) total placed
        → IsWorthiest inst.entry.net.now (F.rows_of rows.now inst.entry.net.now) inst.entry.bids.now
        node.now placed number bid (walk_found t found lent.new.buffers)) }
    ensures route { IfOk result (λ found. (t : Timed) → found ≡ true
        → IsTableGraph kept.now number t → IsRoute t lent.new.buffers) }
    ensures room { OnOk result (lent.new.room ≡ lent.old.room) }
{
    tests_tell_allowed(inst, rows);
    let graph = graph_of(inst, rows, kept, number);
    tell_parts(&mut lent.parts, inst, rows, node, kept, &lent.room, number)?;
    worth_path(&mut lent.buffers, graph, &lent.parts)
}
