//! What is known of a bid at zero prices, where a walk is worth its value.
ghost use Rattle.std.specs.Prelude.{◌≡◌, ◌<◌, [], Some, length, slice_get};
ghost use Rattle.optra_bid.specs.declared.bids.Bid.{Bid};
ghost use Rattle.optra_graph.specs.Timed.{Timed, IsRoute};
ghost use Rattle.optra_node.specs.Duals.{IsTerm};
ghost use Rattle.optra_prices.specs.Arcs.{path_reply};
ghost use Rattle.optra_prices.specs.Keepings.{AreKeptAt};
ghost use Rattle.optra_prices.specs.Parts.{IsTableGraph};
ghost use Rattle.optra_prices.specs.Replies.{IsReply};

use crate::arc_tables::ArcTables;
use optra_node::{Node, prices_by_used_rows, tests_tell_allowed};
use optra_walk::{Instance, RowFamily};

/// The bid's term at zero prices, in thousandths of a cent. No graph is searched.
pub fn zero_term<F: RowFamily>(
    inst: Instance<'_>,
    rows: &F,
    node: &Node,
    kept: &ArcTables<'_, F::Row>,
    number: u32,
) -> i128
    requires kept { AreKeptAt F.Row.cmp inst.net.now (F.rows_of rows.now inst.net.now)
        (F.rows_used rows.now inst.net.now) inst.bids.now node.now kept.now }
    requires number { number < length inst.bids.now }
    ensures { (bid : Bid) → slice_get inst.entry.bids.now number ≡ Some bid
        → IsTerm inst.entry.net.now (F.rows_of rows.now inst.entry.net.now) inst.entry.bids.now
        node.now [] number bid result }
{
    let _ = node;
    tests_tell_allowed(inst, rows);
    prices_by_used_rows(inst, rows);
    kept.zero[number as usize].term
}

/// The path of the bid's reply at zero prices, in its graph; it is empty where the bid has none. No graph is searched.
pub fn zero_path<'a, F: RowFamily>(
    inst: Instance<'_>,
    rows: &F,
    node: &Node,
    kept: &'a ArcTables<'_, F::Row>,
    number: u32,
) -> &'a [u32]
    requires kept { AreKeptAt F.Row.cmp inst.net.now (F.rows_of rows.now inst.net.now)
        (F.rows_used rows.now inst.net.now) inst.bids.now node.now kept.now }
    requires number { number < length inst.bids.now }
    ensures reply { (bid : Bid) (t : Timed) → slice_get inst.entry.bids.now number ≡ Some bid
        → IsTableGraph kept.now number t
        → IsReply inst.entry.net.now (F.rows_of rows.now inst.entry.net.now) inst.entry.bids.now
        node.now [] number bid (path_reply t result.now) }
    ensures route { (t : Timed) → IsTableGraph kept.now number t → (result.now ≡ [] → ⊥)
        → IsRoute t result.now }
{
    let _ = node;
    tests_tell_allowed(inst, rows);
    prices_by_used_rows(inst, rows);
    &kept.zero[number as usize].path
}
