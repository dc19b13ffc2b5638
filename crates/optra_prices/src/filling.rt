//! Whether the yes legs of a node overfill a row.
//!
//! Mostly they overfill none, and the room beside them tells so at one look-up for each row that they use. Only where it
//! doesn't is the least overfull row asked for.
ghost use Rattle.std.specs.Prelude.{length};
ghost use Rattle.optra_node.specs.Nodes.{IsNode, IsOverfull, IsLeastOrNone};
ghost use Rattle.optra_prices.specs.Keepings.{AreKeptAt};

use crate::arc_tables::ArcTables;
use crate::claims::are_within;
use optra_node::Node;
use optra_walk::{Instance, RowFamily};

/// The least row that the node's yes legs overfill, by tables that are at the node. `None` exactly where there is none.
pub(crate) fn overfull_row<F: RowFamily>(
    inst: Instance<'_>,
    rows: &F,
    node: &Node,
    kept: &ArcTables<'_, F::Row>,
) -> Option<F::Row>
    requires node { IsNode inst.net.now (length inst.bids.now) node.now }
    requires kept { AreKeptAt F.Row.cmp inst.net.now (F.rows_of rows.now inst.net.now)
        (F.rows_used rows.now inst.net.now) inst.bids.now node.now kept.now }
    ensures { IsLeastOrNone F.Row.cmp (IsOverfull (F.rows_of rows.now inst.entry.net.now)
        inst.entry.bids.now node.now) result }
{
    if are_within(&kept.decided.room, &kept.decided.claims) {
        return None;
    }
    node.overfull(inst, rows)
}
