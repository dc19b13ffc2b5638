//! The laws of nodes, dual values, trees and certificates, each as the contract of a call that does nothing else.
//!
//! A crate above calls one, as in `bound_holds(inst, rows);`, and has the law for its instance and its family.
//! They speak of the definitions of this crate alone: no graph, no search and no reader of certificates.
ghost use Rattle.std.specs.Prelude.{◌≡◌};
ghost use Rattle.optra_node.specs.Evidence.{WithHolds, WithoutHolds};
ghost use Rattle.optra_node.specs.Laws.{WeakDuality, TreeCover, BoundHolds, TestsTellAllowed, OneDual, OneBound, DualFalls, BasesBound, BoundNotNegative, PricesByUsedRows};

use optra_walk::{Instance, RowFamily};

/// Weak duality: no choice of a node that keeps the rule earns more than the dual value of the node, at any proper prices.
/// This is weak duality of Lagrangian relaxation: A. M. Geoffrion, "Lagrangean relaxation for integer programming", 1974.
pub fn weak_duality<F: RowFamily>(inst: Instance<'_>, rows: &F)
    ensures { WeakDuality inst.entry.net.now (F.rows_of rows.now inst.entry.net.now)
        (F.KeepsRule rows.now inst.entry.net.now) inst.entry.bids.now }
{
    let _ = rows;
}

/// Tree cover: each choice that keeps the rule is of a priced leaf of a tree whose splits are of undecided legs and whose
/// other leaves are dead.
pub fn tree_cover<F: RowFamily>(inst: Instance<'_>, rows: &F)
    ensures { TreeCover {R = F.Row} inst.entry.net.now (F.rows_of rows.now inst.entry.net.now)
        (F.KeepsRule rows.now inst.entry.net.now) inst.entry.bids.now }
{
    let _ = rows;
}

/// No choice that keeps the rule earns more than the bound of a valid certificate.
pub fn bound_holds<F: RowFamily>(inst: Instance<'_>, rows: &F)
    ensures { BoundHolds inst.entry.net.now (F.rows_of rows.now inst.entry.net.now)
        (F.KeepsRule rows.now inst.entry.net.now) inst.entry.bids.now }
{
    let _ = rows;
}

/// What the leaves of a tree say of one bid, at any proper prices at each leaf: no choice that keeps the rule and serves the bid
/// earns more than the greatest that a leaf says of it served, and there is none where no leaf says anything; and none that
/// leaves it out earns more than the greatest that a leaf says of it left out.
pub fn evidence_holds<F: RowFamily>(inst: Instance<'_>, rows: &F)
    ensures with { WithHolds inst.entry.net.now (F.rows_of rows.now inst.entry.net.now)
        (F.KeepsRule rows.now inst.entry.net.now) inst.entry.bids.now }
    ensures without { WithoutHolds inst.entry.net.now (F.rows_of rows.now inst.entry.net.now)
        (F.KeepsRule rows.now inst.entry.net.now) inst.entry.bids.now }
{
    let _ = inst;
    let _ = rows;
}

/// A timed walk of a bid is allowed at a node exactly where its start and each of its legs pass the node's tests.
/// [`crate::Node::start_ok`] and [`crate::Node::leg_ok`] answer these tests.
pub fn tests_tell_allowed<F: RowFamily>(inst: Instance<'_>, rows: &F)
    ensures { TestsTellAllowed inst.entry.net.now (F.rows_of rows.now inst.entry.net.now)
        inst.entry.bids.now }
{
    let _ = rows;
}

/// The dual value of a node at prices is one number, and so is the greatest bound of a tree. With more decisions the
/// dual value falls or stays; at zero prices it is at most 1,000 times the sum of the bases. The bound of a valid
/// certificate is not negative.
pub fn dual_laws<F: RowFamily>(inst: Instance<'_>, rows: &F)
    ensures one_dual { OneDual inst.entry.net.now (F.rows_of rows.now inst.entry.net.now)
        inst.entry.bids.now }
    ensures one_bound { OneBound inst.entry.net.now (F.rows_of rows.now inst.entry.net.now)
        inst.entry.bids.now }
    ensures falls { DualFalls inst.entry.net.now (F.rows_of rows.now inst.entry.net.now)
        inst.entry.bids.now }
    ensures bases { BasesBound inst.entry.net.now (F.rows_of rows.now inst.entry.net.now)
        inst.entry.bids.now }
    ensures not_negative { BoundNotNegative inst.entry.net.now
        (F.rows_of rows.now inst.entry.net.now) (F.KeepsRule rows.now inst.entry.net.now)
        inst.entry.bids.now }
{
    let _ = inst;
    let _ = rows;
}

/// The price of a leg may be added up over the rows that it uses, in place of all rows that have a price.
pub fn prices_by_used_rows<F: RowFamily>(inst: Instance<'_>, rows: &F)
    ensures { PricesByUsedRows inst.entry.net.now (F.rows_of rows.now inst.entry.net.now) F.Row.cmp
        (F.rows_used rows.now inst.entry.net.now) }
{
    let _ = rows;
}
