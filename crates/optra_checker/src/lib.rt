//! A separate check of certificates. It knows nothing of how a choice was found: it reads the
//! walks, the tree and the prices of a certificate and computes each number again, by the rows of a
//! family alone.
//!
//! A certificate that is answered Yes shows, whoever wrote it, that its choice keeps the rule and
//! earns the stated revenue, and that no choice that keeps the rule earns more than the stated
//! bound: [`optra_node::bound_holds`].
//!
//! A bid's greatest offer at a leaf is seldom searched. Once a check, [`frees`] finds the best of all
//! walks of each bid, where nothing is decided, used or priced, and keeps the legs of one. Where a
//! split no longer allows them, the best walk that it allows is found, which serves the nodes below
//! ([`best_on_way`]). At a leaf that still allows the walk, at no price, nothing is better. Only where
//! the leaf doesn't, [`optra_rests`] searches the bid's walks by a table over minutes, stations and
//! stops done, in room that stays from search to search. The node that is open while the tree is gone
//! through, and what it allows and costs, is told by [`optra_open`].
#![tactic(auto)]

use optra_network::Cents;

mod all_best;
mod best_on_way;
mod best_walk;
mod bounding;
mod checking;
mod fitting;
mod free_legs;
mod frees;
mod laws;
mod leaf_search;
mod leaf_weights;
mod leaves;
mod listed_walks;
mod pricing;
mod splitting;
mod terms;

pub use all_best::{advance_all, turn_back_all};
pub use best_on_way::BestOnWay;
pub use checking::check;
pub use frees::find_frees;
pub use laws::verdict_is_one;
pub use terms::offer_of;

/// What a check says of a certificate.
#[derive(Clone, Copy, Debug, PartialEq, Eq)]
pub enum Verdict {
    /// The certificate is valid, with the revenue and the bound that it states, in cents.
    Yes { revenue: Cents, bound: Cents },
    /// The certificate is not valid, for the first reason by number.
    No(Reason),
}

/// Why a certificate is not valid.
#[derive(Clone, Copy, Debug, PartialEq, Eq)]
pub enum Reason {
    /// K1: the legs listed for a bid aren't a walk of it.
    Walk,
    /// K2: the choice breaks the rule.
    Conflict,
    /// K3: the stated revenue isn't the sum of the values.
    Revenue,
    /// K4: a split's leg is already decided for its bid on the way from the root.
    Decision,
    /// K5: a leaf without prices isn't dead. The bid of a leaf without walk has no yes leg there or
    /// has an allowed walk, or the row of a forced leaf isn't a row or isn't overfilled by the yes
    /// legs.
    DeadLeaf,
    /// K6: a listed price isn't 1 to 2,000,000,000,000 thousandths of a cent, or its row isn't a
    /// row.
    Price,
    /// K7: the stated bound isn't the greatest dual value of the leaves with prices, in whole cents
    /// and rounded down.
    Bound,
}
