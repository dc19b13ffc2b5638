//! Branching: what the plan of a search is, its laws, and the leg on which a node is split.
#![tactic(auto)]

use optra_network::Cents;
use optra_node::Item;
use optra_walk::Choice;
use std::marker::Model;

mod closing;
mod entered;
mod fixing;
mod freeing;
mod laws;
mod means;
pub mod planning;
mod pricing;
mod repairing;
mod searching;
mod settling;
mod splitting;
mod turning;
mod waiting;

pub use entered::Entered;
pub use laws::{certified_plans, plan_laws};
pub use repairing::Repairer;

/// How far a plan goes.
#[derive(Clone, Copy, Debug, PartialEq, Eq)]
pub struct Limits {
    /// The most price steps at a node.
    pub steps: u32,
    /// The most nodes that are taken, at least 1.
    pub budget: u64,
}

/// A choice, and what shows how good it is. The choice, the revenue, the bound and the tree are the parts of a certificate.
#[derive(Drop)]
pub struct Plan<R> {
    /// For each bid the walk that serves it, or none.
    pub choice: Choice,
    /// What the choice earns, in cents.
    pub revenue: Cents,
    /// No choice that keeps the rule earns more cents than this. It is above the revenue only where the budget was spent.
    pub bound: Cents,
    /// How many nodes were taken.
    pub nodes: u64,
    /// The items of the nodes, in preorder.
    pub tree: Vec<Item<R>>,
}

impl<R> Model for Plan<R> {
    ghost use Rattle.optra_search.specs.Planner.{Planned};

    ghost Value = { Planned R };

    ghost view = { λ a. record { choice = a.choice; revenue = a.revenue; bound = a.bound; nodes = a.nodes; tree = a.tree.items } };
}
