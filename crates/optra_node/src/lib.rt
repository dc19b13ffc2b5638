//! Nodes of the search for a best choice, what a node allows, and the laws of dual values, trees and certificates.
//!
//! A node decides legs of bids: a yes leg must be in its bid's walk, a no leg must not be. Here stand the words that the
//! planner and the checker share: a choice of a node, an allowed walk, the dual value at prices, a tree, and when the
//! parts of a certificate are formed and valid. The two laws of optimality are proved over these words alone, for every
//! family of rows.
#![tactic(auto)]

use optra_walk::Leg;
use std::marker::Model;

mod blocking;
mod laws;
mod loads;
mod nodes;
mod own_decisions;
mod spans;

pub use laws::{
    bound_holds, dual_laws, evidence_holds, prices_by_used_rows, tests_tell_allowed, tree_cover,
    weak_duality,
};
pub use loads::{kind_at, may_use, yes_load};
pub use nodes::is_formed_leg;
pub use own_decisions::OwnDecisions;
pub use spans::{is_undecided, let_by, start_ok};

/// Whether a bid's walk has a leg: a yes leg is in the walk, a no leg is not.
#[derive(Clone, Copy, Debug, PartialEq, Eq)]
pub struct Decision {
    /// The bid's position, from 0.
    pub bid: u32,
    pub leg: Leg,
    pub yes: bool,
}

/// A node of the search: decisions, in the order in which they were made. The root has none.
///
/// The calls of a node need decisions of bids of the instance, of legs on tracks of its network that depart by minute
/// 2,879 and dwell at most 240 minutes, and no pair of a bid and a leg twice.
#[derive(Drop)]
pub struct Node {
    pub decisions: Vec<Decision>,
}

impl Model for Node {
    ghost use Rattle.std.specs.Prelude.{List};
    ghost use Rattle.optra_node.specs.declared.Decision.{Decision};

    ghost Value = { List Decision };

    ghost view = { λ a. a.decisions.items };
}

/// Prices of rows, in whole thousandths of a cent. A row that is not listed has price 0.
///
/// They are proper where they hold rows of the family, ascending and each once, each at a price of 1 to
/// 2,000,000,000,000.
#[derive(Drop)]
pub struct Prices<R> {
    pub entries: Vec<(R, i64)>,
}

impl<R> Model for Prices<R> {
    ghost use Rattle.std.specs.Prelude.{List, ℤ};

    ghost Value = { List (R × ℤ) };

    ghost view = { λ a. a.entries.items };
}

/// An item of a tree. A tree is a list of items in preorder: a split is followed by its yes part and then its no part.
#[derive(Drop)]
pub enum Item<R> {
    /// Two nodes below: one with the leg decided yes for the bid, and one with it decided no.
    Split { bid: u32, leg: Leg },
    /// A leaf whose bid has a yes leg and no allowed walk.
    NoWalk { bid: u32 },
    /// A leaf whose yes legs alone use more of the row than its capacity.
    Forced { row: R },
    /// A leaf whose dual value at the prices bounds what each choice of the node earns.
    Priced { prices: Prices<R> },
}
