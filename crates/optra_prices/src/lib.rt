//! Prices of rows: the dual value that they give a node, the replies of the bids, and the path that prices take.
//!
//! Prices are whole thousandths of a cent. A bid's reply is the walk that is worth most to it when each use of a row
//! costs the row's price; a price rises where replies use more of a row than there is, and falls where they use less.
#![tactic(auto)]

use optra_node::Prices;
use optra_walk::Walk;
use std::marker::Model;

mod allowing;
mod amounts;
mod arc_slice;
mod arc_tables;
mod arc_term;
mod arcs;
mod cells;
mod claims;
mod columns;
mod courses;
pub mod deads;
mod decided;
pub mod duals;
mod filling;
mod following;
mod group_prices;
mod grouping;
mod holders;
mod holding;
mod index;
pub mod keeping;
mod keys;
mod laws;
mod levels;
mod listing;
mod loading;
mod loads;
mod making;
mod narrow_arc;
mod narrow_loads;
mod narrow_weights;
mod next_prices;
mod numbering;
mod numbers;
mod open_weights;
mod opening;
pub mod overfull;
pub mod parts;
mod path_ends;
mod path_rows;
mod paths;
mod putting;
mod ranking;
pub mod rooms;
mod row_numbers;
mod row_prices;
mod searching;
mod sessions;
mod settling;
mod shares;
mod stepping;
mod tables;
mod telling;
mod touch;
mod touch_slice;
mod touches;
mod touching;
mod users;
mod using;
mod valuing;
mod wide_loads;
pub mod zero;

pub use arc_tables::ArcTables;
pub use laws::price_laws;
pub use path_ends::PathEnds;
pub use paths::price_path;
pub use stepping::step;

/// The dual value of a node at prices, in thousandths of a cent, with the reply and the term of each bid.
#[derive(Drop)]
pub struct Dual {
    pub value: i128,
    pub replies: Vec<Option<Walk>>,
    pub terms: Vec<i128>,
}

impl Model for Dual {
    ghost use Rattle.optra_prices.specs.Replies.{Valuation};

    ghost Value = { Valuation };

    ghost view = { λ a. record { value = a.value; replies = a.replies.items; terms = a.terms.items } };
}

/// Prices, and the dual value at them.
#[derive(Drop)]
pub struct Priced<R> {
    pub prices: Prices<R>,
    pub dual: Dual,
}

/// Why no choice that keeps the rule is of a node: its yes legs overfill a row, or a bid with a yes leg has no allowed
/// walk.
#[derive(Clone, Copy, Debug, PartialEq, Eq)]
pub enum Dead<R> {
    Forced { row: R },
    NoWalk { bid: u32 },
}
