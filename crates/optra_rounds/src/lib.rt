//! The rounds of an auction over the list of all its actions: what becomes of each round's actions, and what is printed of it.
#![tactic(auto)]

mod actions;
mod standing;
mod winners;

pub use actions::{RoundActions, Taken, round_actions, rows_of, take_actions};
pub use standing::{spec_names, standing_specs, values_of};
pub use winners::close_of;
