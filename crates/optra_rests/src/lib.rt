//! The best walk of a bid where legs cost, by a table of what the rest of a walk is worth at most.
//!
//! The table has a place for each minute, station and number of stops done, and is filled once from late to early: only
//! where and when a train of the bid may be ([`reach`]), and in room that stays from search to search. What legs cost, and
//! which legs and starts a walk may have, a [`Weighing`] says.
//!
//! It serves the check of certificates, and nothing of the planner's searches comes in here: no graph, no row by number and
//! no price that it found.
#![tactic(auto)]

mod asks;
mod reach;
mod rest_table;
mod rests;
mod states;
mod table;
mod tracing;
mod ways;
mod weighing;

pub use rest_table::RestTable;
pub use rests::greater;
pub use table::search;
pub use tracing::{Admits, EveryLeg, trace};
pub use ways::kind_of;
pub use weighing::Weighing;
