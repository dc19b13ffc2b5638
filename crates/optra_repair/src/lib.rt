//! Repair: a choice that keeps the rule, made out of what prices tell of the bids.
#![tactic(auto)]

mod finding;
mod placing;
mod repairing;
mod taking;
mod worth;

pub use repairing::{repair, repair_over};
