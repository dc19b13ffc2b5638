//! The plan of some bids, an auction that is played out round after round, and one whose rounds are posted into a journal.
//!
//! [`plan_by`] and [`plan_over`] take rows that state the rule, and promise what is optimal; [`certified_plan_over`] takes any rows.
#![tactic(auto)]

mod certificates;
mod family_repairer;
mod house_rounds;
mod plans;
mod playing;
mod round_planner;

pub use certificates::certificate_of;
pub use family_repairer::FamilyRepairer;
pub use house_rounds::{PostedRound, post_round, print_close};
pub use plans::{certified_plan_over, plan_by, plan_over};
pub use playing::{ROUND_LIMITS, play};
