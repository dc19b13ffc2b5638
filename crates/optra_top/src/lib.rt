//! The commands of the planner, over any shelf and any pens.
#![tactic(auto)]

mod auction_command;
mod audit_command;
mod compress_command;
mod demo_command;
mod entry;
mod house_command;
mod job;
mod laws;
mod pay_command;
mod payment_planner;
mod plan_command;
mod timetable_read;

pub use entry::run;
pub use laws::{check_confirms_plan, demo_is_accepted, one_play, one_text, pairs_are_listed};
