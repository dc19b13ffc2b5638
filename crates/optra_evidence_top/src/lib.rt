//! The program that gives each bid its evidence, over any shelf and any pens. It can't plan.
#![tactic(auto)]

mod entry;
mod evidence_command;
mod job;

pub use entry::run;
