//! The verdict on a certificate's bytes over the tables of either version: what the check command prints, and what each program that
//! reads a certificate begins with.
//!
//! Here stand the families of rows by which tables are planned and checked, and the planning promise. Nothing here plans.
#![tactic(auto)]

mod check_command;
mod families;
mod laws;
mod verdicts;

pub use check_command::{check_reply, next_check_file};
pub use families::{AllRows, all_rows, all_rows_are_told, headway_rows_are_told};
pub use laws::{all_rows_tell_conflicts, headways_tell_conflicts, one_verdict};
pub use verdicts::{read_valid, verdict_on};
