//! The frame of a program over files: a command gets its files one after the other, replies to their contents, puts files, prints,
//! and ends with a status; and a run that ends otherwise says one line.
//!
//! A program says what its commands are, by the trait `Command`, and which words ask for which. What each status says of the files, of
//! the output and of the error line, and which input is answered, is said and proved here once, for every program.
#![tactic(auto)]

mod answer;
mod command;
mod declined;
mod entry;
mod fault;
mod files;
mod files_got;
mod outside;
pub mod statuses;
mod table_files;
mod version;

pub use answer::Answer;
pub use command::{Command, MOST_FILES};
pub use declined::Declined;
pub use entry::{carry_out, end_unread};
pub use fault::Fault;
pub use files::{Asked, FileText, Got, Role};
pub use files_got::FilesGot;
pub use table_files::{Tables, next_table_file, read_tables};
pub use version::{MOST_TABLES, Version};
