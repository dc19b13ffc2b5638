//! What all tables, printed texts and certificates share: the records of a table, one at a time; the form of
//! numbers; and the text of a record.
#![tactic(auto)]

mod canonical;
mod cells;
mod cut_records;
mod marks;
mod numbers;
mod places;
mod printing;
mod reading;
mod steps;
mod tables;

pub use canonical::is_canonical;
pub use cells::{field, is_cell, number_at, shaped};
pub use cut_records::CutRecords;
pub use marks::begins_with_mark;
pub use numbers::{number, plain_number};
pub use printing::{Fields, Printer};
pub use reading::Records;
pub use tables::{TableError, TableRows, read_table, under_header};
