//! The text of certificates: how the rows of a family are told in fields, the writer of a certificate's text, and its reader
//! with the first fault. A valid certificate can be written.
#![tactic(auto)]

use optra_network::Cents;
use optra_node::Item;
use optra_walk::{Choice, Walk};
use std::alloc::{AllocError, AllocFailed};
use std::marker::Model;
use thiserror::Error;

mod cell;
mod certificate_reader;
mod certificate_writer;
mod frame;
mod headways;
mod joining;
mod laws;
mod leg_fields;
mod read_parts;
mod read_tree;
mod read_walks;
mod record_fields;
mod refusals;
pub mod row_fields;
mod row_records;
mod row_text;

pub use cell::Cell;
pub use certificate_reader::read_certificate;
pub use certificate_writer::write_certificate;
pub use laws::{
    both_rows_are_few, first_fault_is_one, headway_kinds_are_apart, text_has_no_fault,
    text_tells_cert, valid_is_writable,
};
pub use row_text::{RowRead, RowText};

/// A choice of walks and a tree, with what the choice is worth and a bound on what any choice can be worth. A valid one
/// shows that both numbers are true.
#[derive(Drop)]
pub struct Certificate<R> {
    /// What the choice's walks are worth together, in cents.
    pub revenue: Cents,
    /// What no choice that keeps the rule is worth more than, in cents.
    pub bound: Cents,
    /// For each bid the legs that serve it, or none.
    pub choice: Choice,
    /// The items of the tree in preorder.
    pub tree: Vec<Item<R>>,
}

impl<R> Model for Certificate<R> {
    ghost use Rattle.optra_cert.specs.Certs.{Cert};

    ghost Value = { Cert R };

    ghost view = { λ a. record { revenue = a.revenue; bound = a.bound; choice = a.choice; tree = a.tree.items } };
}

impl<R> Certificate<R> {
    ghost use Rattle.std.specs.Prelude.{◌≡◌};

    /// The entries of the choice, one for each bid.
    pub fn entries(&self) -> &[Option<Walk>]
        ensures { result.now ≡ self.now.choice }
    {
        let choice = &self.choice;
        &choice.walks
    }

    /// The items of the tree in preorder.
    pub fn items(&self) -> &[Item<R>]
        ensures { result.now ≡ self.now.tree }
    {
        &self.tree
    }
}

/// What can be wrong with bytes that are no certificate's text, in the order of the tests.
#[derive(Clone, Copy, Debug, PartialEq, Eq, Error)]
pub enum CertCode {
    /// C1: the bytes aren't records as they are printed.
    #[error("the bytes aren't records as they are written")]
    Csv,
    /// C2: the first record isn't that of a version which is served.
    #[error("the first record isn't that of a version which is served")]
    Version,
    /// C3: a record may not stand there, or hasn't the form of its kind.
    #[error("the record may not stand there, or hasn't its form")]
    Record,
    /// C4: a name isn't in the network.
    #[error("a name isn't in the network")]
    Name,
    /// C5: a number isn't written as one, or isn't in its range.
    #[error("a number isn't written as one, or is out of range")]
    Number,
    /// C6: a record isn't in order, or the tree ends too early or too late.
    #[error("the record isn't in order, or the tree ends too early or too late")]
    Order,
}

/// The first fault of bytes that are no certificate's text.
#[derive(Clone, Copy, Debug, PartialEq, Eq, Error)]
#[error("row {row}: {code}")]
pub struct CertFault {
    /// What is wrong.
    pub code: CertCode,
    /// The place of the record from 1, and 0 for the bytes as a whole. Where the records end too early it is the place
    /// behind the last one.
    pub row: u64,
}

/// Why no certificate was read.
#[derive(Clone, Copy, Debug, PartialEq, Eq, Error)]
pub enum CertError {
    /// The bytes are no certificate's text, and this is their first fault.
    #[error(transparent)]
    Fault(CertFault),
    /// Memory couldn't be had.
    #[error("out of memory")]
    NoMemory,
}

impl From<AllocError> for CertError {
    ghost use Rattle.std.specs.Prelude.{◌≡◌};
    ghost use Rattle.optra_cert.specs.declared.CertError.TheVariants.{NoMemory};

    ghost from_gives = { λ _ e. e ≡ NoMemory };

    fn from(_e: AllocError) -> CertError {
        CertError::NoMemory
    }
}

impl<T: Drop> From<AllocFailed<T>> for CertError {
    ghost use Rattle.std.specs.Prelude.{◌≡◌};
    ghost use Rattle.optra_cert.specs.declared.CertError.TheVariants.{NoMemory};

    ghost from_gives = { λ _ e. e ≡ NoMemory };

    fn from(_e: AllocFailed<T>) -> CertError {
        CertError::NoMemory
    }
}
