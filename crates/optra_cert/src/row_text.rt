//! How the rows of a family are told in fields.
ghost use Rattle.std.specs.Prelude.{◌≡◌, ◌≤◌, IfOk, true};
ghost use Rattle.optra_network.specs.Net.{Net, IsProper};
ghost use Rattle.optra_cert.specs.RowTexts.{RowTexts, AreApart, AreTexts, IsKnownRow, FitsRow, row_fields, read_row};

use crate::Cell;
use optra_network::{Network, NoMemory};
use optra_walk::RowFamily;
use std::alloc::Global;

/// What the fields of a row are read as.
#[derive(Clone, Copy, Debug, PartialEq, Eq)]
pub enum RowRead<R> {
    /// The row.
    Row(R),
    /// The first field is no kind of row of the version, or the number of fields isn't that kind's.
    Kind,
    /// A track or a type isn't in the network.
    Name,
    /// A number isn't written as one, or isn't in its range.
    Number,
}

/// A family whose rows are told in the fields of records, at most 32 a row.
///
/// It means its version and a list of kinds of rows, each with its word, the version from which on it is there, and what
/// the fields behind the word tell. The clauses of `read` and the laws are for families whose kinds have different words.
pub trait RowText: RowFamily {
    /// The version, the kinds of rows, what a row tells, and which row is told.
    ghost texts_of: { Self → RowTexts Self.Row };

    /// The version of the texts that the family writes, at least 1. It has all kinds of the family.
    fn version(&self) -> u8
        ensures version { result ≡ (texts_of self.now).version }
        ensures least { 1 ≤ result };

    /// The fields of a row, whose names must be in the network.
    fn fields(&self, alloc: Global, net: &Network, row: Self::Row) -> Result<Vec<Cell>, NoMemory>
        requires { IsKnownRow (texts_of self.now) net.now row }
        ensures { IfOk result (λ cells. cells.items ≡ row_fields (texts_of self.now) net.now row) };

    /// What fields are read as in a version from 1 to that of the family: `Kind` exactly where the first is no kind of row
    /// of the version or their number isn't that kind's, else `Name` or `Number` at the first field from the left with
    /// that fault, else the row.
    fn read(&self, net: &Network, version: u8, cells: &[Cell]) -> RowRead<Self::Row>
        requires apart { AreApart (texts_of self.now).kinds }
        requires least { 1 ≤ version }
        requires most { version ≤ (texts_of self.now).version }
        ensures { result ≡ read_row (texts_of self.now) net.now version cells.now };

    /// What a row tells makes the row, a row tells what it was made of, each field tells in one way, and words are UTF-8 of
    /// at most 64 bytes, as names are. So a row is read of its fields, fields that are read as a row are those of the row,
    /// and the first 65 bytes of a field tell what the whole field does.
    ghost are_texts: { (f : Self) → AreApart (texts_of f).kinds → AreTexts (texts_of f) };

    /// Each row of the family has its names in the network and its numbers in their ranges.
    ghost rows_fit: { (f : Self) (net : Net) (row : Self.Row) → IsProper net → (Self.rows_of f net).is_row row ≡ true → FitsRow (texts_of f) net row };
}
