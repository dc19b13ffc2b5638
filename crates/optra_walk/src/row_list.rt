//! Lists of rows in eight bytes each, since a plan names a million of them.
ghost use Rattle.std.specs.Prelude.{◌≡◌, ◌<◌, ◌↔◌, ◌++◌, ◌∷◌, [], IsTrue, All, Some, IsSome, IfSome, OnErr, OnOk, length, map, slice_get};
ghost use Rattle.optra_walk.specs.RowLists.{AreCodes};

use crate::coded_row::CodedRow;
use optra_network::NoMemory;
use std::alloc::Global;
use std::marker::Model;

/// Rows in the order in which they were entered: first those that numbers tell, by these, and then, from the first one on
/// that no number tells, as they are.
#[derive(Drop)]
pub struct RowList<R: CodedRow> {
    codes: Vec<u64>,
    wide: Vec<R>,
}

impl<R: CodedRow> Model for RowList<R> {
    ghost use Rattle.optra_walk.specs.RowLists.{Listed, rows_in, AreCodes, StartsUntold};

    ghost Value = { Listed R };

    ghost view = { λ a. record { items = rows_in R.row_of a.codes.items a.wide.items } };

    ghost invariant = { λ a. AreCodes R.code_of R.row_of a.codes.items
        × StartsUntold R.code_of a.wide.items };
}

impl<R: CodedRow> RowList<R> {
    /// No rows, which takes no memory.
    pub fn new(alloc: Global) -> RowList<R>
        ensures { result.items ≡ [] }
    {
        RowList {
            codes: Vec::new(alloc),
            wide: Vec::new(alloc),
        }
    }

    /// The rows that numbers tell.
    pub fn from_codes(alloc: Global, codes: Vec<u64>) -> RowList<R>
        requires { AreCodes R.code_of R.row_of codes.items }
        ensures { result.items ≡ map R.row_of codes.items }
    {
        RowList {
            codes,
            wide: Vec::new(alloc),
        }
    }

    /// How many there are.
    pub fn len(&self) -> usize
        ensures { result ≡ length self.now.items }
    {
        self.codes.len() + self.wide.len()
    }

    /// Adds a row. After `NoMemory`, its only refusal, the rows are those that were there.
    #[inline(always)]
    pub fn push(&mut self, row: R) -> Result<(), NoMemory>
        ensures pushed { OnOk result (self.new.items ≡ self.old.items ++ row ∷ []) }
        ensures kept { OnErr result (self.new ≡ self.old) }
    {
        if self.wide.is_empty() {
            if let Some(code) = row.code() {
                self.codes.push(code)?;
                return Ok(());
            }
        }
        self.wide.push(row)?;
        Ok(())
    }

    /// The row at a place.
    pub fn at(&self, place: usize) -> R
        requires { place < length self.now.items }
        ensures { slice_get self.now.items place ≡ Some result }
    {
        let count = self.codes.len();
        if place < count {
            R::of_code(self.codes[place])
        } else {
            self.wide[place - count]
        }
    }

    /// Whether the row at a place is this one: by its number, so that the other is not made from its own. It is no where
    /// no row stands at the place.
    #[inline(always)]
    pub fn has(&self, place: usize, row: R) -> bool
        ensures { IsTrue result ↔ (slice_get self.now.items place ≡ Some row) }
    {
        let count = self.codes.len();
        if place < count {
            return row.code() == Some(self.codes[place]);
        }
        match self.wide.get(place - count) {
            Some(other) => other.cmp(&row).is_eq(),
            None => false,
        }
    }

    /// The numbers of all rows. `None` exactly where some row has none.
    pub fn codes(&self) -> Option<&[u64]>
        ensures exact { IsSome result ↔ All (λ row. IsSome (R.code_of row)) self.now.items }
        ensures rows { IfSome result (λ codes. self.now.items ≡ map R.row_of codes.now) }
        ensures tell { IfSome result (λ codes. AreCodes R.code_of R.row_of codes.now) }
    {
        if self.wide.is_empty() {
            Some(&self.codes)
        } else {
            None
        }
    }

    /// Lets go the room for more rows.
    pub fn shrink_to_fit(&mut self)
        ensures { self.new ≡ self.old }
    {
        self.codes.shrink_to_fit();
        self.wide.shrink_to_fit();
    }
}
