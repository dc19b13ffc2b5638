//! Rows that are told by one number each, so that many of them take little memory and two of them are compared at once.
ghost use Rattle.std.specs.Prelude.{◌≡◌, ◌<◌, ◌^◌, ℕ, Option, Some};
ghost use Rattle.std.specs.Ordering.{nat_cmp};
ghost use Rattle.optra_walk.specs.Families.{TellsApart};

/// A row. Rows are ordered, and rows that compare as equal are the same. One number tells a row whose parts are as small as
/// those of rows of networks are, and numbers are ordered as the rows that they tell.
pub trait CodedRow: Copy + Ord {
    /// The number that tells a row, where one does.
    ghost code_of: { Self → Option ℕ };

    /// The row that a number tells.
    ghost row_of: { ℕ → Self };

    /// Each number that tells a row is below it.
    ghost codes: { ℕ };

    /// The number that tells the row, and `None` where none does.
    fn code(self) -> Option<u64>
        ensures { result ≡ code_of self };

    /// The row that a number tells. Of a number that tells no row it is some row, whichever costs least: only numbers of rows
    /// lead back to them, and nothing may rest on the others.
    fn of_code(code: u64) -> Self
        ensures { result ≡ row_of code };

    /// A number above all that tell a row.
    fn codes() -> u64
        ensures { result ≡ codes };

    /// Rows that compare as equal are the same.
    ghost tells_apart: { TellsApart Self.cmp };

    /// The number of a row leads back to it.
    ghost leads_back: { (row : Self) (code : ℕ) → code_of row ≡ Some code → row_of code ≡ row };

    /// Numbers are ordered as the rows are.
    ghost ordered: { (a b : Self) (x y : ℕ) → code_of a ≡ Some x → code_of b ≡ Some y → Self.cmp a b ≡ nat_cmp x y };

    /// The bound fits into 64 bits.
    ghost few: { codes < 2 ^ 64 };

    /// Each number that tells a row is below the bound.
    ghost below: { (row : Self) (code : ℕ) → code_of row ≡ Some code → code < codes };
}
