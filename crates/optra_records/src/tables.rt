//! Tables: their header, and their records one at a time, each of which adds to what is known.

ghost use Rattle.std.specs.Prelude.{◌≡◌, ◌<◌, ◌^◌, map, OnOk};
ghost use Rattle.std.specs.Cmp.Lexicographic.{pointwise};
ghost use Rattle.std.specs.Str.{bytes_eq};
ghost use Rattle.csv.specs.Records.{fields_of};
ghost use Rattle.optra_records.specs.Tables.{GivesTable, rows_from, rows_under, table_of};

use crate::{Records, is_cell};
use csv::ByteRecord;
use std::alloc::{AllocError, AllocFailed, Global};

/// Why a table isn't read: its first fault, or memory that couldn't be had.
#[derive(Clone, Copy, Debug, PartialEq, Eq)]
pub enum TableError<F> {
    /// The first fault of the table.
    Fault(F),
    /// Memory couldn't be had.
    NoMemory,
}

impl<F> From<AllocError> for TableError<F> {
    ghost use Rattle.std.specs.Prelude.{◌≡◌};
    ghost use Rattle.optra_records.specs.declared.tables.TableError.TheVariants.{NoMemory};

    ghost from_gives = { λ _ e. e ≡ NoMemory };

    fn from(_error: AllocError) -> TableError<F> {
        TableError::NoMemory
    }
}

// A growth that fails is want of memory, so that `list.push(..)?` may stand in a reader of rows.
impl<T: Drop, F> From<AllocFailed<T>> for TableError<F> {
    ghost use Rattle.std.specs.Prelude.{◌≡◌};
    ghost use Rattle.optra_records.specs.declared.tables.TableError.TheVariants.{NoMemory};

    ghost from_gives = { λ _ e. e ≡ NoMemory };

    fn from(_error: AllocFailed<T>) -> TableError<F> {
        TableError::NoMemory
    }
}

/// What the records of a table add, one at a time, to what is known. A type without values stands for each table; what is
/// known is lent to it, so a caller owns it throughout.
pub trait TableRows {
    ghost use Rattle.std.specs.Prelude.{ℕ, ◌+◌, ◌≤◌, OnOk, Result};
    ghost use Rattle.csv.specs.Records.{fields_of};
    ghost use Rattle.optra_records.specs.Reading.{Record};
    ghost use Rattle.optra_records.specs.Tables.{GivesTable};

    /// What is known.
    type Known;

    /// What the records are read against.
    type Context;

    /// What is wrong with a table.
    type Fault: Drop;

    /// What a record of a row adds to what is known, read against the context, or what is wrong with it.
    ghost step: { Self.Context → Self.Known → ℕ → Record → Result Self.Known Self.Fault };

    /// What is kept of what is known.
    ghost is_kept: { Self.Known → Type 0 };

    /// How many more records may be accepted. So a table that is read has fewer rows than can be counted.
    ghost room: { Self.Known → ℕ };

    /// Adds what the record of a row says, or tells what is wrong with it. Each record that is accepted takes some of the
    /// room.
    fn add(
        alloc: Global,
        context: &Self::Context,
        known: &mut Self::Known,
        row: u32,
        cells: &ByteRecord,
    ) -> Result<(), TableError<Self::Fault>>
        requires { is_kept known.old }
        ensures gives { GivesTable (λ _. known.new) result
            (step context.now known.old row (fields_of cells.now)) }
        ensures kept { OnOk result (is_kept known.new) }
        ensures room { OnOk result (room known.new + 1 ≤ room known.old) };
}

/// Whether the fields of a record are these texts.
fn is_header(cells: &ByteRecord, header: &[&str]) -> bool
    ensures { result ≡ pointwise bytes_eq (fields_of cells.now)
        (map (λ name. name.now) header.now) }
{
    if cells.len() != header.len() {
        return false;
    }
    'fields: for i in 0..header.len() {
        if !is_cell(cells, i, header[i]) {
            return false;
        }
    }
    true
}

/// Reads the first record, which has to be the header, or gives the fault. After want of memory there are no more records.
pub fn under_header<F: Drop>(
    records: &mut Records<'_>,
    header: &[&str],
    missing: F,
    cells: &mut ByteRecord,
) -> Result<(), TableError<F>>
    ensures { GivesTable (λ _. records.new) result
        (rows_under missing (map (λ name. name.now) header.now) records.old) }
{
    if !records.next(cells)? {
        return Err(TableError::Fault(missing));
    }
    if !is_header(cells, header) {
        return Err(TableError::Fault(missing));
    }
    Ok(())
}

/// The row of the first record after the header.
const FIRST_ROW: u32 = 2;

/// Reads the records that are left.
fn read_rows<T: TableRows>(
    alloc: Global,
    context: &T::Context,
    known: &mut T::Known,
    records: &mut Records<'_>,
    cells: &mut ByteRecord,
) -> Result<(), TableError<T::Fault>>
    requires kept { T.is_kept known.old }
    requires room { T.room known.old < 2 ^ 31 }
    ensures gives { GivesTable (λ _. known.new) result
        (rows_from (T.step context.now) known.old 2 records.old) }
    ensures kept { OnOk result (T.is_kept known.new) }
{
    let mut row = FIRST_ROW;
    'rows: while records.next(cells)? {
        T::add(alloc, context, known, row, cells)?;
        row += 1;
    }
    Ok(())
}

/// Reads a table into what is known: its header, or the fault of one that is missing, and then its records in order,
/// each of which adds to what is known or has the first fault of the table. Rows count the records from 1, which is the
/// header. The row of cells is used for each record in turn. After a fault or want of memory a first part of the records may
/// be added, and what is known serves no more.
pub fn read_table<T: TableRows>(
    alloc: Global,
    context: &T::Context,
    known: &mut T::Known,
    header: &[&str],
    missing: T::Fault,
    cells: &mut ByteRecord,
    bytes: &[u8],
) -> Result<(), TableError<T::Fault>>
    requires kept { T.is_kept known.old }
    requires room { T.room known.old < 2 ^ 31 }
    ensures gives { GivesTable (λ _. known.new) result
        (table_of (T.step context.now) missing (map (λ name. name.now) header.now) known.old
        bytes.now) }
    ensures kept { OnOk result (T.is_kept known.new) }
{
    let mut records = Records::of_table(alloc, bytes);
    under_header(&mut records, header, missing, cells)?;
    read_rows::<T>(alloc, context, known, &mut records, cells)
}
