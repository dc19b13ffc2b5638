//! The fields of a record that was read.

ghost use Rattle.std.specs.Prelude.{◌≡◌, ◌<◌, ◌^◌, IfOk};
ghost use Rattle.std.specs.Str.{bytes_eq, is_utf8};
ghost use Rattle.csv.specs.Records.{fields_of};
ghost use Rattle.optra_records.specs.Tables.{field, is_row, number_at, shaped};

use crate::number;
use csv::ByteRecord;

/// The field at a place, which is empty where there is none.
pub fn field(cells: &ByteRecord, i: usize) -> &[u8]
    ensures { result.now ≡ field (fields_of cells.now) i }
{
    match cells.get(i) {
        Some(field) => field,
        None => &[],
    }
}

/// Whether the field at a place is this text.
pub fn is_cell(cells: &ByteRecord, i: usize, text: &str) -> bool
    ensures { result ≡ bytes_eq (field (fields_of cells.now) i) text.now }
{
    field(cells, i) == text.as_bytes()
}

/// Whether bytes are UTF-8.
pub fn is_text(bytes: &[u8]) -> bool
    ensures { result ≡ is_utf8 bytes.now }
{
    match str::from_utf8(bytes) {
        Ok(_) => true,
        Err(_) => false,
    }
}

/// Whether a record has so many fields, each of them UTF-8.
fn is_row(cells: &ByteRecord, n: usize) -> bool
    ensures { result ≡ is_row n (fields_of cells.now) }
{
    if cells.len() != n {
        return false;
    }
    'fields: for i in 0..n {
        if !is_text(field(cells, i)) {
            return false;
        }
    }
    true
}

/// Gives the fault where a record has another number of fields, or one that isn't UTF-8.
pub fn shaped<F: Drop>(cells: &ByteRecord, n: usize, fault: F) -> Result<(), F>
    ensures { result ≡ shaped fault n (fields_of cells.now) }
{
    if is_row(cells, n) { Ok(()) } else { Err(fault) }
}

/// The number in a field, or the fault where it holds none.
pub fn number_at<F: Drop>(cells: &ByteRecord, i: usize, fault: F) -> Result<u64, F>
    ensures value { result ≡ number_at fault (fields_of cells.now) i }
    ensures small { IfOk result (λ n. n < 10 ^ 10) }
{
    match number(field(cells, i)) {
        Some(n) => Ok(n),
        None => Err(fault),
    }
}
