//! The fields of a record.

ghost use Rattle.std.specs.Prelude.{◌≡◌, ◌<◌, ◌^◌, IfOk, IsTrue, IfSome, option_map, if◌then◌else◌};
ghost use Rattle.csv.specs.Records.{fields_of};
ghost use Rattle.optra_network.specs.Names.{is_name};
ghost use Rattle.optra_tables.specs.Fields.{four_at, name_at, name_of, number_at, shaped, six_at, three_at, two_at};
ghost use Rattle.optra_tables.specs.Outcomes.{Gives};

use crate::outcomes::{fails, fault};
use crate::{Kind, ReadError, Table};
use csv::ByteRecord;
use optra_network::is_name;
use optra_records::field;

/// Refuses a record of another number of fields, or with a field that isn't UTF-8.
pub fn shaped(table: Table, row: u32, n: usize, cells: &ByteRecord) -> Result<(), ReadError>
    ensures { Gives (λ _. tt) result (shaped table row n (fields_of cells.now)) }
{
    optra_records::shaped(cells, n, fault(table, row, Kind::Csv))?;
    Ok(())
}

/// The name that bytes are, if they are one.
fn name_of(bytes: &[u8]) -> Option<&str>
    ensures value { option_map (λ name. name.now) result ≡ name_of bytes.now }
    ensures name { IfSome result (λ name. IsTrue (is_name name.now)) }
{
    match str::from_utf8(bytes) {
        Ok(text) => { if is_name(text) { Some(text) } else { None } }
        Err(_) => None,
    }
}

/// The name in a field.
pub fn name_at(table: Table, row: u32, cells: &ByteRecord, i: usize) -> Result<&str, ReadError>
    ensures gives { Gives (λ name. name.now) result (name_at table row (fields_of cells.now) i) }
    ensures name { IfOk result (λ name. IsTrue (is_name name.now)) }
{
    match name_of(field(cells, i)) {
        Some(name) => Ok(name),
        None => fails(table, row, Kind::Name),
    }
}

/// The number in a field.
pub fn number_at(table: Table, row: u32, cells: &ByteRecord, i: usize) -> Result<u64, ReadError>
    ensures gives { Gives (λ n. n) result (number_at table row (fields_of cells.now) i) }
    ensures small { IfOk result (λ n. n < 10 ^ 10) }
{
    let n = optra_records::number_at(cells, i, fault(table, row, Kind::Number))?;
    Ok(n)
}

/// Two numbers in a row.
pub fn two_at(table: Table, row: u32, cells: &ByteRecord, i: usize) -> Result<[u64; 2], ReadError>
    requires { i < 1000 }
    ensures { Gives (λ numbers. numbers) result (two_at table row (fields_of cells.now) i) }
{
    let a = number_at(table, row, cells, i)?;
    let b = number_at(table, row, cells, i + 1)?;
    Ok([a, b])
}

/// Three numbers in a row.
pub fn three_at(table: Table, row: u32, cells: &ByteRecord, i: usize) -> Result<[u64; 3], ReadError>
    requires { i < 1000 }
    ensures { Gives (λ numbers. numbers) result (three_at table row (fields_of cells.now) i) }
{
    let a = number_at(table, row, cells, i)?;
    let b = number_at(table, row, cells, i + 1)?;
    let c = number_at(table, row, cells, i + 2)?;
    Ok([a, b, c])
}

/// Four numbers in a row.
pub fn four_at(table: Table, row: u32, cells: &ByteRecord, i: usize) -> Result<[u64; 4], ReadError>
    requires { i < 1000 }
    ensures { Gives (λ numbers. numbers) result (four_at table row (fields_of cells.now) i) }
{
    let a = number_at(table, row, cells, i)?;
    let b = number_at(table, row, cells, i + 1)?;
    let c = number_at(table, row, cells, i + 2)?;
    let d = number_at(table, row, cells, i + 3)?;
    Ok([a, b, c, d])
}

/// Six numbers in a row.
pub fn six_at(table: Table, row: u32, cells: &ByteRecord, i: usize) -> Result<[u64; 6], ReadError>
    requires { i < 1000 }
    ensures { Gives (λ numbers. numbers) result (six_at table row (fields_of cells.now) i) }
{
    let a = number_at(table, row, cells, i)?;
    let b = number_at(table, row, cells, i + 1)?;
    let c = number_at(table, row, cells, i + 2)?;
    let d = number_at(table, row, cells, i + 3)?;
    let e = number_at(table, row, cells, i + 4)?;
    let f = number_at(table, row, cells, i + 5)?;
    Ok([a, b, c, d, e, f])
}
