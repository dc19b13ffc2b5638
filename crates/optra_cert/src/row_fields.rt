//! The fields of a family's rows: what each tells of a network, and the fields that are written.
//!
//! They are public for the families of other crates that tell their rows by [`crate::RowText`].
ghost use Rattle.std.specs.Prelude.{◌≡◌, ◌++◌, ◌∷◌, [], IfSome, OnOk, option_map};
ghost use Rattle.std.specs.Fmt.{decimal};
ghost use Rattle.optra_network.specs.Net.{IsFromTo};
ghost use Rattle.optra_records.specs.Numbers.{plain_number_of};
ghost use Rattle.optra_cert.specs.Columns.{a_station, a_track, a_type, in_range, told_in};

use crate::Cell;
use itoa::Buffer;
use optra_network::{Minute, Network, NoMemory, StationId, TrackId, TypeId};
use optra_records::plain_number;
use std::alloc::Global;

/// The last minute of a row: the last departure, and less than a headway more.
const LAST_ROW_MINUTE: u64 = 2998;

/// The station that a field names. None exactly where no station has that name, so also where the bytes aren't UTF-8.
pub fn station_in(net: &Network, field: &[u8]) -> Option<StationId>
    ensures { option_map (λ station. station.0) result ≡ told_in net.now a_station field.now }
{
    let _proper = net.station_count();
    match str::from_utf8(field) {
        Ok(name) => net.station_id(name),
        Err(_) => None,
    }
}

/// The track that a field names. None exactly where no track has that name, so also where the bytes aren't UTF-8.
pub fn track_in(net: &Network, field: &[u8]) -> Option<TrackId>
    ensures { option_map (λ track. track.0) result ≡ told_in net.now a_track field.now }
{
    net.laws();
    match str::from_utf8(field) {
        Ok(name) => net.track_id(name),
        Err(_) => None,
    }
}

/// The type that a field names. None exactly where no type has that name, so also where the bytes aren't UTF-8.
pub fn type_in(net: &Network, field: &[u8]) -> Option<TypeId>
    ensures { option_map (λ kind. kind.0) result ≡ told_in net.now a_type field.now }
{
    let _proper = net.type_count();
    match str::from_utf8(field) {
        Ok(name) => net.type_id(name),
        Err(_) => None,
    }
}

/// The number that a field writes, where it is from one to another.
pub(crate) fn number_in(field: &[u8], low: u64, high: u64) -> Option<u64>
    ensures value { result ≡ in_range low high (plain_number_of field.now) }
    ensures range { IfSome result (IsFromTo low high) }
{
    let n = plain_number(field)?;
    if low <= n && n <= high { Some(n) } else { None }
}

/// The minute of a row that a field writes, 0 to 2,998. None exactly where the field is neither `0` nor 1 to 18 digits
/// without a leading zero, or the number is above 2,998.
pub fn minute_in(field: &[u8]) -> Option<Minute>
    ensures { result ≡ in_range 0 2998 (plain_number_of field.now) }
{
    let minute = number_in(field, 0, LAST_ROW_MINUTE)?;
    Some(minute as Minute)
}

/// Adds a field of a text.
pub fn push_text(alloc: Global, cells: &mut Vec<Cell>, text: &str) -> Result<(), NoMemory>
    ensures { OnOk result (cells.new.items ≡ cells.old.items ++ text.now ∷ []) }
{
    cells.push(Cell::new(alloc, text.as_bytes())?)?;
    Ok(())
}

/// Adds a field of a minute, in decimal.
pub fn push_minute(alloc: Global, cells: &mut Vec<Cell>, minute: Minute) -> Result<(), NoMemory>
    ensures { OnOk result (cells.new.items ≡ cells.old.items ++ decimal minute ∷ []) }
{
    let mut buffer = Buffer::new();
    push_text(alloc, cells, buffer.format(minute))
}
