//! The table of a timetable.

ghost use Rattle.std.specs.Prelude.{◌≡◌, IfOk, true};
ghost use Rattle.std.specs.Str.{is_utf8};
ghost use Rattle.csv.specs.Records.{fields_of};
ghost use Rattle.optra_records.specs.Tables.{GivesTable, field, number_at, or_else, shaped};
ghost use Rattle.optra_audit.specs.Timetables.{Gives, bid_names, error_of, fault, leg_line, line_row, lines_of};
ghost use Rattle.optra_audit.specs.Trains.{AreLines};

use crate::bid_names::BidNames;
use crate::line_list::LineList;
use crate::row_faults::{RowFault, fails, fault};
use crate::{Line, TimesError, TimesKind};
use csv::ByteRecord;
use optra_network::{Minute, Network, TrackId};
use optra_records::{TableError, TableRows, field, read_table};
use optra_walk::{Instance, Leg, action_of_word, start_of_word};
use std::alloc::Global;

/// The most lines of a timetable.
const MOST_LINES: usize = 8_000;
/// The last minute of the two days.
const LAST_MINUTE: u64 = 2_879;

/// What an answer of a row says, or its fault.
type RowResult<T> = Result<T, TableError<RowFault>>;

/// What lines are read against: the network, and the names of the bids.
#[derive(Drop)]
struct Named<'a> {
    net: &'a Network,
    names: BidNames<'a>,
}

/// Refuses a record that hasn't six fields, or with one that isn't UTF-8.
fn shaped(row: u32, cells: &ByteRecord) -> RowResult<()>
    ensures { GivesTable (λ _. tt) result
        (shaped (fault row TimesKind.Csv) 6 (fields_of cells.now)) }
{
    match optra_records::shaped(cells, 6, fault(row, TimesKind::Csv)) {
        Ok(()) => Ok(()),
        Err(fault) => Err(TableError::Fault(fault)),
    }
}

/// The number in a field.
fn number_at(row: u32, cells: &ByteRecord, i: usize) -> RowResult<u64>
    ensures { GivesTable (λ n. n) result
        (number_at (fault row TimesKind.Number) (fields_of cells.now) i) }
{
    match optra_records::number_at(cells, i, fault(row, TimesKind::Number)) {
        Ok(n) => Ok(n),
        Err(fault) => Err(TableError::Fault(fault)),
    }
}

/// A value that is there, or the fault of a row.
fn known<T: Drop>(row: u32, kind: TimesKind, found: Option<T>) -> RowResult<T>
    ensures { GivesTable (λ value. value) result (or_else (fault row kind) found) }
{
    match found {
        Some(value) => Ok(value),
        None => fails(row, kind),
    }
}

/// The text of a field, which is UTF-8.
fn text(cells: &ByteRecord, i: usize) -> &str
    requires { is_utf8 (field (fields_of cells.now) i) ≡ true }
    ensures { result.now ≡ field (fields_of cells.now) i }
{
    match str::from_utf8(field(cells, i)) {
        Ok(text) => text,
        Err(_) => unreachable!(),
    }
}

/// The line that a record says of a bid and a track.
#[tactic(auto, unfolding(crate::specs::Timetables::leg_line))]
fn leg_line(
    row: u32,
    cells: &ByteRecord,
    depart: u64,
    dwell: u64,
    bid: u32,
    track: TrackId,
) -> RowResult<Line>
    ensures { GivesTable (λ line. line) result
        (leg_line row (fields_of cells.now) depart dwell bid track) }
{
    let from_halt = known(row, TimesKind::U3, start_of_word(field(cells, 3)))?;
    let action = known(row, TimesKind::U3, action_of_word(field(cells, 4)))?;
    if depart > LAST_MINUTE {
        return fails(row, TimesKind::U4);
    }
    let action = known(row, TimesKind::U4, action.checked_dwell(dwell))?;
    let depart = depart as Minute;
    let leg = Leg {
        track,
        depart,
        from_halt,
        action,
    };
    Ok(Line { bid, leg })
}

/// Reads one record.
#[tactic(auto, unfolding(crate::specs::Timetables::line_row))]
fn read_row(named: &Named<'_>, lines: &mut LineList, row: u32, cells: &ByteRecord) -> RowResult<()>
    ensures { GivesTable (λ _. lines.new) result
        (line_row named.now.net.now named.now.names lines.old row (fields_of cells.now)) }
{
    shaped(row, cells)?;
    let depart = number_at(row, cells, 2)?;
    let dwell = number_at(row, cells, 5)?;
    if lines.len() >= MOST_LINES {
        return fails(row, TimesKind::U5);
    }
    let bid = known(row, TimesKind::U1, named.names.place(text(cells, 0)))?;
    let track = known(row, TimesKind::U2, named.net.track_id(text(cells, 1)))?;
    let line = leg_line(row, cells, depart, dwell, bid, track)?;
    lines.push(line)?;
    Ok(())
}

/// The records of a timetable.
struct LineRows<'a> {
    named: Named<'a>,
}

impl<'a> TableRows for LineRows<'a> {
    ghost use Rattle.std.specs.Prelude.{◌≤◌, length};
    ghost use Rattle.optra_audit.specs.Timetables.{line_row, lines_room};

    type Known = LineList;

    type Context = Named<'a>;

    type Fault = RowFault;

    ghost step = { λ named. line_row named.net.now named.names };

    ghost is_kept = { λ lines. length lines ≤ 8000 };

    ghost room = { lines_room };

    fn add(
        _alloc: Global,
        named: &Named<'a>,
        lines: &mut LineList,
        row: u32,
        cells: &ByteRecord,
    ) -> Result<(), TableError<RowFault>> {
        read_row(named, lines, row, cells)
    }
}

/// The header of a timetable.
const TIMES_HEADER: [&str; 6] = ["bid", "track", "depart", "from", "action", "dwell"];

/// Why a table isn't read, as the caller is told.
fn told(error: TableError<RowFault>) -> TimesError
    ensures { result ≡ error_of error }
{
    match error {
        TableError::Fault(fault) => TimesError::Fault {
            row: fault.row,
            kind: fault.kind,
        },
        TableError::NoMemory => TimesError::NoMemory,
    }
}

/// The lines that a timetable means on an instance, in the order of its records, or exactly its first fault:
///
/// - `Header`, where the first record isn't `bid,track,depart,from,action,dwell`; `Csv`, where a record hasn't six fields or one of
///   them isn't UTF-8; `Number`, where the departure or the dwell isn't 1 to 10 digits;
/// - then, in this order: `U5`, where 8,000 records were read already; `U1`, where no bid has the name; `U2`, where no track has
///   the name; `U3`, where the start is none of `halt` and `pass`, or the action none of `pass`, `halt`, `wait` and `finish`; `U4`,
///   where the departure is above 2,879, the dwell above 240, or the dwell of `pass` or `finish` isn't 0.
///
/// Where two bids have one name, the name is that of the first.
#[tactic(auto, unfolding(crate::specs::Timetables::lines_of))]
pub fn read_timetable(
    alloc: Global,
    inst: Instance<'_>,
    bytes: &[u8],
) -> Result<Vec<Line>, TimesError>
    ensures gives { Gives (λ lines. lines.items) result
        (lines_of inst.entry.net.now (bid_names inst.entry.bids.now) bytes.now) }
    ensures lines { IfOk result (λ lines. AreLines inst.entry.net.now inst.entry.bids.now
        lines.items) }
{
    let names = BidNames::new(alloc, inst.bids)?;
    let named = Named {
        net: inst.net,
        names,
    };
    let mut cells = ByteRecord::new(alloc);
    let mut lines = LineList::new(alloc);
    let missing = fault(1, TimesKind::Header);
    let read = read_table::<LineRows<'_>>(
        alloc,
        &named,
        &mut lines,
        &TIMES_HEADER,
        missing,
        &mut cells,
        bytes,
    );
    match read {
        Ok(()) => Ok(lines.into_lines()),
        Err(error) => Err(told(error)),
    }
}
