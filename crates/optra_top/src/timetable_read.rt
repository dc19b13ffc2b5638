//! The timetable that a command gets after the tables: its file, its lines and its report.
ghost use Rattle.std.specs.Prelude.{◌≡◌, ◌≤◌, length, option_map, IfOk, IfErr, IfSome, Ok};
ghost use Rattle.optra_bid.specs.Instances.{IsInstance};
ghost use Rattle.optra_audit.specs.Trains.{AreLines, trains_of};
ghost use Rattle.optra_frame.specs.ContentsGot.{contents_of};
ghost use Rattle.optra_frame.specs.Files.{file_asked};
ghost use Rattle.optra_frame.specs.TablesRead.{tables_seen};
ghost use Rattle.optra_top.specs.AuditCommand.{IsAudited};
ghost use Rattle.optra_top.specs.TimetableRead.{EndsTimed, IsToldTimes, next_times_file, timed, timed_in, times_code};

use optra_audit::{Line, Report, TimesError, TimesKind, audit, read_timetable};
use optra_frame::{Asked, Declined, Fault, FilesGot, MOST_TABLES, Role, Tables, next_table_file};
use optra_walk::Instance;
use std::alloc::{AllocError, Global};

/// The lines of a timetable, and the report on them.
#[derive(Drop)]
pub struct AuditedLines {
    pub lines: Vec<Line>,
    pub report: Report,
}

/// The file that a command over a timetable gets after these, or `None` once it has got all. The words name the network's folder,
/// the bids, the stops and the timetable.
pub fn next_times_file(
    alloc: Global,
    net: &str,
    bids: &str,
    stops: &str,
    times: &str,
    got: &FilesGot,
) -> Result<Option<Asked>, AllocError>
    ensures next { IfOk result (λ next. option_map file_asked next
        ≡ next_times_file net.now bids.now stops.now times.now (contents_of got.now)) }
    ensures few { IfOk result (λ next. IfSome next
        (λ _. length (contents_of got.now) ≤ MOST_TABLES)) }
{
    if got.count() == got.version().table_count() {
        let name = String::from_str(alloc, times)?;
        let role = Role::Timetable;
        return Ok(Some(Asked { role, name }));
    }
    next_table_file(alloc, net, bids, stops, got)
}

/// Reads the timetable of these bytes on the tables, and audits it. It errs exactly where the timetable is refused, or by want of
/// memory.
pub fn read_audited(alloc: Global, tables: &Tables, bytes: &[u8]) -> Result<AuditedLines, Fault>
    requires { IsInstance tables.now.net tables.now.bids.items }
    ensures read { IfOk result (λ audited. timed_in bytes.now (tables_seen tables.now)
        ≡ Ok (timed (tables_seen tables.now) audited.lines.items)) }
    ensures lines { IfOk result (λ audited. AreLines tables.now.net tables.now.bids.items
        audited.lines.items) }
    ensures report { IfOk result (λ audited. IsAudited tables.now.net tables.now.bids.items
        (trains_of (length tables.now.bids.items) audited.lines.items) audited.report) }
    ensures fault { IfErr result (EndsTimed (timed_in bytes.now (tables_seen tables.now))) }
{
    tables.net.laws();
    let inst = Instance {
        net: &tables.net,
        bids: &tables.bids,
    };
    let lines = match read_timetable(alloc, inst, bytes) {
        Ok(lines) => lines,
        Err(error) => return Err(told(error)),
    };
    let report = audit(alloc, inst, &lines)?;
    Ok(AuditedLines { lines, report })
}

/// Why a timetable isn't read, as the command is told.
fn told(error: TimesError) -> Fault
    ensures { IsToldTimes error result }
{
    match error {
        TimesError::Fault { row, kind } => Fault::Refused(Declined::Coded {
            table: "timetable",
            row,
            code: times_code(kind),
        }),
        TimesError::NoMemory => Fault::NoMemory,
    }
}

/// The code of a fault of a timetable.
fn times_code(kind: TimesKind) -> &'static str
    ensures { result.now ≡ times_code kind }
{
    match kind {
        TimesKind::Csv => "Csv",
        TimesKind::Header => "Header",
        TimesKind::Number => "Number",
        TimesKind::U1 => "U1",
        TimesKind::U2 => "U2",
        TimesKind::U3 => "U3",
        TimesKind::U4 => "U4",
        TimesKind::U5 => "U5",
    }
}
