//! The audit command: what it replies to the contents of its files.
ghost use Rattle.std.specs.Prelude.{◌≡◌, ◌⊎◌, ◌↔◌, [], length, IfOk, IfErr, IsTrue};
ghost use Rattle.optra_bid.specs.Instances.{IsInstance};
ghost use Rattle.optra_audit.specs.Reports.{IsEmpty};
ghost use Rattle.optra_audit.specs.Trains.{AreLines, trains_of};
ghost use Rattle.optra_frame.specs.ContentsGot.{contents_of};
ghost use Rattle.optra_frame.specs.Puts.{texts_of};
ghost use Rattle.optra_frame.specs.Replies.{reply_of};
ghost use Rattle.optra_frame.specs.Statuses.{faultless_status, faulty_status};
ghost use Rattle.optra_frame.specs.TablesRead.{tables_seen};
ghost use Rattle.optra_top.specs.AuditCommand.{AuditReplies, IsAuditStatus, IsAudited, PrintsAudit, PrintsReport};
ghost use Rattle.optra_top.specs.TimetableRead.{EndsTimed, TimedReply, timed_in, timed_of};

use crate::timetable_read::{AuditedLines, read_audited};
use optra_audit::Report;
use optra_frame::{Answer, Fault, FilesGot, Role, Tables, read_tables, statuses};
use optra_network::NoMemory;
use optra_text::audit_text;
use optra_walk::Instance;
use std::alloc::Global;

/// Reads the tables and the timetable, and prints the report on it. It errs exactly where one of them is refused, or by want of memory.
pub fn reply(alloc: Global, files: &FilesGot) -> Result<Answer, Fault>
    ensures ok { IfOk result (λ answer. AuditReplies (contents_of files.now) (reply_of answer)) }
    ensures done { IfOk result (λ answer. (answer.status ≡ faultless_status)
        ⊎ (answer.status ≡ faulty_status)) }
    ensures fault { IfErr result (EndsTimed (timed_of (contents_of files.now))) }
{
    let tables = read_tables(alloc, files)?;
    let answer = answer_to(alloc, &tables, files.content(Role::Timetable));
    drop(tables);
    answer
}

/// Prints the report on the timetable of these bytes.
fn answer_to(alloc: Global, tables: &Tables, bytes: &[u8]) -> Result<Answer, Fault>
    requires { IsInstance tables.now.net tables.now.bids.items }
    ensures ok { IfOk result (λ answer. TimedReply PrintsAudit (timed_in bytes.now
        (tables_seen tables.now)) (reply_of answer)) }
    ensures done { IfOk result (λ answer. (answer.status ≡ faultless_status)
        ⊎ (answer.status ≡ faulty_status)) }
    ensures fault { IfErr result (EndsTimed (timed_in bytes.now (tables_seen tables.now))) }
{
    let audited = read_audited(alloc, tables, bytes)?;
    tables.net.laws();
    let inst = Instance {
        net: &tables.net,
        bids: &tables.bids,
    };
    let answer = report_answer(alloc, inst, &audited);
    drop(audited);
    Ok(answer?)
}

/// The answer that prints a report, with its status.
pub fn report_answer(
    alloc: Global,
    inst: Instance<'_>,
    audited: &AuditedLines,
) -> Result<Answer, NoMemory>
    requires lines { AreLines inst.net.now inst.bids.now audited.now.lines.items }
    requires report { IsAudited inst.net.now inst.bids.now (trains_of (length inst.bids.now)
        audited.now.lines.items) audited.now.report }
    ensures report { IfOk result (λ answer. PrintsReport inst.entry.net.now inst.entry.bids.now
        (trains_of (length inst.entry.bids.now) audited.now.lines.items) answer.status
        answer.text.items) }
    ensures put { IfOk result (λ answer. texts_of answer.puts.items ≡ []) }
{
    let text = audit_text(alloc, inst, &audited.lines, &audited.report)?;
    let status = status(&audited.report);
    let puts = Vec::new(alloc);
    Ok(Answer { status, text, puts })
}

/// Whether nothing is wrong.
pub fn is_empty(report: &Report) -> bool
    ensures { IsTrue result ↔ IsEmpty report.now }
{
    report.faults.is_empty() && report.clashes.is_empty() && report.overs.is_empty()
}

/// The status of a report.
fn status(report: &Report) -> u8
    ensures { IsAuditStatus report.now result }
{
    if is_empty(report) {
        statuses::FAULTLESS
    } else {
        statuses::FAULTY
    }
}
