//! The compress command: what it replies to the contents of its files.
ghost use Rattle.std.specs.Prelude.{◌≡◌, ◌⊎◌, [], length, IfOk, IfErr};
ghost use Rattle.optra_bid.specs.Instances.{IsInstance};
ghost use Rattle.optra_audit.specs.Trains.{AreLines, choice_of, trains_of};
ghost use Rattle.optra_walk.specs.Choices.{IsConflictFree};
ghost use Rattle.optra_frame.specs.ContentsGot.{contents_of};
ghost use Rattle.optra_frame.specs.Puts.{texts_of};
ghost use Rattle.optra_frame.specs.Replies.{reply_of};
ghost use Rattle.optra_frame.specs.Statuses.{faultless_status, faulty_status};
ghost use Rattle.optra_frame.specs.TablesRead.{tables_seen};
ghost use Rattle.optra_top.specs.CompressCommand.{CompressReplies, PrintsCompressed, PrintsLeast};
ghost use Rattle.optra_top.specs.TimetableRead.{EndsTimed, TimedReply, timed_in, timed_of};

use crate::audit_command::{is_empty, report_answer};
use crate::timetable_read::read_audited;
use optra_audit::{Line, choice};
use optra_compress::compress;
use optra_frame::{Answer, Fault, FilesGot, Role, Tables, read_tables, statuses};
use optra_network::NoMemory;
use optra_text::compress_text;
use optra_walk::Instance;
use std::alloc::Global;

/// Reads the tables and the timetable, and prints the least starts of its trains, or the report on it where something is wrong with it.
/// It errs exactly where one of them is refused, or by want of memory.
pub fn reply(alloc: Global, files: &FilesGot) -> Result<Answer, Fault>
    ensures ok { IfOk result (λ answer. CompressReplies (contents_of files.now) (reply_of answer)) }
    ensures done { IfOk result (λ answer. (answer.status ≡ faultless_status)
        ⊎ (answer.status ≡ faulty_status)) }
    ensures fault { IfErr result (EndsTimed (timed_of (contents_of files.now))) }
{
    let tables = read_tables(alloc, files)?;
    let answer = answer_to(alloc, &tables, files.content(Role::Timetable));
    drop(tables);
    answer
}

/// Prints the least starts of the trains of these bytes, or the report on them where something is wrong.
fn answer_to(alloc: Global, tables: &Tables, bytes: &[u8]) -> Result<Answer, Fault>
    requires { IsInstance tables.now.net tables.now.bids.items }
    ensures ok { IfOk result (λ answer. TimedReply PrintsCompressed (timed_in bytes.now
        (tables_seen tables.now)) (reply_of answer)) }
    ensures done { IfOk result (λ answer. (answer.status ≡ faultless_status)
        ⊎ (answer.status ≡ faulty_status)) }
    ensures fault { IfErr result (EndsTimed (timed_in bytes.now (tables_seen tables.now))) }
{
    let audited = read_audited(alloc, tables, bytes)?;
    tables.net.laws();
    let inst = Instance {
        net: &tables.net,
        bids: &tables.bids,
    };
    let answer = if is_empty(&audited.report) {
        least_answer(alloc, inst, &audited.lines)
    } else {
        report_answer(alloc, inst, &audited)
    };
    drop(audited);
    Ok(answer?)
}

/// The answer that prints the least starts of the trains of a timetable that is free of conflict.
fn least_answer(alloc: Global, inst: Instance<'_>, lines: &[Line]) -> Result<Answer, NoMemory>
    requires lines { AreLines inst.net.now inst.bids.now lines.now }
    requires free { IsConflictFree inst.net.now inst.bids.now
        (choice_of (trains_of (length inst.bids.now) lines.now)) }
    ensures least { IfOk result (λ answer. PrintsLeast inst.entry.net.now inst.entry.bids.now
        (choice_of (trains_of (length inst.entry.bids.now) lines.now)) answer.status
        answer.text.items) }
    ensures put { IfOk result (λ answer. texts_of answer.puts.items ≡ []) }
{
    let choice = choice(alloc, inst, lines)?;
    let done = compress(alloc, inst, &choice)?;
    let text = compress_text(alloc, inst, &choice, &done)?;
    let puts = Vec::new(alloc);
    Ok(Answer {
        status: statuses::FAULTLESS,
        text,
        puts,
    })
}
