//! The check command: the file that it gets after the tables, and what it replies to the contents of its files.
ghost use Rattle.std.specs.Prelude.{◌≡◌, ◌⊎◌, ◌≤◌, length, map, option_map, IfOk, IfErr, IfSome};
ghost use Rattle.optra_bid.specs.Instances.{IsInstance};
ghost use Rattle.optra_cert.specs.RowTexts.{AreApart};
ghost use Rattle.optra_tables.specs.Bids.{parts_of};
ghost use Rattle.optra_tables.specs.Networks.{HasHeadwaysAlone};
ghost use Rattle.optra_tables.specs.Outcomes.{Fails};
ghost use Rattle.optra_verdict.specs.CheckCommand.{CheckReplies, PrintsTablesVerdict, PrintsVerdict, next_check_file, verdict_status};
ghost use Rattle.optra_frame.specs.Statuses.{denied_status, valid_status};
ghost use Rattle.optra_frame.specs.TableFiles.{meaning_of};
ghost use Rattle.optra_frame.specs.ContentsGot.{contents_of};
ghost use Rattle.optra_frame.specs.Files.{file_asked};
ghost use Rattle.optra_verdict.specs.Promises.{TellsConflicts};
ghost use Rattle.optra_frame.specs.Puts.{texts_of};
ghost use Rattle.optra_frame.specs.Replies.{reply_of};
ghost use Rattle.optra_frame.specs.TablesRead.{tables_seen};

use crate::families::{all_rows, all_rows_are_told, headway_rows_are_told};
use crate::laws::{all_rows_tell_conflicts, headways_tell_conflicts};
use crate::verdicts::verdict_on;
use optra_cert::RowText;
use optra_frame::{
    Answer, Asked, FilesGot, MOST_TABLES, Role, Tables, Version, next_table_file, read_tables,
    statuses,
};
use optra_network::NoMemory;
use optra_rows::HeadwayRows;
use optra_tables::ReadError;
use optra_text::{VerdictView, verdict_text};
use optra_walk::Instance;
use std::alloc::{AllocError, Global};

/// The file that the command gets after these, or `None` once it has got all. The words name the network's folder, the
/// bids, the stops and the certificate.
pub fn next_check_file(
    alloc: Global,
    net: &str,
    bids: &str,
    stops: &str,
    cert: &str,
    got: &FilesGot,
) -> Result<Option<Asked>, AllocError>
    ensures next { IfOk result (λ next. option_map file_asked next
        ≡ next_check_file net.now bids.now stops.now cert.now (contents_of got.now)) }
    ensures few { IfOk result (λ next. IfSome next
        (λ _. length (contents_of got.now) ≤ MOST_TABLES)) }
{
    if got.count() == got.version().table_count() {
        let name = String::from_str(alloc, cert)?;
        let role = Role::Certificate;
        return Ok(Some(Asked { role, name }));
    }
    next_table_file(alloc, net, bids, stops, got)
}

/// Reads the tables and the certificate, and checks it. It errs exactly where the tables are refused, or by want of
/// memory: a certificate that can't be read or isn't valid is answered.
pub fn check_reply(alloc: Global, files: &FilesGot) -> Result<Answer, ReadError>
    ensures ok { IfOk result (λ answer. CheckReplies (contents_of files.now) (reply_of answer)) }
    ensures done { IfOk result (λ answer. (answer.status ≡ valid_status)
        ⊎ (answer.status ≡ denied_status)) }
    ensures fault { IfErr result (λ error. Fails error (meaning_of (contents_of files.now))) }
{
    let tables = read_tables(alloc, files)?;
    let answer = answer_to(alloc, &tables, files.content(Role::Certificate));
    drop(tables);
    let Ok(answer) = answer else {
        return Err(ReadError::NoMemory);
    };
    Ok(answer)
}

/// Prints the verdict on bytes, by the rows of the tables' version.
fn answer_to(alloc: Global, tables: &Tables, bytes: &[u8]) -> Result<Answer, NoMemory>
    requires instance { IsInstance tables.now.net tables.now.bids.items }
    requires alone { tables.now.version ≡ Version.First → HasHeadwaysAlone tables.now.net }
    ensures { IfOk result (λ answer. PrintsTablesVerdict bytes.now (tables_seen tables.now)
        answer.status answer.text.items (texts_of answer.puts.items)) }
{
    tables.net.laws();
    let inst = Instance {
        net: &tables.net,
        bids: &tables.bids,
    };
    match tables.version {
        Version::First => {
            headways_tell_conflicts(inst);
            headway_rows_are_told(inst.net);
            answer_by(alloc, inst, &HeadwayRows::new(), bytes)
        }
        Version::Second => {
            all_rows_tell_conflicts(inst);
            all_rows_are_told(inst.net);
            answer_by(alloc, inst, &all_rows(), bytes)
        }
    }
}

/// Prints the verdict on bytes, by a family of rows. Nothing is put.
fn answer_by<F: RowText>(
    alloc: Global,
    inst: Instance<'_>,
    rows: &F,
    bytes: &[u8],
) -> Result<Answer, NoMemory>
    requires rule { TellsConflicts inst.net.now inst.bids.now (F.KeepsRule rows.now inst.net.now) }
    requires apart { AreApart (F.texts_of rows.now).kinds }
    ensures { IfOk result (λ answer. let net = inst.entry.net.now in PrintsVerdict
        (record { cmp = F.Row.cmp; rows = F.rows_of rows.now net; texts = F.texts_of rows.now })
        (F.KeepsRule rows.now net) bytes.now net (map parts_of inst.entry.bids.now) answer.status
        answer.text.items (texts_of answer.puts.items)) }
{
    let view = verdict_on(alloc, inst, rows, bytes)?;
    let text = verdict_text(alloc, view)?;
    let status = status(view);
    let puts = Vec::new(alloc);
    Ok(Answer { status, text, puts })
}

/// The status of a verdict.
fn status(view: VerdictView) -> u8
    ensures { result ≡ verdict_status view }
{
    match view {
        VerdictView::Yes { .. } => statuses::VALID,
        VerdictView::No { .. } | VerdictView::Unreadable { .. } => statuses::DENIED,
    }
}
