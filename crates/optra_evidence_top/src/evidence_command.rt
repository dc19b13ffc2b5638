//! What the program replies to the contents of its files.
ghost use Rattle.std.specs.Prelude.{◌≡◌, ◌⊎◌, [], map, IfOk, IfErr, length};
ghost use Rattle.optra_bid.specs.Instances.{IsInstance};
ghost use Rattle.optra_cert.specs.RowTexts.{AreApart};
ghost use Rattle.optra_node.specs.Certificates.{IsFormed, IsValid};
ghost use Rattle.optra_tables.specs.Bids.{parts_of};
ghost use Rattle.optra_tables.specs.Networks.{HasHeadwaysAlone};
ghost use Rattle.optra_tables.specs.Outcomes.{Fails};
ghost use Rattle.optra_frame.specs.ContentsGot.{contents_of};
ghost use Rattle.optra_frame.specs.Puts.{texts_of};
ghost use Rattle.optra_frame.specs.Replies.{reply_of};
ghost use Rattle.optra_frame.specs.Statuses.{denied_status, valid_status};
ghost use Rattle.optra_frame.specs.TableFiles.{meaning_of};
ghost use Rattle.optra_frame.specs.TablesRead.{tables_seen};
ghost use Rattle.optra_verdict.specs.Promises.{TellsConflicts};
ghost use Rattle.optra_evidence_top.specs.EvidenceCommand.{EvidenceReplies, PrintsEvidence, PrintsTablesEvidence, TellsEvidence, seen};

use optra_cert::{Certificate, RowText};
use optra_evidence::{Figures, evidence};
use optra_frame::{Answer, FilesGot, Role, Tables, Version, read_tables, statuses};
use optra_network::NoMemory;
use optra_node::{bound_holds, evidence_holds};
use optra_rows::HeadwayRows;
use optra_tables::ReadError;
use optra_text::{BidFigures, EvidenceView, VerdictView, evidence_text, verdict_text};
use optra_verdict::{
    all_rows, all_rows_are_told, all_rows_tell_conflicts, headway_rows_are_told,
    headways_tell_conflicts, read_valid,
};
use optra_walk::Instance;
use std::alloc::Global;

/// Reads the tables and the certificate, checks it, and prints what it says of each bid. It errs exactly where the tables are
/// refused, or by want of memory: a certificate that can't be read or isn't valid is answered.
pub fn evidence_reply(alloc: Global, files: &FilesGot) -> Result<Answer, ReadError>
    ensures ok { IfOk result (λ answer. EvidenceReplies (contents_of files.now)
        (reply_of answer)) }
    ensures done { IfOk result (λ answer. (answer.status ≡ valid_status)
        ⊎ (answer.status ≡ denied_status)) }
    ensures fault { IfErr result (λ error. Fails error (meaning_of (contents_of files.now))) }
{
    let tables = read_tables(alloc, files)?;
    let answer = answer_to(alloc, &tables, files.content(Role::Certificate));
    drop(tables);
    let Ok(answer) = answer else {
        return Err(ReadError::NoMemory);
    };
    Ok(answer)
}

/// Prints the evidence of bytes, by the rows of the tables' version.
fn answer_to(alloc: Global, tables: &Tables, bytes: &[u8]) -> Result<Answer, NoMemory>
    requires instance { IsInstance tables.now.net tables.now.bids.items }
    requires alone { tables.now.version ≡ Version.First → HasHeadwaysAlone tables.now.net }
    ensures { IfOk result (λ answer. PrintsTablesEvidence bytes.now (tables_seen tables.now)
        answer.status answer.text.items (texts_of answer.puts.items)) }
{
    tables.net.laws();
    let inst = Instance {
        net: &tables.net,
        bids: &tables.bids,
    };
    match tables.version {
        Version::First => {
            headways_tell_conflicts(inst);
            headway_rows_are_told(inst.net);
            answer_by(alloc, inst, &HeadwayRows::new(), bytes)
        }
        Version::Second => {
            all_rows_tell_conflicts(inst);
            all_rows_are_told(inst.net);
            answer_by(alloc, inst, &all_rows(), bytes)
        }
    }
}

/// Prints the evidence of bytes, by a family of rows. Nothing is put.
fn answer_by<F: RowText>(
    alloc: Global,
    inst: Instance<'_>,
    rows: &F,
    bytes: &[u8],
) -> Result<Answer, NoMemory>
    requires rule { TellsConflicts inst.net.now inst.bids.now (F.KeepsRule rows.now inst.net.now) }
    requires apart { AreApart (F.texts_of rows.now).kinds }
    ensures { IfOk result (λ answer. let net = inst.entry.net.now in PrintsEvidence
        (record { cmp = F.Row.cmp; rows = F.rows_of rows.now net; texts = F.texts_of rows.now })
        (F.KeepsRule rows.now net) bytes.now net (map parts_of inst.entry.bids.now) answer.status
        answer.text.items (texts_of answer.puts.items)) }
{
    match read_valid(alloc, inst, rows, bytes)? {
        Ok(cert) => {
            bound_holds(inst, rows);
            evidence_holds(inst, rows);
            let text = evidence_of(alloc, inst, rows, &cert)?;
            Ok(answer(alloc, statuses::VALID, text))
        }
        Err(why) => {
            let text = verdict_text(alloc, why)?;
            Ok(answer(alloc, statuses::DENIED, text))
        }
    }
}

/// An answer that puts nothing.
fn answer(alloc: Global, status: u8, text: Vec<u8>) -> Answer
    ensures status { result.status ≡ status }
    ensures text { result.text ≡ text }
    ensures puts { texts_of result.puts.items ≡ [] }
{
    let puts = Vec::new(alloc);
    Answer { status, text, puts }
}

/// The text of the evidence that a valid certificate gives each bid.
fn evidence_of<F: RowText>(
    alloc: Global,
    inst: Instance<'_>,
    rows: &F,
    cert: &Certificate<F::Row>,
) -> Result<Vec<u8>, NoMemory>
    requires formed { IsFormed F.Row.cmp inst.net.now (length inst.bids.now) cert.now.choice
        cert.now.tree }
    requires valid { IsValid inst.net.now (F.rows_of rows.now inst.net.now)
        (F.KeepsRule rows.now inst.net.now) inst.bids.now cert.now.revenue cert.now.bound
        cert.now.choice cert.now.tree }
    ensures { IfOk result (λ text. TellsEvidence inst.entry.net.now
        (F.rows_of rows.now inst.entry.net.now) inst.entry.bids.now cert.now text.items) }
{
    let figures = evidence(alloc, inst, rows, cert)?;
    let seen = seen_all(alloc, &figures);
    drop(figures);
    let seen = seen?;
    let view = EvidenceView {
        inst,
        walks: cert.entries(),
        revenue: cert.revenue,
        bound: cert.bound,
        figures: &seen,
    };
    let text = evidence_text(alloc, view);
    drop(seen);
    text
}

/// The figures of each bid, as they are printed.
fn seen_all(alloc: Global, figures: &[Figures]) -> Result<Vec<BidFigures>, NoMemory>
    ensures { IfOk result (λ all. all.items ≡ map seen figures.now) }
{
    figures.iter().map(seen).collect(alloc)
}

/// The figures of a bid, as they are printed.
fn seen(figures: &Figures) -> BidFigures
    ensures { result ≡ seen figures.now }
{
    BidFigures {
        served: figures.served,
        left: figures.left,
    }
}
