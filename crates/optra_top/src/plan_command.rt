//! The plan command: what it replies to the contents of its files.
ghost use Rattle.std.specs.Prelude.{◌≡◌, ◌⊎◌, ◌≤◌, [], length, map, IfOk, IfErr};
ghost use Rattle.std.specs.Prelude.{◌≤ℤ◌};
ghost use Rattle.optra_bid.specs.Instances.{IsInstance};
ghost use Rattle.optra_cert.specs.Certs.{IsWritable};
ghost use Rattle.optra_cert.specs.RowTexts.{AreApart};
ghost use Rattle.optra_cert.specs.Writables.{AreFew};
ghost use Rattle.optra_tables.specs.Bids.{parts_of};
ghost use Rattle.optra_tables.specs.Networks.{HasHeadwaysAlone};
ghost use Rattle.optra_tables.specs.Outcomes.{Fails};
ghost use Rattle.optra_frame.specs.Statuses.{gap_status, optimal_status};
ghost use Rattle.optra_frame.specs.TableFiles.{meaning_of};
ghost use Rattle.optra_frame.specs.ContentsGot.{contents_of};
ghost use Rattle.optra_top.specs.PlanCommand.{IsStatusOf, PlanReplies, PrintsPlan, PrintsTablesPlan, certificate_puts};
ghost use Rattle.optra_verdict.specs.Promises.{TellsConflicts};
ghost use Rattle.optra_top.specs.PlansAsked.{plan_asked};
ghost use Rattle.optra_frame.specs.Puts.{texts_of};
ghost use Rattle.optra_frame.specs.Replies.{reply_of};
ghost use Rattle.optra_frame.specs.TablesRead.{tables_seen};

use optra_cert::{Certificate, RowText, valid_is_writable, write_certificate};
use optra_frame::{Answer, FileText, FilesGot, Tables, Version, read_tables, statuses};
use optra_network::{Cents, NoMemory};
use optra_play::{certificate_of, plan_by};
use optra_rows::HeadwayRows;
use optra_search::Limits;
use optra_tables::ReadError;
use optra_text::{PathText, PlanView, plan_text};
use optra_verdict::{
    all_rows, all_rows_are_told, all_rows_tell_conflicts, headway_rows_are_told,
    headways_tell_conflicts,
};
use optra_walk::Instance;
use std::alloc::Global;

/// Reads the tables and plans, within the limits, and puts the certificate where a path is given. It errs exactly where
/// the tables are refused, or by want of memory.
pub fn reply(
    alloc: Global,
    files: &FilesGot,
    limits: Limits,
    cert: &Option<PathText>,
) -> Result<Answer, ReadError>
    requires { 1 ≤ limits.budget }
    ensures ok { IfOk result (λ answer. PlanReplies (plan_asked limits cert.now)
        (contents_of files.now) (reply_of answer)) }
    ensures done { IfOk result (λ answer. (answer.status ≡ optimal_status)
        ⊎ (answer.status ≡ gap_status)) }
    ensures fault { IfErr result (λ error. Fails error (meaning_of (contents_of files.now))) }
{
    let tables = read_tables(alloc, files)?;
    let answer = reply_to(alloc, &tables, limits, cert);
    drop(tables);
    let Ok(answer) = answer else {
        return Err(ReadError::NoMemory);
    };
    Ok(answer)
}

/// Plans the bids by the rows of the tables' version, prints the plan, and puts its certificate where a path is given.
fn reply_to(
    alloc: Global,
    tables: &Tables,
    limits: Limits,
    cert: &Option<PathText>,
) -> Result<Answer, NoMemory>
    requires instance { IsInstance tables.now.net tables.now.bids.items }
    requires alone { tables.now.version ≡ Version.First → HasHeadwaysAlone tables.now.net }
    requires budget { 1 ≤ limits.budget }
    ensures { IfOk result (λ answer. PrintsTablesPlan (plan_asked limits cert.now)
        (tables_seen tables.now) answer.status answer.text.items (texts_of answer.puts.items)) }
{
    tables.net.laws();
    let inst = Instance {
        net: &tables.net,
        bids: &tables.bids,
    };
    match tables.version {
        Version::First => {
            headways_tell_conflicts(inst);
            headway_rows_are_told(inst.net);
            reply_by(alloc, inst, &HeadwayRows::new(), limits, cert)
        }
        Version::Second => {
            all_rows_tell_conflicts(inst);
            all_rows_are_told(inst.net);
            reply_by(alloc, inst, &all_rows(), limits, cert)
        }
    }
}

/// Plans the bids on their network by a family of rows, prints the plan, and puts its certificate where a path is given.
fn reply_by<F: RowText>(
    alloc: Global,
    inst: Instance<'_>,
    rows: &F,
    limits: Limits,
    cert: &Option<PathText>,
) -> Result<Answer, NoMemory>
    requires budget { 1 ≤ limits.budget }
    requires rule { TellsConflicts inst.net.now inst.bids.now (F.KeepsRule rows.now inst.net.now) }
    requires apart { AreApart (F.texts_of rows.now).kinds }
    requires few { AreFew F.Row.cmp (F.rows_of rows.now inst.net.now) }
    ensures { IfOk result (λ answer. let net = inst.entry.net.now in PrintsPlan
        (record { cmp = F.Row.cmp; rows = F.rows_of rows.now net; texts = F.texts_of rows.now })
        (F.KeepsRule rows.now net) (plan_asked limits cert.now) net
        (map parts_of inst.entry.bids.now) answer.status answer.text.items
        (texts_of answer.puts.items)) }
{
    let plan = plan_by(alloc, inst, rows, limits)?;
    let view = PlanView {
        inst,
        choice: &plan.choice,
        revenue: plan.revenue,
        bound: plan.bound,
        nodes: plan.nodes,
    };
    let text = plan_text(alloc, view)?;
    let status = status(plan.revenue, plan.bound);
    valid_is_writable(inst, rows);
    let puts = certificate_puts(alloc, inst, rows, &certificate_of(plan), cert)?;
    Ok(Answer { status, text, puts })
}

/// The text of a certificate under the path, where one is given.
fn certificate_puts<F: RowText>(
    alloc: Global,
    inst: Instance<'_>,
    rows: &F,
    certificate: &Certificate<F::Row>,
    path: &Option<PathText>,
) -> Result<Vec<FileText>, NoMemory>
    requires apart { AreApart (F.texts_of rows.now).kinds }
    requires writable { IsWritable F.Row.cmp (F.texts_of rows.now) inst.net.now
        (length inst.bids.now) (F.texts_of rows.now).version certificate.now }
    ensures { IfOk result (λ puts. texts_of puts.items ≡ certificate_puts (F.texts_of rows.now)
        inst.entry.net.now path.now certificate.now) }
{
    let mut puts = Vec::new(alloc);
    if let Some(path) = path {
        let text = write_certificate(alloc, inst, rows, certificate)?;
        let name = String::from_str(alloc, path.text())?;
        puts.push(FileText { name, text })?;
    }
    Ok(puts)
}

/// The status of a plan whose bound is its revenue, or of one with a gap.
pub fn status(revenue: Cents, bound: Cents) -> u8
    requires { revenue ≤ℤ bound }
    ensures { IsStatusOf revenue bound result }
{
    if revenue == bound {
        statuses::OPTIMAL
    } else {
        statuses::GAP
    }
}
