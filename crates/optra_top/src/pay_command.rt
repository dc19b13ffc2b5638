//! The pay command: what it replies to the contents of its files.
ghost use Rattle.std.specs.Prelude.{◌≡◌, ◌⊎◌, ◌≤◌, ◌≤ℤ◌, map, All, IfOk, IfErr, IsTrue, ◌↔◌};
ghost use Rattle.optra_bid.specs.Instances.{IsInstance};
ghost use Rattle.optra_bid.specs.Offers.{offer_of};
ghost use Rattle.optra_tables.specs.Networks.{HasHeadwaysAlone};
ghost use Rattle.optra_tables.specs.Outcomes.{Fails};
ghost use Rattle.optra_frame.specs.ContentsGot.{contents_of};
ghost use Rattle.optra_frame.specs.Puts.{texts_of};
ghost use Rattle.optra_frame.specs.Replies.{reply_of};
ghost use Rattle.optra_frame.specs.Statuses.{gap_status, optimal_status};
ghost use Rattle.optra_frame.specs.TableFiles.{meaning_of};
ghost use Rattle.optra_frame.specs.TablesRead.{tables_seen};
ghost use Rattle.optra_verdict.specs.Promises.{TellsConflicts};
ghost use Rattle.optra_top.specs.PayCommand.{IsPayStatus, PayReplies, PrintsPayments, PrintsTablesPayments};

use crate::payment_planner::PaymentPlanner;
use optra_cert::RowText;
use optra_frame::{Answer, FilesGot, Tables, Version, read_tables, statuses};
use optra_network::{Cents, NoMemory};
use optra_payment::{Interval, payments};
use optra_play::plan_by;
use optra_rows::HeadwayRows;
use optra_search::Limits;
use optra_tables::ReadError;
use optra_text::{PlanView, pay_text};
use optra_verdict::{
    all_rows, all_rows_are_told, all_rows_tell_conflicts, headway_rows_are_told,
    headways_tell_conflicts,
};
use optra_walk::Instance;
use std::alloc::Global;

/// Reads the tables, plans within the limits, and prints each bidder's payment. It errs exactly where the tables are refused, or by want
/// of memory.
pub fn reply(alloc: Global, files: &FilesGot, limits: Limits) -> Result<Answer, ReadError>
    requires { 1 ≤ limits.budget }
    ensures ok { IfOk result (λ answer. PayReplies limits (contents_of files.now)
        (reply_of answer)) }
    ensures done { IfOk result (λ answer. (answer.status ≡ optimal_status)
        ⊎ (answer.status ≡ gap_status)) }
    ensures fault { IfErr result (λ error. Fails error (meaning_of (contents_of files.now))) }
{
    let tables = read_tables(alloc, files)?;
    let answer = reply_to(alloc, &tables, limits);
    drop(tables);
    let Ok(answer) = answer else {
        return Err(ReadError::NoMemory);
    };
    Ok(answer)
}

/// Prints the payments by the rows of the tables' version.
fn reply_to(alloc: Global, tables: &Tables, limits: Limits) -> Result<Answer, NoMemory>
    requires instance { IsInstance tables.now.net tables.now.bids.items }
    requires alone { tables.now.version ≡ Version.First → HasHeadwaysAlone tables.now.net }
    requires budget { 1 ≤ limits.budget }
    ensures { IfOk result (λ answer. PrintsTablesPayments limits (tables_seen tables.now)
        answer.status answer.text.items (texts_of answer.puts.items)) }
{
    tables.net.laws();
    let inst = Instance {
        net: &tables.net,
        bids: &tables.bids,
    };
    match tables.version {
        Version::First => {
            headways_tell_conflicts(inst);
            headway_rows_are_told(inst.net);
            reply_by(alloc, inst, &HeadwayRows::new(), limits)
        }
        Version::Second => {
            all_rows_tell_conflicts(inst);
            all_rows_are_told(inst.net);
            reply_by(alloc, inst, &all_rows(), limits)
        }
    }
}

/// Prints the payments on a network by a family of rows.
fn reply_by<F: RowText>(
    alloc: Global,
    inst: Instance<'_>,
    rows: &F,
    limits: Limits,
) -> Result<Answer, NoMemory>
    requires budget { 1 ≤ limits.budget }
    requires rule { TellsConflicts inst.net.now inst.bids.now (F.KeepsRule rows.now inst.net.now) }
    ensures { IfOk result (λ answer. let net = inst.entry.net.now in PrintsPayments
        (record { cmp = F.Row.cmp; rows = F.rows_of rows.now net; texts = F.texts_of rows.now })
        (F.KeepsRule rows.now net) limits net (map offer_of inst.entry.bids.now) answer.status
        answer.text.items (texts_of answer.puts.items)) }
{
    let plan = plan_by(alloc, inst, rows, limits)?;
    let mut planner = PaymentPlanner { limits };
    let pays = payments(alloc, inst, rows, &plan.choice, &mut planner)?;
    let view = PlanView {
        inst,
        choice: &plan.choice,
        revenue: plan.revenue,
        bound: plan.bound,
        nodes: plan.nodes,
    };
    let text = pay_text(alloc, view, &pays)?;
    let status = status(plan.revenue, plan.bound, &pays);
    let puts = Vec::new(alloc);
    Ok(Answer { status, text, puts })
}

/// The status of payments.
fn status(revenue: Cents, bound: Cents, pays: &[Interval]) -> u8
    ensures { IsPayStatus revenue bound pays.now result }
{
    if revenue == bound && are_exact(pays) {
        statuses::OPTIMAL
    } else {
        statuses::GAP
    }
}

/// Whether the low end of each is its high end.
fn are_exact(pays: &[Interval]) -> bool
    ensures { IsTrue result ↔ All (λ pay. pay.low ≡ pay.high) pays.now }
{
    pays.iter().all(|pay| pay.low == pay.high)
}
