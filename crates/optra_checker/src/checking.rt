//! The check of a certificate.
ghost use Rattle.std.specs.Prelude.{◌≡◌, ◌↔◌, IfOk, MatchOption, length};
ghost use Rattle.optra_node.specs.Certificates.{IsFormed, IsValid};
ghost use Rattle.optra_checker.specs.Verdicts.{ChoiceHolds, TreeHolds, IsFirstReason, IsVerdict};

use crate::bounding::bound_holds;
use crate::fitting::rule_holds;
use crate::leaves::leaves_hold;
use crate::listed_walks::walks_hold;
use crate::pricing::prices_hold;
use crate::splitting::splits_hold;
use crate::{Reason, Verdict};
use optra_cert::Certificate;
use optra_network::NoMemory;
use optra_rests::RestTable;
use optra_walk::{Instance, RowFamily, revenue};
use std::alloc::Global;

/// The first of K1 to K3 that comes.
fn choice_fault<F: RowFamily>(
    alloc: Global,
    inst: Instance<'_>,
    rows: &F,
    cert: &Certificate<F::Row>,
) -> Result<Option<Reason>, NoMemory>
    requires formed { IsFormed F.Row.cmp inst.net.now (length inst.bids.now) cert.now.choice
        cert.now.tree }
    ensures { IfOk result (λ fault. MatchOption fault (ChoiceHolds inst.entry.net.now
        (F.KeepsRule rows.now inst.entry.net.now) inst.entry.bids.now cert.now)
        (IsFirstReason inst.entry.net.now (F.rows_of rows.now inst.entry.net.now)
        (F.KeepsRule rows.now inst.entry.net.now) inst.entry.bids.now cert.now)) }
{
    let walks = cert.entries();
    if !walks_hold(inst.net, inst.bids, walks) {
        return Ok(Some(Reason::Walk));
    }
    if !rule_holds(alloc, inst.net, rows, inst.bids, walks)? {
        return Ok(Some(Reason::Conflict));
    }
    if revenue(inst.net, inst.bids, walks) != cert.revenue {
        return Ok(Some(Reason::Revenue));
    }
    Ok(None)
}

/// The first of K4 to K7 that comes, where none of K1 to K3 does. The table is room for searches.
fn tree_fault<F: RowFamily>(
    alloc: Global,
    inst: Instance<'_>,
    rows: &F,
    cert: &Certificate<F::Row>,
    table: &mut RestTable,
) -> Result<Option<Reason>, NoMemory>
    requires formed { IsFormed F.Row.cmp inst.net.now (length inst.bids.now) cert.now.choice
        cert.now.tree }
    requires choice { ChoiceHolds inst.net.now (F.KeepsRule rows.now inst.net.now) inst.bids.now
        cert.now }
    ensures { IfOk result (λ fault. MatchOption fault (TreeHolds inst.entry.net.now
        (F.rows_of rows.now inst.entry.net.now) inst.entry.bids.now cert.now)
        (IsFirstReason inst.entry.net.now (F.rows_of rows.now inst.entry.net.now)
        (F.KeepsRule rows.now inst.entry.net.now) inst.entry.bids.now cert.now)) }
{
    let tree = cert.items();
    if !splits_hold(alloc, inst, rows, tree)? {
        return Ok(Some(Reason::Decision));
    }
    if !leaves_hold(alloc, inst, rows, tree, table)? {
        return Ok(Some(Reason::DeadLeaf));
    }
    if !prices_hold(inst.net, rows, tree) {
        return Ok(Some(Reason::Price));
    }
    if !bound_holds(alloc, inst, rows, tree, cert.bound, table)? {
        return Ok(Some(Reason::Bound));
    }
    Ok(None)
}

/// The verdict on a certificate.
fn verdict_on<F: RowFamily>(
    alloc: Global,
    inst: Instance<'_>,
    rows: &F,
    cert: &Certificate<F::Row>,
) -> Result<Verdict, NoMemory>
    requires formed { IsFormed F.Row.cmp inst.net.now (length inst.bids.now) cert.now.choice
        cert.now.tree }
    ensures { IfOk result (IsVerdict inst.entry.net.now (F.rows_of rows.now inst.entry.net.now)
        (F.KeepsRule rows.now inst.entry.net.now) inst.entry.bids.now cert.now) }
{
    if let Some(reason) = choice_fault(alloc, inst, rows, cert)? {
        return Ok(Verdict::No(reason));
    }
    let mut table = RestTable::new(alloc);
    let fault = tree_fault(alloc, inst, rows, cert, &mut table);
    drop(table);
    if let Some(reason) = fault? {
        return Ok(Verdict::No(reason));
    }
    Ok(Verdict::Yes {
        revenue: cert.revenue,
        bound: cert.bound,
    })
}

/// Whether a certificate of an instance is valid: Yes with its revenue and its bound exactly where
/// it is, and else No with the first reason, K1 to K7, that holds somewhere in it. [`Reason`] says
/// when each comes.
///
/// It needs an instance of at most 1,000 bids whose paths are on its network, and a formed
/// certificate. What it computes rests on the laws of the family alone. `NoMemory` is its only
/// refusal.
pub fn check<F: RowFamily>(
    alloc: Global,
    inst: Instance<'_>,
    rows: &F,
    cert: &Certificate<F::Row>,
) -> Result<Verdict, NoMemory>
    requires formed { IsFormed F.Row.cmp inst.net.now (length inst.bids.now) cert.now.choice
        cert.now.tree }
    ensures yes { IfOk result (λ verdict. (verdict ≡ Verdict.Yes cert.now.revenue cert.now.bound)
        ↔ IsValid inst.entry.net.now (F.rows_of rows.now inst.entry.net.now)
        (F.KeepsRule rows.now inst.entry.net.now) inst.entry.bids.now cert.now.revenue
        cert.now.bound cert.now.choice cert.now.tree) }
    ensures verdict { IfOk result (IsVerdict inst.entry.net.now
        (F.rows_of rows.now inst.entry.net.now) (F.KeepsRule rows.now inst.entry.net.now)
        inst.entry.bids.now cert.now) }
{
    verdict_on(alloc, inst, rows, cert)
}
