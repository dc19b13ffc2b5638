//! What the legs that decisions decide use of rows.
ghost use Rattle.std.specs.Prelude.{◌≡◌, ◌+◌, ◌<◌, ◌≤◌, ◌^◌, All, IfOk, OnOk, length};
ghost use Rattle.optra_walk.specs.Families.{total_of};
ghost use Rattle.optra_node.specs.Nodes.{IsFormedDecision, yes_uses};
ghost use Rattle.optra_open.specs.Loaded.{AreRising, IsMissing};

use crate::loaded::loaded_rows;
use optra_network::NoMemory;
use optra_node::{Decision, kind_at, may_use};
use optra_walk::{Instance, RowFamily, Totals};
use std::alloc::Global;

/// Adds what the decided leg uses, where it is yes. After `NoMemory`, its only refusal, the totals serve no more.
pub(crate) fn add_decision<F: RowFamily>(
    totals: &mut Totals<F>,
    inst: Instance<'_>,
    rows: &F,
    decision: Decision,
) -> Result<(), NoMemory>
    requires decision { IsFormedDecision inst.net.now (length inst.bids.now) decision }
    requires below { (q : F.Row) → total_of F.Row.cmp totals.old.sums q
        + yes_uses (F.rows_of rows.now inst.net.now) inst.bids.now q decision < 2 ^ 100 }
    ensures { OnOk result ((q : F.Row) → total_of F.Row.cmp totals.new.sums q
        ≡ total_of F.Row.cmp totals.old.sums q + yes_uses (F.rows_of rows.now inst.entry.net.now)
        inst.entry.bids.now q decision) }
{
    if !decision.yes {
        return Ok(());
    }
    let kind = kind_at(inst, decision.bid);
    if !may_use(inst.net, decision.leg.track, kind) {
        return Ok(());
    }
    totals.add_leg(inst.net, rows, kind, decision.leg)
}

/// Takes away what the decided leg uses, where it is yes. A row of which nothing is used any more is kept no more, so that
/// searches ask of no row that only earlier nodes used.
pub(crate) fn take_decision<F: RowFamily>(
    totals: &mut Totals<F>,
    inst: Instance<'_>,
    rows: &F,
    decision: Decision,
)
    requires decision { IsFormedDecision inst.net.now (length inst.bids.now) decision }
    requires enough { (q : F.Row) → yes_uses (F.rows_of rows.now inst.net.now) inst.bids.now q
        decision ≤ total_of F.Row.cmp totals.old.sums q }
    ensures { (q : F.Row) → total_of F.Row.cmp totals.new.sums q
        + yes_uses (F.rows_of rows.now inst.entry.net.now) inst.entry.bids.now q decision
        ≡ total_of F.Row.cmp totals.old.sums q }
{
    if !decision.yes {
        return;
    }
    let kind = kind_at(inst, decision.bid);
    if !may_use(inst.net, decision.leg.track, kind) {
        return;
    }
    totals.take_leg(inst.net, rows, kind, decision.leg);
}

/// The rows that the decided leg uses, ascending, where it is yes; none where it is no. `NoMemory` is its only refusal.
pub(crate) fn rows_of_decision<F: RowFamily>(
    alloc: Global,
    inst: Instance<'_>,
    rows: &F,
    decision: Decision,
) -> Result<Vec<F::Row>, NoMemory>
    requires { IsFormedDecision inst.net.now (length inst.bids.now) decision }
    ensures rising { IfOk result (λ listed. AreRising F.Row.cmp listed.items) }
    ensures all { IfOk result (λ listed. (row : F.Row) → IsMissing F.Row.cmp listed.items row
        → yes_uses (F.rows_of rows.now inst.entry.net.now) inst.entry.bids.now row decision ≡ 0) }
    ensures used { IfOk result (λ listed. All (λ row. 0 < yes_uses (F.rows_of rows.now
        inst.entry.net.now) inst.entry.bids.now row decision) listed.items) }
{
    let mut uses = Totals::new(alloc);
    add_decision(&mut uses, inst, rows, decision)?;
    loaded_rows(alloc, &uses)
}
