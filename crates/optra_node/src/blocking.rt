//! Which legs a node blocks, and which rows its yes legs overfill.
//!
//! Both go over the rows that a leg touches, and over the decisions for each of them.
ghost use Rattle.std.specs.Prelude.{◌≡◌, ℕ, ◌+◌, ◌<◌, ◌↔◌, IsTrue, true, length, All};
ghost use Rattle.optra_walk.specs.Families.{IsUsable};
ghost use Rattle.optra_node.specs.Nodes.{IsFormedLeg, IsFormedDecision, kind_at, yes_uses, yes_load, others_load, IsOverfull, IsBlocked, IsLeastOrNone};
ghost use Rattle.optra_node.specs.Lowest.{lower_of};

use crate::Decision;
use crate::loads::{kind_at, may_use, others_load, yes_load};
use optra_network::TypeId;
use optra_walk::{Instance, Leg, RowFamily};
use std::cmp::Ordering;

/// Whether the leg and the yes legs of the other bids use more of the row than its capacity.
fn is_above<F: RowFamily>(
    inst: Instance<'_>,
    rows: &F,
    decisions: &[Decision],
    bid: u32,
    leg: Leg,
    row: F::Row,
) -> bool
    requires bid { bid < length inst.bids.now }
    requires usable { IsUsable inst.net.now (kind_at inst.bids.now bid) leg }
    requires formed { All (IsFormedDecision inst.net.now (length inst.bids.now)) decisions.now }
    requires row { (F.rows_of rows.now inst.net.now).is_row row ≡ true }
    ensures { IsTrue result ↔ ((F.rows_of rows.now inst.entry.net.now).capacity row
        < (F.rows_of rows.now inst.entry.net.now).uses (kind_at inst.entry.bids.now bid) leg row +
        others_load (F.rows_of rows.now inst.entry.net.now) inst.entry.bids.now decisions.now bid
        row) }
{
    let own = rows.leg_use(inst.net, kind_at(inst, bid), leg, row);
    let others = others_load(inst, rows, decisions, bid, row);
    u128::from(rows.cap(inst.net, row)) < u128::from(own) + others
}

/// Whether the leg, which the bid's type may use, is blocked.
fn is_usable_blocked<F: RowFamily>(
    inst: Instance<'_>,
    rows: &F,
    decisions: &[Decision],
    bid: u32,
    leg: Leg,
) -> bool
    requires bid { bid < length inst.bids.now }
    requires usable { IsUsable inst.net.now (kind_at inst.bids.now bid) leg }
    requires formed { All (IsFormedDecision inst.net.now (length inst.bids.now)) decisions.now }
    ensures { IsTrue result ↔ IsBlocked (F.rows_of rows.now inst.entry.net.now) inst.entry.bids.now
        decisions.now bid (kind_at inst.entry.bids.now bid) leg }
{
    let kind = kind_at(inst, bid);
    for k in 0..8192 {
        let Some(row) = rows.touched(inst.net, kind, leg, k) else {
            return false;
        };
        if is_above(inst, rows, decisions, bid, leg, row) {
            return true;
        }
    }
    false
}

/// Whether the leg is blocked.
pub(crate) fn is_blocked<F: RowFamily>(
    inst: Instance<'_>,
    rows: &F,
    decisions: &[Decision],
    bid: u32,
    leg: Leg,
) -> bool
    requires bid { bid < length inst.bids.now }
    requires leg { IsFormedLeg inst.net.now leg }
    requires formed { All (IsFormedDecision inst.net.now (length inst.bids.now)) decisions.now }
    ensures { IsTrue result ↔ IsBlocked (F.rows_of rows.now inst.entry.net.now) inst.entry.bids.now
        decisions.now bid (kind_at inst.entry.bids.now bid) leg }
{
    may_use(inst.net, leg.track, kind_at(inst, bid))
        && is_usable_blocked(inst, rows, decisions, bid, leg)
}

/// Whether the yes legs alone use more of the row than its capacity.
fn is_overfull<F: RowFamily>(
    inst: Instance<'_>,
    rows: &F,
    decisions: &[Decision],
    row: F::Row,
) -> bool
    requires formed { All (IsFormedDecision inst.net.now (length inst.bids.now)) decisions.now }
    requires row { (F.rows_of rows.now inst.net.now).is_row row ≡ true }
    ensures { IsTrue result ↔ IsOverfull (F.rows_of rows.now inst.entry.net.now) inst.entry.bids.now
        decisions.now row }
{
    u128::from(rows.cap(inst.net, row)) < yes_load(inst, rows, decisions, row)
}

/// The least overfull row that a leg of the type uses.
fn least_used<F: RowFamily>(
    inst: Instance<'_>,
    rows: &F,
    decisions: &[Decision],
    kind: TypeId,
    leg: Leg,
) -> Option<F::Row>
    requires usable { IsUsable inst.net.now kind leg }
    requires formed { All (IsFormedDecision inst.net.now (length inst.bids.now)) decisions.now }
    ensures { IsLeastOrNone F.Row.cmp
        (λ row. (0 < (F.rows_of rows.now inst.entry.net.now).uses kind leg row)
        × IsOverfull (F.rows_of rows.now inst.entry.net.now) inst.entry.bids.now decisions.now row)
        result }
{
    for k in 0..8192 {
        let Some(row) = rows.touched(inst.net, kind, leg, k) else {
            return None;
        };
        if is_overfull(inst, rows, decisions, row) {
            return Some(row);
        }
    }
    None
}

/// The least overfull row that the decided leg uses, where it is yes.
fn least_decided<F: RowFamily>(
    inst: Instance<'_>,
    rows: &F,
    decisions: &[Decision],
    decision: Decision,
) -> Option<F::Row>
    requires decision { IsFormedDecision inst.net.now (length inst.bids.now) decision }
    requires formed { All (IsFormedDecision inst.net.now (length inst.bids.now)) decisions.now }
    ensures { IsLeastOrNone F.Row.cmp
        (λ row. (0 < yes_uses (F.rows_of rows.now inst.entry.net.now) inst.entry.bids.now row
        decision) × IsOverfull (F.rows_of rows.now inst.entry.net.now) inst.entry.bids.now
        decisions.now row) result }
{
    let kind = kind_at(inst, decision.bid);
    if decision.yes && may_use(inst.net, decision.leg.track, kind) {
        least_used(inst, rows, decisions, kind, decision.leg)
    } else {
        None
    }
}

/// The lower of two, and the other where one is not there.
fn lower<R: Copy + Ord>(a: Option<R>, b: Option<R>) -> Option<R>
    ensures { result ≡ lower_of R.cmp a b }
{
    let (Some(x), Some(y)) = (a, b) else {
        return a.or(b);
    };
    match x.cmp(&y) {
        Ordering::Greater => b,
        _ => a,
    }
}

/// The least overfull row.
pub(crate) fn least_overfull<F: RowFamily>(
    inst: Instance<'_>,
    rows: &F,
    decisions: &[Decision],
) -> Option<F::Row>
    requires formed { All (IsFormedDecision inst.net.now (length inst.bids.now)) decisions.now }
    ensures { IsLeastOrNone F.Row.cmp (IsOverfull (F.rows_of rows.now inst.entry.net.now)
        inst.entry.bids.now decisions.now) result }
{
    let mut least: Option<F::Row> = None;
    for decision in decisions {
        least = lower(least, least_decided(inst, rows, decisions, *decision));
    }
    least
}
