//! Which legs a node blocks, by the totals of all its yes legs.
ghost use Rattle.std.specs.Prelude.{◌≡◌, ◌+◌, ◌<◌, ◌≤◌, ◌↔◌, true, IsTrue, All, length};
ghost use Rattle.optra_walk.specs.Families.{IsUsable, total_of};
ghost use Rattle.optra_node.specs.Nodes.{IsFormedLeg, IsFormedDecision, yes_load};
ghost use Rattle.optra_open.specs.Beside.{load_beside, IsBlockedBeside};

use optra_network::TypeId;
use optra_node::{Decision, may_use, yes_load};
use optra_walk::{Instance, Leg, RowFamily, Totals};

/// Whether the leg and what the totals have beside a bid's own decisions come to more of the row than its capacity.
fn is_above<F: RowFamily>(
    inst: Instance<'_>,
    rows: &F,
    totals: &Totals<F>,
    own: &[Decision],
    kind: TypeId,
    leg: Leg,
    row: F::Row,
) -> bool
    requires usable { IsUsable inst.net.now kind leg }
    requires formed { All (IsFormedDecision inst.net.now (length inst.bids.now)) own.now }
    requires within { (q : F.Row) → yes_load (F.rows_of rows.now inst.net.now) inst.bids.now own.now
        q ≤ total_of F.Row.cmp totals.now.sums q }
    requires row { (F.rows_of rows.now inst.net.now).is_row row ≡ true }
    ensures { IsTrue result ↔ ((F.rows_of rows.now inst.entry.net.now).capacity row
        < (F.rows_of rows.now inst.entry.net.now).uses kind leg row + load_beside F.Row.cmp
        (F.rows_of rows.now inst.entry.net.now) inst.entry.bids.now totals.now.sums own.now row) }
{
    let others = totals.total(row) - yes_load(inst, rows, own, row);
    u128::from(rows.cap(inst.net, row))
        < u128::from(rows.leg_use(inst.net, kind, leg, row)) + others
}

/// As [`is_blocked_beside`], of a leg on a track that the type may use.
fn is_usable_blocked_beside<F: RowFamily>(
    inst: Instance<'_>,
    rows: &F,
    totals: &Totals<F>,
    own: &[Decision],
    kind: TypeId,
    leg: Leg,
) -> bool
    requires usable { IsUsable inst.net.now kind leg }
    requires formed { All (IsFormedDecision inst.net.now (length inst.bids.now)) own.now }
    requires within { (q : F.Row) → yes_load (F.rows_of rows.now inst.net.now) inst.bids.now own.now
        q ≤ total_of F.Row.cmp totals.now.sums q }
    ensures { IsTrue result ↔ IsBlockedBeside (F.rows_of rows.now inst.entry.net.now) (load_beside
        F.Row.cmp (F.rows_of rows.now inst.entry.net.now) inst.entry.bids.now totals.now.sums
        own.now) kind leg }
{
    for k in 0..8192 {
        let Some(row) = rows.touched(inst.net, kind, leg, k) else {
            return false;
        };
        if is_above(inst, rows, totals, own, kind, leg, row) {
            return true;
        }
    }
    false
}

/// Whether the leg uses a row of which it and what the totals have beside a bid's own decisions come to more than the
/// capacity.
pub(crate) fn is_blocked_beside<F: RowFamily>(
    inst: Instance<'_>,
    rows: &F,
    totals: &Totals<F>,
    own: &[Decision],
    kind: TypeId,
    leg: Leg,
) -> bool
    requires leg { IsFormedLeg inst.net.now leg }
    requires formed { All (IsFormedDecision inst.net.now (length inst.bids.now)) own.now }
    requires within { (q : F.Row) → yes_load (F.rows_of rows.now inst.net.now) inst.bids.now own.now
        q ≤ total_of F.Row.cmp totals.now.sums q }
    ensures { IsTrue result ↔ IsBlockedBeside (F.rows_of rows.now inst.entry.net.now) (load_beside
        F.Row.cmp (F.rows_of rows.now inst.entry.net.now) inst.entry.bids.now totals.now.sums
        own.now) kind leg }
{
    may_use(inst.net, leg.track, kind)
        && is_usable_blocked_beside(inst, rows, totals, own, kind, leg)
}
