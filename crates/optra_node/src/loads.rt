//! How much of a row the yes legs of a node use.
ghost use Rattle.std.specs.Prelude.{◌≡◌, ℕ, ◌+◌, ◌*◌, ◌<◌, ◌≤◌, ◌^◌, ◌↔◌, IsTrue, length, All};
ghost use Rattle.optra_network.specs.Net.{MayUse};
ghost use Rattle.optra_node.specs.Nodes.{IsFormedLeg, IsFormedDecision, kind_at, uses_at, yes_load, others_load};

use crate::Decision;
use optra_network::{Network, TrackId, TypeId};
use optra_walk::{Instance, Leg, RowFamily};

/// The train type of a bid.
pub fn kind_at(inst: Instance<'_>, bid: u32) -> TypeId
    requires { bid < length inst.bids.now }
    ensures { result ≡ kind_at inst.entry.bids.now bid }
{
    let bid = &inst.bids[bid as usize];
    bid.path.kind
}

/// Whether the type may use the track.
pub fn may_use(net: &Network, track: TrackId, kind: TypeId) -> bool
    ensures { IsTrue result ↔ MayUse net.now track kind }
{
    net.run(track, kind, true, true).is_some()
}

/// How much of the row a leg of the bid uses, at most 8,192; none where the bid's type may not use the track.
fn uses_at<F: RowFamily>(inst: Instance<'_>, rows: &F, bid: u32, leg: Leg, row: F::Row) -> u32
    requires bid { bid < length inst.bids.now }
    requires formed { IsFormedLeg inst.net.now leg }
    ensures value { result ≡ uses_at (F.rows_of rows.now inst.entry.net.now) inst.entry.bids.now row
        bid leg }
    ensures few { result ≤ 8192 }
{
    let kind = kind_at(inst, bid);
    if !may_use(inst.net, leg.track, kind) {
        return 0;
    }
    rows.leg_use(inst.net, kind, leg, row)
}

/// How much of the row the yes legs use.
pub fn yes_load<F: RowFamily>(
    inst: Instance<'_>,
    rows: &F,
    decisions: &[Decision],
    row: F::Row,
) -> u128
    requires formed { All (IsFormedDecision inst.net.now (length inst.bids.now)) decisions.now }
    ensures { result ≡ yes_load (F.rows_of rows.now inst.entry.net.now) inst.entry.bids.now
        decisions.now row }
{
    let mut total: u128 = 0;
    for d in decisions {
        if d.yes {
            total += u128::from(uses_at(inst, rows, d.bid, d.leg, row));
        }
    }
    total
}

/// How much of the row the yes legs of the other bids use.
pub(crate) fn others_load<F: RowFamily>(
    inst: Instance<'_>,
    rows: &F,
    decisions: &[Decision],
    bid: u32,
    row: F::Row,
) -> u128
    requires formed { All (IsFormedDecision inst.net.now (length inst.bids.now)) decisions.now }
    ensures value { result ≡ others_load (F.rows_of rows.now inst.entry.net.now) inst.entry.bids.now
        decisions.now bid row }
    ensures few { result < 2 ^ 80 }
{
    let mut total: u128 = 0;
    for d in decisions {
        if d.yes && d.bid != bid {
            total += u128::from(uses_at(inst, rows, d.bid, d.leg, row));
        }
    }
    total
}
