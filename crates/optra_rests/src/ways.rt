//! Ways by which a train leaves a station.
ghost use Rattle.std.specs.Prelude.{◌≡◌, ◌≤◌, MatchOption, Some};
ghost use Rattle.optra_network.specs.Net.{IsProper, MayUse};
ghost use Rattle.optra_walk.specs.Walks.{tail_of};
ghost use Rattle.optra_walk.specs.Moves.{leg_by};
ghost use Rattle.optra_rests.specs.Ways.{IsWay};

use optra_bid::Bid;
use optra_network::{Minute, Network, StationId, TrackId, TypeId};
use optra_walk::{Action, Leg, State};

/// A track by which the train may leave a state, and when it arrives at its head, passing or
/// halting there.
#[derive(Clone, Copy)]
pub(crate) struct Way {
    pub from: State,
    pub track: TrackId,
    pub head: StationId,
    pub pass: Minute,
    pub halt: Minute,
}

impl Way {
    /// The leg by the way, with the action at its end.
    pub(crate) fn leg(self, action: Action) -> Leg
        ensures { result ≡ leg_by self.from self.track action }
    {
        Leg {
            track: self.track,
            depart: self.from.minute,
            from_halt: self.from.halted,
            action,
        }
    }
}

/// The train type of a bid.
pub fn kind_of(bid: &Bid) -> TypeId
    ensures { result ≡ bid.now.path.kind }
{
    bid.path.kind
}

/// The way by the track, where the train may use it.
pub(crate) fn find_way(net: &Network, bid: &Bid, state: State, track: TrackId) -> Option<Way>
    requires proper { IsProper net.now }
    requires tail { tail_of net.now (leg_by state track Action.Pass) ≡ Some state.station }
    requires minute { state.minute ≤ 2879 }
    ensures { MatchOption result (¬ MayUse net.now track bid.now.path.kind)
        (λ way. (way.track ≡ track) × (way.from ≡ state) × IsWay net.now bid.now.path state way) }
{
    let kind = kind_of(bid);
    let pass = net.run(track, kind, state.halted, false)?;
    let halt = net.run(track, kind, state.halted, true)?;
    Some(Way {
        from: state,
        track,
        head: net.head(track),
        pass: state.minute + pass,
        halt: state.minute + halt,
    })
}
