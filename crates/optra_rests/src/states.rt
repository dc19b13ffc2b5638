//! The places of the states of a train under way, in one dense numbering.
ghost use Rattle.std.specs.Prelude.{◌≡◌, ℕ, ◌+◌, ◌-◌, ◌*◌, ◌<◌, ◌≤◌, length};
ghost use Rattle.optra_bid.specs.Specs.{IsPathOn};
ghost use Rattle.optra_rests.specs.Places.{place_of, places_of, slot_of, IsPlaced, IsSmall};
ghost use Rattle.optra_rests.specs.Settings.{IsSetting};
ghost use Rattle.optra_rests.specs.Sizes.{IsPlaceCount, IsSpot, IsAnySlot};

use optra_bid::Bid;
use optra_network::{Minute, Network};
use optra_walk::State;

/// How the states of a bid are numbered: minute by minute, in each by station, then by stops done,
/// then by mode. A state has one of `slots` for its stops and its mode.
#[derive(Clone, Copy)]
pub(crate) struct Layout {
    pub first: Minute,
    pub minutes: u16,
    pub slots: u16,
    pub stations: u16,
}

/// The states that a walk of the bid may come through: they depart before the end of the arrival
/// window.
pub(crate) fn make_layout(net: &Network, bid: &Bid) -> Layout
    requires { IsPathOn net.now bid.now.path }
    ensures { IsSetting net.now bid.now.path result }
{
    let first = bid.path.depart.from;
    Layout {
        first,
        minutes: bid.path.arrive.to.saturating_sub(first),
        slots: 2 * (bid.path.stops.len() as u16 + 1),
        stations: net.station_count(),
    }
}

impl Layout {
    /// How many places there are.
    pub(crate) fn places(self) -> u32
        requires { IsSmall self }
        ensures value { result ≡ places_of self }
        ensures small { IsPlaceCount result }
    {
        u32::from(self.minutes) * u32::from(self.stations) * u32::from(self.slots)
    }

    fn spot(self, state: State) -> u32
        requires small { IsSmall self }
        requires placed { IsPlaced self state }
        ensures value { result ≡ (state.minute - self.first) * self.stations + state.station.0 }
        ensures within { result < self.minutes * self.stations }
        ensures small { IsSpot result }
    {
        u32::from(state.minute - self.first) * u32::from(self.stations) + u32::from(state.station.0)
    }

    /// The number of the stops done and the mode.
    fn slot(self, state: State) -> u32
        ensures value { result ≡ slot_of state }
        ensures small { IsAnySlot result }
    {
        u32::from(state.done) * 2 + u32::from(state.halted)
    }

    /// The place of a state.
    pub(crate) fn place(self, state: State) -> u32
        requires small { IsSmall self }
        requires placed { IsPlaced self state }
        ensures value { result ≡ place_of self state }
        ensures within { result < places_of self }
    {
        self.spot(state) * u32::from(self.slots) + self.slot(state)
    }
}
