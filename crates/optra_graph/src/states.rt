//! States of a train under way, and their places in one dense numbering.
ghost use Rattle.std.specs.Prelude.{◌≡◌, ℕ, ◌+◌, ◌-◌, ◌*◌, ◌<◌, ◌≤◌, length};
ghost use Rattle.optra_bid.specs.Specs.{IsPathOn};
ghost use Rattle.optra_graph.specs.Columns.{AreColumns};
ghost use Rattle.optra_graph.specs.Places.{column_at, deadline_of, place_of, slot_of, station_at, places_of, HasColumn, IsPlaced, IsSmall};
ghost use Rattle.optra_graph.specs.Settings.{IsSetting};

use crate::columns::Columns;
use optra_bid::Bid;
use optra_network::{Minute, Network, StationId};
use optra_walk::State;

/// How the states of a bid are numbered: minute by minute, in each by stops done, then by mode, then by the column of
/// the station. A state has one of `slots` for its stops and its mode, and one of `stations` columns.
#[derive(Clone, Copy)]
pub struct Layout<'c> {
    pub first: Minute,
    pub minutes: u16,
    pub slots: u16,
    pub stations: u16,
    pub columns: &'c Columns,
}

/// The states that a walk of the bid may come through: they depart before the end of the arrival window.
pub fn make_layout<'c>(net: &Network, bid: &Bid, columns: &'c Columns) -> Layout<'c>
    requires path { IsPathOn net.now bid.now.path }
    requires columns { AreColumns net.now bid.now.path columns.now }
    ensures { IsSetting net.now bid.now.path result }
{
    let first = bid.path.depart.from;
    Layout {
        first,
        minutes: bid.path.arrive.to.saturating_sub(first),
        slots: 2 * (bid.path.stops.len() as u16 + 1),
        stations: columns.stations.len() as u16,
        columns,
    }
}

impl Layout<'_> {
    /// How many places there are. This number itself is the place of the end.
    pub fn places(self) -> u32
        requires { IsSmall self }
        ensures value { result ≡ places_of self.entry }
        ensures small { result ≤ 2880 * 18 * 300 }
    {
        u32::from(self.minutes) * u32::from(self.slots) * u32::from(self.stations)
    }

    fn slot(self, state: State) -> u32
        requires small { IsSmall self }
        requires placed { IsPlaced self state }
        ensures value { result ≡ slot_of self.entry state }
        ensures small { result < self.entry.minutes * self.entry.slots }
    {
        u32::from(state.minute - self.first) * u32::from(self.slots)
            + (u32::from(state.done) * 2 + u32::from(state.halted))
    }

    pub fn place(self, state: State) -> u32
        requires small { IsSmall self }
        requires placed { IsPlaced self state }
        ensures value { result ≡ place_of self.entry state }
        ensures within { result < places_of self.entry }
    {
        self.slot(state) * u32::from(self.stations) + u32::from(self.column(state.station))
    }

    /// The first minute at which it is too late to leave the station, after so many stops.
    pub fn deadline(self, done: u16, station: StationId) -> Minute
        requires done { done ≤ 8 }
        requires deadlines { station.0 < length self.columns.now.deadlines.items }
        requires stopping { station.0 < length self.columns.now.stopping.items }
        ensures { result ≡ deadline_of self.entry done station }
    {
        let deadline = self.columns.deadlines[station.0 as usize];
        if done * 2 + 2 < self.slots {
            deadline.min(self.columns.stopping[station.0 as usize])
        } else {
            deadline
        }
    }

    /// The station of a column.
    pub fn station(self, column: u32) -> StationId
        requires { column < length self.columns.now.stations.items }
        ensures { result ≡ station_at self.entry column }
    {
        self.columns.stations[column as usize]
    }

    /// The column of a station that has one.
    fn column(self, station: StationId) -> u16
        requires { HasColumn self station }
        ensures value { result ≡ column_at self.entry station }
        ensures within { result < self.entry.stations }
    {
        self.columns.numbers[station.0 as usize]
    }
}
