//! The best rests of states, in one dense table.
ghost use Rattle.std.specs.Prelude.{◌≡◌, ◌+◌, ◌<◌, ◌≤◌, length, IfOk, IsTrue, OnOk, true, slice_index, slice_set, IfSome, pos, ◌≤ℤ◌};
ghost use Rattle.optra_rests.specs.Places.{IsPlaced, IsSmall, places_of};
ghost use Rattle.optra_rests.specs.Reaches.{from_origin, to_destination};
ghost use Rattle.optra_rests.specs.Tables.{IsTable, is_early, rest_at, rest_in, rests_of, end_of};

use crate::reach::{Reach, minutes_by};
use crate::states::Layout;
use crate::ways::Way;
use optra_network::NoMemory;
use optra_walk::State;
use std::alloc::Global;

/// What the best rest of a walk from each state on is worth, in thousandths of a cent, by the
/// places of the states; a number above zero where there is no rest, since no rest is worth more
/// than zero.
///
/// One table serves search after search: its room stays, and what an earlier search left in it is
/// never read.
#[derive(Drop)]
pub struct RestTable {
    pub(crate) layout: Layout,
    pub(crate) reach: Reach,
    pub(crate) rests: Vec<i128>,
}

/// A layout without a place.
const NO_PLACE: Layout = Layout {
    first: 0,
    minutes: 0,
    slots: 0,
    stations: 0,
};

/// What stands where there is no rest.
const NO_REST: i128 = 1;

/// What stands for a rest, or for none.
fn cell_of(rest: Option<i128>) -> i128
    requires { IfSome rest (λ n. n ≤ℤ pos 0) }
    ensures { rest_in result ≡ rest }
{
    match rest {
        Some(rest) => rest,
        None => NO_REST,
    }
}

/// The rest that a number stands for; none for one above zero.
fn rest_in(cell: i128) -> Option<i128>
    ensures { result ≡ rest_in cell }
{
    if cell > 0 { None } else { Some(cell) }
}

impl RestTable {
    /// A table for no state. It takes no memory.
    pub fn new(alloc: Global) -> RestTable {
        RestTable {
            layout: NO_PLACE,
            reach: Reach {
                skips: Vec::new(alloc),
                ahead: Vec::new(alloc),
                behind: Vec::new(alloc),
            },
            rests: Vec::new(alloc),
        }
    }

    /// Turns the table to states of a layout, between stations that are so far apart. `NoMemory` is
    /// its only refusal.
    pub(crate) fn turn_to(&mut self, layout: Layout, reach: Reach) -> Result<(), NoMemory>
        requires small { IsSmall layout }
        requires from { length (from_origin reach) ≡ layout.stations }
        requires on { length (to_destination reach) ≡ layout.stations }
        ensures table { OnOk result (IsTable self.new) }
        ensures laid_out { OnOk result (self.new.layout ≡ layout) }
        ensures reach { OnOk result (self.new.reach ≡ reach) }
    {
        let places = layout.places() as usize;
        if self.rests.len() < places {
            self.rests.resize(places, NO_REST)?;
        }
        self.layout = layout;
        self.reach = reach;
        Ok(())
    }

    /// The minute behind the last one of the table.
    fn end(&self) -> u32
        requires { IsTable self.now }
        ensures { result ≡ end_of self.now }
    {
        u32::from(self.layout.first) + u32::from(self.layout.minutes)
    }

    /// Whether the table has minutes for the state, and a walk may still end in time from there.
    pub(crate) fn is_early(&self, state: State) -> bool
        requires table { IsTable self.now }
        requires placed { state.minute < end_of self.now → IsPlaced self.now.layout state }
        ensures { result ≡ is_early self.now state }
    {
        let minute = u32::from(state.minute);
        if minute >= self.end() {
            return false;
        }
        let on = u32::from(minutes_by(&self.reach.ahead, 0, state.station));
        minute + on <= self.end()
    }

    /// Whether no walk that goes by the way may end in time.
    pub(crate) fn is_late(&self, way: Way) -> bool
        requires table { IsTable self.now }
        requires head { way.head.0 < self.now.layout.stations }
        ensures pass { IsTrue result → end_of self.now < way.pass
            + slice_index (to_destination self.now.reach) way.head.0 }
        ensures halt { IsTrue result → end_of self.now < way.halt
            + slice_index (to_destination self.now.reach) way.head.0 }
    {
        let arrival = way.pass.min(way.halt);
        let on = u32::from(minutes_by(&self.reach.ahead, 0, way.head));
        self.end() < u32::from(arrival) + on
    }

    /// What the table has for the state; `None` where it is too late for a walk to end in time.
    pub(crate) fn rest(&self, state: State) -> Option<i128>
        requires table { IsTable self.now }
        requires placed { state.minute < end_of self.now → IsPlaced self.now.layout state }
        ensures { result ≡ rest_at self.now state }
    {
        if !self.is_early(state) {
            return None;
        }
        let layout = self.layout;
        rest_in(self.rests[layout.place(state) as usize])
    }

    /// What stands at the place of any state; nothing where it has none, or where a walk may not end in time from there. Of a
    /// state that a train may not be in it says nothing.
    pub(crate) fn peek(&self, state: State) -> Option<i128> {
        let layout = self.layout;
        let station = state.station.0 as usize;
        let on = u32::from(self.reach.ahead.first()?.get(station).copied()?);
        let end = u32::from(layout.first).wrapping_add(u32::from(layout.minutes));
        let late = u32::from(state.minute) >= end || u32::from(state.minute).wrapping_add(on) > end;
        if state.minute < layout.first || late {
            return None;
        }
        let minute = u64::from(state.minute - layout.first);
        let spot = minute
            .wrapping_mul(u64::from(layout.stations))
            .wrapping_add(u64::from(state.station.0));
        let slot = u64::from(state.done)
            .wrapping_mul(2)
            .wrapping_add(u64::from(state.halted));
        let place = spot
            .wrapping_mul(u64::from(layout.slots))
            .wrapping_add(slot);
        match self.rests.get(place as usize) {
            Some(cell) => rest_in(*cell),
            None => None,
        }
    }

    /// Puts the best rest of the state at a place there.
    pub(crate) fn put(&mut self, place: u32, rest: Option<i128>)
        requires place { place < length self.old.rests.items }
        requires rest { IfSome rest (λ n. n ≤ℤ pos 0) }
        ensures rests { rests_of self.new ≡ slice_set (rests_of self.old) place rest }
        ensures layout { self.new.layout ≡ self.old.layout }
        ensures reach { self.new.reach ≡ self.old.reach }
    {
        self.rests[place as usize] = cell_of(rest);
    }
}
