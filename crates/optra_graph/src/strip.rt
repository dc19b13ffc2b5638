//! Places side by side.
ghost use Rattle.std.specs.Prelude.{◌≡◌, ◌+◌, ◌<◌, ◌≤◌, length};
ghost use Rattle.optra_graph.specs.Places.{places_of, state_of, HasColumns, IsPlaced, IsSmall};
ghost use Rattle.optra_graph.specs.Strips.{IsStrip, IsWithin};

use crate::states::Layout;
use optra_network::Minute;
use optra_walk::State;

/// The places of one minute, one count of stops done and one mode, which stand side by side, a column each.
#[derive(Clone, Copy)]
pub struct Strip {
    /// The place of its first column.
    pub start: u32,
    pub minute: Minute,
    /// Twice the stops done, and one more after a halt.
    pub slot: u16,
}

impl Strip {
    /// The strip at which the places begin.
    pub fn first(layout: Layout<'_>) -> Strip
        requires { 0 < layout.slots }
        ensures strip { IsStrip layout.entry result }
        ensures start { result.start ≡ 0 }
    {
        Strip {
            start: 0,
            minute: layout.first,
            slot: 0,
        }
    }

    /// The next strip, at whose first place a strip begins still.
    fn next(self, layout: Layout<'_>) -> Strip
        requires small { IsSmall layout }
        requires strip { IsStrip layout self }
        requires more { self.start + layout.stations < places_of layout }
        ensures strip { IsStrip layout.entry result }
        ensures start { result.start ≡ self.start + layout.entry.stations }
    {
        let start = self.start + u32::from(layout.stations);
        if self.slot + 1 == layout.slots {
            Strip {
                start,
                minute: self.minute + 1,
                slot: 0,
            }
        } else {
            Strip {
                start,
                minute: self.minute,
                slot: self.slot + 1,
            }
        }
    }

    /// The strip of a place, which is this one or a later one. So no place is divided into its parts, which takes long.
    pub fn at(self, layout: Layout<'_>, place: u32) -> Strip
        requires small { IsSmall layout }
        requires strip { IsStrip layout self }
        requires later { self.start ≤ place }
        requires within { place < places_of layout }
        ensures strip { IsStrip layout.entry result }
        ensures within { IsWithin layout.entry result place }
    {
        let mut strip = self;
        while place - strip.start >= u32::from(layout.stations) {
            strip = strip.next(layout);
        }
        strip
    }

    /// The state at a place of the strip.
    pub fn state(self, layout: Layout<'_>, place: u32) -> State
        requires strip { IsStrip layout self }
        requires here { IsWithin layout self place }
        requires within { place < places_of layout }
        requires count { layout.stations ≡ length layout.columns.now.stations.items }
        requires columns { HasColumns layout }
        ensures value { result ≡ state_of layout.entry place }
        ensures placed { IsPlaced layout.entry result }
    {
        State {
            station: layout.station(place - self.start),
            minute: self.minute,
            halted: self.slot % 2 == 1,
            done: self.slot / 2,
        }
    }
}
