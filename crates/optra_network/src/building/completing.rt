//! Whether each headway is there, by the rows themselves, so that the question takes no memory.
ghost use Rattle.std.specs.Prelude.{◌≡◌, ℕ, ◌<◌, ◌↔◌, length, is_some, IsTrue, true};
ghost use Rattle.optra_network.specs.Net.{HasAllHeadways, times_of};
ghost use Rattle.optra_network.specs.Tables.{has_headway};

use super::Builder;
use crate::{TrackId, TypeId};

impl Builder {
    /// Whether every two types that may both use a track have a headway on it in both orders, and each type to itself:
    /// exactly where `finish` doesn't refuse with MissingHeadway. It takes no memory.
    pub fn headways_whole(&self) -> bool
        ensures { IsTrue result ↔ HasAllHeadways self.now }
    {
        for track in 0..self.tracks.len() {
            if !self.has_headways_on(TrackId(track as u16)) {
                return false;
            }
        }
        true
    }

    /// The same of one track.
    fn has_headways_on(&self, track: TrackId) -> bool
        ensures { IsTrue result ↔ ((a b : ℕ) → a < length self.now.types → b < length self.now.types
            → has_headway self.now track.0 a b ≡ true) }
    {
        for first in 0..self.types.len() {
            if !self.has_headways_after(track, TypeId(first as u16)) {
                return false;
            }
        }
        true
    }

    /// The same of one track and one first type.
    fn has_headways_after(&self, track: TrackId, first: TypeId) -> bool
        ensures { IsTrue result ↔ ((b : ℕ) → b < length self.now.types
            → has_headway self.now track.0 first.0 b ≡ true) }
    {
        for second in 0..self.types.len() {
            if !self.has_headway(track, first, TypeId(second as u16)) {
                return false;
            }
        }
        true
    }

    fn has_headway(&self, track: TrackId, first: TypeId, second: TypeId) -> bool
        ensures { result ≡ has_headway self.now track.0 first.0 second.0 }
    {
        !self.may_use(track, first)
            || !self.may_use(track, second)
            || self.headways.contains_key(&(track.0, first.0, second.0))
    }

    /// Whether the type has running times on the track.
    fn may_use(&self, track: TrackId, kind: TypeId) -> bool
        ensures { result ≡ is_some (times_of self.now track kind) }
    {
        self.running.contains_key(&(track.0, kind.0))
    }
}
