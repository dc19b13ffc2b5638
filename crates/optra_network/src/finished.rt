//! A finished network, its look-ups, and when two uses of tracks are in conflict.
ghost use Rattle.std.specs.Prelude.{◌≡◌, ◌+◌, ◌<◌, ◌≤◌, ◌↔◌, length, All, Contains, IfSome, IsTrue, MatchBool, Some, slice_get};
ghost use Rattle.std.specs.List.Sorted.{IsPermutation};
ghost use Rattle.std.specs.Option.{option_map};
ghost use Rattle.optra_network.specs.Headways.{hmin_of};
ghost use Rattle.optra_network.specs.Net.{times_of, headway_of, crossing_of, halt_max_of, minutes_by, out_tracks_of, IsFromTo, MayUse, IsProper, IsStation, IsTrack, IsKind};
ghost use Rattle.optra_network.specs.Refusals.{station_named, track_named, type_named};
ghost use Rattle.optra_network.specs.Conflict.{AreCompatible, KeepsHeadway};
ghost use Rattle.optra_network.specs.Partners.{IsPartner, partners_of};
ghost use Rattle.optra_network.specs.Crossers.{crossers_of, TracksRise};
ghost use Rattle.optra_network.specs.declared.Partner.{Partner};

use crate::dense::{Tables, above_zero};
use crate::names::Names;
use crate::{Crosser, Partner, StationId, Times, Track, TrackId, TrackUse, TypeId};
use indexmap::IndexMap;
use std::marker::Model;

/// A network, which `Builder::finish` makes and which never changes. Ids are positions from 0. No call takes memory.
#[derive(Drop)]
pub struct Network {
    pub(crate) stations: Names,
    pub(crate) track_names: Names,
    pub(crate) tracks: Vec<Track>,
    pub(crate) types: Names,
    pub(crate) running: IndexMap<(u16, u16), Times>,
    pub(crate) headways: IndexMap<(u16, u16, u16), u16>,
    pub(crate) crossings: IndexMap<(u16, u16, u16, u16), u16>,
    pub(crate) limits: IndexMap<u16, u16>,
    /// All that is held ready for look-ups. The invariant ties it to the other fields.
    pub(crate) tables: Tables,
}

impl Model for Network {
    ghost use Rattle.optra_network.specs.Net.{Net};

    ghost Value = { Net };

    ghost use Rattle.optra_network.specs.NetworkParts.{net_of, IsKept};

    ghost view = { net_of };

    ghost invariant = { IsKept };
}

impl Network {
    /// The running time in minutes, 1 to 240, from a halt or a pass at the tail to a halt or a pass at the head. None
    /// exactly where the type may not use the track, so also for a track or a type that isn't there.
    pub fn run(&self, track: TrackId, kind: TypeId, from_halt: bool, to_halt: bool) -> Option<u16>
        ensures minutes { result ≡ option_map (minutes_by from_halt to_halt) (times_of self.now
            track kind) }
        ensures range { IfSome result (IsFromTo 1 240) }
    {
        let times = self.tables.rows.times(track, kind);
        above_zero(minutes(times, from_halt, to_halt))
    }

    /// The headway in minutes, 1 to 120, that a train of the second type keeps after one of the first type on the
    /// track. None exactly where no row gave one, so also for a track or a type that isn't there.
    pub fn headway(&self, track: TrackId, first: TypeId, second: TypeId) -> Option<u16>
        ensures minutes { result ≡ headway_of self.now track first second }
        ensures range { IfSome result (IsFromTo 1 120) }
    {
        above_zero(self.tables.rows.headway(track, first, second))
    }

    /// The minutes, 1 to 120, that a train of the second type on the track b keeps after one of the first type on the track
    /// a. None exactly where no row gave one, so also for a track or a type that isn't there.
    pub fn crossing(&self, a: TrackId, b: TrackId, first: TypeId, second: TypeId) -> Option<u16>
        ensures minutes { result ≡ crossing_of self.now a b first second }
        ensures range { IfSome result (IsFromTo 1 120) }
    {
        self.crossings.get(&(a.0, b.0, first.0, second.0)).copied()
    }

    /// The greatest number of trains that may stand in the station at once, 1 to 1,000, and 0 where it has no limit, so also
    /// for a station that isn't there.
    pub fn halt_max(&self, id: StationId) -> u16
        ensures count { result ≡ halt_max_of self.now id }
        ensures most { result ≤ 1000 }
    {
        self.limits.get(&id.0).copied().unwrap_or(0)
    }

    /// The least headway after the type in minutes, 1 to 120, over the types that may use the track. None exactly
    /// where the type may not use the track, so also for a track or a type that isn't there.
    pub fn hmin(&self, track: TrackId, kind: TypeId) -> Option<u16>
        ensures minutes { result ≡ hmin_of self.now track kind }
        ensures range { IfSome result (IsFromTo 1 120) }
    {
        above_zero(self.tables.least(track, kind))
    }

    /// The station that the track leads from.
    pub fn tail(&self, track: TrackId) -> StationId
        requires { IsTrack self.now track }
        ensures tail { option_map (λ t. t.tail) (slice_get self.now.tracks track.0) ≡ Some result }
        ensures there { IsStation self.now result }
    {
        self.tracks[track.0 as usize].tail
    }

    /// The station that the track leads to.
    pub fn head(&self, track: TrackId) -> StationId
        requires { IsTrack self.now track }
        ensures head { option_map (λ t. t.head) (slice_get self.now.tracks track.0) ≡ Some result }
        ensures there { IsStation self.now result }
    {
        self.tracks[track.0 as usize].head
    }

    /// The tracks that lead from the station, by track position.
    pub fn out_tracks(&self, station: StationId) -> &[TrackId]
        requires { IsStation self.now station }
        ensures tracks { result.now ≡ out_tracks_of self.now.tracks station }
        ensures there { All (IsTrack self.now) result.now }
    {
        self.tables.out.of(station)
    }

    /// The partners of a use of the type in pair rows, by shift and then by type. This call is beyond the rest of the
    /// surface: rows of headways need it at hand, since a family of rows takes no memory.
    pub fn partners(&self, track: TrackId, kind: TypeId) -> &[Partner]
        requires { MayUse self.now track kind }
        ensures partners { result.now ≡ partners_of self.now track kind }
        ensures each { (partner : Partner) → Contains result.now partner
            ↔ IsPartner self.now track kind partner }
    {
        &self.tables.partners[track.0 as usize * 16 + kind.0 as usize]
    }

    /// The types on other tracks that have a crossing with a type on a track, in the order of their tracks. This call is
    /// beyond the rest of the surface: rows of crossings need it at hand, since a family of rows takes no memory.
    pub fn crossers(&self, track: TrackId, kind: TypeId) -> &[Crosser]
        requires { MayUse self.now track kind }
        ensures all { IsPermutation (crossers_of self.now track kind) result.now }
        ensures order { TracksRise result.now }
        ensures proper { IsProper self.now }
    {
        &self.tables.crossers[track.0 as usize * 16 + kind.0 as usize]
    }

    /// A law, and no work: what every network keeps. Callers see a network as its value alone, so one that rests on it
    /// says so by this call; where a leg is usable or an instance is at hand, it is known without it.
    pub fn laws(&self)
        ensures { IsProper self.now }
    {
        let _tables = &self.tables;
    }

    /// How many stations there are, at most 300.
    pub fn station_count(&self) -> u16
        ensures count { result ≡ length self.now.stations }
        ensures proper { IsProper self.now }
    {
        self.stations.len() as u16
    }

    /// How many tracks there are, at most 1,000.
    pub fn track_count(&self) -> u16
        ensures count { result ≡ length self.now.tracks }
        ensures proper { IsProper self.now }
    {
        self.tracks.len() as u16
    }

    /// How many train types there are, at most 16.
    pub fn type_count(&self) -> u16
        ensures count { result ≡ length self.now.types }
        ensures proper { IsProper self.now }
    {
        self.types.len() as u16
    }

    /// The station of the name. None exactly where no station has it.
    pub fn station_id(&self, name: &str) -> Option<StationId>
        ensures id { result ≡ station_named self.now name.now }
        ensures there { IfSome result (IsStation self.now) }
    {
        self.stations
            .place(name)
            .map(|place| StationId(place as u16))
    }

    /// The track of the name. None exactly where no track has it.
    pub fn track_id(&self, name: &str) -> Option<TrackId>
        ensures id { result ≡ track_named self.now name.now }
        ensures there { IfSome result (IsTrack self.now) }
    {
        self.track_names
            .place(name)
            .map(|place| TrackId(place as u16))
    }

    /// The train type of the name. None exactly where no type has it.
    pub fn type_id(&self, name: &str) -> Option<TypeId>
        ensures id { result ≡ type_named self.now name.now }
        ensures there { IfSome result (IsKind self.now) }
    {
        self.types.place(name).map(|place| TypeId(place as u16))
    }

    /// The station's name.
    pub fn station_name(&self, id: StationId) -> &str
        requires { IsStation self.now id }
        ensures { slice_get self.now.stations id.0 ≡ Some result.now }
    {
        self.stations.name(id.0 as usize)
    }

    /// The track's name.
    pub fn track_name(&self, id: TrackId) -> &str
        requires { IsTrack self.now id }
        ensures { slice_get self.now.track_names id.0 ≡ Some result.now }
    {
        self.track_names.name(id.0 as usize)
    }

    /// The train type's name.
    pub fn type_name(&self, id: TypeId) -> &str
        requires { IsKind self.now id }
        ensures { slice_get self.now.types id.0 ≡ Some result.now }
    {
        self.types.name(id.0 as usize)
    }
}

/// Whether two uses are in conflict: they are on one track, and neither departs at least its headway after the other.
/// Each of the two types may use the track of its use, which is the caller's condition. No triangle rule between
/// headways is assumed, so the uses of a timetable are free of conflict only where every two of them are. This is the
/// packing form of Borndörfer and Schlechte, "Models for Railway Track Allocation" (2007).
pub fn conflict(net: &Network, a: TrackUse, b: TrackUse) -> bool
    requires a_may { MayUse net.now a.track a.kind }
    requires b_may { MayUse net.now b.track b.kind }
    ensures { MatchBool result (¬ AreCompatible net.now a b) (AreCompatible net.now a b) }
{
    a.track == b.track && !keeps_headway(net, a, b) && !keeps_headway(net, b, a)
}

/// Whether b comes at least the headway after a.
fn keeps_headway(net: &Network, a: TrackUse, b: TrackUse) -> bool
    ensures { IsTrue result ↔ KeepsHeadway net.now a b }
{
    match net.headway(a.track, a.kind, b.kind) {
        Some(gap) => u32::from(a.time) + u32::from(gap) <= u32::from(b.time),
        None => false,
    }
}

/// The minutes by the modes at the two ends.
fn minutes(times: Times, from_halt: bool, to_halt: bool) -> u16
    ensures { result ≡ minutes_by from_halt to_halt times }
{
    match (from_halt, to_halt) {
        (false, false) => times.pass_pass,
        (false, true) => times.pass_halt,
        (true, false) => times.halt_pass,
        (true, true) => times.halt_halt,
    }
}
