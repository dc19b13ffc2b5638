//! Makes a network step by step.
ghost use Rattle.std.specs.Prelude.{◌≡◌, ℕ, ◌+◌, ◌<◌, ◌≤◌, ◌↔◌, ◌≢◌, [], ◌∷◌, ◌++◌, length, OnOk, OnErr, IfOk, IfErr, IsTrue, Some, None, true, map, nat_eq};
ghost use Rattle.std.specs.Map.{lookup};
ghost use Rattle.indexmap.specs.IndexMap.{spare};
ghost use Rattle.optra_network.specs.Names.{is_name};
ghost use Rattle.optra_network.specs.Net.{empty_net, HasAllHeadways, HasBothWays, IsWithinReach};
ghost use Rattle.optra_network.specs.Refusals.{IsFinishFault, is_from_to, are_minutes, FollowsRule, station_refusal, type_refusal, track_refusal, after_track, running_refusal, after_running, headway_refusal, after_headway, limited_refusal, with_limit, after_limited, crossing_refusal, after_crossing};

use crate::finished::Network;
use crate::names::Names;
use crate::{NetFault, NetRefusal, NoMemory, StationId, Times, Track, TrackId, TypeId};
use indexmap::IndexMap;
use std::alloc::Global;
use std::marker::Model;

mod completing;
mod crossers;
mod crossing;
mod finishing;
mod pairing;

/// The most stations of a network.
const MOST_STATIONS: usize = 300;
/// The most trains that a station's limit may be.
const MOST_STANDING: u64 = 1_000;
/// The most train types of a network.
const MOST_TYPES: usize = 16;
/// The most tracks of a network.
const MOST_TRACKS: usize = 1_000;

/// A network in the making. Each call names what is there already. A refused call, or one that finds no memory, leaves
/// the builder as it was.
#[derive(Drop)]
pub struct Builder {
    stations: Names,
    track_names: Names,
    tracks: Vec<Track>,
    types: Names,
    running: IndexMap<(u16, u16), Times>,
    headways: IndexMap<(u16, u16, u16), u16>,
    /// By first track, second track, type on the first and type on the second.
    crossings: IndexMap<(u16, u16, u16, u16), u16>,
    /// By station, of those that have a limit.
    limits: IndexMap<u16, u16>,
}

impl Model for Builder {
    ghost use Rattle.optra_network.specs.Net.{Net, IsBuilt};

    ghost Value = { Net };

    ghost use Rattle.optra_network.specs.BuilderParts.{net_of};

    ghost view = { net_of };

    ghost invariant = { λ a. IsBuilt (net_of a) };
}

impl Builder {
    /// A builder of a network with nothing in it, which keeps the allocator.
    pub fn new(alloc: Global) -> Result<Builder, NoMemory>
        ensures { IfOk result (λ net. net ≡ empty_net) }
    {
        Ok(Builder {
            stations: Names::new(alloc),
            track_names: Names::new(alloc),
            tracks: Vec::new(alloc),
            types: Names::new(alloc),
            running: IndexMap::new(alloc),
            headways: IndexMap::new(alloc),
            crossings: IndexMap::new(alloc),
            limits: IndexMap::new(alloc),
        })
    }

    /// Adds a station without a limit, whose id is the next position. The name is a name, which `is_name` tests.
    /// Refusals, in this order: TooMany where 300 stations are there, TakenName where a station has the name.
    pub fn station(&mut self, name: &str) -> Result<StationId, NetFault>
        requires { IsTrue (is_name name.now) }
        ensures rule { FollowsRule (station_refusal self.old name.now) result }
        ensures ok { OnOk result (self.new
            ≡ record self.old { stations = self.old.stations ++ name.now ∷ [] }) }
        ensures id { IfOk result (λ id. id.0 ≡ length self.old.stations) }
        ensures err { OnErr result (self.new ≡ self.old) }
    {
        self.station_limited(name, 0)
    }

    /// Adds a station with the greatest number of trains that may stand in it at once, 1 to 1,000, where 0 is no limit. Its
    /// id is the next position. The name is a name, which `is_name` tests.
    /// Refusals, in this order: TooMany where 300 stations are there, TakenName where a station has the name, Range where
    /// the limit is above 1,000.
    pub fn station_limited(&mut self, name: &str, halt_max: u64) -> Result<StationId, NetFault>
        requires { IsTrue (is_name name.now) }
        ensures rule { FollowsRule (limited_refusal self.old name.now halt_max) result }
        ensures ok { OnOk result (self.new ≡ after_limited self.old name.now halt_max) }
        ensures id { IfOk result (λ id. id.0 ≡ length self.old.stations) }
        ensures err { OnErr result (self.new ≡ self.old) }
    {
        let count = self.stations.len();
        if count >= MOST_STATIONS {
            return Err(NetFault::Refused(NetRefusal::TooMany));
        }
        if self.stations.place(name).is_some() {
            return Err(NetFault::Refused(NetRefusal::TakenName));
        }
        if halt_max > MOST_STANDING {
            return Err(NetFault::Refused(NetRefusal::Range));
        }
        self.limits.reserve(1)?;
        self.stations.add(name)?;
        note_limit(&mut self.limits, count as u16, halt_max as u16);
        Ok(StationId(count as u16))
    }

    /// Adds a train type, whose id is the next position. The name is a name, which `is_name` tests.
    /// Refusals, in this order: TooMany where 16 types are there, TakenName where a type has the name.
    pub fn train_type(&mut self, name: &str) -> Result<TypeId, NetFault>
        requires { IsTrue (is_name name.now) }
        ensures rule { FollowsRule (type_refusal self.old name.now) result }
        ensures ok { OnOk result (self.new
            ≡ record self.old { types = self.old.types ++ name.now ∷ [] }) }
        ensures id { IfOk result (λ id. id.0 ≡ length self.old.types) }
        ensures err { OnErr result (self.new ≡ self.old) }
    {
        let count = self.types.len();
        if count >= MOST_TYPES {
            return Err(NetFault::Refused(NetRefusal::TooMany));
        }
        if self.types.place(name).is_some() {
            return Err(NetFault::Refused(NetRefusal::TakenName));
        }
        self.types.add(name)?;
        Ok(TypeId(count as u16))
    }

    /// Adds a track from one station to another, whose id is the next position. Its own name is a name, which `is_name`
    /// tests; the two stations may be any text.
    /// Refusals, in this order: TooMany where 1,000 tracks are there, TakenName where a track has the name, UnknownName
    /// where a station isn't there, SelfLoop where both ends are one station.
    pub fn track(&mut self, name: &str, from: &str, to: &str) -> Result<TrackId, NetFault>
        requires { IsTrue (is_name name.now) }
        ensures rule { FollowsRule (track_refusal self.old name.now from.now to.now) result }
        ensures ok { OnOk result (after_track self.old name.now from.now to.now ≡ Some self.new) }
        ensures id { IfOk result (λ id. id.0 ≡ length self.old.tracks) }
        ensures err { OnErr result (self.new ≡ self.old) }
    {
        let count = self.tracks.len();
        if count >= MOST_TRACKS {
            return Err(NetFault::Refused(NetRefusal::TooMany));
        }
        if self.track_names.place(name).is_some() {
            return Err(NetFault::Refused(NetRefusal::TakenName));
        }
        let (Some(tail), Some(head)) = (self.stations.place(from), self.stations.place(to)) else {
            return Err(NetFault::Refused(NetRefusal::UnknownName));
        };
        if tail == head {
            return Err(NetFault::Refused(NetRefusal::SelfLoop));
        }
        self.tracks.reserve(1)?;
        self.track_names.add(name)?;
        self.tracks
            .push(Track {
                tail: StationId(tail as u16),
                head: StationId(head as u16),
            })
            .unwrap();
        Ok(TrackId(count as u16))
    }

    /// Lets a type use a track and gives its four running times in minutes: from a pass to a pass, from a pass to a
    /// halt, from a halt to a pass, and from a halt to a halt.
    /// Refusals, in this order: UnknownName where the track or the type isn't there, Range where a time isn't 1 to 240,
    /// Repeated where the type has running times on the track.
    pub fn running(&mut self, track: &str, kind: &str, times: [u64; 4]) -> Result<(), NetFault>
        ensures rule { FollowsRule (running_refusal self.old track.now kind.now times) result }
        ensures ok { OnOk result (after_running self.old track.now kind.now times ≡ Some self.new) }
        ensures err { OnErr result (self.new ≡ self.old) }
    {
        let (Some(t), Some(k)) = (self.track_names.place(track), self.types.place(kind)) else {
            return Err(NetFault::Refused(NetRefusal::UnknownName));
        };
        if !are_minutes(times) {
            return Err(NetFault::Refused(NetRefusal::Range));
        }
        let key = (t as u16, k as u16);
        if self.running.contains_key(&key) {
            return Err(NetFault::Refused(NetRefusal::Repeated));
        }
        let row = Times {
            pass_pass: times[0] as u16,
            pass_halt: times[1] as u16,
            halt_pass: times[2] as u16,
            halt_halt: times[3] as u16,
        };
        self.running.insert(key, row)?;
        Ok(())
    }

    /// Gives the minutes that a train of the second type keeps after one of the first on a track. A type has a headway
    /// to itself too.
    /// Refusals, in this order: UnknownName where the track or a type isn't there, Range where the minutes aren't 1 to
    /// 120, Repeated where the track has a headway for the two types in this order.
    pub fn headway(
        &mut self,
        track: &str,
        first: &str,
        second: &str,
        minutes: u64,
    ) -> Result<(), NetFault>
        ensures rule { FollowsRule (headway_refusal self.old track.now first.now second.now minutes)
            result }
        ensures ok { OnOk result (after_headway self.old track.now first.now second.now minutes
            ≡ Some self.new) }
        ensures err { OnErr result (self.new ≡ self.old) }
    {
        let (Some(t), Some(a), Some(b)) = (
            self.track_names.place(track),
            self.types.place(first),
            self.types.place(second),
        ) else {
            return Err(NetFault::Refused(NetRefusal::UnknownName));
        };
        if minutes < 1 || minutes > 120 {
            return Err(NetFault::Refused(NetRefusal::Range));
        }
        let key = (t as u16, a as u16, b as u16);
        if self.headways.contains_key(&key) {
            return Err(NetFault::Refused(NetRefusal::Repeated));
        }
        self.headways.insert(key, minutes as u16)?;
        Ok(())
    }

    /// Gives the minutes that a train of the second type on the second track keeps after one of the first type on the
    /// first track. The two tracks are different.
    /// Refusals, in this order: UnknownName where a track or a type isn't there, SelfLoop where both tracks are the same,
    /// Range where the minutes aren't 1 to 120, Repeated where the two tracks have a crossing for the two types in this
    /// order.
    pub fn crossing(
        &mut self,
        first_track: &str,
        second_track: &str,
        first: &str,
        second: &str,
        minutes: u64,
    ) -> Result<(), NetFault>
        ensures rule { FollowsRule (crossing_refusal self.old first_track.now second_track.now
            first.now second.now minutes) result }
        ensures ok { OnOk result (after_crossing self.old first_track.now second_track.now first.now
            second.now minutes ≡ Some self.new) }
        ensures err { OnErr result (self.new ≡ self.old) }
    {
        let (Some(t), Some(u), Some(a), Some(b)) = (
            self.track_names.place(first_track),
            self.track_names.place(second_track),
            self.types.place(first),
            self.types.place(second),
        ) else {
            return Err(NetFault::Refused(NetRefusal::UnknownName));
        };
        if t == u {
            return Err(NetFault::Refused(NetRefusal::SelfLoop));
        }
        if minutes == 0 || minutes > 120 {
            return Err(NetFault::Refused(NetRefusal::Range));
        }
        let key = (t as u16, u as u16, a as u16, b as u16);
        if self.crossings.contains_key(&key) {
            return Err(NetFault::Refused(NetRefusal::Repeated));
        }
        self.crossings.insert(key, minutes as u16)?;
        Ok(())
    }

    /// The network that was built. Refusals, in this order: MissingHeadway exactly where two types that may both use a
    /// track, or one type and itself, have no headway on it in one of the two orders; OneWayCrossing exactly where a
    /// crossing isn't there in its other direction; Reach exactly where more than 4,000 uses of other tracks break a
    /// crossing with one use of a type on a track. On a refusal nothing is handed back.
    pub fn finish(self) -> Result<Network, NetFault>
        ensures same { IfOk result (λ net. net ≡ self) }
        ensures complete { OnOk result (HasAllHeadways self) }
        ensures both_ways { OnOk result (HasBothWays self) }
        ensures within_reach { OnOk result (IsWithinReach self) }
        ensures err { IfErr result (IsFinishFault self) }
    {
        let tables = self.complete_tables()?;
        let Builder {
            stations,
            track_names,
            tracks,
            types,
            running,
            headways,
            crossings,
            limits,
        } = self;
        Ok(Network {
            stations,
            track_names,
            tracks,
            types,
            running,
            headways,
            crossings,
            limits,
            tables,
        })
    }
}

/// Notes a station's limit, where it has one. There is room for it.
fn note_limit(limits: &mut IndexMap<u16, u16>, station: u16, halt_max: u16)
    requires room { 0 < spare limits.old }
    requires new { lookup (nat_eq station) limits.old.entries ≡ None }
    ensures { limits.new.entries ≡ with_limit limits.old.entries station halt_max }
{
    if halt_max == 0 {
        return;
    }
    limits.insert(station, halt_max).unwrap();
}

/// Whether each number is 1 to 240.
fn are_minutes(times: [u64; 4]) -> bool
    ensures { result ≡ are_minutes times }
{
    is_minutes(times[0]) && is_minutes(times[1]) && is_minutes(times[2]) && is_minutes(times[3])
}

fn is_minutes(n: u64) -> bool
    ensures { result ≡ is_from_to 1 240 n }
{
    1 <= n && n <= 240
}
