//! Which states may come into a walk, by the minutes that trains take at least between stations.
ghost use Rattle.std.specs.Prelude.{◌≡◌, ◌+◌, ◌≤◌, ◌<◌, ◌↔◌, length, map, sum, ℕ, false, true, Some, slice_get, slice_index, slice_index_or, [], IfOk, IsTrue};
ghost use Rattle.optra_network.specs.Net.{IsStation, track_id};
ghost use Rattle.std.specs.Option.{option_map};
ghost use Rattle.optra_bid.specs.Specs.{IsPathOn};
ghost use Rattle.optra_rests.specs.Reaches.{near_of, far_of, IsQuickest, IsLeastAlong, AreLeast, IsNear, IsWithoutFar, SkipsFar, first_of, place_after, AreLevels, levels_of, behind_of, from_origin, to_destination, IsAhead, WasTime, IsReach, IsReached, IsInTime};

use crate::ways::kind_of;
use optra_bid::{Bid, Stop};
use optra_network::{Network, NoMemory, StationId, TrackId, TypeId};
use optra_walk::State;
use std::alloc::Global;

/// How many minutes the bid's trains take at least from its origin to each station, and from there
/// to its destination.
#[derive(Drop)]
pub(crate) struct Reach {
    /// For each number of first stations, how many they are without the last ones to which no train
    /// of the bid comes.
    pub skips: Vec<u16>,
    /// For each number of stops left, the least minutes from each station on to the destination by
    /// way of them.
    pub ahead: Vec<Vec<u16>>,
    /// For each number of stops done, the least minutes from the origin to each station by way of
    /// them.
    pub behind: Vec<Vec<u16>>,
}

/// The least minutes of the type on the track, over the modes at its ends.
fn quickest(net: &Network, track: TrackId, kind: TypeId) -> Option<u16>
    ensures { IsQuickest net.now track kind result }
{
    let pass_pass = net.run(track, kind, false, false)?;
    let pass_halt = net.run(track, kind, false, true)?;
    let halt_pass = net.run(track, kind, true, false)?;
    let halt_halt = net.run(track, kind, true, true)?;
    Some(pass_pass.min(pass_halt).min(halt_pass.min(halt_halt)))
}

/// The end at which the track begins, and the other one; going back it begins at its head.
fn ends(net: &Network, track: TrackId, back: bool) -> (StationId, StationId)
    requires { track.0 < length net.now.tracks }
    ensures near { option_map (near_of back) (slice_get net.now.tracks track.0) ≡ Some result.0 }
    ensures far { option_map (far_of back) (slice_get net.now.tracks track.0) ≡ Some result.1 }
    ensures near_in { IsStation net.now result.0 }
    ensures far_in { IsStation net.now result.1 }
{
    let (tail, head) = (net.tail(track), net.head(track));
    if back { (head, tail) } else { (tail, head) }
}

/// Lowers the minutes of the track's far end to those by the track, where they are fewer. Says
/// whether they were.
fn lower_by(net: &Network, kind: TypeId, back: bool, least: &mut [u16], track: TrackId) -> bool
    requires len { length least.old ≡ length net.now.stations }
    requires track { track.0 < length net.now.tracks }
    ensures lowered { IsTrue result → sum least.new < sum least.old }
    ensures stays { result ≡ false → (least.new ≡ least.old)
        × IsLeastAlong net.now kind back least.new track }
    ensures no_more { (k : ℕ) → slice_index least.new k ≤ slice_index least.old k }
{
    let (near, far) = ends(net, track, back);
    if least[far.0 as usize] <= least[near.0 as usize] {
        return false;
    }
    let Some(minutes) = quickest(net, track, kind) else {
        return false;
    };
    let there = least[near.0 as usize].saturating_add(minutes);
    if least[far.0 as usize] <= there {
        return false;
    }
    least[far.0 as usize] = there;
    true
}

/// One pass over all tracks, from the first to the last. Says whether it lowered a number.
fn lower_on(net: &Network, kind: TypeId, back: bool, least: &mut [u16]) -> bool
    requires len { length least.old ≡ length net.now.stations }
    ensures lowered { IsTrue result → sum least.new < sum least.old }
    ensures stays { result ≡ false → (n : ℕ) → n < length net.now.tracks
        → IsLeastAlong net.now kind back least.new (track_id n) }
    ensures no_more { (k : ℕ) → slice_index least.new k ≤ slice_index least.old k }
    ensures sums { sum least.new ≤ sum least.old }
    ensures same { result ≡ false → least.new ≡ least.old }
{
    let mut lowered = false;
    for n in 0..net.track_count() {
        if lower_by(net, kind, back, least, TrackId(n)) {
            lowered = true;
        }
    }
    lowered
}

/// One pass over all tracks, from the last to the first. Says whether it lowered a number.
fn lower_down(net: &Network, kind: TypeId, back: bool, least: &mut [u16]) -> bool
    requires len { length least.old ≡ length net.now.stations }
    ensures lowered { IsTrue result → sum least.new < sum least.old }
    ensures no_more { (k : ℕ) → slice_index least.new k ≤ slice_index least.old k }
    ensures sums { sum least.new ≤ sum least.old }
    ensures same { result ≡ false → least.new ≡ least.old }
{
    let mut lowered = false;
    let count = net.track_count();
    for n in 0..count {
        if lower_by(net, kind, back, least, TrackId(count - 1 - n)) {
            lowered = true;
        }
    }
    lowered
}

/// A pass over all tracks in their order, and one in the other: lines of tracks are gone along in
/// either. Says whether it lowered a number.
fn lower(net: &Network, kind: TypeId, back: bool, least: &mut [u16]) -> bool
    requires len { length least.old ≡ length net.now.stations }
    ensures lowered { IsTrue result → sum least.new < sum least.old }
    ensures stays { result ≡ false → (n : ℕ) → n < length net.now.tracks
        → IsLeastAlong net.now kind back least.new (track_id n) }
    ensures no_more { (k : ℕ) → slice_index least.new k ≤ slice_index least.old k }
{
    if !lower_on(net, kind, back, least) {
        return false;
    }
    let _ = lower_down(net, kind, back, least);
    true
}

/// For each station so many and the least minutes of trains of the type from a station to it, or
/// back from it; at most so many as no walk has, where nothing more is to be known.
fn least_minutes(
    alloc: Global,
    net: &Network,
    kind: TypeId,
    back: bool,
    at: StationId,
    start: u16,
    most: u16,
) -> Result<Vec<u16>, NoMemory>
    requires { IsStation net.now at }
    ensures { IfOk result (λ least. AreLeast net.now kind back at start least.items) }
{
    let mut least = vec![in alloc; most; net.station_count() as usize]?;
    least[at.0 as usize] = start;
    'passes: while lower(net, kind, back, &mut least) {}
    Ok(least)
}

/// More minutes than a walk of the bid has.
fn too_long(bid: &Bid) -> u16 {
    let path = &bid.path;
    path.arrive
        .to
        .saturating_sub(path.depart.from)
        .saturating_add(1)
}

/// Whether a train of the bid may come to a station that is so far from both ends, and still end
/// its walk in time.
fn is_near(bid: &Bid, from_origin: u16, to_destination: u16) -> bool
    ensures { IsTrue result ↔ (bid.now.path.depart.from + from_origin + to_destination
        ≤ bid.now.path.arrive.to) }
{
    let path = &bid.path;
    u32::from(path.depart.from) + u32::from(from_origin) + u32::from(to_destination)
        <= u32::from(path.arrive.to)
}

/// For each number of first stations, how many they are without the last ones that are far.
fn skip_far(
    alloc: Global,
    bid: &Bid,
    count: u16,
    from_origin: &[u16],
    to_destination: &[u16],
) -> Result<Vec<u16>, NoMemory>
    requires same { length to_destination.now ≡ length from_origin.now }
    requires count { length from_origin.now ≡ count }
    ensures { IfOk result (λ skips. SkipsFar bid.now.path from_origin.now to_destination.now
        skips.items) }
{
    let mut skips = vec![in alloc; 0; 1]?;
    let mut near = 0;
    'stations: for station in 0..count {
        let place = station as usize;
        if is_near(bid, from_origin[place], to_destination[place]) {
            near = station + 1;
        }
        skips.push(near)?;
    }
    Ok(skips)
}

/// The end of the bid's walks from which minutes are counted: its destination going back, else its
/// origin.
fn first_end(net: &Network, bid: &Bid, back: bool) -> StationId
    requires { IsPathOn net.now bid.now.path }
    ensures first { result ≡ first_of back bid.now.path }
    ensures there { IsStation net.now result }
{
    let _ = net;
    let path = &bid.path;
    if back { path.destination } else { path.origin }
}

/// The stop behind so many, as counted from that end.
fn stop_after(net: &Network, bid: &Bid, back: bool, passed: usize) -> Stop
    requires path { IsPathOn net.now bid.now.path }
    requires within { passed < length bid.now.path.stops }
    ensures stop { slice_get bid.now.path.stops
        (place_after back (length bid.now.path.stops) passed) ≡ Some result }
    ensures there { IsStation net.now result.station }
{
    let _ = net;
    let stops = stops_of(bid);
    let place = if back {
        stops.len() - 1 - passed
    } else {
        passed
    };
    stops[place]
}

/// The stops of a bid.
fn stops_of(bid: &Bid) -> &[Stop]
    ensures { result.now ≡ bid.now.path.stops }
{
    &bid.path.stops
}

/// For each number of stops, the least minutes from the origin to each station by way of so many
/// first ones; going back, from each station on to the destination by way of so many last ones.
fn find_levels(
    alloc: Global,
    net: &Network,
    bid: &Bid,
    back: bool,
) -> Result<Vec<Vec<u16>>, NoMemory>
    requires { IsPathOn net.now bid.now.path }
    ensures { IfOk result (λ levels. AreLevels net.now bid.now.path back (map (λ level. level.items)
        levels.items) (length bid.now.path.stops)) }
{
    let kind = kind_of(bid);
    let most = too_long(bid);
    let end = first_end(net, bid, back);
    let mut levels = Vec::new(alloc);
    levels.push(least_minutes(alloc, net, kind, back, end, 0, most)?)?;
    'stops: for passed in 0..stops_of(bid).len() {
        let stop = stop_after(net, bid, back, passed);
        let start = minutes_by(&levels, passed, stop.station).saturating_add(stop.min_dwell);
        let level = least_minutes(alloc, net, kind, back, stop.station, start, most)?;
        levels.push(level)?;
    }
    Ok(levels)
}

/// The minutes for so many stops.
fn level_of(levels: &[Vec<u16>], count: usize) -> &[u16]
    requires { count < length levels.now }
    ensures { result.now ≡ slice_index_or (map (λ level. level.items) levels.now) count [] }
{
    &levels[count]
}

/// The minutes of a station by way of so many stops.
pub(crate) fn minutes_by(levels: &[Vec<u16>], count: usize, station: StationId) -> u16
    requires { station.0
        < length (slice_index_or (map (λ level. level.items) levels.now) count []) }
    ensures { result ≡ slice_index (slice_index_or (map (λ level. level.items) levels.now) count [])
        station.0 }
{
    level_of(levels, count)[station.0 as usize]
}

/// The least minutes between the bid's ends and each station.
pub(crate) fn make_reach(alloc: Global, net: &Network, bid: &Bid) -> Result<Reach, NoMemory>
    requires { IsPathOn net.now bid.now.path }
    ensures { IfOk result (IsReach net.now bid.now.path) }
{
    let ahead = find_levels(alloc, net, bid, true)?;
    let behind = find_levels(alloc, net, bid, false)?;
    let skips = skip_far(
        alloc,
        bid,
        net.station_count(),
        level_of(&behind, 0),
        level_of(&ahead, 0),
    )?;
    Ok(Reach {
        skips,
        ahead,
        behind,
    })
}

impl Reach {
    /// Whether a train of the bid may be in the state, and from there still end its walk in time.
    pub(crate) fn has(&self, bid: &Bid, state: State) -> bool
        requires from { state.station.0 < length (from_origin self.now) }
        requires on { state.station.0 < length (to_destination self.now) }
        ensures { IsTrue result ↔ (IsReached bid.now.path self.now state
            × IsInTime bid.now.path self.now state) }
    {
        let minute = u32::from(state.minute);
        let from = u32::from(minutes_by(&self.behind, 0, state.station));
        let on = u32::from(minutes_by(&self.ahead, 0, state.station));
        u32::from(bid.path.depart.from) + from <= minute
            && minute + on <= u32::from(bid.path.arrive.to)
    }

    /// How many of so many first stations are left without the last ones that are far.
    pub(crate) fn without_far(&self, bid: &Bid, count: u16) -> u16
        requires far { SkipsFar bid.now.path (from_origin self.now) (to_destination self.now)
            self.now.skips.items }
        requires count { count ≤ length (from_origin self.now) }
        ensures { IsWithoutFar bid.now.path (from_origin self.now) (to_destination self.now) count
            result }
    {
        let _ = bid;
        self.skips[count as usize]
    }

    /// Whether a walk may still end in time from the state that has the stops left that it has.
    pub(crate) fn is_ahead(&self, net: &Network, bid: &Bid, state: State) -> bool
        requires ahead { AreLevels net.now bid.now.path true (levels_of self.now)
            (length bid.now.path.stops) }
        requires done { state.done ≤ length bid.now.path.stops }
        requires station { state.station.0 < length net.now.stations }
        ensures { IsTrue result ↔ IsAhead bid.now.path self.now state }
    {
        let _ = net;
        let left = stops_of(bid).len() - state.done as usize;
        let on = u32::from(minutes_by(&self.ahead, left, state.station));
        u32::from(state.minute) + on <= u32::from(bid.path.arrive.to)
    }

    /// Whether there was time for a walk to come to the state by way of the stops that it has done.
    pub(crate) fn was_time(&self, net: &Network, bid: &Bid, state: State) -> bool
        requires behind { AreLevels net.now bid.now.path false (behind_of self.now)
            (length bid.now.path.stops) }
        requires done { state.done ≤ length bid.now.path.stops }
        requires station { state.station.0 < length net.now.stations }
        ensures { IsTrue result ↔ WasTime bid.now.path self.now state }
    {
        let _ = net;
        let done = state.done as usize;
        let from = u32::from(minutes_by(&self.behind, done, state.station));
        u32::from(bid.path.depart.from) + from <= u32::from(state.minute)
    }
}
