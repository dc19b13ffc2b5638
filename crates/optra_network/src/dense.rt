//! The dense tables of a network, from which each look-up is an array index.
//!
//! A table by track and type has sixteen places for each track, and one by track and two types has 256, so that a
//! place is found by shifts alone. A running time is 1 to 240 and a headway 1 to 120, so 0 stands for none.
ghost use Rattle.std.specs.Prelude.{◌≡◌, ℕ, ◌+◌, ◌*◌, ◌<◌, ◌≤◌, [], length, map, not, ◌==◌, All, IfOk, replicate, Some, None, if◌then◌else◌};
ghost use Rattle.optra_network.specs.Net.{out_tracks_of};
ghost use Rattle.optra_network.specs.Tables.{no_times, IsPair, IsTriple, found_times, found_headway, HoldsPairs, HoldsTriples, at_pair, at_triple, HoldsOut, HasRange, range_of, AreOut, AreJoined};

use crate::{Crosser, NoMemory, Partner, StationId, Times, Track, TrackId, TypeId};
use indexmap::IndexMap;
use std::alloc::Global;

/// What a network holds ready.
#[derive(Drop)]
pub(crate) struct Tables {
    /// The running times and the headways.
    pub(crate) rows: Rows,
    /// The least headways by track and type.
    pub(crate) leasts: Vec<u16>,
    /// The tracks that leave the stations.
    pub(crate) out: Outgoing,
    /// The partners of a use in pair rows, by track and type.
    pub(crate) partners: Vec<Vec<Partner>>,
    /// The types that have a crossing with a type on a track, by both.
    pub(crate) crossers: Vec<Vec<Crosser>>,
}

/// Running times and headways by place.
#[derive(Drop)]
pub(crate) struct Rows {
    /// By track and type.
    pub(crate) running: Vec<Times>,
    /// By track, first and second type.
    pub(crate) headways: Vec<u16>,
}

/// The tracks that leave the stations, by station and then by track position.
#[derive(Drop)]
pub(crate) struct Outgoing {
    pub(crate) tracks: Vec<TrackId>,
    /// Where each station's tracks begin, and at last where all end.
    pub(crate) starts: Vec<usize>,
}

const NO_TIMES: Times = Times {
    pass_pass: 0,
    pass_halt: 0,
    halt_pass: 0,
    halt_halt: 0,
};

/// None for 0.
pub(crate) fn above_zero(minutes: u16) -> Option<u16>
    ensures { result ≡ (if minutes == 0 then None else Some minutes) }
{
    if minutes == 0 { None } else { Some(minutes) }
}

impl Tables {
    /// The least headway after the type on the track, and 0 where there is none.
    pub(crate) fn least(&self, track: TrackId, kind: TypeId) -> u16
        ensures { result ≡ at_pair 0 self.now.leasts.items track.0 kind.0 }
    {
        least_in(&self.leasts, track, kind)
    }
}

/// The least headway after the type on the track by the table of least headways, and 0 where it has none.
pub(crate) fn least_in(leasts: &[u16], track: TrackId, kind: TypeId) -> u16
    ensures { result ≡ at_pair 0 leasts.now track.0 kind.0 }
{
    if kind.0 >= 16 {
        return 0;
    }
    match leasts.get(track.0 as usize * 16 + kind.0 as usize) {
        Some(minutes) => *minutes,
        None => 0,
    }
}

impl Rows {
    pub(crate) fn new(
        alloc: Global,
        tracks: usize,
        running: &IndexMap<(u16, u16), Times>,
        headways: &IndexMap<(u16, u16, u16), u16>,
    ) -> Result<Rows, NoMemory>
        requires few { tracks ≤ 1000 }
        requires of_pairs { All (λ row. IsPair tracks row.0) running.now.entries }
        requires of_triples { All (λ row. IsTriple tracks row.0) headways.now.entries }
        ensures running { IfOk result (λ rows. HoldsPairs (found_times running.now.entries) tracks
            rows.running.items) }
        ensures headways { IfOk result (λ rows. HoldsTriples (found_headway headways.now.entries)
            tracks rows.headways.items) }
    {
        Ok(Rows {
            running: running_table(alloc, tracks, running)?,
            headways: headway_table(alloc, tracks, headways)?,
        })
    }

    /// The running times of the type on the track, and all 0 where there are none.
    pub(crate) fn times(&self, track: TrackId, kind: TypeId) -> Times
        ensures { result ≡ at_pair no_times self.now.running.items track.0 kind.0 }
    {
        if kind.0 >= 16 {
            return NO_TIMES;
        }
        match self.running.get(track.0 as usize * 16 + kind.0 as usize) {
            Some(times) => *times,
            None => NO_TIMES,
        }
    }

    /// Whether the type has running times on the track.
    pub(crate) fn may_use(&self, track: TrackId, kind: TypeId) -> bool
        ensures { result
            ≡ not ((at_pair no_times self.now.running.items track.0 kind.0).pass_pass == 0) }
    {
        self.times(track, kind).pass_pass != 0
    }

    /// The headway between the types on the track, and 0 where there is none.
    pub(crate) fn headway(&self, track: TrackId, first: TypeId, second: TypeId) -> u16
        ensures { result ≡ at_triple 0 self.now.headways.items track.0 first.0 second.0 }
    {
        if first.0 >= 16 || second.0 >= 16 {
            return 0;
        }
        let row = track.0 as usize * 16 + first.0 as usize;
        match self.headways.get(row * 16 + second.0 as usize) {
            Some(minutes) => *minutes,
            None => 0,
        }
    }
}

impl Outgoing {
    /// The tracks that leave the station.
    pub(crate) fn of(&self, station: StationId) -> &[TrackId]
        requires { HasRange self.now station.0 }
        ensures { result.now ≡ range_of self.now station.0 }
    {
        let place = station.0 as usize;
        &self.tracks[self.starts[place]..self.starts[place + 1]]
    }

    /// From a list for each station.
    fn joined(alloc: Global, lists: &[Vec<TrackId>]) -> Result<Outgoing, NoMemory>
        ensures { IfOk result (AreJoined (map (λ list. list.items) lists.now)) }
    {
        let mut tracks = Vec::new(alloc);
        let mut starts = Vec::new(alloc);
        for list in lists {
            starts.push(tracks.len())?;
            tracks.extend_from_slice(list)?;
        }
        starts.push(tracks.len())?;
        Ok(Outgoing { tracks, starts })
    }

    pub(crate) fn new(
        alloc: Global,
        stations: usize,
        tracks: &[Track],
    ) -> Result<Outgoing, NoMemory>
        requires few { length tracks.now ≤ 1000 }
        requires ends { All (λ t. t.tail.0 < stations) tracks.now }
        ensures { IfOk result (AreOut tracks.now stations) }
    {
        let lists = out_lists(alloc, stations, tracks)?;
        Outgoing::joined(alloc, &lists)
    }
}

/// The tracks that leave each station, in one pass over the tracks.
fn out_lists(
    alloc: Global,
    stations: usize,
    tracks: &[Track],
) -> Result<Vec<Vec<TrackId>>, NoMemory>
    requires few { length tracks.now ≤ 1000 }
    requires ends { All (λ t. t.tail.0 < stations) tracks.now }
    ensures { IfOk result (λ lists. HoldsOut tracks.now (length tracks.now) stations
        (map (λ list. list.items) lists.items)) }
{
    let mut lists = empty_lists(alloc, stations)?;
    for place in 0..tracks.len() {
        let tail = tracks[place].tail.0 as usize;
        lists[tail].push(TrackId(place as u16))?;
    }
    Ok(lists)
}

/// So many empty lists.
pub(crate) fn empty_lists<T: Drop>(alloc: Global, count: usize) -> Result<Vec<Vec<T>>, NoMemory>
    ensures { IfOk result (λ lists. map (λ list. list.items) lists.items ≡ replicate count []) }
{
    let mut lists = Vec::new(alloc);
    'lists: for _ in 0..count {
        lists.push(Vec::new(alloc))?;
    }
    Ok(lists)
}

/// The running times by track and type, row by row.
fn running_table(
    alloc: Global,
    tracks: usize,
    rows: &IndexMap<(u16, u16), Times>,
) -> Result<Vec<Times>, NoMemory>
    requires few { tracks ≤ 1000 }
    requires of_pairs { All (λ row. IsPair tracks row.0) rows.now.entries }
    ensures { IfOk result (λ table. HoldsPairs (found_times rows.now.entries) tracks table.items) }
{
    let mut table = Vec::new(alloc);
    table.resize(tracks * 16, NO_TIMES)?;
    for i in 0..rows.len() {
        if let Some((&(track, kind), &times)) = rows.get_index(i) {
            table[track as usize * 16 + kind as usize] = times;
        }
    }
    Ok(table)
}

/// The headways by track, first and second type, row by row.
fn headway_table(
    alloc: Global,
    tracks: usize,
    rows: &IndexMap<(u16, u16, u16), u16>,
) -> Result<Vec<u16>, NoMemory>
    requires few { tracks ≤ 1000 }
    requires of_triples { All (λ row. IsTriple tracks row.0) rows.now.entries }
    ensures { IfOk result (λ table. HoldsTriples (found_headway rows.now.entries) tracks
        table.items) }
{
    let mut table = Vec::new(alloc);
    table.resize(tracks * 256, 0)?;
    for i in 0..rows.len() {
        if let Some((&(track, first, second), &minutes)) = rows.get_index(i) {
            table[(track as usize * 16 + first as usize) * 16 + second as usize] = minutes;
        }
    }
    Ok(table)
}
