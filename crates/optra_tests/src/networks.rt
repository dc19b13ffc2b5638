//! What a network says of its tables, and when two uses of a track are in conflict.
use crate::instances::{Check, PLAIN, Rows, check_read, same};
use optra_network::{Network, StationId, TrackId, TrackUse, TypeId, conflict};
use optra_walk::Instance;
use std::process::Abort;
use std::test::Fail;

/// Two tracks from A to B, and one each from B to C and back to A. The type fr may use none of them.
static SMALL: Rows = Rows {
    stations: "A\nB\nC\n",
    tracks: "ab,A,B\nbc,B,C\nab2,A,B\nba,B,A\n",
    types: "ic\nre\nfr\n",
    running: "ab,ic,5,6,7,8\nab,re,10,11,12,13\n",
    headways: "ab,ic,ic,4\nab,ic,re,3\nab,re,ic,120\nab,ic,fr,2\nab,re,re,60\n",
    ..PLAIN
};

/// Tracks with their tails and heads.
static TRACKS: [(&str, u16, u16); 4] = [("ab", 0, 1), ("bc", 1, 2), ("ab2", 0, 1), ("ba", 1, 0)];

/// Stations with the tracks that leave them.
static OUT: [(&str, &[TrackId]); 3] = [
    ("A", &[TrackId(0), TrackId(2)]),
    ("B", &[TrackId(1), TrackId(3)]),
    ("C", &[]),
];

/// A track, a type, whether the train stands at the tail and at the head, and its minutes.
static RUNS: [(u16, u16, bool, bool, Option<u16>); 9] = [
    (0, 0, false, false, Some(5)),
    (0, 0, false, true, Some(6)),
    (0, 1, true, false, Some(12)),
    (0, 1, true, true, Some(13)),
    (0, 2, true, true, None),
    (1, 0, true, true, None),
    (4, 0, true, true, None),
    (0, 3, true, true, None),
    (0, 16, true, true, None),
];

/// A track, the first and the second type, and the headway.
static HEADWAYS: [(u16, u16, u16, Option<u16>); 7] = [
    (0, 0, 1, Some(3)),
    (0, 1, 0, Some(120)),
    (0, 0, 2, Some(2)),
    (0, 2, 0, None),
    (1, 0, 0, None),
    (4, 0, 0, None),
    (0, 0, 16, None),
];

/// A track, a type, and the least headway after it. That of ic is 3 and not 2, since fr may not use the track.
static LEAST: [(u16, u16, Option<u16>); 5] = [
    (0, 0, Some(3)),
    (0, 1, Some(60)),
    (0, 2, None),
    (1, 0, None),
    (4, 0, None),
];

fn check_tracks(rt: &impl Abort, net: &Network) {
    same(rt, &net.track_count(), &4);
    for (place, (name, tail, head)) in TRACKS.iter().enumerate() {
        let track = TrackId(place as u16);
        same(rt, &net.track_id(name), &Some(track));
        assert!(rt; track.0 < net.track_count());
        same(rt, &net.track_name(track), name);
        same(rt, &net.tail(track), &StationId(*tail));
        same(rt, &net.head(track), &StationId(*head));
    }
    same(rt, &net.track_id("A"), &None);
}

fn check_stations(rt: &impl Abort, net: &Network) {
    same(rt, &net.station_count(), &3);
    for (place, (name, out)) in OUT.iter().enumerate() {
        let station = StationId(place as u16);
        same(rt, &net.station_id(name), &Some(station));
        assert!(rt; station.0 < net.station_count());
        same(rt, &net.station_name(station), name);
        same(rt, &net.out_tracks(station), out);
    }
    same(rt, &net.station_id("ab"), &None);
}

fn check_types(rt: &impl Abort, net: &Network) {
    same(rt, &net.type_count(), &3);
    for (place, name) in ["ic", "re", "fr"].iter().enumerate() {
        let kind = TypeId(place as u16);
        same(rt, &net.type_id(name), &Some(kind));
        assert!(rt; kind.0 < net.type_count());
        same(rt, &net.type_name(kind), name);
    }
    same(rt, &net.type_id("B"), &None);
}

fn check_minutes(rt: &impl Abort, net: &Network) {
    for (track, kind, from_halt, to_halt, want) in &RUNS {
        let minutes = net.run(TrackId(*track), TypeId(*kind), *from_halt, *to_halt);
        assert_eq!(rt; minutes, *want, "{track} {kind} {from_halt} {to_halt}");
    }
    for (track, first, second, want) in &HEADWAYS {
        let minutes = net.headway(TrackId(*track), TypeId(*first), TypeId(*second));
        assert_eq!(rt; minutes, *want, "{track} {first} {second}");
    }
    for (track, kind, want) in &LEAST {
        let minutes = net.hmin(TrackId(*track), TypeId(*kind));
        assert_eq!(rt; minutes, *want, "{track} {kind}");
    }
}

struct Says;

impl Check for Says {
    fn check<R: Abort + AllocGlobal>(&self, rt: &R, inst: Instance<'_>) -> Result<(), Fail> {
        check_stations(rt, inst.net);
        check_tracks(rt, inst.net);
        check_types(rt, inst.net);
        check_minutes(rt, inst.net);
        Ok(())
    }
}

#[test]
fn a_network_says_what_its_tables_say(rt: HostRuntime) -> Result<(), Fail> {
    check_read(&rt, &SMALL, &Says)
}

/// Whether a train of one type at 200 is in conflict with one of another type at a time, on the first track.
fn meets(rt: &impl Abort, net: &Network, first: u16, second: u16, time: u16) -> bool {
    let track = TrackId(0);
    let (a, b) = (TypeId(first), TypeId(second));
    assert!(rt; net.run(track, a, false, false).is_some());
    assert!(rt; net.run(track, b, false, false).is_some());
    let early = TrackUse {
        track,
        kind: a,
        time: 200,
    };
    let late = TrackUse {
        track,
        kind: b,
        time,
    };
    conflict(net, early, late)
}

/// A second type and its minute, and whether it is in conflict with ic at 200. ic keeps 120 minutes after re, and re keeps 3
/// after ic.
static CONFLICTS: [(u16, u16, bool); 9] = [
    (1, 80, false),
    (1, 81, true),
    (1, 200, true),
    (1, 202, true),
    (1, 203, false),
    (0, 196, false),
    (0, 197, true),
    (0, 203, true),
    (0, 204, false),
];

struct Conflicts;

impl Check for Conflicts {
    fn check<R: Abort + AllocGlobal>(&self, rt: &R, inst: Instance<'_>) -> Result<(), Fail> {
        for (second, time, want) in &CONFLICTS {
            let found = meets(rt, inst.net, 0, *second, *time);
            assert_eq!(rt; found, *want, "{second} at {time}");
        }
        Ok(())
    }
}

#[test]
fn conflicts_end_at_the_headway(rt: HostRuntime) -> Result<(), Fail> {
    check_read(&rt, &SMALL, &Conflicts)
}
