//! Crossings between tracks and limits of stations, from tables of version 2 into a network.
use crate::instances::{Check, PLAIN, Rows, check_read};
use optra_network::{StationId, TrackId, TypeId};
use optra_walk::Instance;
use std::process::Abort;
use std::test::Fail;

/// A track each way between A, where any number may stand, and B, where one train may. The type ic may use both tracks, and
/// fr neither. The two directions of their crossing differ.
pub static LINE: Rows = Rows {
    stations: "A,0\nB,1\n",
    tracks: "ab,A,B\nba,B,A\n",
    types: "ic\nfr\n",
    running: "ab,ic,10,10,10,10\nba,ic,10,10,10,10\n",
    headways: "ab,ic,ic,5\nba,ic,ic,5\n",
    crossings: Some("ab,ba,ic,ic,12\nba,ab,ic,ic,7\nab,ba,ic,fr,120\nba,ab,fr,ic,1\n"),
    ..PLAIN
};

/// First track, second track, first type, second type, and the crossing's minutes.
static CROSSINGS: [(u16, u16, u16, u16, Option<u16>); 6] = [
    (0, 1, 0, 0, Some(12)),
    (1, 0, 0, 0, Some(7)),
    (0, 1, 0, 1, Some(120)),
    (1, 0, 1, 0, Some(1)),
    (0, 1, 1, 0, None),
    (0, 0, 0, 0, None),
];

struct CrossingsAndLimits;

impl Check for CrossingsAndLimits {
    fn check<R: Abort + AllocGlobal>(&self, rt: &R, inst: Instance<'_>) -> Result<(), Fail> {
        let net = inst.net;
        for (a, b, first, second, want) in &CROSSINGS {
            let minutes = net.crossing(TrackId(*a), TrackId(*b), TypeId(*first), TypeId(*second));
            assert_eq!(rt; minutes, *want, "{a} {b} {first} {second}");
        }
        assert!(rt; net.station_count() == 2);
        assert_eq!(rt; net.halt_max(StationId(0)), 0);
        assert_eq!(rt; net.halt_max(StationId(1)), 1);
        Ok(())
    }
}

#[test]
fn tables_of_version_2_give_crossings_and_limits(rt: HostRuntime) -> Result<(), Fail> {
    check_read(&rt, &LINE, &CrossingsAndLimits)
}
