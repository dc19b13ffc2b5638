//! Rows of platforms, at values worked by hand.
ghost use Rattle.std.specs.Prelude.{◌≡◌, true};
ghost use Rattle.optra_walk.specs.Legs.{dwell_of};

use crate::crossings::LINE;
use crate::instances::{Check, check_read};
use optra_network::{Network, StationId, TrackId, TypeId};
use optra_platform::{PRow, PlatformRows};
use optra_walk::{Action, Instance, Leg, RowFamily};
use std::process::Abort;
use std::test::Fail;

const IC: TypeId = TypeId(0);

fn dwell(action: Action) -> u16
    ensures { result ≡ dwell_of action }
{
    match action {
        Action::Halt(dwell) | Action::Wait(dwell) => dwell,
        Action::Pass | Action::Finish => 0,
    }
}

fn leg(track: u16, depart: u16, action: Action) -> Leg
    ensures { result
        ≡ record
        { track = record { 0 = track }; depart = depart; from_halt = true; action = action } }
{
    Leg {
        track: TrackId(track),
        depart,
        from_halt: true,
        action,
    }
}

/// The row at a place of those that a leg uses.
fn touched(
    rt: &impl Abort,
    net: &Network,
    track: u16,
    depart: u16,
    action: Action,
    k: u32,
) -> Option<PRow> {
    assert!(rt; depart <= 2879);
    assert!(rt; dwell(action) <= 240);
    assert!(rt; net.run(TrackId(track), IC, false, false).is_some());
    net.laws();
    PlatformRows::new().touched(net, IC, leg(track, depart, action), k)
}

/// A track, a departure, what the train does at its head ten minutes later, and the minute of the row at a place. Track 0
/// leads to a station where one train may stand, track 1 to one without a limit.
static TOUCHED: [(u16, u16, Action, u32, Option<u16>); 14] = [
    (0, 0, Action::Halt(5), 0, Some(10)),
    (0, 0, Action::Halt(5), 4, Some(14)),
    (0, 0, Action::Halt(5), 5, None),
    (0, 0, Action::Halt(0), 0, None),
    (0, 7, Action::Wait(1), 0, Some(17)),
    (0, 7, Action::Wait(1), 1, None),
    (0, 0, Action::Pass, 0, None),
    (0, 0, Action::Finish, 0, None),
    (0, 0, Action::Halt(240), 239, Some(249)),
    (0, 0, Action::Halt(240), 240, None),
    (0, 2869, Action::Halt(240), 0, Some(2879)),
    (0, 2869, Action::Halt(240), 1, None),
    (0, 2870, Action::Halt(240), 0, None),
    (1, 0, Action::Halt(5), 0, None),
];

struct RowsTouched;

impl Check for RowsTouched {
    fn check<R: Abort + AllocGlobal>(&self, rt: &R, inst: Instance<'_>) -> Result<(), Fail> {
        for (track, depart, action, k, minute) in &TOUCHED {
            let row = touched(rt, inst.net, *track, *depart, *action, *k);
            let want = minute.map(|minute| PRow {
                station: StationId(1),
                minute,
            });
            assert_eq!(rt; row, want, "{track} {depart} {k}");
        }
        Ok(())
    }
}

#[test]
fn a_leg_uses_the_minutes_in_which_it_stands(rt: HostRuntime) -> Result<(), Fail> {
    check_read(&rt, &LINE, &RowsTouched)
}

/// How much a halt of 5 minutes at the limited station, from minute 10 on, uses of a row.
fn used(rt: &impl Abort, net: &Network, station: u16, minute: u16) -> u32 {
    let action = Action::Halt(5);
    assert!(rt; dwell(action) <= 240);
    assert!(rt; net.run(TrackId(0), IC, false, false).is_some());
    net.laws();
    let row = PRow {
        station: StationId(station),
        minute,
    };
    PlatformRows::new().leg_use(net, IC, leg(0, 0, action), row)
}

/// A station, a minute, and how much the halt uses there.
static USED: [(u16, u16, u32); 5] = [(1, 9, 0), (1, 10, 1), (1, 14, 1), (1, 15, 0), (0, 10, 0)];

/// A station, a minute, and how many trains may stand there, where that is a row.
static ROWS: [(u16, u16, Option<u32>); 3] = [(1, 2879, Some(1)), (1, 2880, None), (0, 2879, None)];

/// How many trains may stand at a station in a minute, where that is a row.
fn limit(net: &Network, station: u16, minute: u16) -> Option<u32> {
    let row = PRow {
        station: StationId(station),
        minute,
    };
    let rows = PlatformRows::new();
    if rows.is_row(net, row) {
        Some(rows.cap(net, row))
    } else {
        None
    }
}

struct Limits;

impl Check for Limits {
    fn check<R: Abort + AllocGlobal>(&self, rt: &R, inst: Instance<'_>) -> Result<(), Fail> {
        for (station, minute, want) in &USED {
            let uses = used(rt, inst.net, *station, *minute);
            assert_eq!(rt; uses, *want, "{station} {minute}");
        }
        for (station, minute, want) in &ROWS {
            let limit = limit(inst.net, *station, *minute);
            assert_eq!(rt; limit, *want, "{station} {minute}");
        }
        Ok(())
    }
}

#[test]
fn a_station_has_rows_up_to_its_limit(rt: HostRuntime) -> Result<(), Fail> {
    check_read(&rt, &LINE, &Limits)
}
