//! Rows of crossings, at values worked by hand.
use crate::crossings::LINE;
use crate::instances::{Check, check_read};
use optra_cross::{CRow, CrossRows};
use optra_network::{Network, TrackId, TypeId};
use optra_walk::{Action, Instance, Leg, RowFamily};
use std::process::Abort;
use std::test::Fail;

const IC: TypeId = TypeId(0);

/// The rows that a leg of ic uses, at a place.
fn touched(rt: &impl Abort, net: &Network, track: u16, depart: u16, k: u32) -> Option<CRow> {
    assert!(rt; depart <= 2879);
    assert!(rt; net.run(TrackId(track), IC, false, false).is_some());
    net.laws();
    let leg = Leg {
        track: TrackId(track),
        depart,
        from_halt: true,
        action: Action::Finish,
    };
    CrossRows::new().touched(net, IC, leg, k)
}

/// A row by its numbers: track, minute and type of the first use and of the second.
type Numbers = (u16, u16, u16, u16, u16, u16);

fn row(numbers: Numbers) -> CRow {
    CRow {
        first_track: TrackId(numbers.0),
        first_at: numbers.1,
        first: TypeId(numbers.2),
        second_track: TrackId(numbers.3),
        second_at: numbers.4,
        second: TypeId(numbers.5),
    }
}

/// A track, a departure, a place, and the row there. After a train on ab none enters ba for 12 minutes, and after one on ba
/// none enters ab for 7. The type fr, which has a crossing too, may use neither track.
static TOUCHED: [(u16, u16, u32, Option<Numbers>); 11] = [
    (0, 100, 0, Some((0, 100, 0, 1, 94, 0))),
    (0, 100, 17, Some((0, 100, 0, 1, 111, 0))),
    (0, 100, 18, None),
    (0, 3, 0, Some((0, 3, 0, 1, 0, 0))),
    (0, 3, 14, Some((0, 3, 0, 1, 14, 0))),
    (0, 3, 15, None),
    (0, 2875, 10, Some((0, 2875, 0, 1, 2879, 0))),
    (0, 2875, 11, None),
    (1, 100, 0, Some((0, 89, 0, 1, 100, 0))),
    (1, 100, 17, Some((0, 106, 0, 1, 100, 0))),
    (1, 100, 18, None),
];

struct RowsTouched;

impl Check for RowsTouched {
    fn check<R: Abort + AllocGlobal>(&self, rt: &R, inst: Instance<'_>) -> Result<(), Fail> {
        for (track, depart, k, want) in &TOUCHED {
            let found = touched(rt, inst.net, *track, *depart, *k);
            assert_eq!(rt; found, want.map(row), "{track} {depart} {k}");
        }
        Ok(())
    }
}

#[test]
fn a_leg_uses_the_rows_of_uses_that_come_too_near(rt: HostRuntime) -> Result<(), Fail> {
    check_read(&rt, &LINE, &RowsTouched)
}
