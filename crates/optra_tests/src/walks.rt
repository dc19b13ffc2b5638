//! Legs, walks and their values, walk order, and conflicts between uses, worked by hand.
use crate::instances::{Check, Rows, check_read, same};
use optra_bid::Bid;
use optra_network::{Cents, Minute, Network, TrackId, TrackUse, TypeId, conflict};
use optra_walk::{Action, Instance, Leg, arrival, follows, next_depart, value, walk_order};
use std::cmp::Ordering;
use std::process::Abort;
use std::test::Fail;

const AB: TrackId = TrackId(0);

const BC: TrackId = TrackId(1);

const BA: TrackId = TrackId(2);

const SLOW: TypeId = TypeId(0);

const FAST: TypeId = TypeId(1);

/// Three stations, two of which tracks join both ways, and a headway of 4 one way and 1 the other. The bids are from A
/// with base 1000; the rates are 10 and 20 for an early and a late departure, 30 and 40 for an early and a late arrival, 1
/// for travel and 7 for waits of at most 5 minutes.
static BIDS: Rows = Rows {
    stations: "A\nB\nC\n",
    tracks: "ab,A,B\nbc,B,C\nba,B,A\n",
    types: "slow\nfast\n",
    running: "ab,slow,10,11,12,14\nbc,slow,20,21,22,24\nba,slow,5,6,7,8\nab,fast,1,1,1,1\n",
    headways: "ab,slow,slow,30\nab,slow,fast,4\nab,fast,slow,1\nab,fast,fast,1\nbc,slow,slow,1\nba,slow,slow,1\n",
    crossings: None,
    bids: "early,ann,slow,A,B,2,5,8,0,20,2879,1000,10,20,30,40,1,7,5\nspan,ann,slow,A,B,0,5,20,16,20,23,1000,10,20,30,40,1,7,5\nfree,ann,slow,A,C,0,0,10,0,40,100,1000,10,20,30,40,1,7,5\nhalt,ann,slow,A,C,0,0,10,0,40,100,1000,10,20,30,40,1,7,5\nb-then-a,ann,slow,A,C,0,0,10,0,40,100,1000,10,20,30,40,1,7,5\na-then-b,ann,slow,A,C,0,0,10,0,40,100,1000,10,20,30,40,1,7,5\nb-alone,ann,slow,A,C,0,0,10,0,40,100,1000,10,20,30,40,1,7,5\n",
    stops: "halt,B,2,4,14,15\nb-then-a,B,2,4,0,100\nb-then-a,A,2,4,0,100\na-then-b,A,2,4,0,100\na-then-b,B,2,4,0,100\nb-alone,B,2,4,0,100\n",
};

fn leg(track: TrackId, depart: Minute, from_halt: bool, action: Action) -> Leg {
    Leg {
        track,
        depart,
        from_halt,
        action,
    }
}

/// The value, where the legs are a walk.
fn worth(net: &Network, bid: &Bid, legs: &[Leg]) -> Option<Cents> {
    if follows(net, bid, legs) {
        Some(value(net, bid, legs))
    } else {
        None
    }
}

/// Whether a slow train and another one are in conflict on the track from A to B.
fn in_conflict(net: &Network, slow: Minute, kind: TypeId, time: Minute) -> Option<bool> {
    net.run(AB, SLOW, true, true)?;
    net.run(AB, kind, true, true)?;
    let first = TrackUse {
        track: AB,
        kind: SLOW,
        time: slow,
    };
    let second = TrackUse {
        track: AB,
        kind,
        time,
    };
    Some(conflict(net, first, second))
}

fn check_legs(
    rt: &impl Abort,
    net: &Network,
    rows: &[(TypeId, bool, Action, Option<u32>, Option<u32>)],
) {
    for (kind, from_halt, action, arrives, goes_on) in rows {
        let leg = leg(AB, 100, *from_halt, *action);
        same(rt, &arrival(net, *kind, leg), arrives);
        same(rt, &next_depart(net, *kind, leg), goes_on);
    }
}

fn check_headways(rt: &impl Abort, net: &Network, rows: &[(Minute, TypeId, Minute, bool)]) {
    for (slow, kind, time, want) in rows {
        same(rt, &in_conflict(net, *slow, *kind, *time), &Some(*want));
    }
}

fn check_order(rt: &impl Abort, rows: &[(Minute, TrackId, Action, Ordering)]) {
    for (depart, track, action, want) in rows {
        let a = [leg(AB, 2, true, Action::Halt(30))];
        let b = [leg(*track, *depart, true, *action)];
        same(rt, &walk_order(&a, &b), want);
    }
}

/// One leg from A to B, which runs 14 minutes, by its departure.
fn check_one_leg(rt: &impl Abort, net: &Network, bid: &Bid, rows: &[(Minute, Option<Cents>)]) {
    for (minute, want) in rows {
        same(
            rt,
            &worth(net, bid, &[leg(AB, *minute, true, Action::Finish)]),
            want,
        );
    }
}

/// A departure, a mode and an action on the track from A to B; a departure and a mode on the track from B to C.
type TwoLegs = (Minute, bool, Action, Minute, bool);

fn check_two_legs(rt: &impl Abort, net: &Network, bid: &Bid, rows: &[(TwoLegs, Option<Cents>)]) {
    for ((depart, from_halt, action, then, then_from_halt), want) in rows {
        let legs = [
            leg(AB, *depart, *from_halt, *action),
            leg(BC, *then, *then_from_halt, Action::Finish),
        ];
        same(rt, &worth(net, bid, &legs), want);
    }
}

/// A walk that halts at B, goes back to A, halts there, and runs through B to C, where it arrives at 59.
static THERE_AND_BACK: [Leg; 4] = [
    Leg {
        track: AB,
        depart: 0,
        from_halt: true,
        action: Action::Halt(2),
    },
    Leg {
        track: BA,
        depart: 16,
        from_halt: true,
        action: Action::Halt(2),
    },
    Leg {
        track: AB,
        depart: 26,
        from_halt: true,
        action: Action::Pass,
    },
    Leg {
        track: BC,
        depart: 38,
        from_halt: false,
        action: Action::Finish,
    },
];

/// Departures of one leg from A to B, and what the walk is worth. At 2 it is 3 minutes early and arrives 4 early; at 8 it is
/// 3 minutes late and arrives 2 late.
static EARLY: [(Minute, Option<Cents>); 6] = [
    (1, None),
    (2, Some(836)),
    (5, Some(956)),
    (6, Some(966)),
    (8, Some(846)),
    (9, None),
];

static SPAN: [(Minute, Option<Cents>); 4] = [(1, None), (2, Some(836)), (9, Some(786)), (10, None)];

/// Those that are walks arrive at 33, 39 and 43.
static FREE: [(TwoLegs, Option<Cents>); 11] = [
    ((0, true, Action::Pass, 12, false), Some(757)),
    ((0, true, Action::Pass, 12, true), None),
    ((0, true, Action::Pass, 13, false), None),
    ((0, false, Action::Pass, 10, false), None),
    ((0, true, Action::Wait(0), 14, true), None),
    ((0, true, Action::Wait(1), 15, true), Some(924)),
    ((0, true, Action::Wait(5), 19, true), Some(802)),
    ((0, true, Action::Wait(5), 19, false), None),
    ((0, true, Action::Wait(6), 20, true), None),
    ((0, true, Action::Finish, 14, true), None),
    ((0, true, Action::Halt(2), 16, true), None),
];

/// Those that are walks arrive at 40, 42 and 41.
static HALT: [(TwoLegs, Option<Cents>); 8] = [
    ((0, true, Action::Halt(1), 15, true), None),
    ((0, true, Action::Halt(2), 16, true), Some(960)),
    ((0, true, Action::Halt(4), 18, true), Some(878)),
    ((0, true, Action::Halt(5), 19, true), None),
    ((1, true, Action::Halt(2), 17, true), Some(900)),
    ((2, true, Action::Halt(2), 18, true), None),
    ((0, true, Action::Wait(2), 16, true), None),
    ((0, true, Action::Pass, 12, false), None),
];

fn check_walks(rt: &impl Abort, inst: Instance<'_>) {
    let [early, span, free, halt, b_then_a, a_then_b, b_alone] = inst.bids else {
        assert!(rt; false);
        return;
    };
    let net = inst.net;
    check_one_leg(rt, net, early, &EARLY);
    check_one_leg(rt, net, span, &SPAN);
    check_two_legs(rt, net, free, &FREE);
    check_two_legs(rt, net, halt, &HALT);
    same(rt, &worth(net, b_then_a, &THERE_AND_BACK), &Some(181));
    same(rt, &worth(net, a_then_b, &THERE_AND_BACK), &None);
    same(rt, &worth(net, b_alone, &THERE_AND_BACK), &None);
}

fn legs_and_headways(rt: &impl Abort, net: &Network) {
    check_legs(
        rt,
        net,
        &[
            (SLOW, false, Action::Pass, Some(110), Some(110)),
            (SLOW, false, Action::Halt(3), Some(111), Some(114)),
            (SLOW, true, Action::Pass, Some(112), Some(112)),
            (SLOW, true, Action::Wait(5), Some(114), Some(119)),
            (SLOW, true, Action::Finish, Some(114), None),
            (TypeId(9), true, Action::Pass, None, None),
        ],
    );
    // The last row has the two entries of the walk there and back, which is a walk of its bid all the same.
    check_headways(
        rt,
        net,
        &[
            (10, FAST, 10, true),
            (10, FAST, 11, true),
            (10, FAST, 13, true),
            (10, FAST, 14, false),
            (11, FAST, 10, false),
            (13, FAST, 10, false),
            (14, FAST, 10, false),
            (0, SLOW, 26, true),
        ],
    );
}

struct Values;

impl Check for Values {
    fn check<R: Abort + AllocGlobal>(&self, rt: &R, inst: Instance<'_>) -> Result<(), Fail> {
        legs_and_headways(rt, inst.net);
        check_walks(rt, inst);
        Ok(())
    }
}

#[test]
fn walks_have_the_values_that_were_worked_by_hand(rt: HostRuntime) -> Result<(), Fail> {
    check_read(&rt, &BIDS, &Values)
}

#[test]
fn walks_are_ordered_by_departure_then_track_then_action(rt: HostRuntime) {
    check_order(
        &rt,
        &[
            (2, AB, Action::Halt(30), Ordering::Equal),
            (1, BC, Action::Finish, Ordering::Greater),
            (3, AB, Action::Pass, Ordering::Less),
            (2, AB, Action::Pass, Ordering::Greater),
            (2, AB, Action::Halt(29), Ordering::Greater),
            (2, AB, Action::Halt(31), Ordering::Less),
            (2, AB, Action::Wait(1), Ordering::Less),
            (2, AB, Action::Finish, Ordering::Less),
            (2, BC, Action::Pass, Ordering::Less),
        ],
    );
}
