//! What a node lets, blocks and overfills by headway rows, and why it is dead. The cases are worked by hand.
//!
//! On the track from A to B a train of type y departs 4 minutes after one of type x, z 4 minutes after y and 7 after x,
//! and each other 1 minute after the one before. There are three bids: x1 departs at minute 0, y1 at 3 and z1 at 6. Every
//! two of these use a pair row together, and no two a window minute.
ghost use Rattle.std.specs.Prelude.{◌≡◌, IfOk, length};
ghost use Rattle.optra_node.specs.Nodes.{IsNode};

use crate::decisions::At::{Halt, Out, Pass, Stop, Through};
use crate::decisions::{AB, At, Decided, leg, node_of};
use crate::instances::{Check, PAIRS, PLAIN, Rows, check_read};
use optra_graph::{FreshGraphs, Graphs};
use optra_network::{Minute, NoMemory, TypeId};
use optra_node::{Node, is_formed_leg};
use optra_prices::Dead;
use optra_prices::deads::dead;
use optra_rows::{HRow, HeadwayRows};
use optra_walk::Instance;
use std::alloc::Global;
use std::process::Abort;
use std::test::Fail;

const X: TypeId = TypeId(0);

const Y: TypeId = TypeId(1);

const Z: TypeId = TypeId(2);

const X1: u32 = 0;

const Y1: u32 = 1;

const Z1: u32 = 2;

const X1_AND_Y1: HRow = HRow::Pair {
    track: AB,
    first_at: 0,
    first: X,
    second_at: 3,
    second: Y,
};

const X1_AND_Z1: HRow = HRow::Pair {
    track: AB,
    first_at: 0,
    first: X,
    second_at: 6,
    second: Z,
};

const Y1_AND_Z1: HRow = HRow::Pair {
    track: AB,
    first_at: 3,
    first: Y,
    second_at: 6,
    second: Z,
};

const MINUTE_0: HRow = HRow::Window {
    track: AB,
    minute: 0,
};

/// A bid, a leg, whether it is blocked, and whether the bid may have it.
type LegCase = (u32, At, bool, bool);

/// A bid, a minute, and whether the bid may start then.
type StartCase = (u32, Minute, bool);

/// A node, and what it lets.
#[derive(Clone, Copy)]
struct LetCase {
    name: &'static str,
    decisions: &'static [Decided],
    legs: &'static [LegCase],
    starts: &'static [StartCase],
}

static LETS: [LetCase; 5] = [
    LetCase {
        name: "the root",
        decisions: &[],
        legs: &[
            (X1, Halt(0), false, true),
            (Y1, Halt(3), false, true),
            (Z1, Halt(6), false, true),
        ],
        starts: &[(X1, 0, true), (X1, 2879, true)],
    },
    LetCase {
        name: "x1 at 0",
        decisions: &[(X1, Halt(0), true)],
        legs: &[
            (X1, Halt(0), false, true),
            (X1, Pass(0), false, false),
            (X1, Halt(1), false, true),
            (Y1, Halt(0), true, false),
            (Y1, Halt(1), true, false),
            (Y1, Halt(3), true, false),
            (Y1, Halt(4), false, true),
            (Y1, Halt(8), false, true),
            (Z1, Halt(6), true, false),
            (Z1, Halt(7), false, true),
        ],
        starts: &[(X1, 0, true), (X1, 1, false), (Y1, 3, true), (Z1, 6, true)],
    },
    LetCase {
        name: "y1 at 3",
        decisions: &[(Y1, Halt(3), true)],
        legs: &[
            (X1, Halt(0), true, false),
            (X1, Halt(3), true, false),
            (X1, Halt(4), false, true),
            (Y1, Halt(2), false, false),
            (Y1, Halt(4), false, true),
            (Z1, Halt(2), false, true),
            (Z1, Halt(6), true, false),
            (Z1, Halt(7), false, true),
        ],
        starts: &[
            (X1, 8, true),
            (Y1, 2, true),
            (Y1, 3, true),
            (Y1, 4, false),
            (Y1, 8, false),
        ],
    },
    LetCase {
        name: "not x1 at 0",
        decisions: &[(X1, Halt(0), false)],
        legs: &[
            (X1, Halt(0), false, false),
            (X1, Pass(0), false, true),
            (X1, Halt(1), false, true),
            (Y1, Halt(0), false, true),
            (Y1, Halt(3), false, true),
            (Z1, Halt(6), false, true),
        ],
        starts: &[(X1, 0, true), (X1, 1, true)],
    },
    LetCase {
        name: "x1 at 0 and z1 at 7",
        decisions: &[(X1, Halt(0), true), (Z1, Halt(7), true)],
        legs: &[
            (X1, Halt(0), false, true),
            (Y1, Halt(3), true, false),
            (Y1, Halt(4), true, false),
            (Y1, Halt(7), true, false),
            (Y1, Halt(8), false, true),
            (Z1, Halt(7), false, true),
        ],
        starts: &[(X1, 0, true), (Y1, 8, true), (Z1, 7, true), (Z1, 8, false)],
    },
];

/// Two bids on a track that is passed in 10 minutes.
static TWO_BIDS: Rows = Rows {
    bids: "b1,ann,ic,A,B,0,0,200,0,0,300,1000,0,0,0,0,0,0,0\nb2,ann,ic,A,B,0,0,200,0,0,300,1000,0,0,0,0,0,0,0\n",
    ..PLAIN
};

/// The first bid goes out at minute 100, so that it passes B at 112, and doesn't depart at 130 to end at B.
static SPANS: [LetCase; 1] = [LetCase {
    name: "b1 out at 100 and not at 130",
    decisions: &[(0, Out(100), true), (0, Halt(130), false)],
    legs: &[
        (0, Out(100), false, true),
        (0, Through(100), false, false),
        (0, Out(88), false, true),
        (0, Out(89), false, false),
        (0, Stop(83), false, true),
        (0, Stop(84), false, false),
        (0, Halt(0), false, false),
        (0, Halt(130), false, false),
        (1, Out(89), false, true),
        (1, Halt(130), false, true),
    ],
    starts: &[(0, 100, true), (0, 101, false), (1, 101, true)],
}];

/// A node, and why it is dead.
#[derive(Clone, Copy)]
struct DeadCase {
    name: &'static str,
    decisions: &'static [Decided],
    dead: Option<Dead<HRow>>,
}

static DEADS: [DeadCase; 12] = [
    DeadCase {
        name: "the root",
        decisions: &[],
        dead: None,
    },
    DeadCase {
        name: "x1 at 0, and the others have no walk left",
        decisions: &[(X1, Halt(0), true)],
        dead: None,
    },
    DeadCase {
        name: "y1 must have no walk",
        decisions: &[(Y1, Halt(3), false)],
        dead: None,
    },
    DeadCase {
        name: "x1 and y1",
        decisions: &[(X1, Halt(0), true), (Y1, Halt(3), true)],
        dead: Some(Dead::Forced { row: X1_AND_Y1 }),
    },
    DeadCase {
        name: "x1 and z1",
        decisions: &[(X1, Halt(0), true), (Z1, Halt(6), true)],
        dead: Some(Dead::Forced { row: X1_AND_Z1 }),
    },
    DeadCase {
        name: "z1 and y1",
        decisions: &[(Z1, Halt(6), true), (Y1, Halt(3), true)],
        dead: Some(Dead::Forced { row: Y1_AND_Z1 }),
    },
    DeadCase {
        name: "all three, the last one first",
        decisions: &[
            (Z1, Halt(6), true),
            (Y1, Halt(3), true),
            (X1, Halt(0), true),
        ],
        dead: Some(Dead::Forced { row: X1_AND_Y1 }),
    },
    DeadCase {
        name: "a minute comes before the pairs",
        decisions: &[
            (Z1, Halt(6), true),
            (X1, Halt(0), true),
            (Y1, Halt(0), true),
        ],
        dead: Some(Dead::Forced { row: MINUTE_0 }),
    },
    DeadCase {
        name: "two legs of one bid",
        decisions: &[(X1, Halt(0), true), (X1, Pass(0), true)],
        dead: Some(Dead::Forced { row: MINUTE_0 }),
    },
    DeadCase {
        name: "a yes leg of y1, and a no leg in its only walk",
        decisions: &[(Y1, Halt(8), true), (Y1, Halt(3), false)],
        dead: Some(Dead::NoWalk { bid: Y1 }),
    },
    DeadCase {
        name: "a yes leg of y1 that comes through",
        decisions: &[(Y1, Pass(3), true)],
        dead: Some(Dead::NoWalk { bid: Y1 }),
    },
    DeadCase {
        name: "two bids without a walk, the last one first",
        decisions: &[(Z1, Halt(9), true), (Y1, Halt(20), true)],
        dead: Some(Dead::NoWalk { bid: Y1 }),
    },
];

/// The node answers of a leg as the case says.
fn check_leg(rt: &impl Abort, inst: Instance<'_>, node: &Node, name: &str, case: LegCase)
    requires { IsNode inst.net.now (length inst.bids.now) node.now }
{
    let (bid, at, blocked, ok) = case;
    let leg = leg(at);
    let rows = HeadwayRows::new();
    assert!(rt; (bid as usize) < inst.bids.len());
    assert!(rt; is_formed_leg(inst.net, leg));
    assert_eq!(rt;
        node.blocked(inst, &rows, bid, leg),
        blocked,
        "{name}: bid {bid}, {at:?}"
    );
    assert_eq!(rt;
        node.leg_ok(inst, &rows, bid, leg),
        ok,
        "{name}: bid {bid}, {at:?}"
    );
}

/// The node answers of a start as the case says.
fn check_start(rt: &impl Abort, inst: Instance<'_>, node: &Node, name: &str, case: StartCase)
    requires { IsNode inst.net.now (length inst.bids.now) node.now }
{
    let (bid, minute, ok) = case;
    assert!(rt; (bid as usize) < inst.bids.len());
    assert_eq!(rt;
        node.start_ok(inst, bid, minute),
        ok,
        "{name}: bid {bid}, {minute}"
    );
}

fn check_legs(rt: &impl Abort, inst: Instance<'_>, node: &Node, case: &LetCase)
    requires { IsNode inst.net.now (length inst.bids.now) node.now }
{
    for leg in case.legs {
        check_leg(rt, inst, node, case.name, *leg);
    }
}

fn check_starts(rt: &impl Abort, inst: Instance<'_>, node: &Node, case: &LetCase)
    requires { IsNode inst.net.now (length inst.bids.now) node.now }
{
    for start in case.starts {
        check_start(rt, inst, node, case.name, *start);
    }
}

fn check_lets(
    rt: &(impl Abort + AllocGlobal),
    inst: Instance<'_>,
    case: &LetCase,
) -> Result<(), NoMemory> {
    let node = node_of(rt, inst, case.decisions)?;
    check_legs(rt, inst, &node, case);
    check_starts(rt, inst, &node, case);
    Ok(())
}

/// What nodes let.
#[derive(Clone, Copy)]
struct Lets(&'static [LetCase]);

impl Check for Lets {
    fn check<R: Abort + AllocGlobal>(&self, rt: &R, inst: Instance<'_>) -> Result<(), Fail> {
        for case in self.0 {
            check_lets(rt, inst, case)?;
        }
        Ok(())
    }
}

#[test]
fn a_leg_is_let_where_no_decision_is_against_it(rt: HostRuntime) -> Result<(), Fail> {
    check_read(&rt, &PAIRS, &Lets(&LETS))?;
    check_read(&rt, &TWO_BIDS, &Lets(&SPANS))
}

/// Why the node is dead.
fn reason(alloc: Global, inst: Instance<'_>, node: &Node) -> Result<Option<Dead<HRow>>, NoMemory>
    requires node { IsNode inst.net.now (length inst.bids.now) node.now }
{
    let mut graphs = FreshGraphs::new(inst.net);
    graphs.prepare(alloc, inst.bids)?;
    dead(alloc, inst, &graphs, &HeadwayRows::new(), node)
}

/// The row that is overfull, where that is the reason.
fn forced_row(reason: Option<Dead<HRow>>) -> Option<HRow> {
    match reason {
        Some(Dead::Forced { row }) => Some(row),
        _ => None,
    }
}

fn check_dead(
    rt: &(impl Abort + AllocGlobal),
    inst: Instance<'_>,
    case: &DeadCase,
) -> Result<(), NoMemory> {
    let node = node_of(rt, inst, case.decisions)?;
    let overfull = node.overfull(inst, &HeadwayRows::new());
    assert_eq!(rt; overfull, forced_row(case.dead), "{}", case.name);
    assert_eq!(rt;
        reason(rt.alloc(), inst, &node)?,
        case.dead,
        "{}",
        case.name
    );
    Ok(())
}

/// Why nodes are dead.
struct Deads;

impl Check for Deads {
    fn check<R: Abort + AllocGlobal>(&self, rt: &R, inst: Instance<'_>) -> Result<(), Fail> {
        for case in &DEADS {
            check_dead(rt, inst, case)?;
        }
        Ok(())
    }
}

#[test]
fn a_node_is_dead_for_its_least_overfull_row_or_first_stuck_bid(
    rt: HostRuntime,
) -> Result<(), Fail> {
    check_read(&rt, &PAIRS, &Deads)
}
