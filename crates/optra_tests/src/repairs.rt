//! Repairs on a track and one back, worked by hand: who is taken first, who departs later or not at all, and that a walk that
//! doesn't fit as a whole leaves nothing behind.
ghost use Rattle.std.specs.Prelude.{◌≡◌, ◌≤◌, All, Contains, IfOk, length};
ghost use Rattle.optra_walk.specs.Choices.{IsChoice};
ghost use Rattle.optra_node.specs.Nodes.{IsNode};
ghost use Rattle.optra_prices.specs.Repairs.{IsRepair};

use crate::instances::{Check, PLAIN, Rows, are_walks, check_read};
use optra_bid::Bid;
use optra_graph::{FreshGraphs, Graphs};
use optra_network::{Minute, NoMemory, TrackId};
use optra_node::Node;
use optra_prices::Dual;
use optra_repair::repair;
use optra_rows::HeadwayRows;
use optra_search::Repairer;
use optra_walk::{Action, Choice, Instance, Leg, RowFamily, Walk};
use std::alloc::{AllocError, Global};
use std::process::Abort;
use std::test::Fail;

/// Repairs without tables of arcs, over any family and any graphs.
#[derive(Clone, Copy)]
struct PlainRepairer;

impl<F: RowFamily, G: Graphs> Repairer<F, G> for PlainRepairer {
    fn repair(
        &self,
        alloc: Global,
        inst: Instance<'_>,
        graphs: &G,
        rows: &F,
        node: &Node,
        dual: &Dual,
    ) -> Result<Choice, NoMemory> {
        repair(alloc, inst, graphs, rows, node, dual)
    }
}

/// A track from A to B and one back, which a train passes in 10 minutes, in 14 with a stop at both ends, and once in 60
/// minutes. A bid departs best at 100: each minute before it costs 3 cents, each one after it 2, and each one under way 1,
/// so that no train goes round for nothing.
const RICH_AND_POOR: Rows = Rows {
    tracks: "ab,A,B\nba,B,A\n",
    running: "ab,ic,10,11,12,14\nba,ic,10,11,12,14\n",
    headways: "ab,ic,ic,60\nba,ic,ic,60\n",
    bids: "rich,ann,ic,A,B,0,100,200,0,0,300,1000,3,2,0,0,1,0,0\npoor,ann,ic,A,B,0,100,200,0,0,300,100,3,2,0,0,1,0,0\n",
    ..PLAIN
};

/// The first bid goes to B, back to A and to B again, where its own two departures from A are less than 60 minutes apart.
static ROUND_AND_SINGLE: Rows = Rows {
    bids: "round,ann,ic,A,B,0,100,200,0,0,300,1000,3,2,0,0,1,0,0\nsingle,ann,ic,A,B,0,100,200,0,0,300,1000,3,2,0,0,1,0,0\n",
    stops: "round,B,1,1,0,300\nround,A,1,1,0,300\n",
    ..RICH_AND_POOR
};

fn leg(track: u16, depart: Minute, action: Action) -> Leg {
    Leg {
        track: TrackId(track),
        depart,
        from_halt: true,
        action,
    }
}

/// The walk of a bid that departs at 100.
fn walk(alloc: Global, bid: &Bid) -> Result<Walk, AllocError> {
    let mut legs = Vec::new(alloc);
    if bid.path.stops.is_empty() {
        legs.push(leg(0, 100, Action::Finish))?;
    } else {
        legs.push(leg(0, 100, Action::Halt(1)))?;
        legs.push(leg(1, 115, Action::Halt(1)))?;
        legs.push(leg(0, 130, Action::Finish))?;
    }
    Ok(Walk { legs })
}

/// A valuation in which each bid with a term replies by its walk at 100.
fn dual(alloc: Global, bids: &[Bid], terms: &[Option<i64>]) -> Result<Dual, AllocError> {
    let mut replies = Vec::new(alloc);
    let mut all = Vec::new(alloc);
    for (bid, term) in bids.iter().zip(terms.iter()) {
        replies.push(match term {
            Some(_) => Some(walk(alloc, bid)?),
            None => None,
        })?;
        all.push(i128::from(term.unwrap_or(0)))?;
    }
    Ok(Dual {
        value: 0,
        replies,
        terms: all,
    })
}

/// The repaired choice at the root, by a repairer.
fn repaired<'n, P: Repairer<HeadwayRows, FreshGraphs<'n>>>(
    alloc: Global,
    inst: Instance<'n>,
    repairer: &P,
    dual: &Dual,
) -> Result<Choice, NoMemory>
    requires terms { length dual.now.terms ≡ length inst.bids.now }
    requires replies { IsChoice inst.net.now inst.bids.now dual.now.replies }
{
    let mut graphs = FreshGraphs::new(inst.net);
    graphs.prepare(alloc, inst.bids)?;
    let node = Node::root(alloc);
    repairer.repair(alloc, inst, &graphs, &HeadwayRows::new(), &node, dual)
}

/// The trains of a choice depart at these minutes.
fn check_choice(rt: &impl Abort, choice: &Choice, want: &[Option<Minute>]) {
    assert_eq!(rt; choice.walks.len(), want.len());
    for (walk, minute) in choice.walks.iter().zip(want) {
        let departure = match walk {
            Some(walk) => walk.legs.first().map(|leg| leg.depart),
            None => None,
        };
        assert_eq!(rt; departure, *minute);
    }
}

/// The trains of a repair depart at these minutes.
fn check_on(
    rt: &(impl Abort + AllocGlobal),
    inst: Instance<'_>,
    terms: &[Option<i64>],
    want: &[Option<Minute>],
) -> Result<(), NoMemory> {
    let alloc = rt.alloc();
    let dual = dual(alloc, inst.bids, terms)?;
    assert!(rt; dual.terms.len() == inst.bids.len());
    assert!(rt; are_walks(inst.net, inst.bids, &dual.replies));
    let choice = repaired(alloc, inst, &PlainRepairer, &dual)?;
    check_choice(rt, &choice, want);
    Ok(())
}

/// The terms of a valuation, and when the trains of its repair depart.
struct Case {
    terms: &'static [Option<i64>],
    departures: &'static [Option<Minute>],
}

static RICH_AND_POOR_CASES: [Case; 4] = [
    Case {
        terms: &[Some(700), Some(500)],
        departures: &[Some(100), None],
    },
    Case {
        terms: &[Some(500), Some(700)],
        departures: &[Some(160), Some(100)],
    },
    Case {
        terms: &[Some(500), Some(500)],
        departures: &[Some(100), None],
    },
    Case {
        terms: &[None, Some(1)],
        departures: &[Some(160), Some(100)],
    },
];

static ROUND_AND_SINGLE_CASES: [Case; 1] = [Case {
    terms: &[Some(900), Some(500)],
    departures: &[None, Some(100)],
}];

#[derive(Clone, Copy)]
struct Repairs(&'static [Case]);

impl Check for Repairs {
    fn check<R: Abort + AllocGlobal>(&self, rt: &R, inst: Instance<'_>) -> Result<(), Fail> {
        for case in self.0 {
            check_on(rt, inst, case.terms, case.departures)?;
        }
        Ok(())
    }
}

#[test]
fn the_greater_contribution_departs_first(rt: HostRuntime) -> Result<(), Fail> {
    check_read(&rt, &RICH_AND_POOR, &Repairs(&RICH_AND_POOR_CASES))
}

#[test]
fn a_train_in_its_own_way_leaves_nothing_behind(rt: HostRuntime) -> Result<(), Fail> {
    check_read(&rt, &ROUND_AND_SINGLE, &Repairs(&ROUND_AND_SINGLE_CASES))
}
