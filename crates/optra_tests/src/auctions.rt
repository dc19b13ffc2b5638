//! The tables of an auction, and three rounds of one.
ghost use Rattle.std.specs.Prelude.{IfOk};
ghost use Rattle.optra_auction.specs.Machine.{AreSpecs};

use crate::instances::{Check, PLAIN, check_read};
use optra_auction::{Auction, Refusal, Rules, take_acts};
use optra_bid::Bid;
use optra_network::{Cents, NetRefusal, Network};
use optra_rounds::{RoundActions, round_actions, take_actions};
use optra_tables::{Kind, ReadError, Table, TableFault, read_actions, read_bids, read_rules};
use optra_walk::Instance;
use std::alloc::Global;
use std::process::Abort;
use std::test::Fail;

const RAISES: Rules = Rules {
    min_increment: 20,
    permille: 50,
    rounds: 3,
};

/// Tables of rules, and what they mean.
static RULES: [(&str, Result<Rules, ReadError>); 4] = [
    ("min_increment,permille,rounds\n0020,50,3\n", Ok(RAISES)),
    (
        "min_increment,permille,rounds\n",
        Err(ReadError::Fault(TableFault {
            table: Table::Rules,
            row: 2,
            kind: Kind::Csv,
        })),
    ),
    (
        "min_increment,permille,rounds\n0,50,3\n20,50,3\n",
        Err(ReadError::Fault(TableFault {
            table: Table::Rules,
            row: 2,
            kind: Kind::Net(NetRefusal::Range),
        })),
    ),
    (
        "min_increment,permille,rounds\n20,50,3\nx\n",
        Err(ReadError::Fault(TableFault {
            table: Table::Rules,
            row: 3,
            kind: Kind::Csv,
        })),
    ),
];

#[test]
fn rules_are_read_or_refused(rt: HostRuntime) -> Result<(), Fail> {
    for (text, wanted) in &RULES {
        assert_eq!(rt;
            read_rules(rt.alloc(), text.as_bytes()),
            *wanted,
            "of {text}"
        );
    }
    Ok(())
}

/// Tables of actions without their header, and the first fault of each.
static ACTIONS: [(&str, Option<(u32, Kind)>); 4] = [
    (
        "1,ann,raise,b1,not read,1100\n1,ann,withdraw,b1,\t,x\n",
        None,
    ),
    (
        "1,ann,raise,b1,not read,1100\n0,ann,jump,b1,,\n",
        Some((3, Kind::Net(NetRefusal::UnknownName))),
    ),
    (
        "1,ann,open,b1,s1,1000000001\n",
        Some((2, Kind::Net(NetRefusal::Range))),
    ),
    ("1,ann,amend,b1,,\n", Some((2, Kind::Name))),
];

/// The first fault of a table of actions, without its header.
fn fault_of(alloc: Global, rows: &str) -> Result<Option<(u32, Kind)>, Fail> {
    let mut text = String::from_str(alloc, "round,bidder,action,bid,spec,amount\n")?;
    text.push_str(rows)?;
    match read_actions(alloc, text.as_bytes()) {
        Ok(_) => Ok(None),
        Err(ReadError::Fault(TableFault { row, kind, .. })) => Ok(Some((row, kind))),
        Err(ReadError::NoMemory) => Err(Fail::from(ReadError::NoMemory)),
    }
}

#[test]
fn actions_are_read_or_refused(rt: HostRuntime) -> Result<(), Fail> {
    for (rows, wanted) in &ACTIONS {
        assert_eq!(rt; fault_of(rt.alloc(), rows)?, *wanted, "of {rows}");
    }
    Ok(())
}

/// A round: its actions, what becomes of each, what the trains of the standing bids are worth at its close, and what they then
/// have won.
struct Round {
    actions: &'static str,
    outcomes: &'static [Option<Refusal>],
    values: &'static [Option<Cents>],
    awards: &'static [Option<Cents>],
}

/// Two bidders for one slot, in three rounds of which the third is the last, and an action after the close.
static ROUNDS: [Round; 4] = [
    Round {
        actions: "round,bidder,action,bid,spec,amount\n1,ann,open,b1,s1,1000\n1,ann,open,b1,zz,1000\n1,bob,open,b1,s1,1000\n1,bob,open,b2,s1,499\n1,bob,open,b2,s1,1000\n1,bob,raise,b3,,1000\n1,bob,raise,b1,,2000\n1,bob,raise,b2,,1049\n1,bob,raise,b2,,1050\n",
        outcomes: &[
            None,
            Some(Refusal::A1),
            Some(Refusal::A2),
            Some(Refusal::A3),
            None,
            Some(Refusal::A4),
            Some(Refusal::A5),
            Some(Refusal::A6),
            Some(Refusal::A8),
        ],
        values: &[Some(1000), None],
        awards: &[Some(1000), None],
    },
    Round {
        actions: "round,bidder,action,bid,spec,amount\n2,ann,raise,b1,,1100\n2,bob,amend,b2,s2,\n2,bob,raise,b2,,1050\n2,bob,amend,b2,s1,\n2,ann,withdraw,b1,,\n",
        outcomes: &[
            Some(Refusal::A7),
            Some(Refusal::A3),
            None,
            Some(Refusal::A8),
            Some(Refusal::A7),
        ],
        values: &[None, Some(1050)],
        awards: &[None, Some(1050)],
    },
    Round {
        actions: "round,bidder,action,bid,spec,amount\n3,ann,withdraw,b1,,\n",
        outcomes: &[None],
        values: &[Some(1050)],
        awards: &[Some(1050)],
    },
    Round {
        actions: "round,bidder,action,bid,spec,amount\n3,ann,open,b1,s1,1000\n",
        outcomes: &[Some(Refusal::A9)],
        values: &[],
        awards: &[Some(1050)],
    },
];

/// A slot with a reserve of 500, and a later one with a reserve of 1,100.
fn specs(alloc: Global, net: &Network) -> Result<Vec<Bid>, ReadError>
    ensures { IfOk result (λ specs. AreSpecs specs.items) }
{
    let bids =
        "bid,bidder,type,origin,destination,depart_from,depart_ideal,depart_to,arrive_from,arrive_ideal,arrive_to,base,early_depart,late_depart,early_arrive,late_arrive,travel,wait,wait_max\ns1,ann,ic,A,B,2,2,2,0,16,60,500,0,0,0,0,0,0,0\ns2,ann,ic,A,B,20,20,20,0,34,60,1100,0,0,0,0,0,0,0\n";
    let stops = "bid,station,min_dwell,max_dwell,arrive_from,arrive_to\n";
    read_bids(alloc, net, bids.as_bytes(), stops.as_bytes())
}

/// Takes the actions of a round and closes it, where the auction isn't closed.
fn play(rt: &impl Abort, alloc: Global, auction: &mut Auction, round: &Round) -> Result<(), Fail> {
    let actions = read_actions(alloc, round.actions.as_bytes())?;
    let taken = take_actions(alloc, auction, actions)?;
    assert_eq!(rt; taken.outcomes.len(), round.outcomes.len());
    for (outcome, wanted) in taken.outcomes.iter().zip(round.outcomes) {
        assert_eq!(rt; outcome.1, *wanted, "at row {}", outcome.0);
    }
    if !auction.closed() && auction.count() as usize == round.values.len() {
        auction.close_round(round.values);
    }
    Ok(())
}

fn check_awards(rt: &impl Abort, auction: &Auction, awards: &[Option<Cents>]) {
    assert_eq!(rt; auction.count() as usize, awards.len());
    for place in 0..auction.count() {
        assert_eq!(rt;
            Some(auction.award(place)),
            awards.get(place as usize).copied()
        );
    }
}

fn check_rounds(rt: &(impl Abort + AllocGlobal), auction: &mut Auction) -> Result<(), Fail> {
    for round in &ROUNDS {
        play(rt, rt.alloc(), auction, round)?;
        check_awards(rt, auction, round.awards);
    }
    assert!(rt; auction.closed());
    assert_eq!(rt; auction.round(), 3);
    Ok(())
}

struct Rounds;

impl Check for Rounds {
    fn check<R: Abort + AllocGlobal>(&self, rt: &R, inst: Instance<'_>) -> Result<(), Fail> {
        let specs = specs(rt.alloc(), inst.net)?;
        let mut auction = Auction::new(rt.alloc(), specs, RAISES)?;
        check_rounds(rt, &mut auction)
    }
}

#[test]
fn an_auction_takes_and_refuses_round_by_round(rt: HostRuntime) -> Result<(), Fail> {
    check_read(&rt, &PLAIN, &Rounds)
}

/// Two actions of round 1, one of round 2, and one of round 3.
const POSTED: &str =
    "round,bidder,action,bid,spec,amount\n3,ann,withdraw,b1,,\n1,ann,open,b1,s1,1000\n2,bob,open,b2,s1,1000\n1,ann,open,b1,zz,1000\n";

/// The rows of the actions of round 2, and of those behind it.
fn check_later(rt: &(impl Abort + AllocGlobal)) -> Result<(), Fail> {
    let actions = read_actions(rt.alloc(), POSTED.as_bytes())?;
    let parts = round_actions(rt.alloc(), 2, actions)?;
    assert_eq!(rt; parts.rows.as_slice(), [4].as_slice());
    assert_eq!(rt; parts.acts.len(), 1);
    assert_eq!(rt; parts.later.as_slice(), [2].as_slice());
    Ok(())
}

/// The actions of round 1 are taken: the first opens a bid, and the second names no specification.
fn check_taken(rt: &(impl Abort + AllocGlobal), auction: &mut Auction) -> Result<(), Fail> {
    let actions = read_actions(rt.alloc(), POSTED.as_bytes())?;
    let RoundActions { rows, acts, later } = round_actions(rt.alloc(), 1, actions)?;
    assert_eq!(rt; rows.as_slice(), [3, 5].as_slice());
    assert_eq!(rt; later.as_slice(), [2, 4].as_slice());
    let refusals = take_acts(rt.alloc(), auction, acts)?;
    assert_eq!(rt; refusals.as_slice(), [None, Some(Refusal::A1)].as_slice());
    assert_eq!(rt; auction.count(), 1);
    Ok(())
}

struct Posted;

impl Check for Posted {
    fn check<R: Abort + AllocGlobal>(&self, rt: &R, inst: Instance<'_>) -> Result<(), Fail> {
        check_later(rt)?;
        let specs = specs(rt.alloc(), inst.net)?;
        let mut auction = Auction::new(rt.alloc(), specs, RAISES)?;
        check_taken(rt, &mut auction)
    }
}

#[test]
fn a_rounds_actions_are_taken_apart(rt: HostRuntime) -> Result<(), Fail> {
    check_read(&rt, &PLAIN, &Posted)
}
