//! Timetables of two trains, worked by hand: their lines, their reports, the choice that they are, and compressed times.
ghost use Rattle.std.specs.Prelude.{◌↔◌, IfOk, IfSome, IsTrue};
ghost use Rattle.optra_audit.specs.Reports.{IsEmpty};
ghost use Rattle.optra_audit.specs.Trains.{AreLines};
ghost use Rattle.optra_walk.specs.Choices.{IsConflictFree};

use crate::instances::{Check, Rows, check_read, same};
use optra_audit::{
    Clash, Fault, FaultCode, Line, Over, Report, TimesError, TimesKind, audit, choice,
    read_timetable,
};
use optra_compress::{Cause, Link, compress};
use optra_network::{Minute, NoMemory, StationId, TrackId};
use optra_walk::{Action, Choice, Instance, Leg, revenue};
use std::alloc::Global;
use std::process::Abort;
use std::test::Fail;

/// Two tracks in a row, on which a train that stands at both ends of a track needs 14 minutes. The next one enters the first track
/// 5 minutes later and the second one 4 minutes. One train may stand between them. Each bid halts there for at least 2 minutes,
/// and loses nothing by its times.
pub static LINE: Rows = Rows {
    stations: "A,0\nB,1\nC,0\n",
    tracks: "ab,A,B\nbc,B,C\n",
    types: "ic\n",
    running: "ab,ic,10,11,12,14\nbc,ic,10,11,12,14\n",
    headways: "ab,ic,ic,5\nbc,ic,ic,4\n",
    crossings: Some(""),
    bids: "a,ann,ic,A,C,0,20,60,0,50,200,1000,0,0,0,0,0,0,0\nb,bob,ic,A,C,0,20,60,0,50,200,600,0,0,0,0,0,0,0\n",
    stops: "a,B,2,30,0,2879\nb,B,2,30,0,2879\n",
};

const fn line(bid: u32, track: u16, depart: Minute, from_halt: bool, action: Action) -> Line {
    let track = TrackId(track);
    let leg = Leg {
        track,
        depart,
        from_halt,
        action,
    };
    Line { bid, leg }
}

/// The second bid's train runs 20 minutes behind the other one.
const APART: &str =
    "bid,track,depart,from,action,dwell\nb,ab,40,halt,halt,2\na,ab,20,halt,halt,2\na,bc,36,halt,finish,0\nb,bc,56,halt,finish,0\n";

/// The second bid's train runs a minute behind the other one, stands beside it in minute 35, and then goes on as if it had not.
const CLOSE: &str =
    "bid,track,depart,from,action,dwell\na,ab,20,halt,halt,2\na,bc,36,halt,finish,0\nb,ab,21,halt,halt,2\nb,bc,37,pass,finish,0\n";

/// A dwell of 241 minutes.
const LONG: &str = "bid,track,depart,from,action,dwell\na,ab,20,halt,halt,241\n";

/// What a timetable is read as.
fn check_read_lines(rt: &(impl Abort + AllocGlobal), inst: Instance<'_>) -> Result<(), Fail> {
    let lines = read_timetable(rt.alloc(), inst, APART.as_bytes())?;
    let wanted = [
        line(1, 0, 40, true, Action::Halt(2)),
        line(0, 0, 20, true, Action::Halt(2)),
        line(0, 1, 36, true, Action::Finish),
        line(1, 1, 56, true, Action::Finish),
    ];
    same(rt, &lines.as_slice(), &wanted.as_slice());
    Ok(())
}

/// The fault of a timetable that isn't read.
fn check_refused(rt: &(impl Abort + AllocGlobal), inst: Instance<'_>) {
    let refusal = match read_timetable(rt.alloc(), inst, LONG.as_bytes()) {
        Ok(_) => None,
        Err(error) => Some(error),
    };
    let wanted = TimesError::Fault {
        row: 2,
        kind: TimesKind::U4,
    };
    same(rt, &refusal, &Some(wanted));
}

/// The report on a timetable is the one that is wanted.
fn check_report(
    rt: &impl Abort,
    report: &Report,
    faults: &[Fault],
    clashes: &[Clash],
    overs: &[Over],
) {
    same(rt, &report.faults.as_slice(), &faults);
    same(rt, &report.clashes.as_slice(), &clashes);
    same(rt, &report.overs.as_slice(), &overs);
}

/// The report on trains that come too near to each other: the second one starts its second leg as if it had passed, both
/// legs of it are too close behind the other train, and in minute 35 both stand where one may.
fn check_close(rt: &(impl Abort + AllocGlobal), inst: Instance<'_>) -> Result<(), Fail> {
    let lines = read_timetable(rt.alloc(), inst, CLOSE.as_bytes())?;
    let report = audit(rt.alloc(), inst, &lines)?;
    let mode = Fault {
        bid: 1,
        leg: 1,
        code: FaultCode::Mode,
    };
    let over = Over {
        station: StationId(1),
        minute: 35,
        standing: 2,
    };
    check_report(rt, &report, &[mode], &[clash(0), clash(1)], &[over]);
    Ok(())
}

/// The clash of the two trains on one of the two tracks.
fn clash(leg: u32) -> Clash {
    Clash {
        bid: 0,
        leg,
        other_bid: 1,
        other_leg: leg,
        crossing: false,
    }
}

/// Whether nothing is wrong.
fn is_empty(report: &Report) -> bool
    ensures { IsTrue result ↔ IsEmpty report.now }
{
    report.faults.is_empty() && report.clashes.is_empty() && report.overs.is_empty()
}

/// The choice of trains that are apart, where the report on them is empty.
pub fn free_choice(
    alloc: Global,
    inst: Instance<'_>,
    lines: &[Line],
) -> Result<Option<Choice>, NoMemory>
    requires { AreLines inst.net.now inst.bids.now lines.now }
    ensures { IfOk result (λ choice. IfSome choice (IsConflictFree inst.entry.net.now
        inst.entry.bids.now)) }
{
    let report = audit(alloc, inst, lines)?;
    if !is_empty(&report) {
        return Ok(None);
    }
    let choice = choice(alloc, inst, lines)?;
    Ok(Some(choice))
}

/// The choice has both trains, which lose nothing: 1,000 and 600 cents.
fn check_choice(rt: &impl Abort, inst: Instance<'_>, choice: &Choice)
    requires { IsConflictFree inst.net.now inst.bids.now choice.now }
{
    let departures = [first_departure(choice, 0), first_departure(choice, 1)];
    same(rt, &departures, &[Some(20), Some(40)]);
    same(rt, &revenue(inst.net, inst.bids, &choice.walks), &1600);
}

/// When the train of a bid departs first.
fn first_departure(choice: &Choice, bid: usize) -> Option<Minute> {
    let walk = choice.walks.get(bid)?.as_ref()?;
    let leg = walk.legs.first()?;
    Some(leg.depart)
}

/// The first train starts at 0, and the second one as soon as the headway of the first track lets it: on the second track it would
/// be free a minute earlier.
fn check_least(
    rt: &(impl Abort + AllocGlobal),
    inst: Instance<'_>,
    choice: &Choice,
) -> Result<(), Fail>
    requires { IsConflictFree inst.net.now inst.bids.now choice.now }
{
    let done = compress(rt.alloc(), inst, choice)?;
    same(rt, &done.starts.as_slice(), &[Some(0), Some(5)].as_slice());
    let first = Link {
        bid: 0,
        cause: Cause::Zero,
    };
    let behind = Link {
        bid: 1,
        cause: Cause::After {
            bid: 0,
            leg: 0,
            own_leg: 0,
            gap: 5,
        },
    };
    same(rt, &done.chains.as_slice(), &[first, behind].as_slice());
    Ok(())
}

/// What is said of the trains that are apart.
fn check_apart(rt: &(impl Abort + AllocGlobal), inst: Instance<'_>) -> Result<(), Fail> {
    let lines = read_timetable(rt.alloc(), inst, APART.as_bytes())?;
    let Some(choice) = free_choice(rt.alloc(), inst, &lines)? else {
        assert!(rt; false);
        return Ok(());
    };
    check_choice(rt, inst, &choice);
    check_least(rt, inst, &choice)
}

struct Timetables;

impl Check for Timetables {
    fn check<R: Abort + AllocGlobal>(&self, rt: &R, inst: Instance<'_>) -> Result<(), Fail> {
        check_read_lines(rt, inst)?;
        check_refused(rt, inst);
        check_close(rt, inst)?;
        check_apart(rt, inst)
    }
}

#[test]
fn timetables_are_read_audited_and_compressed(rt: HostRuntime) -> Result<(), Fail> {
    check_read(&rt, &LINE, &Timetables)
}
