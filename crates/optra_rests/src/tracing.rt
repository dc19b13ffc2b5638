//! A walk that a filled table leads along.
//!
//! The legs are a proposal: nothing is said of them here, and who uses them tests that they are a
//! walk and what it is worth.

use crate::rest_table::RestTable;
use crate::rests::{may_finish, may_halt, next_stop};
use crate::table::make_start;
use crate::ways::{Way, kind_of};
use optra_bid::Bid;
use optra_network::{Minute, Network, NoMemory, TrackId};
use optra_walk::{Action, Leg, State, end_price, start_value, wait_price};
use std::alloc::Global;

/// A walk has fewer legs than there are minutes in the two days.
const MOST_LEGS: u32 = 2880;

/// Which starts and legs a proposal may have.
pub trait Admits {
    /// Whether it may start at the minute.
    fn admits_start(&self, minute: Minute) -> bool;

    /// Whether it may have the leg.
    fn admits(&self, leg: Leg) -> bool;
}

/// Every start and every leg.
#[derive(Drop)]
pub struct EveryLeg;

impl Admits for EveryLeg {
    fn admits_start(&self, _minute: Minute) -> bool {
        true
    }

    fn admits(&self, _leg: Leg) -> bool {
        true
    }
}

/// A leg by which a walk may go on, what the rest from it on is worth, and the state behind it,
/// where it does not finish.
#[derive(Clone, Copy)]
struct Step {
    worth: i128,
    leg: Leg,
    next: Option<State>,
}

/// The step by the way with the action at its end; none where it goes on and the table has no rest
/// from there.
fn step_by(table: &RestTable, bid: &Bid, way: Way, action: Action) -> Option<Step> {
    let leg = way.leg(action);
    let done = way.from.done;
    let (minute, done, share) = match action {
        Action::Pass => (way.pass, done, 0),
        Action::Halt(dwell) => (way.halt.saturating_add(dwell), done.saturating_add(1), 0),
        Action::Wait(dwell) => (way.halt.saturating_add(dwell), done, wait_price(bid, dwell)),
        Action::Finish => {
            let worth = i128::from(end_price(bid, way.halt)).wrapping_neg();
            return Some(Step {
                worth,
                leg,
                next: None,
            });
        }
    };
    let next = State {
        station: way.head,
        minute,
        halted: !matches!(action, Action::Pass),
        done,
    };
    let worth = table.peek(next)?.wrapping_sub(i128::from(share));
    Some(Step {
        worth,
        leg,
        next: Some(next),
    })
}

/// The way by the track, where the train may use it.
fn find_road(net: &Network, bid: &Bid, from: State, track: TrackId) -> Option<Way> {
    if track.0 >= net.track_count() {
        return None;
    }
    let kind = kind_of(bid);
    let pass = net.run(track, kind, from.halted, false)?;
    let halt = net.run(track, kind, from.halted, true)?;
    Some(Way {
        from,
        track,
        head: net.head(track),
        pass: from.minute.saturating_add(pass),
        halt: from.minute.saturating_add(halt),
    })
}

/// A walk that is looked for along a table.
#[derive(Drop)]
struct Trail<'a, A: Admits> {
    net: &'a Network,
    bid: &'a Bid,
    table: &'a RestTable,
    admits: &'a A,
}

impl<'a, A: Admits> Trail<'a, A> {
    /// The step by the way with the action at its end, where it is worth as much and admitted.
    fn take(&self, way: Way, action: Action, worth: i128) -> Option<Step> {
        let step = step_by(self.table, self.bid, way, action)?;
        if step.worth == worth && self.admits.admits(step.leg) {
            Some(step)
        } else {
            None
        }
    }

    /// The first step that halts at the next stop and is worth as much.
    fn halt(&self, way: Way, worth: i128) -> Option<Step> {
        let stop = next_stop(self.bid, way.from.done)?;
        if !may_halt(stop, way) {
            return None;
        }
        'dwells: for dwell in stop.min_dwell..stop.max_dwell.saturating_add(1) {
            let step = self.take(way, Action::Halt(dwell), worth);
            if step.is_some() {
                return step;
            }
        }
        None
    }

    /// The first step that waits and is worth as much.
    fn wait(&self, way: Way, worth: i128) -> Option<Step> {
        let bid: &Bid = self.bid;
        'dwells: for dwell in 1..bid.path.wait_max.saturating_add(1) {
            let step = self.take(way, Action::Wait(dwell), worth);
            if step.is_some() {
                return step;
            }
        }
        None
    }

    /// The first step by the way that is worth as much.
    fn step(&self, way: Way, worth: i128) -> Option<Step> {
        if may_finish(self.bid, way) {
            let end = self.take(way, Action::Finish, worth);
            if end.is_some() {
                return end;
            }
        }
        let pass = self.take(way, Action::Pass, worth);
        if pass.is_some() {
            return pass;
        }
        let halt = self.halt(way, worth);
        if halt.is_some() {
            return halt;
        }
        self.wait(way, worth)
    }

    /// The state in which the first of the best walks starts; none where there is no walk.
    fn best_begin(&self) -> Option<State> {
        let bid: &Bid = self.bid;
        let window = bid.path.depart;
        let mut begin = None;
        let mut most = 0;
        'minutes: for minute in window.from..window.to.saturating_add(1) {
            let start = make_start(bid, minute);
            if let Some(rest) = self.table.peek(start) {
                let worth = rest.wrapping_add(i128::from(start_value(bid, minute)));
                if (begin.is_none() || most < worth) && self.admits.admits_start(minute) {
                    begin = Some(start);
                    most = worth;
                }
            }
        }
        begin
    }

    /// The first step from the state that is worth as much as the best rest there.
    fn best_step(&self, from: State) -> Option<Step> {
        if from.station.0 >= self.net.station_count() {
            return None;
        }
        let worth = self.table.peek(from)?;
        'tracks: for track in self.net.out_tracks(from.station) {
            if let Some(way) = find_road(self.net, self.bid, from, *track) {
                let step = self.step(way, worth);
                if step.is_some() {
                    return step;
                }
            }
        }
        None
    }
}

/// The legs that the table leads along from the best start on; none where it has no start. `NoMemory` is its only refusal.
pub fn trace<A: Admits>(
    alloc: Global,
    net: &Network,
    bid: &Bid,
    admits: &A,
    table: &RestTable,
) -> Result<Vec<Leg>, NoMemory> {
    let trail = Trail {
        net,
        bid,
        table,
        admits,
    };
    let mut legs = Vec::new(alloc);
    let mut at = trail.best_begin();
    'legs: for _ in 0..MOST_LEGS {
        let Some(state) = at else { break };
        let Some(step) = trail.best_step(state) else {
            break;
        };
        legs.push(step.leg)?;
        at = step.next;
    }
    Ok(legs)
}
