//! When legs arrive, and whether they are a walk of a bid.
ghost use Rattle.std.specs.Prelude.{◌≡◌, ◌≢◌, ℕ, ◌≤◌, ◌<◌, ◌↔◌, IsTrue, length, All, AllPairs, filter, IsSomeAnd, IfSome, ◌^◌};
ghost use Rattle.std.specs.List.{AllZip, AllAdjacentBelow};
ghost use Rattle.optra_network.specs.Net.{MayUse, IsFromTo};
ghost use Rattle.optra_walk.specs.Legs.{arrival_of, next_depart_of, is_halt};
ghost use Rattle.optra_walk.specs.Walks.{IsWalk, IsStart, IsNext, IsEnd, MeetsStop, IsAllowedWait, tail_of, head_of, FinishesLast};
ghost use Rattle.optra_walk.specs.Values.{last_arrival};

use crate::{Action, Leg};
use optra_bid::{Bid, PathSpec, Stop};
use optra_network::{Network, StationId, TypeId};

/// The minute at which the leg arrives: its departure plus the running time by the modes at both
/// ends, where Pass is the only action that passes. `None` exactly where the type may not use the
/// track. It may lie after the last minute of the two days.
pub fn arrival(net: &Network, kind: TypeId, leg: Leg) -> Option<u32>
    ensures value { result ≡ arrival_of net.now kind leg }
    ensures bound { IfSome result (λ n. n < 2 ^ 17) }
{
    let to_halt = !matches!(leg.action, Action::Pass);
    let minutes = net.run(leg.track, kind, leg.from_halt, to_halt)?;
    Some(u32::from(leg.depart) + u32::from(minutes))
}

/// The minute at which the leg after this one departs: the arrival plus the dwell. `None` exactly
/// where the type may not use the track, or where the action is Finish.
pub fn next_depart(net: &Network, kind: TypeId, leg: Leg) -> Option<u32>
    ensures { result ≡ next_depart_of net.now kind leg }
{
    let there = arrival(net, kind, leg)?;
    match leg.action {
        Action::Pass => Some(there),
        Action::Halt(dwell) | Action::Wait(dwell) => Some(there + u32::from(dwell)),
        Action::Finish => None,
    }
}

/// The station that the leg leaves. It is `None` where its track is none of the network.
pub fn tail(net: &Network, leg: Leg) -> Option<StationId>
    ensures { result ≡ tail_of net.now leg }
{
    if leg.track.0 < net.track_count() {
        Some(net.tail(leg.track))
    } else {
        None
    }
}

/// The station that the leg arrives at. It is `None` where its track is none of the network.
pub fn head(net: &Network, leg: Leg) -> Option<StationId>
    ensures { result ≡ head_of net.now leg }
{
    if leg.track.0 < net.track_count() {
        Some(net.head(leg.track))
    } else {
        None
    }
}

/// Whether the leg leaves the origin from a halt within the departure window.
fn is_start(net: &Network, path: &PathSpec, leg: Leg) -> bool
    ensures { IsTrue result ↔ IsStart net.now path.now leg }
{
    tail(net, leg) == Some(path.origin)
        && leg.from_halt
        && path.depart.from <= leg.depart
        && leg.depart <= path.depart.to
}

/// Whether the second leg goes on from the first.
fn is_next(net: &Network, kind: TypeId, before: Leg, after: Leg) -> bool
    ensures { IsTrue result ↔ IsNext net.now kind before after }
{
    tail(net, after) == head(net, before)
        && next_depart(net, kind, before) == Some(u32::from(after.depart))
        && after.from_halt == !matches!(before.action, Action::Pass)
}

/// Whether the leg arrives from one minute to another, both included.
fn arrives_within(net: &Network, kind: TypeId, leg: Leg, from: u16, to: u16) -> bool
    ensures { IsTrue result ↔ IsSomeAnd (arrival_of net.now kind leg) (IsFromTo from to) }
{
    match arrival(net, kind, leg) {
        Some(time) => u32::from(from) <= time && time <= u32::from(to),
        None => false,
    }
}

/// Whether the leg arrives at the stop within its span and stays for a dwell of its range.
fn meets_stop(net: &Network, kind: TypeId, leg: Leg, stop: &Stop) -> bool
    ensures { IsTrue result ↔ MeetsStop net.now kind leg stop.now }
{
    let dwell = leg.action.dwell();
    head(net, leg) == Some(stop.station)
        && arrives_within(net, kind, leg, stop.arrive.from, stop.arrive.to)
        && stop.min_dwell <= dwell
        && dwell <= stop.max_dwell
}

/// Whether a wait is at least a minute and at most so many; every other action is allowed.
fn is_allowed_wait(most: u16, action: Action) -> bool
    ensures { IsTrue result ↔ IsAllowedWait most action }
{
    match action {
        Action::Wait(dwell) => 1 <= dwell && dwell <= most,
        _ => true,
    }
}

/// Whether the leg finishes at the destination within the arrival window.
fn is_end(net: &Network, path: &PathSpec, leg: Leg) -> bool
    ensures { IsTrue result ↔ IsEnd net.now path.now leg }
{
    matches!(leg.action, Action::Finish)
        && head(net, leg) == Some(path.destination)
        && arrives_within(net, path.kind, leg, path.arrive.from, path.arrive.to)
}

/// Whether the type may use the track of each leg.
fn all_may_use(net: &Network, kind: TypeId, legs: &[Leg]) -> bool
    ensures { IsTrue result ↔ All (λ leg. MayUse net.now leg.track kind) legs.now }
{
    legs.iter()
        .all(|leg| net.run(leg.track, kind, false, false).is_some())
}

/// Whether each wait is allowed.
fn waits_are_allowed(most: u16, legs: &[Leg]) -> bool
    ensures { IsTrue result ↔ All (λ leg. IsAllowedWait most leg.action) legs.now }
{
    legs.iter().all(|leg| is_allowed_wait(most, leg.action))
}

/// Whether each leg goes on from the one before.
fn all_go_on(net: &Network, kind: TypeId, legs: &[Leg]) -> bool
    ensures { IsTrue result ↔ AllAdjacentBelow (IsNext net.now kind) legs.now (length legs.now) }
{
    for i in 1..legs.len() {
        if !is_next(net, kind, legs[i - 1], legs[i]) {
            return false;
        }
    }
    true
}

/// Whether no leg before the last one finishes.
fn finishes_last(legs: &[Leg]) -> bool
    ensures { IsTrue result ↔ FinishesLast legs.now }
{
    for i in 1..legs.len() {
        if matches!(legs[i - 1].action, Action::Finish) {
            return false;
        }
    }
    true
}

/// Whether the halts meet the stops one for one, in their order.
fn meets_stops(net: &Network, kind: TypeId, legs: &[Leg], stops: &[Stop]) -> bool
    ensures { IsTrue result
        ↔ AllZip (MeetsStop net.now kind) (filter (λ leg. is_halt leg.action) legs.now) stops.now }
{
    let mut rest = stops;
    for leg in legs {
        if let Action::Halt(_) = leg.action {
            let Some((stop, others)) = rest.split_first() else {
                return false;
            };
            if !meets_stop(net, kind, *leg, stop) {
                return false;
            }
            rest = others;
        }
    }
    rest.is_empty()
}

/// Whether the legs are a timed walk of the bid:
///
/// - the first leg leaves the bid's origin from a halt, within the departure window;
/// - the bid's type may use each leg's track;
/// - each next leg starts at the head of the one before, at that leg's next departure, and from a
///   halt exactly where the action before it wasn't Pass;
/// - there are as many halts as stops, and each halt meets the stop of its place: station, span of
///   arrival and range of dwells;
/// - each wait is 1 to `wait_max` minutes;
/// - the last leg alone is Finish, and it arrives at the destination within the arrival window.
///
/// Departures rise strictly along a walk, its last arrival is at most 2,879, and it has 1 to 2,879
/// legs. The work is linear in the legs.
pub fn follows(net: &Network, bid: &Bid, legs: &[Leg]) -> bool
    ensures walk { IsTrue result ↔ IsWalk net.now bid.now.path legs.now }
    ensures rises { IsTrue result → AllPairs (λ before after. before.depart
        < after.depart) legs.now }
    ensures differ { IsTrue result → AllPairs (λ before after. before ≢ after) legs.now }
    ensures ends { IsTrue result → last_arrival net.now bid.now.path.kind legs.now ≤ 2879 }
    ensures few { IsTrue result → (0 < length legs.now) × (length legs.now < 2880) }
{
    let is_walk = obeys_rules(net, bid, legs);
    net.laws();
    is_walk
}

/// Whether the legs keep each rule of a walk.
fn obeys_rules(net: &Network, bid: &Bid, legs: &[Leg]) -> bool
    ensures { IsTrue result ↔ IsWalk net.now bid.now.path legs.now }
{
    let path = &bid.path;
    let (Some(first), Some(last)) = (legs.first(), legs.last()) else {
        return false;
    };
    is_start(net, path, *first)
        && all_may_use(net, path.kind, legs)
        && all_go_on(net, path.kind, legs)
        && meets_stops(net, path.kind, legs, &path.stops)
        && waits_are_allowed(path.wait_max, legs)
        && is_end(net, path, *last)
        && finishes_last(legs)
}
