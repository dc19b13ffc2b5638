//! The tests of a leg.

ghost use Rattle.std.specs.Prelude.{◌≡◌, ◌+◌, ◌≤◌, ◌<◌, ◌&&◌, nat_lt, true, length, not, slice_get, Some, if◌then◌else◌};
ghost use Rattle.std.specs.Option.{option_map, option_map_or};
ghost use Rattle.optra_network.specs.Refusals.{is_from_to};
ghost use Rattle.optra_walk.specs.Legs.{arrival_of, dwell_of, is_finish, is_halt, next_depart_of};
ghost use Rattle.optra_walk.specs.Walks.{head_of, tail_of};
ghost use Rattle.optra_audit.specs.Trains.{halts_before};
ghost use Rattle.optra_audit.specs.Faults.{has_fault, has_other_mode, is_last, is_one_place, is_other, is_outside, is_station, is_wrong_wait, misses};

use crate::FaultCode;
use optra_bid::{PathSpec, Stop, Window};
use optra_network::{Network, StationId, TypeId};
use optra_walk::{Action, Leg, arrival, head, next_depart, tail};

/// Whether a leg of a train has the fault. The number of halts before it is handed in, so that they aren't counted anew.
pub fn has_fault(
    net: &Network,
    path: &PathSpec,
    legs: &[Leg],
    place: usize,
    halts: usize,
    code: FaultCode,
) -> bool
    requires within { place < length legs.now }
    requires few { length legs.now ≤ 8000 }
    requires halts { halts ≡ halts_before legs.now place }
    ensures { Some result ≡ option_map (λ leg. has_fault net.now path.now legs.now place leg code)
        (slice_get legs.now place) }
{
    let leg = legs[place];
    match code {
        FaultCode::Origin => place == 0 && !is_station(tail(net, leg), path.origin),
        FaultCode::Start => place == 0 && !leg.from_halt,
        FaultCode::Depart => place == 0 && !is_within(path.depart, leg.depart),
        FaultCode::Kind => net.run(leg.track, path.kind, false, false).is_none(),
        FaultCode::Place => place > 0 && is_elsewhere(net, legs[place - 1], leg),
        FaultCode::Time => place > 0 && is_untimely(net, path.kind, legs[place - 1], leg),
        FaultCode::Mode => place > 0 && has_other_mode(legs[place - 1], leg),
        FaultCode::Stop => is_halt(leg.action) && misses_next(net, path, leg, halts),
        FaultCode::Wait => is_wrong_wait(path.wait_max, leg.action),
        FaultCode::Early => is_finish(leg.action) && !is_last(legs, place),
        FaultCode::Last => is_last(legs, place) && !is_finish(leg.action),
        FaultCode::Stops => leaves_stops(path, legs, place, halts),
        FaultCode::Destination => is_last(legs, place) && ends_elsewhere(net, path, leg),
        FaultCode::Arrive => is_last(legs, place) && ends_untimely(net, path, leg),
    }
}

/// Whether a place is the station.
fn is_station(place: Option<StationId>, station: StationId) -> bool
    ensures { result ≡ is_station place station }
{
    match place {
        Some(place) => place.0 == station.0,
        None => false,
    }
}

/// Whether two places are one station.
fn is_one_place(place: Option<StationId>, other: Option<StationId>) -> bool
    ensures { result ≡ is_one_place place other }
{
    match other {
        Some(other) => is_station(place, other),
        None => false,
    }
}

/// Whether a minute is of a window.
fn is_within(window: Window, minute: u16) -> bool
    ensures { result ≡ is_from_to window.from window.to minute }
{
    window.from <= minute && minute <= window.to
}

/// Whether a leg starts at another station than that which the leg before arrives at.
fn is_elsewhere(net: &Network, before: Leg, leg: Leg) -> bool
    ensures { result ≡ not (is_one_place (tail_of net.now leg) (head_of net.now before)) }
{
    !is_one_place(tail(net, leg), head(net, before))
}

/// Whether the leg before departs again, at another minute than the leg departs.
fn is_untimely(net: &Network, kind: TypeId, before: Leg, leg: Leg) -> bool
    ensures { result ≡ is_other leg.depart (next_depart_of net.now kind before) }
{
    match next_depart(net, kind, before) {
        Some(minute) => minute != u32::from(leg.depart),
        None => false,
    }
}

/// Whether a leg starts from a halt where the leg before passes, or the contrary.
fn has_other_mode(before: Leg, leg: Leg) -> bool
    ensures { result ≡ has_other_mode leg.from_halt before.action }
{
    let passes = matches!(before.action, Action::Pass);
    if leg.from_halt { passes } else { !passes }
}

/// Whether a halt misses the stop of its number, or there is none.
fn misses_next(net: &Network, path: &PathSpec, leg: Leg, halts: usize) -> bool
    ensures { result ≡ option_map_or (misses net.now path.now.kind leg)
        (slice_get path.now.stops halts) true }
{
    match path.stops.get(halts) {
        Some(stop) => misses(net, path.kind, leg, *stop),
        None => true,
    }
}

/// Whether a halt is at another station than the stop, its dwell isn't in the stop's range, or it arrives outside the stop's
/// span.
fn misses(net: &Network, kind: TypeId, leg: Leg, stop: Stop) -> bool
    ensures { result ≡ misses net.now kind leg stop }
{
    !(is_station(head(net, leg), stop.station)
        && has_dwell(leg.action, stop)
        && !arrives_outside(net, kind, leg, stop.arrive.from, stop.arrive.to))
}

/// Whether the dwell of an action is in the stop's range.
fn has_dwell(action: Action, stop: Stop) -> bool
    ensures { result ≡ is_from_to stop.min_dwell stop.max_dwell (dwell_of action) }
{
    let dwell = action.dwell();
    stop.min_dwell <= dwell && dwell <= stop.max_dwell
}

/// Whether a leg arrives, and outside the span.
fn arrives_outside(net: &Network, kind: TypeId, leg: Leg, from: u16, to: u16) -> bool
    ensures { result ≡ is_outside from to (arrival_of net.now kind leg) }
{
    match arrival(net, kind, leg) {
        Some(minute) => !(u32::from(from) <= minute && minute <= u32::from(to)),
        None => false,
    }
}

/// Whether a leg is the last one.
fn is_last(legs: &[Leg], place: usize) -> bool
    requires { place < length legs.now }
    ensures { result ≡ is_last legs.now place }
{
    place + 1 == legs.len()
}

/// Whether a leg is the last one, and the train has fewer halts than stops.
fn leaves_stops(path: &PathSpec, legs: &[Leg], place: usize, halts: usize) -> bool
    requires within { place < length legs.now }
    requires few { length legs.now ≤ 8000 }
    requires halts { halts ≡ halts_before legs.now place }
    ensures { result ≡ (is_last legs.now place
        && nat_lt (halts_before legs.now (length legs.now)) (length path.now.stops)) }
{
    is_last(legs, place) && halts_with(halts, legs[place].action) < path.stops.len()
}

/// Whether a leg leads to another station than the destination.
fn ends_elsewhere(net: &Network, path: &PathSpec, leg: Leg) -> bool
    ensures { result ≡ not (is_station (head_of net.now leg) path.now.destination) }
{
    !is_station(head(net, leg), path.destination)
}

/// Whether a leg arrives, and outside the arrival window.
fn ends_untimely(net: &Network, path: &PathSpec, leg: Leg) -> bool
    ensures { result ≡ is_outside path.now.arrive.from path.now.arrive.to
        (arrival_of net.now path.now.kind leg) }
{
    arrives_outside(net, path.kind, leg, path.arrive.from, path.arrive.to)
}

/// Whether a wait isn't 1 to so many minutes.
fn is_wrong_wait(most: u16, action: Action) -> bool
    ensures { result ≡ is_wrong_wait most action }
{
    match action {
        Action::Wait(dwell) => !(1 <= dwell && dwell <= most),
        _ => false,
    }
}

/// Whether a train makes a stop.
pub fn is_halt(action: Action) -> bool
    ensures { result ≡ is_halt action }
{
    matches!(action, Action::Halt(_))
}

/// Whether a train ends.
fn is_finish(action: Action) -> bool
    ensures { result ≡ is_finish action }
{
    matches!(action, Action::Finish)
}

/// The number of halts with that of one leg more.
pub fn halts_with(halts: usize, action: Action) -> usize
    requires { halts ≤ 8000 }
    ensures { result ≡ halts + (if is_halt action then 1 else 0) }
{
    if is_halt(action) { halts + 1 } else { halts }
}
