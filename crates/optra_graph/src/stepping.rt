//! The steps of a state, in the order of walks.
ghost use Rattle.std.specs.Prelude.{◌≡◌, ℕ, ◌+◌, ◌-◌, ◌*◌, ◌<◌, ◌≤◌, length, min, OnOk, MatchOption, Some, slice_get, IsTrue, true, ◌↔◌};
ghost use Rattle.optra_network.specs.Net.{MayUse, out_tracks_of};
ghost use Rattle.optra_walk.specs.Walks.{tail_of};
ghost use Rattle.optra_graph.specs.Places.{IsPlaced, IsSmall, place_of};
ghost use Rattle.optra_graph.specs.Settings.{IsSetting};
ghost use Rattle.optra_graph.specs.Steps.{AreSteps, AreStepsBelow, IsWay, bound_of};
ghost use Rattle.optra_walk.specs.Moves.{leg_by};

use crate::states::Layout;
use optra_bid::{Bid, Stop};
use optra_network::{Minute, Network, NoMemory, StationId, TrackId, TypeId};
use optra_walk::{Action, Leg, State};

/// An arc that may be: a leg, and the place that it leads to.
#[derive(Clone, Copy, Debug, PartialEq, Eq)]
pub struct Step {
    pub leg: Leg,
    pub to: u32,
}

/// A track by which the train may leave, and when it arrives at its head, passing or halting there. From the deadline on
/// it is too late to leave the head, unless the train halts there at a stop.
#[derive(Clone, Copy, Debug, PartialEq, Eq)]
pub struct Way {
    pub track: TrackId,
    pub head: StationId,
    pub pass: Minute,
    pub halt: Minute,
    pub deadline: Minute,
}

/// Puts all steps of the state into the list, in place of what it had.
pub fn fill_steps(
    net: &Network,
    bid: &Bid,
    layout: Layout<'_>,
    state: State,
    steps: &mut Vec<Step>,
) -> Result<(), NoMemory>
    requires setting { IsSetting net.now bid.now.path layout }
    requires placed { IsPlaced layout state }
    ensures few { OnOk result (length steps.new.items ≤ 63
        * length (out_tracks_of net.now.tracks state.station)) }
    ensures steps { OnOk result (AreSteps net.now bid.now.path layout.entry state steps.new.items) }
{
    steps.clear();
    for track in net.out_tracks(state.station) {
        if let Some(way) = find_way(net, bid, layout, state, *track) {
            add_way(net, bid, layout, state, way, steps)?;
        }
    }
    Ok(())
}

fn kind_of(bid: &Bid) -> TypeId
    ensures { result ≡ bid.now.path.kind }
{
    bid.path.kind
}

/// The way by the track, where the train may use it.
fn find_way(
    net: &Network,
    bid: &Bid,
    layout: Layout<'_>,
    state: State,
    track: TrackId,
) -> Option<Way>
    requires setting { IsSetting net.now bid.now.path layout }
    requires tail { tail_of net.now (leg_by state track Action.Pass) ≡ Some state.station }
    requires minute { state.minute ≤ 2879 }
    requires done { state.done ≤ 8 }
    ensures { MatchOption result (¬ MayUse net.now track bid.now.path.kind)
        (λ way. (way.track ≡ track) × IsWay net.now bid.now.path layout.entry state way) }
{
    let kind = kind_of(bid);
    let pass = net.run(track, kind, state.halted, false)?;
    let halt = net.run(track, kind, state.halted, true)?;
    let head = net.head(track);
    Some(Way {
        track,
        head,
        pass: state.minute + pass,
        halt: state.minute + halt,
        deadline: layout.deadline(state.done, head),
    })
}

/// Adds the steps by one track.
fn add_way(
    net: &Network,
    bid: &Bid,
    layout: Layout<'_>,
    state: State,
    way: Way,
    steps: &mut Vec<Step>,
) -> Result<(), NoMemory>
    requires setting { IsSetting net.now bid.now.path layout }
    requires placed { IsPlaced layout state }
    requires way { IsWay net.now bid.now.path layout state way }
    requires before { AreStepsBelow net.now bid.now.path layout state (bound_of way.track.0 0)
        steps.old.items }
    ensures few { OnOk result (length steps.new.items ≤ length steps.old.items + 63) }
    ensures steps { OnOk result (AreStepsBelow net.now bid.now.path layout.entry state
        (bound_of way.track.0 4) steps.new.items) }
{
    add_pass(net, bid, layout, state, way, steps)?;
    add_halts(net, bid, layout, state, way, steps)?;
    add_waits(net, bid, layout, state, way, steps)?;
    add_finish(net, bid, layout, state, way, steps)
}

fn make_step(layout: Layout<'_>, state: State, way: Way, action: Action, after: State) -> Step
    requires small { IsSmall layout }
    requires placed { IsPlaced layout after }
    ensures { result
        ≡ record { leg = leg_by state way.track action; to = place_of layout.entry after } }
{
    Step {
        leg: make_leg(state, way, action),
        to: layout.place(after),
    }
}

fn make_leg(state: State, way: Way, action: Action) -> Leg
    ensures { result ≡ leg_by state way.track action }
{
    Leg {
        track: way.track,
        depart: state.minute,
        from_halt: state.halted,
        action,
    }
}

/// The first dwell that is too long: above the most, or so long that it is too late to leave.
fn dwell_end(way: Way, most: u16, deadline: Minute) -> u16
    requires { most ≤ 240 }
    ensures { result ≡ min (most + 1) (deadline - way.halt) }
{
    (most + 1).min(deadline.saturating_sub(way.halt))
}

fn add_pass(
    net: &Network,
    bid: &Bid,
    layout: Layout<'_>,
    state: State,
    way: Way,
    steps: &mut Vec<Step>,
) -> Result<(), NoMemory>
    requires setting { IsSetting net.now bid.now.path layout }
    requires placed { IsPlaced layout state }
    requires way { IsWay net.now bid.now.path layout state way }
    requires before { AreStepsBelow net.now bid.now.path layout state (bound_of way.track.0 0)
        steps.old.items }
    ensures few { OnOk result (length steps.new.items ≤ length steps.old.items + 1) }
    ensures steps { OnOk result (AreStepsBelow net.now bid.now.path layout.entry state
        (bound_of way.track.0 1) steps.new.items) }
{
    if way.pass >= way.deadline {
        return Ok(());
    }
    let after = State {
        station: way.head,
        minute: way.pass,
        halted: false,
        done: state.done,
    };
    steps.push(make_step(layout, state, way, Action::Pass, after))?;
    Ok(())
}

/// The stop that comes after so many.
fn next_stop(bid: &Bid, done: u16) -> Option<Stop>
    ensures { result ≡ slice_get bid.now.path.stops done }
{
    bid.path.stops.get(done as usize).copied()
}

/// Whether the train halts right for the stop when it arrives by the way.
fn may_halt(stop: Stop, way: Way) -> bool
    ensures { IsTrue result ↔ ((stop.station ≡ way.head) × (stop.arrive.from ≤ way.halt)
        × (way.halt ≤ stop.arrive.to)) }
{
    stop.station == way.head && stop.arrive.from <= way.halt && way.halt <= stop.arrive.to
}

/// The state after a halt or a wait at the head of the way.
fn stand(way: Way, dwell: u16, done: u16) -> State
    requires { way.halt + dwell ≤ u16.MAX }
    ensures { result
        ≡ record { station = way.head; minute = way.halt + dwell; halted = true; done = done } }
{
    State {
        station: way.head,
        minute: way.halt + dwell,
        halted: true,
        done,
    }
}

/// A halt at the next stop for each dwell in its range.
fn add_halts(
    net: &Network,
    bid: &Bid,
    layout: Layout<'_>,
    state: State,
    way: Way,
    steps: &mut Vec<Step>,
) -> Result<(), NoMemory>
    requires setting { IsSetting net.now bid.now.path layout }
    requires placed { IsPlaced layout state }
    requires way { IsWay net.now bid.now.path layout state way }
    requires before { AreStepsBelow net.now bid.now.path layout state (bound_of way.track.0 1)
        steps.old.items }
    ensures few { OnOk result (length steps.new.items ≤ length steps.old.items + 31) }
    ensures steps { OnOk result (AreStepsBelow net.now bid.now.path layout.entry state
        (bound_of way.track.0 2) steps.new.items) }
{
    let Some(stop) = next_stop(bid, state.done) else {
        return Ok(());
    };
    if !may_halt(stop, way) {
        return Ok(());
    }
    let deadline = layout.deadline(state.done + 1, way.head);
    let before = dwell_end(way, stop.max_dwell, deadline);
    for dwell in stop.min_dwell..before {
        let after = stand(way, dwell, state.done + 1);
        steps.push(make_step(layout, state, way, Action::Halt(dwell), after))?;
    }
    Ok(())
}

/// A wait for each dwell up to the bid's greatest.
fn add_waits(
    net: &Network,
    bid: &Bid,
    layout: Layout<'_>,
    state: State,
    way: Way,
    steps: &mut Vec<Step>,
) -> Result<(), NoMemory>
    requires setting { IsSetting net.now bid.now.path layout }
    requires placed { IsPlaced layout state }
    requires way { IsWay net.now bid.now.path layout state way }
    requires before { AreStepsBelow net.now bid.now.path layout state (bound_of way.track.0 2)
        steps.old.items }
    ensures few { OnOk result (length steps.new.items ≤ length steps.old.items + 30) }
    ensures steps { OnOk result (AreStepsBelow net.now bid.now.path layout.entry state
        (bound_of way.track.0 3) steps.new.items) }
{
    let before = dwell_end(way, wait_max(bid), way.deadline);
    for dwell in 1..before {
        let after = stand(way, dwell, state.done);
        steps.push(make_step(layout, state, way, Action::Wait(dwell), after))?;
    }
    Ok(())
}

fn wait_max(bid: &Bid) -> u16
    ensures value { result ≡ bid.now.path.wait_max }
    ensures small { result ≤ 30 }
{
    bid.path.wait_max
}

/// Whether the walk may end when the train arrives by the way.
fn may_finish(bid: &Bid, state: State, way: Way) -> bool
    ensures { IsTrue result ↔ ((state.done ≡ length bid.now.path.stops)
        × (way.head ≡ bid.now.path.destination) × (bid.now.path.arrive.from ≤ way.halt)
        × (way.halt ≤ bid.now.path.arrive.to)) }
{
    let path = &bid.path;
    usize::from(state.done) == path.stops.len()
        && way.head == path.destination
        && path.arrive.from <= way.halt
        && way.halt <= path.arrive.to
}

/// The end of the walk, where all stops are done and the head is the destination within the arrival window.
fn add_finish(
    net: &Network,
    bid: &Bid,
    layout: Layout<'_>,
    state: State,
    way: Way,
    steps: &mut Vec<Step>,
) -> Result<(), NoMemory>
    requires setting { IsSetting net.now bid.now.path layout }
    requires placed { IsPlaced layout state }
    requires way { IsWay net.now bid.now.path layout state way }
    requires before { AreStepsBelow net.now bid.now.path layout state (bound_of way.track.0 3)
        steps.old.items }
    ensures few { OnOk result (length steps.new.items ≤ length steps.old.items + 1) }
    ensures steps { OnOk result (AreStepsBelow net.now bid.now.path layout.entry state
        (bound_of way.track.0 4) steps.new.items) }
{
    if !may_finish(bid, state, way) {
        return Ok(());
    }
    steps.push(Step {
        leg: make_leg(state, way, Action::Finish),
        to: layout.places(),
    })?;
    Ok(())
}
