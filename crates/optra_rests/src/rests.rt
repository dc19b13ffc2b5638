//! The best rest of a walk from a state on, by what a table has for the states that come later.
ghost use Rattle.std.specs.Prelude.{◌≡◌, ◌+◌, ◌<◌, ◌≤◌, ◌↔◌, length, pos, ◌-ℤ◌, IfSome, IsTrue, Some, slice_get};
ghost use Rattle.optra_bid.specs.Specs.{IsBetween};
ghost use Rattle.optra_walk.specs.Families.{IsUsable};
ghost use Rattle.optra_walk.specs.Walks.{tail_of};
ghost use Rattle.optra_rests.specs.Asks.{AreAsked};
ghost use Rattle.optra_walk.specs.Moves.{IsMove, leg_by};
ghost use Rattle.optra_rests.specs.Rests.{IsBestRest, IsRestSize, AnyLeg, greater_of, worth_by};
ghost use Rattle.optra_walk.specs.Shares.{IsTaken};
ghost use Rattle.optra_rests.specs.Sizes.{IsWholeRest, IsCost};
ghost use Rattle.optra_rests.specs.Tables.{IsReadyFor};
ghost use Rattle.optra_rests.specs.Ways.{IsWay, IsAtStop, IsAtEnd, IsOn, IsLegBy, IsHaltBy, IsWaitBy};
ghost use Rattle.optra_rests.specs.Weights.{AreWeightsFor};

use crate::asks::{Ask, leg_cost};
use crate::rest_table::RestTable;
use crate::ways::{Way, find_way};
use crate::weighing::Weighing;
use optra_bid::{Bid, Stop};
use optra_network::{Network, TrackId};
use optra_walk::{Action, Leg, State, end_price, wait_price};

/// The greater of two numbers, of which either may be missing.
pub fn greater(a: Option<i128>, b: Option<i128>) -> Option<i128>
    ensures { result ≡ greater_of a b }
{
    match (a, b) {
        (None, b) => b,
        (a, None) => a,
        (Some(a), Some(b)) => Some(a.max(b)),
    }
}

/// A number less two others.
fn less(rest: i128, share: i64, cost: i128) -> i128
    requires rest { IsWholeRest rest }
    requires share { IsTaken share }
    requires cost { IsCost cost }
    ensures { result ≡ rest -ℤ share -ℤ cost }
{
    rest - i128::from(share) - cost
}

/// What the best rest that begins with the leg is worth, by the leg's share of the value and the
/// best rest behind it.
pub(crate) fn begin_with<W: Weighing>(
    weighing: &W,
    asks: &mut [Option<Ask>],
    leg: Leg,
    share: i64,
    rest: Option<i128>,
) -> Option<i128>
    requires asks { AreAsked (W.weights weighing.now) asks.old }
    requires track { leg.track.0 < length asks.old }
    requires usable { IsUsable (W.weights weighing.now).net (W.weights weighing.now).kind leg }
    requires share { IsTaken share }
    requires rest { IfSome rest (IsRestSize (leg.depart + 1)) }
    ensures value { result ≡ worth_by (W.weights weighing.now) leg share rest }
    ensures size { IfSome result (IsRestSize leg.depart) }
    ensures asks { AreAsked (W.weights weighing.now) asks.new }
{
    let rest = rest?;
    let cost = leg_cost(weighing, asks, leg)?;
    Some(less(rest, share, cost))
}

/// The best rest that begins by the way and passes at its end.
fn pass_rest<W: Weighing>(
    net: &Network,
    bid: &Bid,
    weighing: &W,
    asks: &mut [Option<Ask>],
    table: &RestTable,
    way: Way,
) -> Option<i128>
    requires asks { AreAsked (W.weights weighing.now) asks.old }
    requires weights { AreWeightsFor (W.weights weighing.now) net.now bid.now.path }
    requires ready { IsReadyFor (W.weights weighing.now) net.now bid.now table.now way.from }
    requires way { IsWay net.now bid.now.path way.from way }
    ensures best { IsBestRest (W.weights weighing.now) net.now bid.now way.from
        (IsLegBy way.from way.track Action.Pass) result }
    ensures asks { AreAsked (W.weights weighing.now) asks.new }
{
    let rest = table.rest(State {
        station: way.head,
        minute: way.pass,
        halted: false,
        done: way.from.done,
    });
    begin_with(weighing, asks, way.leg(Action::Pass), 0, rest)
}

/// The best rest that begins by the way and halts at its end for so many minutes.
fn halt_rest<W: Weighing>(
    net: &Network,
    bid: &Bid,
    weighing: &W,
    asks: &mut [Option<Ask>],
    table: &RestTable,
    way: Way,
    dwell: u16,
) -> Option<i128>
    requires asks { AreAsked (W.weights weighing.now) asks.old }
    requires weights { AreWeightsFor (W.weights weighing.now) net.now bid.now.path }
    requires ready { IsReadyFor (W.weights weighing.now) net.now bid.now table.now way.from }
    requires way { IsWay net.now bid.now.path way.from way }
    requires halt { IsMove net.now bid.now.path way.from (leg_by way.from way.track
        (Action.Halt dwell)) }
    ensures best { IsBestRest (W.weights weighing.now) net.now bid.now way.from
        (IsLegBy way.from way.track (Action.Halt dwell)) result }
    ensures asks { AreAsked (W.weights weighing.now) asks.new }
{
    let rest = table.rest(State {
        station: way.head,
        minute: way.halt + dwell,
        halted: true,
        done: way.from.done + 1,
    });
    begin_with(weighing, asks, way.leg(Action::Halt(dwell)), 0, rest)
}

/// The best rest that begins by the way and waits at its end for so many minutes.
fn wait_rest<W: Weighing>(
    net: &Network,
    bid: &Bid,
    weighing: &W,
    asks: &mut [Option<Ask>],
    table: &RestTable,
    way: Way,
    dwell: u16,
) -> Option<i128>
    requires asks { AreAsked (W.weights weighing.now) asks.old }
    requires weights { AreWeightsFor (W.weights weighing.now) net.now bid.now.path }
    requires ready { IsReadyFor (W.weights weighing.now) net.now bid.now table.now way.from }
    requires way { IsWay net.now bid.now.path way.from way }
    requires wait { IsMove net.now bid.now.path way.from (leg_by way.from way.track
        (Action.Wait dwell)) }
    ensures best { IsBestRest (W.weights weighing.now) net.now bid.now way.from
        (IsLegBy way.from way.track (Action.Wait dwell)) result }
    ensures asks { AreAsked (W.weights weighing.now) asks.new }
{
    let rest = table.rest(State {
        station: way.head,
        minute: way.halt + dwell,
        halted: true,
        done: way.from.done,
    });
    let leg = way.leg(Action::Wait(dwell));
    begin_with(weighing, asks, leg, wait_price(bid, dwell), rest)
}

/// The stop that comes after so many.
pub(crate) fn next_stop(bid: &Bid, done: u16) -> Option<Stop>
    ensures { result ≡ slice_get bid.now.path.stops done }
{
    bid.path.stops.get(done as usize).copied()
}

/// Whether the train halts right for the stop when it arrives by the way.
pub(crate) fn may_halt(stop: Stop, way: Way) -> bool
    ensures { IsTrue result ↔ IsAtStop stop way }
{
    stop.station == way.head && stop.arrive.from <= way.halt && way.halt <= stop.arrive.to
}

/// The best rest that begins by the way and halts at its end.
fn halts_rest<W: Weighing>(
    net: &Network,
    bid: &Bid,
    weighing: &W,
    asks: &mut [Option<Ask>],
    table: &RestTable,
    way: Way,
) -> Option<i128>
    requires asks { AreAsked (W.weights weighing.now) asks.old }
    requires weights { AreWeightsFor (W.weights weighing.now) net.now bid.now.path }
    requires ready { IsReadyFor (W.weights weighing.now) net.now bid.now table.now way.from }
    requires way { IsWay net.now bid.now.path way.from way }
    ensures best { IsBestRest (W.weights weighing.now) net.now bid.now way.from
        (IsHaltBy way.from way.track) result }
    ensures asks { AreAsked (W.weights weighing.now) asks.new }
{
    let stop = next_stop(bid, way.from.done)?;
    if !may_halt(stop, way) {
        return None;
    }
    let mut best = None;
    for dwell in stop.min_dwell..stop.max_dwell + 1 {
        let rest = halt_rest(net, bid, weighing, asks, table, way, dwell);
        best = greater(best, rest);
    }
    best
}

pub(crate) fn wait_max(bid: &Bid) -> u16
    ensures value { result ≡ bid.now.path.wait_max }
    ensures small { result ≤ 30 }
{
    bid.path.wait_max
}

/// The best rest that begins by the way and waits at its end.
fn waits_rest<W: Weighing>(
    net: &Network,
    bid: &Bid,
    weighing: &W,
    asks: &mut [Option<Ask>],
    table: &RestTable,
    way: Way,
) -> Option<i128>
    requires asks { AreAsked (W.weights weighing.now) asks.old }
    requires weights { AreWeightsFor (W.weights weighing.now) net.now bid.now.path }
    requires ready { IsReadyFor (W.weights weighing.now) net.now bid.now table.now way.from }
    requires way { IsWay net.now bid.now.path way.from way }
    ensures best { IsBestRest (W.weights weighing.now) net.now bid.now way.from
        (IsWaitBy way.from way.track) result }
    ensures asks { AreAsked (W.weights weighing.now) asks.new }
{
    let mut best = None;
    for dwell in 1..wait_max(bid) + 1 {
        let rest = wait_rest(net, bid, weighing, asks, table, way, dwell);
        best = greater(best, rest);
    }
    best
}

/// Whether the walk may end when the train arrives by the way.
pub(crate) fn may_finish(bid: &Bid, way: Way) -> bool
    ensures { IsTrue result ↔ IsAtEnd bid.now.path way }
{
    let path = &bid.path;
    usize::from(way.from.done) == path.stops.len()
        && way.head == path.destination
        && path.arrive.from <= way.halt
        && way.halt <= path.arrive.to
}

/// The rest that begins by the way and ends there, where all stops are done and it is the
/// destination within the arrival window.
fn finish_rest<W: Weighing>(
    net: &Network,
    bid: &Bid,
    weighing: &W,
    asks: &mut [Option<Ask>],
    table: &RestTable,
    way: Way,
) -> Option<i128>
    requires asks { AreAsked (W.weights weighing.now) asks.old }
    requires weights { AreWeightsFor (W.weights weighing.now) net.now bid.now.path }
    requires ready { IsReadyFor (W.weights weighing.now) net.now bid.now table.now way.from }
    requires way { IsWay net.now bid.now.path way.from way }
    ensures best { IsBestRest (W.weights weighing.now) net.now bid.now way.from
        (IsLegBy way.from way.track Action.Finish) result }
    ensures asks { AreAsked (W.weights weighing.now) asks.new }
{
    if !may_finish(bid, way) {
        return None;
    }
    let leg = way.leg(Action::Finish);
    begin_with(weighing, asks, leg, end_price(bid, way.halt), Some(0))
}

/// The best rest that begins by the way.
fn way_rest<W: Weighing>(
    net: &Network,
    bid: &Bid,
    weighing: &W,
    asks: &mut [Option<Ask>],
    table: &RestTable,
    way: Way,
) -> Option<i128>
    requires asks { AreAsked (W.weights weighing.now) asks.old }
    requires weights { AreWeightsFor (W.weights weighing.now) net.now bid.now.path }
    requires ready { IsReadyFor (W.weights weighing.now) net.now bid.now table.now way.from }
    requires way { IsWay net.now bid.now.path way.from way }
    ensures best { IsBestRest (W.weights weighing.now) net.now bid.now way.from (IsOn way.track)
        result }
    ensures asks { AreAsked (W.weights weighing.now) asks.new }
{
    let pass = pass_rest(net, bid, weighing, asks, table, way);
    let halts = halts_rest(net, bid, weighing, asks, table, way);
    let waits = waits_rest(net, bid, weighing, asks, table, way);
    let finish = finish_rest(net, bid, weighing, asks, table, way);
    greater(greater(pass, halts), greater(waits, finish))
}

/// The best rest that begins on the track, which leaves the state's station.
fn track_rest<W: Weighing>(
    net: &Network,
    bid: &Bid,
    weighing: &W,
    asks: &mut [Option<Ask>],
    table: &RestTable,
    state: State,
    track: TrackId,
) -> Option<i128>
    requires asks { AreAsked (W.weights weighing.now) asks.old }
    requires weights { AreWeightsFor (W.weights weighing.now) net.now bid.now.path }
    requires ready { IsReadyFor (W.weights weighing.now) net.now bid.now table.now state }
    requires tail { tail_of net.now (leg_by state track Action.Pass) ≡ Some state.station }
    ensures best { IsBestRest (W.weights weighing.now) net.now bid.now state (IsOn track) result }
    ensures asks { AreAsked (W.weights weighing.now) asks.new }
{
    let way = find_way(net, bid, state, track)?;
    if table.is_late(way) {
        return None;
    }
    way_rest(net, bid, weighing, asks, table, way)
}

/// The best rest from the state on.
pub(crate) fn state_rest<W: Weighing>(
    net: &Network,
    bid: &Bid,
    weighing: &W,
    asks: &mut [Option<Ask>],
    table: &RestTable,
    state: State,
) -> Option<i128>
    requires asks { AreAsked (W.weights weighing.now) asks.old }
    requires weights { AreWeightsFor (W.weights weighing.now) net.now bid.now.path }
    requires ready { IsReadyFor (W.weights weighing.now) net.now bid.now table.now state }
    ensures best { IsBestRest (W.weights weighing.now) net.now bid.now state AnyLeg result }
    ensures asks { AreAsked (W.weights weighing.now) asks.new }
{
    let mut best = None;
    for track in net.out_tracks(state.station) {
        let rest = track_rest(net, bid, weighing, asks, table, state, *track);
        best = greater(best, rest);
    }
    best
}
