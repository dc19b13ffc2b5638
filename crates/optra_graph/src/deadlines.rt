//! The deadlines of stations: from then on it is too late to leave a station, since no way on from it comes to a target
//! in time: to the destination within the arrival window, or to the last stop within its span.
ghost use Rattle.std.specs.Prelude.{◌≡◌, ℕ, Bool, ◌+◌, ◌-◌, ◌<◌, ◌≤◌, length, slice_get, All, IfOk, IfSome, IsSomeAnd, Some, false};
ghost use Rattle.std.specs.Option.{option_map};
ghost use Rattle.optra_bid.specs.Specs.{IsPathOn, IsWindow};
ghost use Rattle.optra_network.specs.Net.{IsProper, IsStation, IsTrack, minutes_by, out_tracks_of, times_of};
ghost use Rattle.optra_graph.specs.Deadlines.{AreBounded, AreDeadlines, AreStopping, IsLeftTooLate, IsTooLate, end_of, limit_of, target_of};

use optra_bid::{Bid, Stop};
use optra_network::{Minute, Network, NoMemory, StationId, TrackId};
use std::alloc::Global;

/// Where a walk has still to come, and before when.
#[derive(Clone, Copy, Debug, PartialEq, Eq)]
pub struct Target {
    pub station: StationId,
    pub before: Minute,
}

/// The destination within the arrival window.
pub fn end_target(bid: &Bid) -> Target
    requires { IsWindow bid.now.path.arrive }
    ensures { result ≡ end_of bid.now.path }
{
    Target {
        station: bid.path.destination,
        before: bid.path.arrive.to + 1,
    }
}

/// The stop, within its span and so early that it may be left before its deadline.
fn stop_target(stop: Stop, deadlines: &[Minute]) -> Target
    requires day { stop.arrive.to ≤ 2879 }
    requires station { stop.station.0 < length deadlines.now }
    ensures { result ≡ target_of stop deadlines.now }
{
    let next = deadlines[stop.station.0 as usize];
    Target {
        station: stop.station,
        before: (stop.arrive.to + 1).min(next.saturating_sub(stop.min_dwell)),
    }
}

/// The last stop of the bid.
fn last_stop(bid: &Bid) -> Option<Stop>
    ensures { result ≡ slice_get bid.now.path.stops (length bid.now.path.stops - 1) }
{
    let count = bid.path.stops.len();
    bid.path.stops.get(count.saturating_sub(1)).copied()
}

/// The deadline of each station while stops are left: the last stop has still to be reached. The others are those for
/// when all stops are done.
pub fn make_stopping(
    alloc: Global,
    net: &Network,
    bid: &Bid,
    deadlines: &[Minute],
) -> Result<Vec<Minute>, NoMemory>
    requires path { IsPathOn net.now bid.now.path }
    requires deadlines { AreDeadlines net.now bid.now.path (end_of bid.now.path) deadlines.now }
    ensures { IfOk result (λ stopping. AreStopping net.now bid.now.path stopping.items) }
{
    let Some(stop) = last_stop(bid) else {
        return Ok(vec![in alloc; 0; net.station_count() as usize]?);
    };
    let stopping = make_deadlines(alloc, net, bid, stop_target(stop, deadlines))?;
    Ok(stopping)
}

/// The deadline of each station. All begin with the first departure, and each pass over the tracks makes those of their
/// tails later by what they allow, until one changes none. The passes go down and up by turns: a line whose tracks come in
/// its order takes three, the last of which changes nothing, and no network more than one for each station; were one to
/// take more, the last minute of the arrival window would do for all.
pub fn make_deadlines(
    alloc: Global,
    net: &Network,
    bid: &Bid,
    target: Target,
) -> Result<Vec<Minute>, NoMemory>
    requires path { IsPathOn net.now bid.now.path }
    requires before { target.before ≤ bid.now.path.arrive.to + 1 }
    ensures { IfOk result (λ deadlines. AreDeadlines net.now bid.now.path target deadlines.items) }
{
    let mut deadlines = vec![in alloc; first_minute(bid); net.station_count() as usize]?;
    for _ in 0..=net.station_count() {
        if !raise_down(net, bid, target, &mut deadlines)
            || !raise_up(net, bid, target, &mut deadlines)
        {
            return Ok(deadlines);
        }
    }
    deadlines.fill(bid.path.arrive.to);
    Ok(deadlines)
}

/// No deadline is earlier than this minute: no walk leaves a station before it.
fn first_minute(bid: &Bid) -> Minute
    ensures { result ≤ bid.now.path.arrive.to }
{
    bid.path.depart.from.min(bid.path.arrive.to)
}

/// Makes the deadlines later in one pass from the last track to the first, and tells whether one has changed.
fn raise_down(net: &Network, bid: &Bid, target: Target, deadlines: &mut [Minute]) -> bool
    requires { AreBounded net.now bid.now.path target deadlines.old }
    ensures bounded { AreBounded net.now bid.now.path target deadlines.new }
    ensures done { result ≡ false → AreDeadlines net.now bid.now.path target deadlines.new }
{
    let count = net.track_count();
    let mut changed = false;
    for passed in 0..count {
        let raised = raise(net, bid, target, deadlines, TrackId(count - 1 - passed));
        changed = changed | raised;
    }
    changed
}

/// Makes the deadlines later in one pass from the first track to the last, and tells whether one has changed.
fn raise_up(net: &Network, bid: &Bid, target: Target, deadlines: &mut [Minute]) -> bool
    requires { AreBounded net.now bid.now.path target deadlines.old }
    ensures bounded { AreBounded net.now bid.now.path target deadlines.new }
    ensures done { result ≡ false → AreDeadlines net.now bid.now.path target deadlines.new }
{
    let mut changed = false;
    for track in 0..net.track_count() {
        let raised = raise(net, bid, target, deadlines, TrackId(track));
        changed = changed | raised;
    }
    changed
}

/// Makes the deadline of a track's tail later, where the track asks for it, and tells whether it has changed.
fn raise(net: &Network, bid: &Bid, target: Target, deadlines: &mut [Minute], track: TrackId) -> bool
    requires bounded { AreBounded net.now bid.now.path target deadlines.old }
    requires track { IsTrack net.now track }
    ensures bounded { AreBounded net.now bid.now.path target deadlines.new }
    ensures same { result ≡ false → deadlines.new ≡ deadlines.old }
    ensures late { result ≡ false → IsLeftTooLate net.now bid.now.path target deadlines.old track }
{
    let deadline = track_deadline(net, bid, target, deadlines, track);
    let place = net.tail(track).0 as usize;
    if deadline <= deadlines[place] {
        return false;
    }
    deadlines[place] = deadline;
    true
}

/// A minute at which it is too late to leave by the track. Most heads have the first minute for a deadline, and then the
/// running time doesn't count.
fn track_deadline(
    net: &Network,
    bid: &Bid,
    target: Target,
    deadlines: &[Minute],
    track: TrackId,
) -> Minute
    requires deadlines { AreBounded net.now bid.now.path target deadlines.now }
    requires track { IsTrack net.now track }
    ensures most { result ≤ bid.now.path.arrive.to }
    ensures late { IsTooLate net.now bid.now.path target deadlines.now result track }
{
    let limit = limit(target, deadlines, net.head(track));
    if limit <= first_minute(bid) {
        return limit;
    }
    let Some(least) = least_run(net, bid, track) else {
        return 0;
    };
    limit.saturating_sub(least)
}

/// The first minute at which it is too late to arrive at the station.
fn limit(target: Target, deadlines: &[Minute], station: StationId) -> Minute
    requires station { station.0 < length deadlines.now }
    ensures { result ≡ limit_of target deadlines.now station }
{
    let own = deadlines[station.0 as usize];
    if station == target.station {
        own.max(target.before)
    } else {
        own
    }
}

/// The least of the running times of the bid's type on the track.
fn least_run(net: &Network, bid: &Bid, track: TrackId) -> Option<u16>
    ensures some { IfSome result (λ least. 1 ≤ least) }
    ensures least { (a b : Bool) (minutes : ℕ) → option_map (minutes_by a b) (times_of net.now track
        bid.now.path.kind) ≡ Some minutes → IsSomeAnd result (λ least. least ≤ minutes) }
{
    let kind = bid.path.kind;
    let pass_pass = net.run(track, kind, false, false)?;
    let pass_halt = net.run(track, kind, false, true)?;
    let halt_pass = net.run(track, kind, true, false)?;
    let halt_halt = net.run(track, kind, true, true)?;
    Some(pass_pass.min(pass_halt).min(halt_pass.min(halt_halt)))
}
