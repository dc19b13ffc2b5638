//! The best walk of a bid, by a table over the minutes that is filled in one pass from late to
//! early.
ghost use Rattle.std.specs.Prelude.{◌≡◌, ◌+◌, ◌-◌, ◌<◌, ◌≤◌, IfOk, IfSome, OnOk, ◌+ℤ◌};
ghost use Rattle.optra_bid.specs.Specs.{IsPathOn};
ghost use Rattle.optra_network.specs.Net.{IsFromTo};
ghost use Rattle.optra_rests.specs.Asks.{AreAsked};
ghost use Rattle.optra_rests.specs.Places.{IsPlaced, slot_of, place_of, spot_at};
ghost use Rattle.optra_rests.specs.Reaches.{IsReach, IsReached};
ghost use Rattle.optra_walk.specs.Moves.{start_state};
ghost use Rattle.optra_rests.specs.Rests.{IsBestRest, AnyLeg};
ghost use Rattle.optra_walk.specs.Shares.{IsAdded};
ghost use Rattle.optra_rests.specs.Sizes.{IsWholeRest};
ghost use Rattle.optra_rests.specs.Settings.{IsSetting};
ghost use Rattle.optra_rests.specs.Starts.{IsBestStart, IsAt};
ghost use Rattle.optra_rests.specs.Tables.{IsTable, IsFilled, IsReadyFor, end_of};
ghost use Rattle.optra_rests.specs.Weights.{AreWeightsFor, IsBestWorth, IsWorthSize};

use crate::asks::{Ask, no_asks};
use crate::reach::make_reach;
use crate::rest_table::RestTable;
use crate::rests::{greater, state_rest};
use crate::states::make_layout;
use crate::weighing::Weighing;
use optra_bid::{Bid, Window};
use optra_network::{Minute, Network, NoMemory, StationId};
use optra_walk::{State, start_value};
use std::alloc::Global;

/// A state with so many stops done and this mode, by the number of both.
fn state_at(minute: Minute, station: StationId, slot: u16) -> State
    ensures minute { result.minute ≡ minute }
    ensures station { result.station ≡ station }
    ensures slot { slot_of result ≡ slot }
{
    State {
        station,
        minute,
        halted: slot % 2 == 1,
        done: slot / 2,
    }
}

/// The best rest from the state on; none at once where the stops that it has left take too long.
fn spot_rest<W: Weighing>(
    net: &Network,
    bid: &Bid,
    weighing: &W,
    asks: &mut [Option<Ask>],
    table: &RestTable,
    state: State,
) -> Option<i128>
    requires asks { AreAsked (W.weights weighing.now) asks.old }
    requires weights { AreWeightsFor (W.weights weighing.now) net.now bid.now.path }
    requires ready { IsReadyFor (W.weights weighing.now) net.now bid.now table.now state }
    ensures best { IsBestRest (W.weights weighing.now) net.now bid.now state AnyLeg result }
    ensures asks { AreAsked (W.weights weighing.now) asks.new }
{
    if !table.reach.is_ahead(net, bid, state) {
        return None;
    }
    state_rest(net, bid, weighing, asks, table, state)
}

/// Fills the place of a state, behind which the table is filled; nothing where there was no time to
/// come to it by way of the stops that it has done.
fn fill_place<W: Weighing>(
    net: &Network,
    bid: &Bid,
    weighing: &W,
    asks: &mut [Option<Ask>],
    table: &mut RestTable,
    state: State,
)
    requires asks { AreAsked (W.weights weighing.now) asks.old }
    requires weights { AreWeightsFor (W.weights weighing.now) net.now bid.now.path }
    requires placed { IsPlaced table.old.layout state }
    requires reached { IsReached bid.now.path table.old.reach state }
    requires filled { IsFilled (W.weights weighing.now) net.now bid.now table.old
        (place_of table.old.layout state + 1) }
    ensures filled { IsFilled (W.weights weighing.now) net.now bid.now table.new
        (place_of table.old.layout state) }
    ensures asks { AreAsked (W.weights weighing.now) asks.new }
    ensures layout { table.new.layout ≡ table.old.layout }
    ensures reach { table.new.reach ≡ table.old.reach }
{
    if !table.reach.was_time(net, bid, state) {
        return;
    }
    let rest = spot_rest(net, bid, weighing, asks, table, state);
    table.put(table.layout.place(state), rest);
}

/// Fills the places of a station in a minute, behind which the table is filled; nothing where no
/// train of the bid may be there then and still end its walk in time.
fn fill_spot<W: Weighing>(
    net: &Network,
    bid: &Bid,
    weighing: &W,
    asks: &mut [Option<Ask>],
    table: &mut RestTable,
    minute: Minute,
    station: StationId,
)
    requires asks { AreAsked (W.weights weighing.now) asks.old }
    requires weights { AreWeightsFor (W.weights weighing.now) net.now bid.now.path }
    requires minute { minute < end_of table.old }
    requires early { table.old.layout.first ≤ minute }
    requires station { station.0 < table.old.layout.stations }
    requires filled { IsFilled (W.weights weighing.now) net.now bid.now table.old
        (spot_at table.old.layout (minute - table.old.layout.first) (station.0 + 1)) }
    ensures filled { IsFilled (W.weights weighing.now) net.now bid.now table.new
        (spot_at table.old.layout (minute - table.old.layout.first) station.0) }
    ensures asks { AreAsked (W.weights weighing.now) asks.new }
    ensures layout { table.new.layout ≡ table.old.layout }
{
    let at = state_at(minute, station, 0);
    if !table.reach.has(bid, at) {
        return;
    }
    let mut left = table.layout.slots;
    'slots: while left > 0 {
        left -= 1;
        let state = state_at(minute, station, left);
        fill_place(net, bid, weighing, asks, table, state);
    }
}

/// Fills the places of a minute, behind which the table is filled.
fn fill_minute<W: Weighing>(
    net: &Network,
    bid: &Bid,
    weighing: &W,
    asks: &mut [Option<Ask>],
    table: &mut RestTable,
    minute: Minute,
)
    requires asks { AreAsked (W.weights weighing.now) asks.old }
    requires weights { AreWeightsFor (W.weights weighing.now) net.now bid.now.path }
    requires minute { minute < end_of table.old }
    requires early { table.old.layout.first ≤ minute }
    requires filled { IsFilled (W.weights weighing.now) net.now bid.now table.old
        (spot_at table.old.layout (minute - table.old.layout.first) table.old.layout.stations) }
    ensures filled { IsFilled (W.weights weighing.now) net.now bid.now table.new
        (spot_at table.old.layout (minute - table.old.layout.first) 0) }
    ensures asks { AreAsked (W.weights weighing.now) asks.new }
    ensures layout { table.new.layout ≡ table.old.layout }
{
    let mut left = table.reach.without_far(bid, table.layout.stations);
    'stations: while left > 0 {
        let station = left - 1;
        fill_spot(net, bid, weighing, asks, table, minute, StationId(station));
        left = table.reach.without_far(bid, station);
    }
}

/// Fills the table, from the last minute to the first.
fn fill<W: Weighing>(
    net: &Network,
    bid: &Bid,
    weighing: &W,
    asks: &mut [Option<Ask>],
    table: &mut RestTable,
)
    requires asks { AreAsked (W.weights weighing.now) asks.old }
    requires weights { AreWeightsFor (W.weights weighing.now) net.now bid.now.path }
    requires table { IsTable table.old }
    requires setting { IsSetting net.now bid.now.path table.old.layout }
    requires reach { IsReach net.now bid.now.path table.old.reach }
    ensures { IsFilled (W.weights weighing.now) net.now bid.now table.new 0 }
{
    let first = table.layout.first;
    let mut left = table.layout.minutes;
    'minutes: while left > 0 {
        left -= 1;
        fill_minute(net, bid, weighing, asks, table, first + left);
    }
}

/// The state in which a walk begins that departs then.
pub(crate) fn make_start(bid: &Bid, minute: Minute) -> State
    ensures { result ≡ start_state bid.now.path minute }
{
    State {
        station: bid.path.origin,
        minute,
        halted: true,
        done: 0,
    }
}

/// The best walk that departs at the minute.
fn start_walk<W: Weighing>(
    net: &Network,
    bid: &Bid,
    weighing: &W,
    table: &RestTable,
    minute: Minute,
) -> Option<i128>
    requires weights { AreWeightsFor (W.weights weighing.now) net.now bid.now.path }
    requires filled { IsFilled (W.weights weighing.now) net.now bid.now table.now 0 }
    requires window { IsFromTo bid.now.path.depart.from bid.now.path.depart.to minute }
    ensures { IsBestStart (W.weights weighing.now) net.now bid.now (IsAt minute) result }
{
    if !weighing.may_start(minute) {
        return None;
    }
    let rest = table.rest(make_start(bid, minute))?;
    Some(whole(start_value(bid, minute), rest))
}

/// A start and a rest together.
pub(crate) fn whole(start: i64, rest: i128) -> i128
    requires start { IsAdded start }
    requires rest { IsWholeRest rest }
    ensures { result ≡ start +ℤ rest }
{
    i128::from(start) + rest
}

/// The minutes at which a walk may depart.
pub(crate) fn departures(bid: &Bid) -> Window
    ensures window { result ≡ bid.now.path.depart }
    ensures day { result.to ≤ 2879 }
{
    bid.path.depart
}

/// The best walk over all starts.
fn best_start<W: Weighing>(
    net: &Network,
    bid: &Bid,
    weighing: &W,
    table: &RestTable,
) -> Option<i128>
    requires weights { AreWeightsFor (W.weights weighing.now) net.now bid.now.path }
    requires filled { IsFilled (W.weights weighing.now) net.now bid.now table.now 0 }
    ensures best { IsBestWorth (W.weights weighing.now) net.now bid.now result }
    ensures size { IfSome result IsWorthSize }
{
    let window = departures(bid);
    let mut best = None;
    for minute in window.from..window.to + 1 {
        let walk = start_walk(net, bid, weighing, table, minute);
        best = greater(best, walk);
    }
    best
}

/// The greatest worth of a walk of the bid that has a start and legs that it may have: in
/// thousandths of a cent, its value less what its legs cost. `None` exactly where there is no such
/// walk. The table is left filled for the bid. `NoMemory` is its only refusal; the table may then be used again.
///
/// The bid's stations and its type must be positions of the network, and the weighing be one for
/// legs of the bid's type on the network.
pub fn search<W: Weighing>(
    alloc: Global,
    net: &Network,
    bid: &Bid,
    weighing: &W,
    table: &mut RestTable,
) -> Result<Option<i128>, NoMemory>
    requires path { IsPathOn net.now bid.now.path }
    requires weights { AreWeightsFor (W.weights weighing.now) net.now bid.now.path }
    ensures best { IfOk result (IsBestWorth (W.weights weighing.now) net.now bid.now) }
    ensures size { IfOk result (λ best. IfSome best IsWorthSize) }
    ensures filled { OnOk result (IsFilled (W.weights weighing.now) net.now bid.now table.new 0) }
{
    let reach = make_reach(alloc, net, bid)?;
    table.turn_to(make_layout(net, bid), reach)?;
    let mut asks = no_asks(alloc, net.track_count() as usize)?;
    fill(net, bid, weighing, &mut asks, table);
    Ok(best_start(net, bid, weighing, table))
}
