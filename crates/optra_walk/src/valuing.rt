//! What a walk is worth.
ghost use Rattle.std.specs.Prelude.{◌≡◌, ℕ, ◌-◌, ◌≤◌, pos, ◌*ℤ◌, ◌+ℤ◌, ◌-ℤ◌, length};
ghost use Rattle.optra_bid.specs.Specs.{IsRate, IsMoney, IsBetween};
ghost use Rattle.optra_walk.specs.Legs.{wait_of};
ghost use Rattle.optra_walk.specs.Walks.{IsWalk};
ghost use Rattle.optra_walk.specs.Values.{first_departure, value_of, value_at, price_off, price_under_way, wait_minutes, IsValue};
ghost use Rattle.optra_walk.specs.Shares.{start_value, leg_value, sum_of};

use crate::following::arrival;
use crate::{Action, Leg};
use optra_bid::{Bid, Money};
use optra_network::{Cents, Network};

/// What a walk of the bid is worth, in cents: the base, less the early or late rate for each
/// minute that the first departure is off its ideal, the same for the last arrival, less the
/// travel rate for each minute from the first departure to the last arrival, and the wait rate for
/// each minute of a wait.
///
/// What its start gives and what each leg adds, in thousandths of a cent, come to the same.
///
/// It may be below zero. It is at most 1,000,000,000 and at least -20,000,000,000.
pub fn value(net: &Network, bid: &Bid, legs: &[Leg]) -> Cents
    requires { IsWalk net.now bid.now.path legs.now }
    ensures value { result ≡ value_of net.now bid.now.path bid.now.money legs.now }
    ensures bound { IsValue result }
    ensures shares { start_value bid.now (first_departure legs.now)
        +ℤ sum_of (leg_value net.now bid.now) legs.now
        ≡ pos 1000 *ℤ value_of net.now bid.now.path bid.now.money legs.now }
{
    net.laws();
    let path = &bid.path;
    let (Some(first), Some(last)) = (legs.first(), legs.last()) else {
        unreachable!()
    };
    let Some(arrive) = arrival(net, path.kind, *last) else {
        unreachable!()
    };
    let waits = wait_minutes(legs);
    let ideals = (path.depart.ideal, path.arrive.ideal);
    value_by(ideals, bid.money, first.depart, arrive as u16, waits as u16)
}

/// A rate times minutes.
fn times(rate: Cents, minutes: u16) -> Cents
    requires rate { IsRate rate }
    requires minutes { minutes ≤ 2879 }
    ensures value { result ≡ rate *ℤ pos minutes }
    ensures range { IsBetween (pos 0) (pos 2879000000) result }
{
    rate * i64::from(minutes)
}

/// The minutes from one time to another, and 0 where it is not later.
fn minutes(from: u16, to: u16) -> u16
    ensures { result ≡ to - from }
{
    to.saturating_sub(from)
}

/// The price of the minutes off an ideal time.
fn price_off(ideal: u16, early: Cents, late: Cents, time: u16) -> Cents
    requires ideal { ideal ≤ 2879 }
    requires early { IsRate early }
    requires late { IsRate late }
    requires time { time ≤ 2879 }
    ensures value { result ≡ price_off ideal early late time }
    ensures range { IsBetween (pos 0) (pos 5758000000) result }
{
    times(early, minutes(time, ideal)) + times(late, minutes(ideal, time))
}

/// The price of the minutes under way and of the minutes of waits.
fn price_under_way(travel: Cents, minutes: u16, wait: Cents, waits: u16) -> Cents
    requires travel { IsRate travel }
    requires minutes { minutes ≤ 2879 }
    requires wait { IsRate wait }
    requires waits { waits ≤ 2879 }
    ensures value { result ≡ price_under_way travel minutes wait waits }
    ensures range { IsBetween (pos 0) (pos 5758000000) result }
{
    times(travel, minutes) + times(wait, waits)
}

/// The base less three prices.
fn less_prices(base: Cents, depart: Cents, arrive: Cents, under_way: Cents) -> Cents
    requires base { IsBetween (pos 0) (pos 1000000000) base }
    requires depart { IsBetween (pos 0) (pos 5758000000) depart }
    requires arrive { IsBetween (pos 0) (pos 5758000000) arrive }
    requires under_way { IsBetween (pos 0) (pos 5758000000) under_way }
    ensures value { result ≡ base -ℤ depart -ℤ arrive -ℤ under_way }
    ensures bound { IsValue result }
{
    base - depart - arrive - under_way
}

/// The value by the ideal times, the first departure, the last arrival and the minutes of waits.
fn value_by(ideals: (u16, u16), money: Money, first: u16, last: u16, waits: u16) -> Cents
    requires money { IsMoney money }
    requires ideal_depart { ideals.0 ≤ 2879 }
    requires ideal_arrive { ideals.1 ≤ 2879 }
    requires first { first ≤ 2879 }
    requires last { last ≤ 2879 }
    requires waits { waits ≤ 2879 }
    ensures value { result ≡ value_at ideals.0 ideals.1 money first last waits }
    ensures bound { IsValue result }
{
    let depart = price_off(ideals.0, money.early_depart, money.late_depart, first);
    let arrive = price_off(ideals.1, money.early_arrive, money.late_arrive, last);
    let under_way = price_under_way(money.travel, minutes(first, last), money.wait, waits);
    less_prices(money.base, depart, arrive, under_way)
}

/// The minutes of waits.
fn wait_minutes(legs: &[Leg]) -> u64
    requires { length legs.now ≤ 2880 }
    ensures { result ≡ wait_minutes legs.now }
{
    legs.iter().map(|leg| u64::from(wait(leg.action))).sum()
}

/// The minutes of a wait, and 0 of every other action.
fn wait(action: Action) -> u16
    ensures { result ≡ wait_of action }
{
    match action {
        Action::Wait(dwell) => dwell,
        _ => 0,
    }
}
