//! What the start, the legs and the end of a walk have of its value, each on its own, so that a search adds them up leg by
//! leg: a start gives, a wait and the end take, and all of them together are the value.
ghost use Rattle.std.specs.Prelude.{◌≡◌, ◌-◌, ◌<◌, ◌^◌, pos, ◌+ℤ◌, ◌-ℤ◌, ◌*ℤ◌};
ghost use Rattle.optra_bid.specs.Specs.{IsRate, IsMoney};
ghost use Rattle.optra_walk.specs.Values.{price_off};
ghost use Rattle.optra_walk.specs.Shares.{start_value, end_price, wait_price, leg_value, IsBase, IsTimePrice, IsOffPrice, IsTakenCents, IsAddedCents, IsTaken, IsAdded};

use crate::following::arrival;
use crate::{Action, Leg};
use optra_bid::{Bid, Money};
use optra_network::{Cents, Minute, Network};

/// A rate times minutes.
fn rate_times(rate: Cents, minutes: u32) -> Cents
    requires rate { IsRate rate }
    requires minutes { minutes < 2 ^ 17 }
    ensures value { result ≡ rate *ℤ pos minutes }
    ensures range { IsTimePrice result }
{
    rate * i64::from(minutes)
}

/// The price of the minutes off an ideal time.
fn off_price(ideal: u32, early: Cents, late: Cents, time: u32) -> Cents
    requires ideal { ideal < 2 ^ 17 }
    requires early { IsRate early }
    requires late { IsRate late }
    requires time { time < 2 ^ 17 }
    ensures value { result ≡ price_off ideal early late time }
    ensures range { IsOffPrice result }
{
    rate_times(early, ideal.saturating_sub(time)) + rate_times(late, time.saturating_sub(ideal))
}

/// A base less one price and with another given back.
fn start_sum(base: Cents, off: Cents, up_to: Cents) -> Cents
    requires base { IsBase base }
    requires off { IsOffPrice off }
    requires up_to { IsTimePrice up_to }
    ensures value { result ≡ base -ℤ off +ℤ up_to }
    ensures range { IsAddedCents result }
{
    base - off + up_to
}

/// What two prices take.
fn end_sum(off: Cents, up_to: Cents) -> Cents
    requires off { IsOffPrice off }
    requires up_to { IsTimePrice up_to }
    ensures value { result ≡ off +ℤ up_to }
    ensures range { IsTakenCents result }
{
    off + up_to
}

/// What a start at the minute gives, in cents.
pub fn start_cents(bid: &Bid, minute: Minute) -> Cents
    ensures value { pos 1000 *ℤ result ≡ start_value bid.now minute }
    ensures range { IsAddedCents result }
{
    let money = bid.money;
    let minute = u32::from(minute);
    let ideal = u32::from(bid.path.depart.ideal);
    let off = off_price(ideal, money.early_depart, money.late_depart, minute);
    start_sum(money.base, off, rate_times(money.travel, minute))
}

/// What an end at the minute takes, in cents.
fn end_cents(bid: &Bid, minute: u32) -> Cents
    requires { minute < 2 ^ 17 }
    ensures value { pos 1000 *ℤ result ≡ end_price bid.now minute }
    ensures range { IsTakenCents result }
{
    let money = bid.money;
    let ideal = u32::from(bid.path.arrive.ideal);
    let off = off_price(ideal, money.early_arrive, money.late_arrive, minute);
    end_sum(off, rate_times(money.travel, minute))
}

/// What a wait takes, in cents.
fn wait_cents(money: Money, minutes: u16) -> Cents
    requires { IsMoney money }
    ensures value { result ≡ money.wait *ℤ pos minutes }
    ensures range { IsTakenCents result }
{
    rate_times(money.wait, u32::from(minutes))
}

/// What is taken, as a number that is added.
fn taken(price: Cents) -> Cents
    requires { IsTakenCents price }
    ensures value { result ≡ pos 0 -ℤ price }
    ensures range { IsAddedCents result }
{
    0 - price
}

/// What a leg adds to the value of its walk, in cents: it takes the price of a wait, and the last leg that of the end.
pub fn leg_cents(net: &Network, bid: &Bid, leg: Leg) -> Cents
    ensures value { pos 1000 *ℤ result ≡ leg_value net.now bid.now leg }
    ensures range { IsAddedCents result }
{
    match leg.action {
        Action::Pass | Action::Halt(_) => 0,
        Action::Wait(dwell) => taken(wait_cents(bid.money, dwell)),
        Action::Finish => {
            let minute = arrival(net, bid.path.kind, leg).unwrap_or(0);
            taken(end_cents(bid, minute))
        }
    }
}

/// Cents that are added, in thousandths of a cent.
fn added_thousandths(cents: Cents) -> i64
    requires { IsAddedCents cents }
    ensures value { result ≡ pos 1000 *ℤ cents }
    ensures range { IsAdded result }
{
    1000 * cents
}

/// Cents that are taken, in thousandths of a cent.
fn taken_thousandths(cents: Cents) -> i64
    requires { IsTakenCents cents }
    ensures value { result ≡ pos 1000 *ℤ cents }
    ensures range { IsTaken result }
{
    1000 * cents
}

/// What a start at the minute gives, in thousandths of a cent.
pub fn start_value(bid: &Bid, minute: Minute) -> i64
    ensures value { result ≡ start_value bid.now minute }
    ensures range { IsAdded result }
{
    let cents = start_cents(bid, minute);
    added_thousandths(cents)
}

/// What an end at the minute takes, in thousandths of a cent.
pub fn end_price(bid: &Bid, minute: Minute) -> i64
    ensures value { result ≡ end_price bid.now minute }
    ensures range { IsTaken result }
{
    let cents = end_cents(bid, u32::from(minute));
    taken_thousandths(cents)
}

/// What a wait takes, in thousandths of a cent.
pub fn wait_price(bid: &Bid, minutes: u16) -> i64
    ensures value { result ≡ wait_price bid.now minutes }
    ensures range { IsTaken result }
{
    let cents = wait_cents(bid.money, minutes);
    taken_thousandths(cents)
}
