//! Bids: what a train asks for, what it pays, and how both are checked.
ghost use Rattle.std.specs.Prelude.{◌≡◌, ◌++◌, [], ◌∷◌, ◌↔◌, IfOk, OnOk, OnErr, IsTrue, ◌≤◌, true};
ghost use Rattle.optra_bid.specs.Bids.{are_in_order, are_three_minutes, are_rates, window_of, money_from};
ghost use Rattle.optra_bid.specs.Specs.{AreBounds, IsWindow, IsMoney};

use crate::names::Name;
use crate::{BidFault, BidRefusal, Money, RawBid, RawStop, Span, Stop, Window};
use optra_network::{Cents, NoMemory, StationId, TypeId};
use std::alloc::Global;
use std::marker::Model;

/// The last minute of the two planned days.
const LAST_MINUTE: u64 = 2_879;
/// The greatest base, in cents.
const MOST_BASE: u64 = 1_000_000_000;
/// The greatest rate, in cents a minute.
const MOST_RATE: u64 = 1_000_000;
/// The greatest `wait_max`, in minutes.
const MOST_WAIT: u64 = 30;
/// The greatest dwell of a stop, in minutes.
const MOST_DWELL: u64 = 240;
/// The greatest difference between a stop's dwells, in minutes.
const MOST_SPREAD: u64 = 30;
/// The most stops of a bid.
const MOST_STOPS: usize = 8;

/// What a train asks for: its type, its ends, when it departs and arrives, and where it stops.
/// Stops are made in the order of the list.
#[derive(Drop)]
pub struct PathSpec {
    pub kind: TypeId,
    pub origin: StationId,
    pub destination: StationId,
    /// The minutes at which the first leg may depart, and the ideal one.
    pub depart: Window,
    /// The minutes at which the last leg may arrive, and the ideal one.
    pub arrive: Window,
    /// The greatest dwell of a wait, 0 to 30 minutes.
    pub wait_max: u16,
    /// At most eight stops.
    pub stops: Vec<Stop>,
}

impl Model for PathSpec {
    ghost use Rattle.optra_bid.specs.Specs.{Path};

    ghost Value = { Path };

    ghost view = { λ a. record {
      kind = a.kind;
      origin = a.origin;
      destination = a.destination;
      depart = a.depart;
      arrive = a.arrive;
      wait_max = a.wait_max;
      stops = a.stops.items;
    } };
}

/// A bid for one train: a name, a bidder, a path specification and what is paid for it.
/// Every bid keeps the bounds that [`Bid::checked`] and [`Bid::add_stop`] test.
#[derive(Drop)]
pub struct Bid {
    pub name: Name,
    pub bidder: Name,
    pub path: PathSpec,
    pub money: Money,
    pub ghost bounds: { AreBounds path money },
}

impl Bid {
    ghost use Rattle.optra_bid.specs.Bids.{FollowsBidRule, bid_refusal, stop_refusal, path_of, money_of, stop_of};

    /// A bid without stops. The refusals are tested in this order:
    ///
    /// - `Ends`, where origin and destination are the same station;
    /// - `Window`, where `from <= ideal <= to` fails for the departure or the arrival;
    /// - `Range`, where a minute is above 2,879, the base above 1,000,000,000 cents, a rate above
    ///   1,000,000 cents a minute, or `wait_max` above 30 minutes.
    ///
    /// On a refusal the names are dropped.
    pub fn checked(alloc: Global, name: Name, bidder: Name, raw: &RawBid) -> Result<Bid, BidFault>
        ensures rule { FollowsBidRule (bid_refusal raw.now) result }
        ensures names { IfOk result (λ bid. (bid.name ≡ name) × (bid.bidder ≡ bidder)) }
        ensures path { IfOk result (λ bid. bid.path ≡ path_of raw.now) }
        ensures money { IfOk result (λ bid. bid.money ≡ money_of raw.now) }
    {
        if raw.origin == raw.destination {
            return Err(BidFault::Refused(BidRefusal::Ends));
        }
        if !are_in_order(raw.depart) || !are_in_order(raw.arrive) {
            return Err(BidFault::Refused(BidRefusal::Window));
        }
        if !are_three_minutes(raw.depart)
            || !are_three_minutes(raw.arrive)
            || raw.base > MOST_BASE
            || !are_rates(raw.rates)
            || raw.wait_max > MOST_WAIT
        {
            return Err(BidFault::Refused(BidRefusal::Range));
        }
        Ok(Bid {
            name,
            bidder,
            path: PathSpec {
                kind: raw.kind,
                origin: raw.origin,
                destination: raw.destination,
                depart: window(raw.depart),
                arrive: window(raw.arrive),
                wait_max: raw.wait_max as u16,
                stops: Vec::new(alloc),
            },
            money: money(raw.base, raw.rates),
        })
    }

    /// Adds a stop after the others. The refusals are tested in this order:
    ///
    /// - `Window`, where the arrival's `from <= to` fails;
    /// - `Range`, where a minute is above 2,879 or a dwell above 240 minutes;
    /// - `Stops`, where eight stops are there, or `min_dwell > max_dwell`, or
    ///   `max_dwell - min_dwell > 30`.
    ///
    /// A call that fails changes nothing.
    pub fn add_stop(&mut self, raw: &RawStop) -> Result<(), BidFault>
        ensures rule { FollowsBidRule (stop_refusal self.old.path raw.now) result }
        ensures ok { OnOk result (self.new.path
            ≡ record self.old.path { stops = self.old.path.stops ++ stop_of raw.now ∷ [] }) }
        ensures others { (self.new.name ≡ self.old.name) × (self.new.bidder ≡ self.old.bidder)
            × (self.new.money ≡ self.old.money) }
        ensures err { OnErr result (self.new ≡ self.old) }
    {
        let [from, to] = raw.arrive;
        if from > to {
            return Err(BidFault::Refused(BidRefusal::Window));
        }
        if from > LAST_MINUTE
            || to > LAST_MINUTE
            || raw.min_dwell > MOST_DWELL
            || raw.max_dwell > MOST_DWELL
        {
            return Err(BidFault::Refused(BidRefusal::Range));
        }
        if self.path.stops.len() >= MOST_STOPS
            || raw.min_dwell > raw.max_dwell
            || raw.max_dwell - raw.min_dwell > MOST_SPREAD
        {
            return Err(BidFault::Refused(BidRefusal::Stops));
        }
        self.path.stops.push(Stop {
            station: raw.station,
            min_dwell: raw.min_dwell as u16,
            max_dwell: raw.max_dwell as u16,
            arrive: Span {
                from: from as u16,
                to: to as u16,
            },
        })?;
        Ok(())
    }

    /// An equal bid in memory of its own.
    pub fn copied(&self, alloc: Global) -> Result<Bid, NoMemory>
        ensures { IfOk result (λ bid. bid ≡ self.now) }
    {
        let mut stops = Vec::new(alloc);
        stops.extend_from_slice(&self.path.stops)?;
        Ok(Bid {
            name: self.name.copied(alloc)?,
            bidder: self.bidder.copied(alloc)?,
            path: PathSpec {
                kind: self.path.kind,
                origin: self.path.origin,
                destination: self.path.destination,
                depart: self.path.depart,
                arrive: self.path.arrive,
                wait_max: self.path.wait_max,
                stops,
            },
            money: self.money,
        })
    }

    /// Whether both bids ask for the same: their path specifications are equal, whatever they are
    /// called and whatever they pay.
    pub fn same_path(&self, other: &Bid) -> bool
        ensures { IsTrue result ↔ (self.now.path ≡ other.now.path) }
    {
        let a = &self.path;
        let b = &other.path;
        if a.kind != b.kind || a.origin != b.origin || a.destination != b.destination {
            return false;
        }
        if a.depart != b.depart || a.arrive != b.arrive || a.wait_max != b.wait_max {
            return false;
        }
        same_stops(&a.stops, &b.stops)
    }
}

/// Whether from, ideal and to stand in this order.
fn are_in_order(minutes: [u64; 3]) -> bool
    ensures { result ≡ are_in_order minutes }
{
    minutes[0] <= minutes[1] && minutes[1] <= minutes[2]
}

/// Whether all three are minutes of the two days.
fn are_three_minutes(minutes: [u64; 3]) -> bool
    ensures { result ≡ are_three_minutes minutes }
{
    minutes[0] <= LAST_MINUTE && minutes[1] <= LAST_MINUTE && minutes[2] <= LAST_MINUTE
}

/// Whether all six are rates.
fn are_rates(rates: [u64; 6]) -> bool
    ensures { result ≡ are_rates rates }
{
    rates[0] <= MOST_RATE
        && rates[1] <= MOST_RATE
        && rates[2] <= MOST_RATE
        && rates[3] <= MOST_RATE
        && rates[4] <= MOST_RATE
        && rates[5] <= MOST_RATE
}

/// A window from its three minutes.
fn window(minutes: [u64; 3]) -> Window
    requires ordered { are_in_order minutes ≡ true }
    requires minutes { are_three_minutes minutes ≡ true }
    ensures value { result ≡ window_of minutes }
    ensures window { IsWindow result }
{
    Window {
        from: minutes[0] as u16,
        ideal: minutes[1] as u16,
        to: minutes[2] as u16,
    }
}

/// What is paid, from the base and the six rates.
fn money(base: u64, rates: [u64; 6]) -> Money
    requires base { base ≤ 1000000000 }
    requires rates { are_rates rates ≡ true }
    ensures value { result ≡ money_from base rates }
    ensures amounts { IsMoney result }
{
    Money {
        base: base as i64,
        early_depart: rates[0] as i64,
        late_depart: rates[1] as i64,
        early_arrive: rates[2] as i64,
        late_arrive: rates[3] as i64,
        travel: rates[4] as i64,
        wait: rates[5] as i64,
    }
}

/// Whether two lists of stops are equal.
fn same_stops(a: &[Stop], b: &[Stop]) -> bool
    ensures { IsTrue result ↔ (a.now ≡ b.now) }
{
    a == b
}
