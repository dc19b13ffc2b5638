//! Bids for train slots: which path a train asks for, and what it pays by its times.
#![tactic(auto)]

use optra_network::{Cents, Minute, StationId, TypeId};
use std::alloc::{AllocError, AllocFailed};
use thiserror::Error;

mod bids;
mod names;

pub use bids::{Bid, PathSpec};
pub use names::Name;

/// The minutes from `from` to `to`, both of them included.
#[derive(Clone, Copy, Debug, PartialEq, Eq)]
pub struct Span {
    pub from: Minute,
    pub to: Minute,
}

/// The minutes from `from` to `to`, both of them included, and the one that costs nothing.
#[derive(Clone, Copy, Debug, PartialEq, Eq)]
pub struct Window {
    pub from: Minute,
    pub ideal: Minute,
    pub to: Minute,
}

/// A stop: the train arrives at the station within the span and stays for a dwell in minutes.
#[derive(Clone, Copy, Debug, PartialEq, Eq)]
pub struct Stop {
    pub station: StationId,
    /// 0 to `max_dwell`.
    pub min_dwell: u16,
    /// At most 240, and at most 30 more than `min_dwell`.
    pub max_dwell: u16,
    pub arrive: Span,
}

/// What a train pays: the base in cents, less six rates in cents a minute. The base is 0 to
/// 1,000,000,000, each rate 0 to 1,000,000.
#[derive(Clone, Copy, Debug, PartialEq, Eq)]
pub struct Money {
    pub base: Cents,
    /// For each minute that the first departure is before its ideal.
    pub early_depart: Cents,
    /// For each minute that the first departure is after its ideal.
    pub late_depart: Cents,
    /// For each minute that the last arrival is before its ideal.
    pub early_arrive: Cents,
    /// For each minute that the last arrival is after its ideal.
    pub late_arrive: Cents,
    /// For each minute from the first departure to the last arrival.
    pub travel: Cents,
    /// For each minute of a wait; the dwell of a stop is no wait.
    pub wait: Cents,
}

/// A bid without its names and its stops, as it was read and before it is checked.
#[derive(Clone, Copy, Debug, PartialEq, Eq)]
pub struct RawBid {
    pub kind: TypeId,
    pub origin: StationId,
    pub destination: StationId,
    /// From, ideal and to.
    pub depart: [u64; 3],
    /// From, ideal and to.
    pub arrive: [u64; 3],
    pub base: u64,
    /// In the order of [`Money`]: early and late departure, early and late arrival, travel, wait.
    pub rates: [u64; 6],
    pub wait_max: u64,
}

/// A stop as it was read and before it is checked.
#[derive(Clone, Copy, Debug, PartialEq, Eq)]
pub struct RawStop {
    pub station: StationId,
    pub min_dwell: u64,
    pub max_dwell: u64,
    /// From and to.
    pub arrive: [u64; 2],
}

/// Why a bid or a stop is refused.
#[derive(Clone, Copy, Debug, PartialEq, Eq, Error)]
pub enum BidRefusal {
    /// Origin and destination are the same station.
    #[error("origin and destination are the same station")]
    Ends,
    /// A window or a span isn't in order.
    #[error("a window is not in order")]
    Window,
    /// A number is above its limit.
    #[error("a number is above its limit")]
    Range,
    /// A type, station or bid that is named isn't there. It comes where tables are read, and from
    /// no call of this crate.
    #[error("a name is unknown")]
    UnknownName,
    /// There are eight stops, or the dwells are out of order or too far apart.
    #[error("too many stops, or dwells out of order or too far apart")]
    Stops,
}

/// Why there is no bid, or no further stop.
#[derive(Clone, Copy, Debug, PartialEq, Eq, Error)]
pub enum BidFault {
    /// The call breaks a rule.
    #[error(transparent)]
    Refused(BidRefusal),
    /// Memory couldn't be had.
    #[error("out of memory")]
    NoMemory,
}

impl From<AllocError> for BidFault {
    ghost use Rattle.std.specs.Prelude.{◌≡◌};
    ghost use Rattle.optra_bid.specs.declared.BidFault.TheVariants.{NoMemory};

    ghost from_gives = { λ _ e. e ≡ NoMemory };

    fn from(_e: AllocError) -> BidFault {
        BidFault::NoMemory
    }
}

impl<T: Drop> From<AllocFailed<T>> for BidFault {
    ghost use Rattle.std.specs.Prelude.{◌≡◌};
    ghost use Rattle.optra_bid.specs.declared.BidFault.TheVariants.{NoMemory};

    ghost from_gives = { λ _ e. e ≡ NoMemory };

    fn from(_e: AllocFailed<T>) -> BidFault {
        BidFault::NoMemory
    }
}
