//! A railway network: stations, tracks, train types, running times, headways, crossings and limits of stations.
//!
//! A `Builder` takes the parts one by one and refuses what breaks a rule. `Builder::finish` makes a `Network`, which
//! never changes and answers each look-up of the planner from dense tables. `conflict` compares two uses of tracks.
#![tactic(auto)]

mod building;
mod dense;
mod finished;
mod names;

pub use building::Builder;
pub use finished::{Network, conflict};
pub use names::is_name;
use std::alloc::{AllocError, AllocFailed};
use thiserror::Error;

/// Memory couldn't be had. It is the one answer that says nothing of the input.
pub type NoMemory = AllocError;

/// A time in whole minutes, 0 to 2,879.
pub type Minute = u16;

/// Money in whole cents.
pub type Cents = i64;

/// A station of a network: its position from 0, in the order of the builder's calls.
#[derive(Clone, Copy, Debug, PartialEq, Eq, PartialOrd, Ord, Hash)]
pub struct StationId(pub u16);

/// A track of a network: its position from 0, in the order of the builder's calls.
#[derive(Clone, Copy, Debug, PartialEq, Eq, PartialOrd, Ord, Hash)]
pub struct TrackId(pub u16);

/// A train type of a network: its position from 0, in the order of the builder's calls.
#[derive(Clone, Copy, Debug, PartialEq, Eq, PartialOrd, Ord, Hash)]
pub struct TypeId(pub u16);

/// The use of a track: a train of the type departs on the track at the time.
#[derive(Clone, Copy, Debug, PartialEq, Eq)]
pub struct TrackUse {
    pub track: TrackId,
    pub kind: TypeId,
    pub time: Minute,
}

/// Another use of a track that stands in one pair row with a use of a type: the two are in conflict and share no window
/// minute. `Network::partners` gives them.
#[derive(Clone, Copy, Debug, PartialEq, Eq)]
pub struct Partner {
    /// 120, and the minutes by which the other use departs later, or less those by which it departs earlier: 1 to 239.
    pub shift: u16,
    /// The type of the other use.
    pub kind: TypeId,
}

/// A type on another track that has a crossing with a type on a track: a use of the one and a use of the other that come
/// too near are not compatible. `Network::crossers` gives them.
#[derive(Clone, Copy, Debug, PartialEq, Eq, PartialOrd, Ord)]
pub struct Crosser {
    /// The other track.
    pub track: TrackId,
    /// The type on it, which may use it.
    pub kind: TypeId,
    /// The own use departs at least so many minutes after the other one, 1 to 120, where it departs after it.
    pub before: u16,
    /// The other use departs at least so many minutes after the own one, 1 to 120, where it departs after it.
    pub after: u16,
}

/// The ends of a track, two different stations. No call takes or gives it: it stands in what contracts see of a
/// network, so it is public.
#[derive(Clone, Copy, Debug, PartialEq, Eq)]
pub struct Track {
    pub tail: StationId,
    pub head: StationId,
}

/// The minutes that a type takes on a track, each 1 to 240, by the mode at the tail and then the mode at the head.
/// No call takes or gives it: it stands in what contracts see of a network, so it is public.
#[derive(Clone, Copy, Debug, PartialEq, Eq)]
pub struct Times {
    pub pass_pass: u16,
    pub pass_halt: u16,
    pub halt_pass: u16,
    pub halt_halt: u16,
}

/// Why a builder refuses a call. A refused call changes nothing.
#[derive(Clone, Copy, Debug, PartialEq, Eq, Error)]
pub enum NetRefusal {
    /// Another station, another track or another type already has the name. The three name spaces are apart.
    #[error("the name is taken")]
    TakenName,
    /// A station, a track or a type that is named isn't there.
    #[error("the name is unknown")]
    UnknownName,
    /// A running time isn't 1 to 240 minutes, a headway or a crossing isn't 1 to 120 minutes, or a station's limit is
    /// above 1,000 trains.
    #[error("a number is out of range")]
    Range,
    /// A track leads from a station to itself, or crosses itself.
    #[error("both ends, or both tracks, are the same")]
    SelfLoop,
    /// The track and the type already have running times, the track and the two types in this order already have a
    /// headway, or the two tracks and the two types in this order already have a crossing.
    #[error("the row is there already")]
    Repeated,
    /// Two types that may both use a track, or one type and itself, have no headway on it in one of the two orders.
    #[error("a headway is missing")]
    MissingHeadway,
    /// 300 stations, 1,000 tracks or 16 types are there already.
    #[error("there are too many")]
    TooMany,
    /// A crossing isn't there in its other direction, from the second track and type to the first.
    #[error("a crossing has one direction alone")]
    OneWayCrossing,
    /// The uses of other tracks that break a crossing with one use of a type on a track are more than 4,000.
    #[error("the crossings of a track reach too far")]
    Reach,
}

/// A builder's refusal, or want of memory.
#[derive(Clone, Copy, Debug, PartialEq, Eq, Error)]
pub enum NetFault {
    /// The call breaks a rule.
    #[error(transparent)]
    Refused(NetRefusal),
    /// Memory couldn't be had.
    #[error("out of memory")]
    NoMemory,
}

impl From<AllocError> for NetFault {
    ghost use Rattle.std.specs.Prelude.{◌≡◌};
    ghost use Rattle.optra_network.specs.declared.NetFault.TheVariants.{NoMemory};

    ghost from_gives = { λ _ e. e ≡ NoMemory };

    fn from(_e: AllocError) -> NetFault {
        NetFault::NoMemory
    }
}

impl<T: Drop> From<AllocFailed<T>> for NetFault {
    ghost use Rattle.std.specs.Prelude.{◌≡◌};
    ghost use Rattle.optra_network.specs.declared.NetFault.TheVariants.{NoMemory};

    ghost from_gives = { λ _ e. e ≡ NoMemory };

    fn from(_e: AllocFailed<T>) -> NetFault {
        NetFault::NoMemory
    }
}
