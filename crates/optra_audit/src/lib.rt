//! Audits of timetables from anywhere: the reader of a timetable, and the report that lists every fault of its trains,
//! every two legs that come too near, and every minute in which more trains stand in a station than may.
#![tactic(auto)]

use optra_network::{Minute, StationId};
use optra_walk::Leg;
use std::alloc::{AllocError, AllocFailed};
use std::marker::Model;

mod auditing;
mod bid_names;
mod choices;
mod clashes;
mod entries;
mod faults;
mod leg_faults;
mod line_list;
mod minute_counts;
mod overs;
mod row_faults;
mod stays;
mod timetables;
mod trains;
mod visits;

pub use auditing::{audit, report_is_free};
pub use choices::choice;
pub use timetables::read_timetable;

/// A line of a timetable: a leg of a bid's train. The lines of a bid in their order are its train.
#[derive(Clone, Copy, Debug, PartialEq, Eq)]
pub struct Line {
    /// The bid's position, from 0.
    pub bid: u32,
    /// The leg.
    pub leg: Leg,
}

/// What is wrong with a leg of a train, by itself and beside the leg before it.
#[derive(Clone, Copy, Debug, PartialEq, Eq)]
pub enum FaultCode {
    /// It is the first leg, and its track doesn't leave the bid's origin.
    Origin,
    /// It is the first leg, and it doesn't start from a halt.
    Start,
    /// It is the first leg, and it departs outside the departure window.
    Depart,
    /// The bid's type may not use the track.
    Kind,
    /// Its track doesn't leave the station that the leg before arrives at.
    Place,
    /// The leg before departs again at another minute.
    Time,
    /// It starts from a halt and the leg before passes, or the contrary.
    Mode,
    /// It is a halt for which there is no stop, or that isn't made as its stop asks: the station, the dwell, or the span of
    /// arrival where the type may use the track.
    Stop,
    /// It waits less than a minute or more than the bid's `wait_max`.
    Wait,
    /// It finishes, and it isn't the last leg.
    Early,
    /// It is the last leg, and it doesn't finish.
    Last,
    /// It is the last leg, and the train has fewer halts than the bid has stops.
    Stops,
    /// It is the last leg, and its track doesn't lead to the bid's destination.
    Destination,
    /// It is the last leg, and it arrives outside the arrival window. A leg whose type may not use its track doesn't arrive.
    Arrive,
}

/// A fault of a leg. Positions count from 0; `leg` is that of the leg among the lines of its bid.
#[derive(Clone, Copy, Debug, PartialEq, Eq)]
pub struct Fault {
    pub bid: u32,
    pub leg: u32,
    pub code: FaultCode,
}

/// Two legs, of which the first comes first by bid and leg, that break the crossing rule, or else are in conflict by the
/// headway rule. The types of both may use their tracks.
#[derive(Clone, Copy, Debug, PartialEq, Eq)]
pub struct Clash {
    pub bid: u32,
    pub leg: u32,
    pub other_bid: u32,
    pub other_leg: u32,
    /// Whether they break the crossing rule.
    pub crossing: bool,
}

/// A station with a limit and a minute in which more trains stand there.
#[derive(Clone, Copy, Debug, PartialEq, Eq)]
pub struct Over {
    pub station: StationId,
    /// 0 to 2,879.
    pub minute: Minute,
    /// How many trains stand there.
    pub standing: u32,
}

/// All that is wrong with a timetable: its faults by bid, leg and code, its clashes by their four numbers, and its overs by
/// station and minute.
#[derive(Drop)]
pub struct Report {
    pub faults: Vec<Fault>,
    pub clashes: Vec<Clash>,
    pub overs: Vec<Over>,
}

impl Model for Report {
    ghost use Rattle.optra_audit.specs.Reports.{Findings};

    ghost Value = { Findings };

    ghost view = { λ a. record {
      faults = a.faults.items;
      clashes = a.clashes.items;
      overs = a.overs.items;
    } };
}

/// What is wrong with the table of a timetable.
#[derive(Clone, Copy, Debug, PartialEq, Eq)]
pub enum TimesKind {
    /// A record hasn't six fields, or one of them isn't UTF-8.
    Csv,
    /// The first record isn't the header.
    Header,
    /// The departure or the dwell isn't 1 to 10 ASCII digits.
    Number,
    /// No bid has the name.
    U1,
    /// No track has the name.
    U2,
    /// The word of the start or of the action is unknown.
    U3,
    /// The departure is above 2,879, the dwell above 240, or the dwell of pass or finish isn't 0.
    U4,
    /// 8,000 records were read already.
    U5,
}

/// Why a timetable wasn't read: its first fault, or memory that couldn't be had. Rows count the records from 1, which is the
/// header.
#[derive(Clone, Copy, Debug, PartialEq, Eq)]
pub enum TimesError {
    /// The first fault of the table.
    Fault {
        /// The row of the record.
        row: u32,
        /// What is wrong with it.
        kind: TimesKind,
    },
    /// Memory couldn't be had.
    NoMemory,
}

impl From<AllocError> for TimesError {
    ghost use Rattle.std.specs.Prelude.{◌≡◌};
    ghost use Rattle.optra_audit.specs.declared.TimesError.TheVariants.{NoMemory};

    ghost from_gives = { λ _ e. e ≡ NoMemory };

    fn from(_error: AllocError) -> TimesError {
        TimesError::NoMemory
    }
}

impl<T: Drop> From<AllocFailed<T>> for TimesError {
    ghost use Rattle.std.specs.Prelude.{◌≡◌};
    ghost use Rattle.optra_audit.specs.declared.TimesError.TheVariants.{NoMemory};

    ghost from_gives = { λ _ e. e ≡ NoMemory };

    fn from(_error: AllocFailed<T>) -> TimesError {
        TimesError::NoMemory
    }
}
