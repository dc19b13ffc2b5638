//! The tables of a network, of its bids and of an auction: what they mean, or exactly their first fault, and how bids
//! are written so that they are read again.
//!
//! Tables are of version 1 or 2, which the header of the stations tells. In version 2 a station may have a limit of trains, and
//! crossings between tracks are one more table of the network.
//!
//! Each table is read once, one record at a time, so that a fault in an early row is found without holding the later
//! ones. A record that is read is tested in this order: its form, its fields from left to right, and then what the
//! network or the bid refuses.
#![tactic(auto)]

mod action_list;
mod actions;
mod bid_list;
mod bids;
mod crossings;
mod fields;
mod headways;
mod limited_stations;
mod networks;
mod outcomes;
mod rows;
mod rules;
mod running;
mod stations;
mod stops;
mod tracks;
mod types;
mod versions;
mod writing;

pub use actions::read_actions;
pub use networks::read_network;
use optra_auction::Act;
use optra_bid::BidRefusal;
use optra_network::NetRefusal;
use optra_records::TableError;
pub use rules::read_rules;
use std::alloc::{AllocError, AllocFailed};
pub use stops::read_bids;
use thiserror::Error;
pub use versions::version;
pub use writing::{bids_text, stops_text};

/// The tables, in the order in which they are read.
#[derive(Clone, Copy, Debug, PartialEq, Eq)]
pub enum Table {
    Stations,
    Tracks,
    Types,
    Running,
    Headways,
    Crossings,
    Bids,
    Stops,
    Rules,
    Actions,
}

/// What is wrong with a record, or with the whole table.
#[derive(Clone, Copy, Debug, PartialEq, Eq, Error)]
pub enum Kind {
    /// The record has another number of fields than the header, or a field isn't UTF-8.
    #[error("the record hasn't the form of the table")]
    Csv,
    /// The first record isn't the header.
    #[error("the header is missing or another one")]
    Header,
    /// A field that is to be a name isn't one: 1 to 64 bytes without a control character.
    #[error("a field isn't a name")]
    Name,
    /// A field that is to be a number isn't 1 to 10 ASCII digits.
    #[error("a field isn't a number")]
    Number,
    /// The network refuses what the record says, or there are too many bids or actions, or a bid's name is taken, or an
    /// action is unknown, or a number of rules or of an action is out of range.
    #[error(transparent)]
    Net(NetRefusal),
    /// A bid or a stop is refused, or names something that isn't there.
    #[error(transparent)]
    Bid(BidRefusal),
}

/// The first fault of a table: where it is and what it is. Rows count the records from 1, which is the header; a
/// fault of the whole table has row 0.
#[derive(Clone, Copy, Debug, PartialEq, Eq, Error)]
#[error("{table:?}, row {row}: {kind}")]
pub struct TableFault {
    pub table: Table,
    pub row: u32,
    pub kind: Kind,
}

/// Why tables were not read: their first fault, or memory that couldn't be had.
#[derive(Clone, Copy, Debug, PartialEq, Eq, Error)]
pub enum ReadError {
    /// The first fault of the tables.
    #[error(transparent)]
    Fault(TableFault),
    /// Memory couldn't be had.
    #[error("out of memory")]
    NoMemory,
}

/// The bytes of the tables of a network.
#[derive(Clone, Copy)]
pub struct NetFiles<'a> {
    pub stations: &'a [u8],
    pub tracks: &'a [u8],
    pub types: &'a [u8],
    pub running: &'a [u8],
    pub headways: &'a [u8],
    /// The bytes of the crossings, exactly in tables of version 2.
    pub crossings: Option<&'a [u8]>,
}

/// An action of an auction, with the row of its record and the round in which it is taken.
#[derive(Drop)]
pub struct TimedAct {
    /// The row in the table of actions, from 2.
    pub row: u32,
    /// The round, 1 to 100.
    pub round: u16,
    /// What is asked for. An amount is 0 to 1,000,000,000 cents.
    pub act: Act,
}

impl From<TableFault> for ReadError {
    ghost use Rattle.std.specs.Prelude.{◌≡◌};
    ghost use Rattle.optra_tables.specs.declared.ReadError.TheVariants.{Fault};

    ghost from_gives = { λ fault e. e ≡ Fault fault };

    fn from(fault: TableFault) -> ReadError {
        ReadError::Fault(fault)
    }
}

impl From<TableError<TableFault>> for ReadError {
    ghost use Rattle.std.specs.Prelude.{◌≡◌};
    ghost use Rattle.optra_tables.specs.Outcomes.{error_of};

    ghost from_gives = { λ error e. e ≡ error_of error };

    fn from(error: TableError<TableFault>) -> ReadError {
        match error {
            TableError::Fault(fault) => ReadError::Fault(fault),
            TableError::NoMemory => ReadError::NoMemory,
        }
    }
}

impl From<AllocError> for ReadError {
    ghost use Rattle.std.specs.Prelude.{◌≡◌};
    ghost use Rattle.optra_tables.specs.declared.ReadError.TheVariants.{NoMemory};

    ghost from_gives = { λ _ e. e ≡ NoMemory };

    fn from(_error: AllocError) -> ReadError {
        ReadError::NoMemory
    }
}

impl<T: Drop> From<AllocFailed<T>> for ReadError {
    ghost use Rattle.std.specs.Prelude.{◌≡◌};
    ghost use Rattle.optra_tables.specs.declared.ReadError.TheVariants.{NoMemory};

    ghost from_gives = { λ _ e. e ≡ NoMemory };

    fn from(_error: AllocFailed<T>) -> ReadError {
        ReadError::NoMemory
    }
}
