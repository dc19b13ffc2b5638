//! Faults, and the refusals of the network and of bids as faults of a row.

ghost use Rattle.std.specs.Prelude.{◌≡◌, Err};
ghost use Rattle.optra_tables.specs.Outcomes.{Gives, IsBidAnswer, IsNetAnswer, IsRowAnswer, fault, or_fault};

use crate::{Kind, ReadError, Table, TableFault};
use optra_bid::{BidFault, BidRefusal};
use optra_network::NetFault;
use optra_records::TableError;

/// What is wrong with a row of a table.
pub fn fault(table: Table, row: u32, kind: Kind) -> TableFault
    ensures { result ≡ fault table row kind }
{
    TableFault { table, row, kind }
}

/// A fault of a row.
pub fn fails<T>(table: Table, row: u32, kind: Kind) -> Result<T, ReadError>
    ensures { result ≡ Err (ReadError.Fault (fault table row kind)) }
{
    Err(ReadError::Fault(fault(table, row, kind)))
}

/// What the network refuses is the fault of the row.
pub fn net_answer<T>(table: Table, row: u32, answer: Result<T, NetFault>) -> Result<T, ReadError>
    ensures { IsNetAnswer table row answer result }
{
    match answer {
        Ok(value) => Ok(value),
        Err(NetFault::Refused(why)) => fails(table, row, Kind::Net(why)),
        Err(NetFault::NoMemory) => Err(ReadError::NoMemory),
    }
}

/// What a bid refuses is the fault of the row.
pub fn bid_answer<T>(table: Table, row: u32, answer: Result<T, BidFault>) -> Result<T, ReadError>
    ensures { IsBidAnswer table row answer result }
{
    match answer {
        Ok(value) => Ok(value),
        Err(BidFault::Refused(why)) => fails(table, row, Kind::Bid(why)),
        Err(BidFault::NoMemory) => Err(ReadError::NoMemory),
    }
}

/// What is named is there, or the row is at fault.
pub fn known<T>(table: Table, row: u32, found: Option<T>) -> Result<T, ReadError>
    ensures { Gives (λ value. value) result
        (or_fault (fault table row (Kind.Bid BidRefusal.UnknownName)) found) }
{
    match found {
        Some(value) => Ok(value),
        None => fails(table, row, Kind::Bid(BidRefusal::UnknownName)),
    }
}

/// The answer of a row as the reader of records takes it.
pub fn row_answer(answer: Result<(), ReadError>) -> Result<(), TableError<TableFault>>
    ensures { IsRowAnswer answer result }
{
    match answer {
        Ok(()) => Ok(()),
        Err(ReadError::Fault(fault)) => Err(TableError::Fault(fault)),
        Err(ReadError::NoMemory) => Err(TableError::NoMemory),
    }
}
