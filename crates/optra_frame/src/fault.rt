//! The faults that end a command, their lines and their statuses.
ghost use Rattle.std.specs.Prelude.{◌≡◌};
ghost use Rattle.optra_outside.specs.Pen.{Writes};
ghost use Rattle.optra_frame.specs.declared.fault.Fault.TheVariants.{NoMemory};
ghost use Rattle.optra_frame.specs.Faults.{fault_of, line_of, status_of, unread_fault};

use crate::declined::Declined;
use crate::statuses;
use optra_outside::{Pen, PenFailed, ShelfError};
use optra_tables::ReadError;
use optra_text::{FaultView, fault_text};
use std::alloc::{AllocError, AllocFailed};

/// What ended a command.
#[derive(Drop)]
pub enum Fault {
    /// The contents of its files are refused, or its journal is.
    Refused(Declined),
    /// The file of this name could not be read.
    Read(String),
    /// No file has this name.
    Absent(String),
    /// The file of this name is longer than a file may be.
    TooLong(String),
    /// A file could not be put, or the output failed.
    Write,
    /// A call of the disk failed.
    Disk,
    /// There was no memory.
    NoMemory,
}

impl Fault {
    /// The fault of a refused get of the file of this name.
    pub fn of_get(why: ShelfError, name: String) -> Fault
        ensures { result ≡ fault_of why name }
    {
        match why {
            ShelfError::Failed => Fault::Read(name),
            ShelfError::Absent => Fault::Absent(name),
            ShelfError::TooLong => Fault::TooLong(name),
            ShelfError::NoMemory => Fault::NoMemory,
        }
    }

    /// The exit status of a command that this fault ended.
    pub fn status(&self) -> u8
        ensures { result ≡ status_of self.now }
    {
        match self {
            Fault::Refused(declined) => declined.status(),
            Fault::Read(_) => statuses::READ,
            Fault::Absent(_) => statuses::ABSENT,
            Fault::TooLong(_) => statuses::TOO_LONG,
            Fault::Write => statuses::WRITE,
            Fault::Disk => statuses::DISK,
            Fault::NoMemory => statuses::MEMORY,
        }
    }

    /// Writes the fault's line. It takes no memory.
    pub fn write<P: Pen>(&self, pen: &mut P) -> Result<(), PenFailed>
        ensures { Writes (P.state pen.old) (P.state pen.new) (line_of self.now) result }
    {
        match self {
            Fault::Refused(declined) => declined.write(pen),
            Fault::Read(name) => fault_text(pen, FaultView::Read(name.as_str())),
            Fault::Absent(name) => fault_text(pen, FaultView::Absent(name.as_str())),
            Fault::TooLong(name) => fault_text(pen, FaultView::TooLong(name.as_str())),
            Fault::Write => fault_text(pen, FaultView::Write),
            Fault::Disk => fault_text(pen, FaultView::Disk),
            Fault::NoMemory => fault_text(pen, FaultView::NoMemory),
        }
    }
}

impl From<AllocError> for Fault {
    ghost from_gives = { λ _ e. e ≡ NoMemory };

    fn from(_: AllocError) -> Fault {
        Fault::NoMemory
    }
}

impl<T: Drop> From<AllocFailed<T>> for Fault {
    ghost from_gives = { λ _ e. e ≡ NoMemory };

    fn from(_: AllocFailed<T>) -> Fault {
        Fault::NoMemory
    }
}

impl From<ReadError> for Fault {
    ghost from_gives = { λ error fault. fault ≡ unread_fault error };

    fn from(error: ReadError) -> Fault {
        match error {
            ReadError::Fault(fault) => Fault::Refused(Declined::Table(fault)),
            ReadError::NoMemory => Fault::NoMemory,
        }
    }
}
