//! Why a sheet can't be read.
use std::alloc::{AllocError, AllocFailed};
use std::fmt;
use thiserror::Error;

/// What is wrong with a line of a sheet.
#[derive(Clone, Copy, Debug, PartialEq, Eq, Error)]
pub enum Wrong {
    #[error("no such head")]
    Head,
    #[error("a head before the first case")]
    NoCase,
    #[error("no case above has this name")]
    Unknown,
    #[error("a case above has this name")]
    Taken,
    #[error("the case has no run")]
    NoRun,
    #[error("not one number")]
    Number,
    #[error("no such escape")]
    Escape,
    #[error("no memory")]
    NoMemory,
}

impl From<AllocError> for Wrong {
    fn from(_error: AllocError) -> Wrong {
        Wrong::NoMemory
    }
}

impl<T: Drop> From<AllocFailed<T>> for Wrong {
    fn from(_error: AllocFailed<T>) -> Wrong {
        Wrong::NoMemory
    }
}

/// The first fault of a sheet: its line, which counts from 1, and what is wrong there.
#[derive(Clone, Copy, Debug, PartialEq, Eq)]
pub struct SheetFault {
    pub line: u32,
    pub wrong: Wrong,
}

impl fmt::Display for SheetFault {
    fn fmt<W: fmt::Write>(&self, to: &mut fmt::Formatter<W>) -> fmt::Result {
        write!(to, "line {}: {}", self.line, self.wrong)
    }
}
