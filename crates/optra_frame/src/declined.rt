//! Why a command refuses the contents of its files, or its journal.
ghost use Rattle.std.specs.Prelude.{◌≡◌};
ghost use Rattle.optra_outside.specs.Pen.{Writes};
ghost use Rattle.optra_frame.specs.Faults.{declined_line, declined_status};

use crate::statuses;
use optra_outside::{Pen, PenFailed};
use optra_tables::TableFault;
use optra_text::{FaultView, fault_text};

/// Why a command refuses the contents of its files, or its journal.
#[derive(Clone, Copy)]
pub enum Declined {
    /// The tables of a network, its bids and an auction are refused, by their first fault.
    Table(TableFault),
    /// Another table is refused, by its first fault.
    Coded {
        /// The table's name.
        table: &'static str,
        /// The record, from 1, which is the header; or 0 for a fault of the whole table.
        row: u32,
        /// What is wrong.
        code: &'static str,
    },
    /// The journal is refused, for the reason of this code.
    Journal(&'static str),
}

impl Declined {
    /// The exit status of a command that refused so.
    pub fn status(&self) -> u8
        ensures { result ≡ declined_status self.now }
    {
        match self {
            Declined::Table(_) | Declined::Coded { .. } => statuses::REFUSED,
            Declined::Journal(_) => statuses::JOURNAL,
        }
    }

    /// Writes its line. It takes no memory.
    pub fn write<P: Pen>(&self, pen: &mut P) -> Result<(), PenFailed>
        ensures { Writes (P.state pen.old) (P.state pen.new) (declined_line self.now) result }
    {
        match *self {
            Declined::Table(fault) => fault_text(pen, FaultView::Table(fault)),
            Declined::Coded { table, row, code } => {
                fault_text(pen, FaultView::Coded { table, row, code })
            }
            Declined::Journal(code) => fault_text(pen, FaultView::Journal(code)),
        }
    }
}
