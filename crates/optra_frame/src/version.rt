//! The versions of tables, and the tables of each.
ghost use Rattle.std.specs.Prelude.{◌≡◌, ◌≤◌, ◌<◌, length, slice_get, IfOk, IfSome};
ghost use Rattle.optra_tables.specs.Networks.{version_of};
ghost use Rattle.optra_frame.specs.Versions.{tables_in, version_told};

use optra_network::NoMemory;
use optra_tables::{Table, version};
use std::alloc::Global;

/// How many tables of a network, its bids and their stops there are at most.
pub const MOST_TABLES: usize = 8;

/// The tables of version 1, in the order in which they are got.
const FIRST_TABLES: [Table; 7] = [
    Table::Stations,
    Table::Tracks,
    Table::Types,
    Table::Running,
    Table::Headways,
    Table::Bids,
    Table::Stops,
];

/// Those of version 2.
const SECOND_TABLES: [Table; MOST_TABLES] = [
    Table::Stations,
    Table::Tracks,
    Table::Types,
    Table::Running,
    Table::Headways,
    Table::Crossings,
    Table::Bids,
    Table::Stops,
];

/// A version of tables.
#[derive(Clone, Copy, Debug, PartialEq, Eq)]
pub enum Version {
    /// Headways alone.
    First,
    /// Headways, crossings and limits of stations.
    Second,
}

impl Version {
    /// The version of the tables whose stations are these bytes.
    pub fn of(alloc: Global, stations: &[u8]) -> Result<Version, NoMemory>
        ensures { IfOk result (λ told. told ≡ version_told (version_of stations.now)) }
    {
        let version = version(alloc, stations)?;
        Ok(if version == 2 {
            Version::Second
        } else {
            Version::First
        })
    }

    /// How many tables it has.
    pub fn table_count(self) -> usize
        ensures count { result ≡ length (tables_in self) }
        ensures most { result ≤ MOST_TABLES }
    {
        match self {
            Version::First => FIRST_TABLES.len(),
            Version::Second => SECOND_TABLES.len(),
        }
    }

    /// The table at a place of the order in which they are got.
    pub fn table_at(self, place: usize) -> Option<Table>
        ensures table { result ≡ slice_get (tables_in self) place }
        ensures few { IfSome result (λ _. place < MOST_TABLES) }
    {
        match self {
            Version::First => FIRST_TABLES.get(place).copied(),
            Version::Second => SECOND_TABLES.get(place).copied(),
        }
    }
}
