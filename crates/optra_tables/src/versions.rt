//! The version of tables, which the header of the stations tells.

ghost use Rattle.std.specs.Prelude.{◌≡◌, IfOk};
ghost use Rattle.optra_tables.specs.Networks.{version_of};

use csv::ByteRecord;
use optra_network::NoMemory;
use optra_records::{Records, TableError, under_header};
use std::alloc::{AllocError, Global};

/// The version of tables whose stations are these bytes: 2 exactly where the first record, behind a byte-order mark that is
/// dropped, is `station,halt_max`, else 1. No further record is read, but the first one is read whole, however long it is: ask once for
/// a file, and hand the answer on.
pub fn version(alloc: Global, stations: &[u8]) -> Result<u8, NoMemory>
    ensures { IfOk result (λ version. version ≡ version_of stations.now) }
{
    let mut cells = ByteRecord::new(alloc);
    let mut records = Records::of_table(alloc, stations);
    match under_header(&mut records, &["station", "halt_max"], (), &mut cells) {
        Ok(()) => Ok(2),
        Err(TableError::Fault(())) => Ok(1),
        Err(TableError::NoMemory) => Err(AllocError),
    }
}
