//! Tables as the reader of records reads them.

ghost use Rattle.std.specs.Prelude.{◌≡◌, ◌<◌, ◌^◌, map, OnOk};
ghost use Rattle.optra_tables.specs.Outcomes.{Gives};
ghost use Rattle.optra_tables.specs.Rows.{table_read};

use crate::outcomes::fault;
use crate::{Kind, ReadError, Table, TableFault};
use csv::ByteRecord;
use optra_records::{TableRows, read_table};
use std::alloc::Global;

/// Reads a table into what is known: its header, and then its records in order, each of which adds to what is known or
/// has the first fault of the table.
pub fn read_rows<T: TableRows<Fault = TableFault>>(
    alloc: Global,
    context: &T::Context,
    known: &mut T::Known,
    table: Table,
    header: &[&str],
    cells: &mut ByteRecord,
    bytes: &[u8],
) -> Result<(), ReadError>
    requires kept { T.is_kept known.old }
    requires room { T.room known.old < 2 ^ 31 }
    ensures gives { Gives (λ _. known.new) result (table_read (T.step context.now) table
        (map (λ name. name.now) header.now) known.old bytes.now) }
    ensures kept { OnOk result (T.is_kept known.new) }
{
    let missing = fault(table, 1, Kind::Header);
    read_table::<T>(alloc, context, known, header, missing, cells, bytes)?;
    Ok(())
}
