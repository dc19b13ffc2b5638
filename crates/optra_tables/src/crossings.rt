//! The table of crossings, which tables of version 2 have.

ghost use Rattle.std.specs.Prelude.{◌≡◌, OnOk};
ghost use Rattle.csv.specs.Records.{fields_of};
ghost use Rattle.optra_tables.specs.Networks.{IsWhole, crossing_outcome, crossing_row, crossings_header};
ghost use Rattle.optra_tables.specs.Outcomes.{Gives};
ghost use Rattle.optra_tables.specs.Rows.{table_read};
ghost use Rattle.optra_tables.specs.declared.Table.TheVariants.{Crossings};

use crate::fields::{name_at, number_at, shaped};
use crate::outcomes::{net_answer, row_answer};
use crate::rows::read_rows;
use crate::{ReadError, Table, TableFault};
use csv::ByteRecord;
use optra_network::Builder;
use optra_records::{TableError, TableRows};
use std::alloc::Global;

/// How many fields a record has.
const FIELDS: usize = 5;

/// Adds what a record says, or tells why the network refuses it.
fn add(
    net: &mut Builder,
    row: u32,
    first_track: &str,
    second_track: &str,
    first: &str,
    second: &str,
    minutes: u64,
) -> Result<(), ReadError>
    ensures { Gives (λ _. net.new) result (crossing_outcome net.old row first_track.now
        second_track.now first.now second.now minutes) }
{
    let answer = net.crossing(first_track, second_track, first, second, minutes);
    net_answer(Table::Crossings, row, answer)?;
    Ok(())
}

/// Reads one record.
#[tactic(auto, unfolding(crate::specs::Networks::crossing_row))]
fn read_row(net: &mut Builder, row: u32, cells: &ByteRecord) -> Result<(), ReadError>
    ensures { Gives (λ _. net.new) result (crossing_row net.old row (fields_of cells.now)) }
{
    shaped(Table::Crossings, row, FIELDS, cells)?;
    let first_track = name_at(Table::Crossings, row, cells, 0)?;
    let second_track = name_at(Table::Crossings, row, cells, 1)?;
    let first = name_at(Table::Crossings, row, cells, 2)?;
    let second = name_at(Table::Crossings, row, cells, 3)?;
    let minutes = number_at(Table::Crossings, row, cells, 4)?;
    add(net, row, first_track, second_track, first, second, minutes)
}

/// The records of the crossings.
struct CrossingRows;

impl TableRows for CrossingRows {
    ghost use Rattle.optra_tables.specs.Networks.{IsWhole, crossing_row};
    ghost use Rattle.optra_tables.specs.Room.{crossings_room};

    type Known = Builder;

    type Context = ();

    type Fault = TableFault;

    ghost step = { λ _. crossing_row };

    ghost is_kept = { IsWhole };

    ghost room = { crossings_room };

    fn add(
        _alloc: Global,
        _context: &(),
        net: &mut Builder,
        row: u32,
        cells: &ByteRecord,
    ) -> Result<(), TableError<TableFault>> {
        row_answer(read_row(net, row, cells))
    }
}

/// Reads the table of crossings.
pub fn read_crossings(
    alloc: Global,
    net: &mut Builder,
    cells: &mut ByteRecord,
    bytes: &[u8],
) -> Result<(), ReadError>
    requires { IsWhole net.old }
    ensures gives { Gives (λ _. net.new) result (table_read crossing_row Crossings crossings_header
        net.old bytes.now) }
    ensures whole { OnOk result (IsWhole net.new) }
{
    read_rows::<CrossingRows>(
        alloc,
        &(),
        net,
        Table::Crossings,
        &["first_track", "second_track", "first", "second", "minutes"],
        cells,
        bytes,
    )
}
