//! The table of stations of version 2, with their limits of trains.

ghost use Rattle.std.specs.Prelude.{◌≡◌, IsTrue, OnOk};
ghost use Rattle.csv.specs.Records.{fields_of};
ghost use Rattle.optra_network.specs.Names.{is_name};
ghost use Rattle.optra_tables.specs.Networks.{HasFew, limited_outcome, limited_station_row, limited_stations_header};
ghost use Rattle.optra_tables.specs.Outcomes.{Gives};
ghost use Rattle.optra_tables.specs.Rows.{table_read};
ghost use Rattle.optra_tables.specs.declared.Table.TheVariants.{Stations};

use crate::fields::{name_at, number_at, shaped};
use crate::outcomes::{net_answer, row_answer};
use crate::rows::read_rows;
use crate::{ReadError, Table, TableFault};
use csv::ByteRecord;
use optra_network::Builder;
use optra_records::{TableError, TableRows};
use std::alloc::Global;

/// How many fields a record has.
const FIELDS: usize = 2;

/// Adds what a record says, or tells why the network refuses it.
fn add(net: &mut Builder, row: u32, name: &str, halt_max: u64) -> Result<(), ReadError>
    requires { IsTrue (is_name name.now) }
    ensures { Gives (λ _. net.new) result (limited_outcome net.old row name.now halt_max) }
{
    let answer = net.station_limited(name, halt_max);
    net_answer(Table::Stations, row, answer)?;
    Ok(())
}

/// Reads one record.
#[tactic(auto, unfolding(crate::specs::Networks::limited_station_row))]
fn read_row(net: &mut Builder, row: u32, cells: &ByteRecord) -> Result<(), ReadError>
    ensures { Gives (λ _. net.new) result (limited_station_row net.old row (fields_of cells.now)) }
{
    shaped(Table::Stations, row, FIELDS, cells)?;
    let name = name_at(Table::Stations, row, cells, 0)?;
    let halt_max = number_at(Table::Stations, row, cells, 1)?;
    add(net, row, name, halt_max)
}

/// The records of the stations with their limits.
struct LimitedStationRows;

impl TableRows for LimitedStationRows {
    ghost use Rattle.optra_tables.specs.Networks.{HasFew, limited_station_row};
    ghost use Rattle.optra_tables.specs.Room.{stations_room};

    type Known = Builder;

    type Context = ();

    type Fault = TableFault;

    ghost step = { λ _. limited_station_row };

    ghost is_kept = { HasFew };

    ghost room = { stations_room };

    fn add(
        _alloc: Global,
        _context: &(),
        net: &mut Builder,
        row: u32,
        cells: &ByteRecord,
    ) -> Result<(), TableError<TableFault>> {
        row_answer(read_row(net, row, cells))
    }
}

/// Reads the table of stations with their limits.
pub fn read_limited_stations(
    alloc: Global,
    net: &mut Builder,
    cells: &mut ByteRecord,
    bytes: &[u8],
) -> Result<(), ReadError>
    requires { HasFew net.old }
    ensures gives { Gives (λ _. net.new) result (table_read limited_station_row Stations
        limited_stations_header net.old bytes.now) }
    ensures few { OnOk result (HasFew net.new) }
{
    read_rows::<LimitedStationRows>(
        alloc,
        &(),
        net,
        Table::Stations,
        &["station", "halt_max"],
        cells,
        bytes,
    )
}
