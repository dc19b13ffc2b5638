//! The table of stations.

ghost use Rattle.std.specs.Prelude.{◌≡◌, ◌++◌, ◌∷◌, [], IsTrue, OnOk};
ghost use Rattle.csv.specs.Records.{fields_of};
ghost use Rattle.optra_network.specs.Names.{is_name};
ghost use Rattle.optra_network.specs.Refusals.{station_refusal};
ghost use Rattle.optra_tables.specs.Networks.{HasFew, station_row, stations_header};
ghost use Rattle.optra_tables.specs.Outcomes.{Gives, net_outcome};
ghost use Rattle.optra_tables.specs.Rows.{table_read};
ghost use Rattle.optra_tables.specs.declared.Table.TheVariants.{Stations};

use crate::fields::{name_at, shaped};
use crate::outcomes::{net_answer, row_answer};
use crate::rows::read_rows;
use crate::{ReadError, Table, TableFault};
use csv::ByteRecord;
use optra_network::Builder;
use optra_records::{TableError, TableRows};
use std::alloc::Global;

/// How many fields a record has.
const FIELDS: usize = 1;

/// Adds what a record says, or tells why the network refuses it.
fn add(net: &mut Builder, row: u32, name: &str) -> Result<(), ReadError>
    requires { IsTrue (is_name name.now) }
    ensures { Gives (λ _. net.new) result (net_outcome Stations row
        (station_refusal net.old name.now)
        (record net.old { stations = net.old.stations ++ name.now ∷ [] })) }
{
    let answer = net.station(name);
    net_answer(Table::Stations, row, answer)?;
    Ok(())
}

/// Reads one record.
#[tactic(auto, unfolding(crate::specs::Networks::station_row))]
fn read_row(net: &mut Builder, row: u32, cells: &ByteRecord) -> Result<(), ReadError>
    ensures { Gives (λ _. net.new) result (station_row net.old row (fields_of cells.now)) }
{
    shaped(Table::Stations, row, FIELDS, cells)?;
    let name = name_at(Table::Stations, row, cells, 0)?;
    add(net, row, name)
}

/// The records of the stations.
struct StationRows;

impl TableRows for StationRows {
    ghost use Rattle.optra_tables.specs.Networks.{HasFew, station_row};
    ghost use Rattle.optra_tables.specs.Room.{stations_room};

    type Known = Builder;

    type Context = ();

    type Fault = TableFault;

    ghost step = { λ _. station_row };

    ghost is_kept = { HasFew };

    ghost room = { stations_room };

    fn add(
        _alloc: Global,
        _context: &(),
        net: &mut Builder,
        row: u32,
        cells: &ByteRecord,
    ) -> Result<(), TableError<TableFault>> {
        row_answer(read_row(net, row, cells))
    }
}

/// Reads the table of stations.
pub fn read_stations(
    alloc: Global,
    net: &mut Builder,
    cells: &mut ByteRecord,
    bytes: &[u8],
) -> Result<(), ReadError>
    requires { HasFew net.old }
    ensures gives { Gives (λ _. net.new) result (table_read station_row Stations stations_header
        net.old bytes.now) }
    ensures few { OnOk result (HasFew net.new) }
{
    read_rows::<StationRows>(alloc, &(), net, Table::Stations, &["station"], cells, bytes)
}
