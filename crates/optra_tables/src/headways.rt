//! The table of headways.

ghost use Rattle.std.specs.Prelude.{◌≡◌, unwrap_or, OnOk};
ghost use Rattle.csv.specs.Records.{fields_of};
ghost use Rattle.optra_network.specs.Refusals.{after_headway, headway_refusal};
ghost use Rattle.optra_tables.specs.Networks.{HasFew, headway_row, headways_header};
ghost use Rattle.optra_tables.specs.Outcomes.{Gives, net_outcome};
ghost use Rattle.optra_tables.specs.Rows.{table_read};
ghost use Rattle.optra_tables.specs.declared.Table.TheVariants.{Headways};

use crate::fields::{name_at, number_at, shaped};
use crate::outcomes::{net_answer, row_answer};
use crate::rows::read_rows;
use crate::{ReadError, Table, TableFault};
use csv::ByteRecord;
use optra_network::Builder;
use optra_records::{TableError, TableRows};
use std::alloc::Global;

/// How many fields a record has.
const FIELDS: usize = 4;

/// Adds what a record says, or tells why the network refuses it.
fn add(
    net: &mut Builder,
    row: u32,
    track: &str,
    first: &str,
    second: &str,
    minutes: u64,
) -> Result<(), ReadError>
    ensures { Gives (λ _. net.new) result (net_outcome Headways row
        (headway_refusal net.old track.now first.now second.now minutes)
        (unwrap_or (after_headway net.old track.now first.now second.now minutes) net.old)) }
{
    let answer = net.headway(track, first, second, minutes);
    net_answer(Table::Headways, row, answer)?;
    Ok(())
}

/// Reads one record.
#[tactic(auto, unfolding(crate::specs::Networks::headway_row))]
fn read_row(net: &mut Builder, row: u32, cells: &ByteRecord) -> Result<(), ReadError>
    ensures { Gives (λ _. net.new) result (headway_row net.old row (fields_of cells.now)) }
{
    shaped(Table::Headways, row, FIELDS, cells)?;
    let track = name_at(Table::Headways, row, cells, 0)?;
    let first = name_at(Table::Headways, row, cells, 1)?;
    let second = name_at(Table::Headways, row, cells, 2)?;
    let minutes = number_at(Table::Headways, row, cells, 3)?;
    add(net, row, track, first, second, minutes)
}

/// The records of the headways.
struct HeadwayRows;

impl TableRows for HeadwayRows {
    ghost use Rattle.optra_tables.specs.Networks.{HasFew, headway_row};
    ghost use Rattle.optra_tables.specs.Room.{headways_room};

    type Known = Builder;

    type Context = ();

    type Fault = TableFault;

    ghost step = { λ _. headway_row };

    ghost is_kept = { HasFew };

    ghost room = { headways_room };

    fn add(
        _alloc: Global,
        _context: &(),
        net: &mut Builder,
        row: u32,
        cells: &ByteRecord,
    ) -> Result<(), TableError<TableFault>> {
        row_answer(read_row(net, row, cells))
    }
}

/// Reads the table of headways.
pub fn read_headways(
    alloc: Global,
    net: &mut Builder,
    cells: &mut ByteRecord,
    bytes: &[u8],
) -> Result<(), ReadError>
    requires { HasFew net.old }
    ensures gives { Gives (λ _. net.new) result (table_read headway_row Headways headways_header
        net.old bytes.now) }
    ensures few { OnOk result (HasFew net.new) }
{
    read_rows::<HeadwayRows>(
        alloc,
        &(),
        net,
        Table::Headways,
        &["track", "first", "second", "minutes"],
        cells,
        bytes,
    )
}
