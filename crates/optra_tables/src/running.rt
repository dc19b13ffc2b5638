//! The table of running times.

ghost use Rattle.std.specs.Prelude.{◌≡◌, unwrap_or, OnOk};
ghost use Rattle.csv.specs.Records.{fields_of};
ghost use Rattle.optra_network.specs.Refusals.{after_running, running_refusal};
ghost use Rattle.optra_tables.specs.Networks.{HasFew, running_row, running_header};
ghost use Rattle.optra_tables.specs.Outcomes.{Gives, net_outcome};
ghost use Rattle.optra_tables.specs.Rows.{table_read};
ghost use Rattle.optra_tables.specs.declared.Table.TheVariants.{Running};

use crate::fields::{four_at, name_at, shaped};
use crate::outcomes::{net_answer, row_answer};
use crate::rows::read_rows;
use crate::{ReadError, Table, TableFault};
use csv::ByteRecord;
use optra_network::Builder;
use optra_records::{TableError, TableRows};
use std::alloc::Global;

/// How many fields a record has.
const FIELDS: usize = 6;

/// Adds what a record says, or tells why the network refuses it.
fn add(
    net: &mut Builder,
    row: u32,
    track: &str,
    kind: &str,
    times: [u64; 4],
) -> Result<(), ReadError>
    ensures { Gives (λ _. net.new) result
        (net_outcome Running row (running_refusal net.old track.now kind.now times)
        (unwrap_or (after_running net.old track.now kind.now times) net.old)) }
{
    let answer = net.running(track, kind, times);
    net_answer(Table::Running, row, answer)?;
    Ok(())
}

/// Reads one record.
#[tactic(auto, unfolding(crate::specs::Networks::running_row))]
fn read_row(net: &mut Builder, row: u32, cells: &ByteRecord) -> Result<(), ReadError>
    ensures { Gives (λ _. net.new) result (running_row net.old row (fields_of cells.now)) }
{
    shaped(Table::Running, row, FIELDS, cells)?;
    let track = name_at(Table::Running, row, cells, 0)?;
    let kind = name_at(Table::Running, row, cells, 1)?;
    let times = four_at(Table::Running, row, cells, 2)?;
    add(net, row, track, kind, times)
}

/// The records of the running times.
struct RunningRows;

impl TableRows for RunningRows {
    ghost use Rattle.optra_tables.specs.Networks.{HasFew, running_row};
    ghost use Rattle.optra_tables.specs.Room.{running_room};

    type Known = Builder;

    type Context = ();

    type Fault = TableFault;

    ghost step = { λ _. running_row };

    ghost is_kept = { HasFew };

    ghost room = { running_room };

    fn add(
        _alloc: Global,
        _context: &(),
        net: &mut Builder,
        row: u32,
        cells: &ByteRecord,
    ) -> Result<(), TableError<TableFault>> {
        row_answer(read_row(net, row, cells))
    }
}

/// Reads the table of running times.
pub fn read_running(
    alloc: Global,
    net: &mut Builder,
    cells: &mut ByteRecord,
    bytes: &[u8],
) -> Result<(), ReadError>
    requires { HasFew net.old }
    ensures gives { Gives (λ _. net.new) result (table_read running_row Running running_header
        net.old bytes.now) }
    ensures few { OnOk result (HasFew net.new) }
{
    read_rows::<RunningRows>(
        alloc,
        &(),
        net,
        Table::Running,
        &[
            "track",
            "type",
            "pass_pass",
            "pass_halt",
            "halt_pass",
            "halt_halt",
        ],
        cells,
        bytes,
    )
}
