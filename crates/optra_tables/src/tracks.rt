//! The table of tracks.

ghost use Rattle.std.specs.Prelude.{◌≡◌, unwrap_or, IsTrue, OnOk};
ghost use Rattle.csv.specs.Records.{fields_of};
ghost use Rattle.optra_network.specs.Names.{is_name};
ghost use Rattle.optra_network.specs.Refusals.{after_track, track_refusal};
ghost use Rattle.optra_tables.specs.Networks.{HasFew, track_row, tracks_header};
ghost use Rattle.optra_tables.specs.Outcomes.{Gives, net_outcome};
ghost use Rattle.optra_tables.specs.Rows.{table_read};
ghost use Rattle.optra_tables.specs.declared.Table.TheVariants.{Tracks};

use crate::fields::{name_at, shaped};
use crate::outcomes::{net_answer, row_answer};
use crate::rows::read_rows;
use crate::{ReadError, Table, TableFault};
use csv::ByteRecord;
use optra_network::Builder;
use optra_records::{TableError, TableRows};
use std::alloc::Global;

/// How many fields a record has.
const FIELDS: usize = 3;

/// Adds what a record says, or tells why the network refuses it.
fn add(net: &mut Builder, row: u32, name: &str, from: &str, to: &str) -> Result<(), ReadError>
    requires { IsTrue (is_name name.now) }
    ensures { Gives (λ _. net.new) result (net_outcome Tracks row (track_refusal net.old name.now
        from.now to.now) (unwrap_or (after_track net.old name.now from.now to.now) net.old)) }
{
    let answer = net.track(name, from, to);
    net_answer(Table::Tracks, row, answer)?;
    Ok(())
}

/// Reads one record.
#[tactic(auto, unfolding(crate::specs::Networks::track_row))]
fn read_row(net: &mut Builder, row: u32, cells: &ByteRecord) -> Result<(), ReadError>
    ensures { Gives (λ _. net.new) result (track_row net.old row (fields_of cells.now)) }
{
    shaped(Table::Tracks, row, FIELDS, cells)?;
    let name = name_at(Table::Tracks, row, cells, 0)?;
    let from = name_at(Table::Tracks, row, cells, 1)?;
    let to = name_at(Table::Tracks, row, cells, 2)?;
    add(net, row, name, from, to)
}

/// The records of the tracks.
struct TrackRows;

impl TableRows for TrackRows {
    ghost use Rattle.optra_tables.specs.Networks.{HasFew, track_row};
    ghost use Rattle.optra_tables.specs.Room.{tracks_room};

    type Known = Builder;

    type Context = ();

    type Fault = TableFault;

    ghost step = { λ _. track_row };

    ghost is_kept = { HasFew };

    ghost room = { tracks_room };

    fn add(
        _alloc: Global,
        _context: &(),
        net: &mut Builder,
        row: u32,
        cells: &ByteRecord,
    ) -> Result<(), TableError<TableFault>> {
        row_answer(read_row(net, row, cells))
    }
}

/// Reads the table of tracks.
pub fn read_tracks(
    alloc: Global,
    net: &mut Builder,
    cells: &mut ByteRecord,
    bytes: &[u8],
) -> Result<(), ReadError>
    requires { HasFew net.old }
    ensures gives { Gives (λ _. net.new) result (table_read track_row Tracks tracks_header net.old
        bytes.now) }
    ensures few { OnOk result (HasFew net.new) }
{
    read_rows::<TrackRows>(
        alloc,
        &(),
        net,
        Table::Tracks,
        &["track", "from", "to"],
        cells,
        bytes,
    )
}
