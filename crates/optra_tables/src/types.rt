//! The table of types.

ghost use Rattle.std.specs.Prelude.{◌≡◌, ◌++◌, ◌∷◌, [], IsTrue, OnOk};
ghost use Rattle.csv.specs.Records.{fields_of};
ghost use Rattle.optra_network.specs.Names.{is_name};
ghost use Rattle.optra_network.specs.Refusals.{type_refusal};
ghost use Rattle.optra_tables.specs.Networks.{HasFew, type_row, types_header};
ghost use Rattle.optra_tables.specs.Outcomes.{Gives, net_outcome};
ghost use Rattle.optra_tables.specs.Rows.{table_read};
ghost use Rattle.optra_tables.specs.declared.Table.TheVariants.{Types};

use crate::fields::{name_at, shaped};
use crate::outcomes::{net_answer, row_answer};
use crate::rows::read_rows;
use crate::{ReadError, Table, TableFault};
use csv::ByteRecord;
use optra_network::Builder;
use optra_records::{TableError, TableRows};
use std::alloc::Global;

/// How many fields a record has.
const FIELDS: usize = 1;

/// Adds what a record says, or tells why the network refuses it.
fn add(net: &mut Builder, row: u32, name: &str) -> Result<(), ReadError>
    requires { IsTrue (is_name name.now) }
    ensures { Gives (λ _. net.new) result (net_outcome Types row (type_refusal net.old name.now)
        (record net.old { types = net.old.types ++ name.now ∷ [] })) }
{
    let answer = net.train_type(name);
    net_answer(Table::Types, row, answer)?;
    Ok(())
}

/// Reads one record.
#[tactic(auto, unfolding(crate::specs::Networks::type_row))]
fn read_row(net: &mut Builder, row: u32, cells: &ByteRecord) -> Result<(), ReadError>
    ensures { Gives (λ _. net.new) result (type_row net.old row (fields_of cells.now)) }
{
    shaped(Table::Types, row, FIELDS, cells)?;
    let name = name_at(Table::Types, row, cells, 0)?;
    add(net, row, name)
}

/// The records of the types.
struct TypeRows;

impl TableRows for TypeRows {
    ghost use Rattle.optra_tables.specs.Networks.{HasFew, type_row};
    ghost use Rattle.optra_tables.specs.Room.{types_room};

    type Known = Builder;

    type Context = ();

    type Fault = TableFault;

    ghost step = { λ _. type_row };

    ghost is_kept = { HasFew };

    ghost room = { types_room };

    fn add(
        _alloc: Global,
        _context: &(),
        net: &mut Builder,
        row: u32,
        cells: &ByteRecord,
    ) -> Result<(), TableError<TableFault>> {
        row_answer(read_row(net, row, cells))
    }
}

/// Reads the table of types.
pub fn read_types(
    alloc: Global,
    net: &mut Builder,
    cells: &mut ByteRecord,
    bytes: &[u8],
) -> Result<(), ReadError>
    requires { HasFew net.old }
    ensures gives { Gives (λ _. net.new) result (table_read type_row Types types_header net.old
        bytes.now) }
    ensures few { OnOk result (HasFew net.new) }
{
    read_rows::<TypeRows>(alloc, &(), net, Table::Types, &["type"], cells, bytes)
}
