//! The line of each fault that ends a command.

ghost use Rattle.std.specs.Prelude.{◌≡◌};
ghost use Rattle.std.specs.List.{flat_map};
ghost use Rattle.optra_outside.specs.Pen.{Writes};
ghost use Rattle.optra_text.specs.FaultLines.{bid_code, fault_line, kind_code, net_code, row_line, table_word};

use itoa::Buffer;
use optra_bid::BidRefusal;
use optra_network::NetRefusal;
use optra_outside::{Pen, PenFailed};
use optra_tables::{Kind, Table, TableFault};

/// The command forms of the program `optra`, as its usage line shows them.
pub const FORMS: &str = "optra plan|check|auction|demo|audit|pay|house|compress";

/// What ended a command, as its line shows it.
#[derive(Clone, Copy)]
pub enum FaultView<'a> {
    /// The words are no command of a program that has these forms.
    Usage(&'a str),
    /// A table is refused, by its first fault.
    Table(TableFault),
    /// A table that isn't among those of a network, its bids and an auction is refused, by its first fault.
    Coded {
        /// The table's name.
        table: &'a str,
        /// The record, from 1, which is the header; or 0 for a fault of the whole table.
        row: u32,
        /// What is wrong.
        code: &'a str,
    },
    /// A journal is refused, for the reason of this code.
    Journal(&'a str),
    /// The file of this name could not be read.
    Read(&'a str),
    /// The file of this name is not there.
    Absent(&'a str),
    /// The file of this name is longer than a file may be.
    TooLong(&'a str),
    /// A file could not be put, or the output failed.
    Write,
    /// A call of the disk failed.
    Disk,
    /// Memory ran out.
    NoMemory,
}

/// Writes the fault's line, ended by one line feed. It takes no memory.
///
/// `PenFailed` comes only where the pen's count of faults rose, and then a first part of the line was written.
pub fn fault_text<P: Pen>(pen: &mut P, view: FaultView<'_>) -> Result<(), PenFailed>
    ensures { Writes (P.state pen.old) (P.state pen.new) (fault_line view.entry) result }
{
    match view {
        FaultView::Usage(forms) => write_pieces(pen, &["usage: ", forms, "\n"]),
        FaultView::Table(fault) => {
            write_row(
                pen,
                table_word(fault.table),
                fault.row,
                kind_code(fault.kind),
            )
        }
        FaultView::Coded { table, row, code } => write_row(pen, table, row, code),
        FaultView::Journal(code) => write_pieces(pen, &["journal: ", code, "\n"]),
        FaultView::Read(name) => write_pieces(pen, &["read fault: ", name, "\n"]),
        FaultView::Absent(name) => write_pieces(pen, &["absent: ", name, "\n"]),
        FaultView::TooLong(name) => write_pieces(pen, &["too long: ", name, "\n"]),
        FaultView::Write => pen.write(b"write fault\n"),
        FaultView::Disk => pen.write(b"disk fault\n"),
        FaultView::NoMemory => pen.write(b"no memory\n"),
    }
}

/// Writes the line of a table's first fault: the table, the row and the code.
fn write_row<P: Pen>(pen: &mut P, table: &str, row: u32, code: &str) -> Result<(), PenFailed>
    ensures { Writes (P.state pen.old) (P.state pen.new) (row_line table.now row code.now) result }
{
    let mut buffer = Buffer::new();
    let row = buffer.format(row);
    write_pieces(pen, &["refused: ", table, " row ", row, " ", code, "\n"])
}

/// Writes texts one after another.
fn write_pieces<P: Pen>(pen: &mut P, pieces: &[&str]) -> Result<(), PenFailed>
    ensures { Writes (P.state pen.old) (P.state pen.new) (flat_map (λ piece. piece.now) pieces.now)
        result }
{
    'pieces: for piece in pieces {
        pen.write(piece.as_bytes())?;
    }
    Ok(())
}

/// The name of a table.
fn table_word(table: Table) -> &'static str
    ensures { result.now ≡ table_word table }
{
    match table {
        Table::Stations => "stations",
        Table::Tracks => "tracks",
        Table::Types => "types",
        Table::Running => "running",
        Table::Headways => "headways",
        Table::Crossings => "crossings",
        Table::Bids => "bids",
        Table::Stops => "stops",
        Table::Rules => "rules",
        Table::Actions => "actions",
    }
}

/// The code of what is wrong with a table.
fn kind_code(kind: Kind) -> &'static str
    ensures { result.now ≡ kind_code kind }
{
    match kind {
        Kind::Csv => "Csv",
        Kind::Header => "Header",
        Kind::Name => "Name",
        Kind::Number => "Number",
        Kind::Net(why) => net_code(why),
        Kind::Bid(why) => bid_code(why),
    }
}

/// The code of what a network refuses.
fn net_code(why: NetRefusal) -> &'static str
    ensures { result.now ≡ net_code why }
{
    match why {
        NetRefusal::TakenName => "N1",
        NetRefusal::UnknownName => "N2",
        NetRefusal::Range => "N3",
        NetRefusal::SelfLoop => "N4",
        NetRefusal::Repeated => "N5",
        NetRefusal::MissingHeadway => "N6",
        NetRefusal::TooMany => "N7",
        NetRefusal::OneWayCrossing => "N8",
        NetRefusal::Reach => "N9",
    }
}

/// The code of what a bid refuses.
fn bid_code(why: BidRefusal) -> &'static str
    ensures { result.now ≡ bid_code why }
{
    match why {
        BidRefusal::Ends => "B1",
        BidRefusal::Window => "B2",
        BidRefusal::Range => "B3",
        BidRefusal::UnknownName => "B4",
        BidRefusal::Stops => "B5",
    }
}
