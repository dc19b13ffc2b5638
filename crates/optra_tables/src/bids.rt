//! The table of bids.

ghost use Rattle.std.specs.Prelude.{◌≡◌, ◌<◌, ◌≤◌, length, IfOk, IsTrue, OnOk};
ghost use Rattle.csv.specs.Records.{fields_of};
ghost use Rattle.optra_network.specs.Names.{is_name};
ghost use Rattle.optra_bid.specs.Bids.{bid_refusal};
ghost use Rattle.optra_bid.specs.Offers.{offer_of};
ghost use Rattle.optra_tables.specs.Bids.{bid_row, bids_header, made_of, raw_at, told_at, told_of};
ghost use Rattle.optra_tables.specs.Outcomes.{Gives, bid_outcome};
ghost use Rattle.optra_tables.specs.Rows.{table_read};
ghost use Rattle.optra_tables.specs.declared.Table.TheVariants.{Bids};

use crate::bid_list::BidList;
use crate::fields::{name_at, number_at, shaped, six_at, three_at};
use crate::outcomes::{bid_answer, fails, known, row_answer};
use crate::rows::read_rows;
use crate::{Kind, ReadError, Table, TableFault};
use csv::ByteRecord;
use optra_bid::{Bid, Name, RawBid};
use optra_network::{NetRefusal, Network, NoMemory};
use optra_records::{TableError, TableRows};
use std::alloc::Global;

/// How many fields a record has.
const FIELDS: usize = 19;

/// The most bids of a table.
const MOST_BIDS: usize = 1_000;

/// What a record of the bids says, before it is looked up and tested.
#[derive(Clone, Copy)]
pub struct ToldBid<'a> {
    pub name: &'a str,
    pub bidder: &'a str,
    pub kind: &'a str,
    pub origin: &'a str,
    pub destination: &'a str,
    pub depart: [u64; 3],
    pub arrive: [u64; 3],
    pub base: u64,
    pub rates: [u64; 6],
    pub wait_max: u64,
}

/// What a record says: its form, and then its fields from left to right.
#[tactic(auto, unfolding(crate::specs::Bids::told_at))]
fn told_at<'a>(row: u32, cells: &'a ByteRecord) -> Result<ToldBid<'a>, ReadError>
    ensures gives { Gives told_of result (told_at row (fields_of cells.entry.now)) }
    ensures name { IfOk result (λ told. IsTrue (is_name told.name.now)) }
    ensures bidder { IfOk result (λ told. IsTrue (is_name told.bidder.now)) }
{
    shaped(Table::Bids, row, FIELDS, cells)?;
    let name = name_at(Table::Bids, row, cells, 0)?;
    let bidder = name_at(Table::Bids, row, cells, 1)?;
    let kind = name_at(Table::Bids, row, cells, 2)?;
    let origin = name_at(Table::Bids, row, cells, 3)?;
    let destination = name_at(Table::Bids, row, cells, 4)?;
    let depart = three_at(Table::Bids, row, cells, 5)?;
    let arrive = three_at(Table::Bids, row, cells, 8)?;
    let base = number_at(Table::Bids, row, cells, 11)?;
    let rates = six_at(Table::Bids, row, cells, 12)?;
    let wait_max = number_at(Table::Bids, row, cells, 18)?;
    Ok(ToldBid {
        name,
        bidder,
        kind,
        origin,
        destination,
        depart,
        arrive,
        base,
        rates,
        wait_max,
    })
}

/// The type and the two ends, looked up.
#[tactic(auto, unfolding(crate::specs::Bids::raw_at))]
fn raw_at(net: &Network, row: u32, told: &ToldBid<'_>) -> Result<RawBid, ReadError>
    ensures { Gives (λ raw. raw) result (raw_at net.now row (told_of told.now)) }
{
    let kind = known(Table::Bids, row, net.type_id(told.kind))?;
    let origin = known(Table::Bids, row, net.station_id(told.origin))?;
    let destination = known(Table::Bids, row, net.station_id(told.destination))?;
    Ok(RawBid {
        kind,
        origin,
        destination,
        depart: told.depart,
        arrive: told.arrive,
        base: told.base,
        rates: told.rates,
        wait_max: told.wait_max,
    })
}

/// A text that is a name, as a name.
pub fn name_from(alloc: Global, text: &str) -> Result<Name, NoMemory>
    requires { IsTrue (is_name text.now) }
    ensures { IfOk result (λ name. name ≡ text.now) }
{
    match Name::new(alloc, text)? {
        Some(name) => Ok(name),
        None => unreachable!(),
    }
}

/// The bid of a record, or what the bid refuses.
fn made(alloc: Global, row: u32, told: &ToldBid<'_>, raw: &RawBid) -> Result<Bid, ReadError>
    requires name { IsTrue (is_name told.now.name.now) }
    requires bidder { IsTrue (is_name told.now.bidder.now) }
    ensures { Gives offer_of result (bid_outcome Bids row (bid_refusal raw.now)
        (made_of (told_of told.now) raw.now)) }
{
    let name = name_from(alloc, told.name)?;
    let bidder = name_from(alloc, told.bidder)?;
    let answer = Bid::checked(alloc, name, bidder, raw);
    bid_answer(Table::Bids, row, answer)
}

/// Reads one record.
#[tactic(auto, unfolding(crate::specs::Bids::bid_row))]
fn read_row(
    alloc: Global,
    net: &Network,
    bids: &mut BidList,
    row: u32,
    cells: &ByteRecord,
) -> Result<(), ReadError>
    ensures { Gives (λ _. bids.new) result (bid_row net.now bids.old row (fields_of cells.now)) }
{
    let told = told_at(row, cells)?;
    if bids.len() >= MOST_BIDS {
        return fails(Table::Bids, row, Kind::Net(NetRefusal::TooMany));
    }
    if bids.place(told.name).is_some() {
        return fails(Table::Bids, row, Kind::Net(NetRefusal::TakenName));
    }
    let raw = raw_at(net, row, &told)?;
    let bid = made(alloc, row, &told, &raw)?;
    bids.push(bid)?;
    Ok(())
}

/// The records of the bids, read on a network.
struct BidRows;

impl TableRows for BidRows {
    ghost use Rattle.std.specs.Prelude.{◌≤◌, length};
    ghost use Rattle.optra_tables.specs.Bids.{bid_row};
    ghost use Rattle.optra_tables.specs.Room.{bids_room};

    type Known = BidList;

    type Context = Network;

    type Fault = TableFault;

    ghost step = { bid_row };

    ghost is_kept = { λ bids. length bids ≤ 1000 };

    ghost room = { bids_room };

    fn add(
        alloc: Global,
        net: &Network,
        bids: &mut BidList,
        row: u32,
        cells: &ByteRecord,
    ) -> Result<(), TableError<TableFault>> {
        row_answer(read_row(alloc, net, bids, row, cells))
    }
}

/// The header of the bids.
pub const BIDS_HEADER: [&str; 19] = [
    "bid",
    "bidder",
    "type",
    "origin",
    "destination",
    "depart_from",
    "depart_ideal",
    "depart_to",
    "arrive_from",
    "arrive_ideal",
    "arrive_to",
    "base",
    "early_depart",
    "late_depart",
    "early_arrive",
    "late_arrive",
    "travel",
    "wait",
    "wait_max",
];

/// Reads the table of bids into a list without bids.
pub fn read_named(
    alloc: Global,
    net: &Network,
    bids: &mut BidList,
    cells: &mut ByteRecord,
    bytes: &[u8],
) -> Result<(), ReadError>
    requires { length bids.old ≤ 1000 }
    ensures gives { Gives (λ _. bids.new) result (table_read (bid_row net.now) Bids bids_header
        bids.old bytes.now) }
    ensures few { OnOk result (length bids.new ≤ 1000) }
{
    read_rows::<BidRows>(alloc, net, bids, Table::Bids, &BIDS_HEADER, cells, bytes)
}
