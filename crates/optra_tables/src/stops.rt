//! The table of stops, and the two tables of bids in order.

ghost use Rattle.std.specs.Prelude.{◌≡◌, ◌<◌, ◌≤◌, length, map, slice_get, IfOk, IfSome, OnOk};
ghost use Rattle.csv.specs.Records.{fields_of};
ghost use Rattle.optra_network.specs.Names.{AllDiffer};
ghost use Rattle.optra_bid.specs.Instances.{IsInstance};
ghost use Rattle.optra_bid.specs.Offers.{offer_of};
ghost use Rattle.optra_tables.specs.Outcomes.{Gives};
ghost use Rattle.optra_tables.specs.Rows.{table_read};
ghost use Rattle.optra_tables.specs.Stops.{bids_of, found_at, stop_outcome, stop_row, stops_header};
ghost use Rattle.optra_tables.specs.declared.Table.TheVariants.{Stops};

use crate::bid_list::BidList;
use crate::bids::read_named;
use crate::fields::{name_at, number_at, shaped, two_at};
use crate::outcomes::{bid_answer, fails, known, row_answer};
use crate::rows::read_rows;
use crate::{Kind, ReadError, Table, TableFault};
use csv::ByteRecord;
use optra_bid::{Bid, BidRefusal, RawStop};
use optra_network::{Network, StationId};
use optra_records::{TableError, TableRows};
use std::alloc::Global;

/// How many fields a record has.
const FIELDS: usize = 6;

/// Adds a stop to the bid at a place, or tells why the bid refuses it.
fn add(bids: &mut BidList, row: u32, place: usize, raw: &RawStop) -> Result<(), ReadError>
    requires { place < length bids.old }
    ensures { IfSome (slice_get bids.old place) (λ bid. Gives (λ _. bids.new) result
        (stop_outcome row bids.old place bid raw.now)) }
{
    let answer = bids.add_stop(place, raw);
    bid_answer(Table::Stops, row, answer)
}

/// The place of a bid and the id of a station, if both are there.
fn found(
    net: &Network,
    bids: &BidList,
    row: u32,
    name: &str,
    station: &str,
) -> Result<(usize, StationId), ReadError>
    ensures gives { Gives (λ found. (found.0, found.1)) result (found_at net.now bids.now row
        name.now station.now) }
    ensures within { IfOk result (λ found. found.0 < length bids.now) }
{
    let Some(place) = bids.place(name) else {
        return fails(Table::Stops, row, Kind::Bid(BidRefusal::UnknownName));
    };
    let station = known(Table::Stops, row, net.station_id(station))?;
    Ok((place, station))
}

/// Reads one record.
#[tactic(auto, unfolding(crate::specs::Stops::stop_row))]
fn read_row(
    net: &Network,
    bids: &mut BidList,
    row: u32,
    cells: &ByteRecord,
) -> Result<(), ReadError>
    ensures { Gives (λ _. bids.new) result (stop_row net.now bids.old row (fields_of cells.now)) }
{
    shaped(Table::Stops, row, FIELDS, cells)?;
    let name = name_at(Table::Stops, row, cells, 0)?;
    let station = name_at(Table::Stops, row, cells, 1)?;
    let min_dwell = number_at(Table::Stops, row, cells, 2)?;
    let max_dwell = number_at(Table::Stops, row, cells, 3)?;
    let arrive = two_at(Table::Stops, row, cells, 4)?;
    let (place, station) = found(net, bids, row, name, station)?;
    let raw = RawStop {
        station,
        min_dwell,
        max_dwell,
        arrive,
    };
    add(bids, row, place, &raw)
}

/// The records of the stops, read into bids on a network.
struct StopRows;

impl TableRows for StopRows {
    ghost use Rattle.std.specs.Prelude.{◌≤◌, length};
    ghost use Rattle.optra_tables.specs.Stops.{stop_row};
    ghost use Rattle.optra_tables.specs.Room.{stops_room};

    type Known = BidList;

    type Context = Network;

    type Fault = TableFault;

    ghost step = { stop_row };

    ghost is_kept = { λ bids. length bids ≤ 1000 };

    ghost room = { stops_room };

    fn add(
        _alloc: Global,
        net: &Network,
        bids: &mut BidList,
        row: u32,
        cells: &ByteRecord,
    ) -> Result<(), TableError<TableFault>> {
        row_answer(read_row(net, bids, row, cells))
    }
}

/// The header of the stops.
pub const STOPS_HEADER: [&str; 6] = [
    "bid",
    "station",
    "min_dwell",
    "max_dwell",
    "arrive_from",
    "arrive_to",
];

/// Reads the table of stops into the bids.
fn read_stops(
    alloc: Global,
    net: &Network,
    bids: &mut BidList,
    cells: &mut ByteRecord,
    bytes: &[u8],
) -> Result<(), ReadError>
    requires { length bids.old ≤ 1000 }
    ensures { Gives (λ _. bids.new) result (table_read (stop_row net.now) Stops stops_header
        bids.old bytes.now) }
{
    read_rows::<StopRows>(alloc, net, bids, Table::Stops, &STOPS_HEADER, cells, bytes)
}

/// The bids that the two tables mean on a network, or exactly their first fault. The bids are read first; the stops of
/// a bid are its records in the table of stops, in their order.
///
/// - `Header`, `Csv`, `Name` and `Number` as in [`crate::read_network`].
/// - Of a bid, in this order: `Net(TooMany)`, where 1,000 bids were read already; `Net(TakenName)`, where an earlier
///   record has its name; `Bid(UnknownName)`, where its type or an end isn't there; then what `Bid::checked` refuses.
/// - Of a stop, in this order: `Bid(UnknownName)`, where its bid or station isn't there; then what `Bid::add_stop`
///   refuses.
///
/// The bids that are read are an instance of the network: at most 1,000, of its types and stations, with different
/// names.
#[tactic(auto, unfolding(crate::specs::Stops::bids_of))]
pub fn read_bids(
    alloc: Global,
    net: &Network,
    bids: &[u8],
    stops: &[u8],
) -> Result<Vec<Bid>, ReadError>
    ensures gives { Gives (λ bids. map offer_of bids.items) result (bids_of net.now bids.now
        stops.now) }
    ensures instance { IfOk result (λ bids. IsInstance net.now bids.items) }
    ensures names { IfOk result (λ bids. AllDiffer (map (λ bid. bid.name) bids.items)) }
{
    let mut cells = ByteRecord::new(alloc);
    let mut list = BidList::new(alloc);
    read_named(alloc, net, &mut list, &mut cells, bids)?;
    read_stops(alloc, net, &mut list, &mut cells, stops)?;
    Ok(list.into_bids())
}
