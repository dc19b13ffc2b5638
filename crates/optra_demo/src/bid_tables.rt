//! The tables of a demo's bids and of their stops.
ghost use Rattle.std.specs.Prelude.{◌≡◌, ◌+◌, ◌-◌, ◌*◌, ◌≤◌, ◌<◌, ◌++◌, ◌∷◌, [], length, map, sum_by, All, IfOk, OnOk};
ghost use Rattle.std.specs.Fmt.{decimal};
ghost use Rattle.std.specs.List.{flat_map};
ghost use Rattle.optra_records.specs.Texts.{record_text, records_text};
ghost use Rattle.optra_demo.specs.Bids.{bid_records, bid_row, bids_header, name_fields, rate_fields, stop_records, stop_rows, stops_header, way_minutes, window_fields};
ghost use Rattle.optra_demo.specs.Ranges.{IsInRange, IsSegment};

use crate::demo_bid::DemoBid;
use crate::kinds::{extra_of, kind_name};
use crate::names::put_name;
use crate::network_tables::print_texts;
use optra_records::{Fields, Printer};
use std::alloc::{AllocError, Global};

/// The letter of the bids.
const BID: &str = "b";
/// The letter of the bidders.
const BIDDER: &str = "R";
/// The letter of the stations.
const STATION: &str = "S";

/// The header of the bids.
const BIDS_HEADER: [&str; 19] = [
    "bid",
    "bidder",
    "type",
    "origin",
    "destination",
    "depart_from",
    "depart_ideal",
    "depart_to",
    "arrive_from",
    "arrive_ideal",
    "arrive_to",
    "base",
    "early_depart",
    "late_depart",
    "early_arrive",
    "late_arrive",
    "travel",
    "wait",
    "wait_max",
];

/// The header of the stops.
const STOPS_HEADER: [&str; 6] = [
    "bid",
    "station",
    "min_dwell",
    "max_dwell",
    "arrive_from",
    "arrive_to",
];

/// The rates in the order of their columns, in cents a minute, and the longest wait, in minutes.
const RATES: [u64; 7] = [20, 30, 10, 40, 5, 15, 3];
/// The dwell of a stop, and the span of its arrival, in minutes.
const STOP: [u64; 4] = [1, 3, 0, 2_879];
/// A bid over so many segments stops halfway.
const LONG_WAY: u32 = 4;
/// The minutes for the halts at both ends.
const HALTS: u64 = 2;

/// The table of the bids, over segments of these minutes.
pub fn bids_text(alloc: Global, minutes: &[u32], bids: &[DemoBid]) -> Result<Vec<u8>, AllocError>
    requires few { length minutes.now ≤ 35 }
    requires range { All IsSegment minutes.now }
    requires bids { All (IsInRange (length minutes.now + 1)) bids.now }
    ensures { IfOk result (λ text. text.items ≡ records_text (bid_records minutes.now bids.now)) }
{
    let mut printer = Printer::new(alloc);
    let mut fields = Fields::new(alloc);
    print_bids_header(&mut printer, &mut fields)?;
    print_bids(alloc, &mut printer, &mut fields, minutes, bids)?;
    printer.finish()
}

/// The table of the stops.
pub fn stops_text(alloc: Global, bids: &[DemoBid]) -> Result<Vec<u8>, AllocError>
    requires { All (λ bid. bid.offset + bid.tracks ≤ 36) bids.now }
    ensures { IfOk result (λ text. text.items ≡ records_text (stop_records bids.now)) }
{
    let mut printer = Printer::new(alloc);
    let mut fields = Fields::new(alloc);
    print_stops_header(&mut printer, &mut fields)?;
    print_all_stops(alloc, &mut printer, &mut fields, bids)?;
    printer.finish()
}

fn print_bids_header(printer: &mut Printer, fields: &mut Fields) -> Result<(), AllocError>
    ensures { OnOk result (printer.new ≡ printer.old ++ record_text bids_header) }
{
    print_texts(printer, fields, &BIDS_HEADER)
}

fn print_stops_header(printer: &mut Printer, fields: &mut Fields) -> Result<(), AllocError>
    ensures { OnOk result (printer.new ≡ printer.old ++ record_text stops_header) }
{
    print_texts(printer, fields, &STOPS_HEADER)
}

/// Prints the bids.
fn print_bids(
    alloc: Global,
    printer: &mut Printer,
    fields: &mut Fields,
    minutes: &[u32],
    bids: &[DemoBid],
) -> Result<(), AllocError>
    requires few { length minutes.now ≤ 35 }
    requires range { All IsSegment minutes.now }
    requires bids { All (IsInRange (length minutes.now + 1)) bids.now }
    ensures { OnOk result (printer.new ≡ printer.old ++ records_text
        (map (bid_row minutes.now) bids.now)) }
{
    'bids: for bid in bids {
        print_bid(alloc, printer, fields, minutes, bid)?;
    }
    Ok(())
}

/// Prints a bid.
fn print_bid(
    alloc: Global,
    printer: &mut Printer,
    fields: &mut Fields,
    minutes: &[u32],
    bid: &DemoBid,
) -> Result<(), AllocError>
    requires few { length minutes.now ≤ 35 }
    requires range { All IsSegment minutes.now }
    requires bid { IsInRange (length minutes.now + 1) bid.now }
    ensures { OnOk result (printer.new ≡ printer.old ++ record_text (bid_row minutes.now bid.now)) }
{
    put_bid(alloc, fields, minutes, bid)?;
    printer.print(fields)
}

/// Makes the fields those of a bid.
fn put_bid(
    alloc: Global,
    fields: &mut Fields,
    minutes: &[u32],
    bid: &DemoBid,
) -> Result<(), AllocError>
    requires few { length minutes.now ≤ 35 }
    requires range { All IsSegment minutes.now }
    requires bid { IsInRange (length minutes.now + 1) bid.now }
    ensures { OnOk result (fields.new ≡ bid_row minutes.now bid.now) }
{
    let depart = u64::from(bid.depart);
    let arrive = depart + HALTS + way_minutes(minutes, bid);
    fields.clear();
    put_names(alloc, fields, bid)?;
    put_window(fields, 10, depart, 10)?;
    put_window(fields, 10, arrive, 20)?;
    fields.number(u64::from(bid.base))?;
    put_numbers(fields, &RATES)
}

/// The minutes that a bid's train runs.
fn way_minutes(minutes: &[u32], bid: &DemoBid) -> u64
    requires few { length minutes.now ≤ 35 }
    requires range { All IsSegment minutes.now }
    requires bid { IsInRange (length minutes.now + 1) bid.now }
    ensures value { result ≡ way_minutes minutes.now bid.now }
    ensures small { result ≤ 420 }
{
    let first = bid.offset as usize;
    let way = &minutes[first..first + bid.tracks as usize];
    minutes_with(way, extra_of(bid.kind))
}

/// The minutes of segments, and so many more for each.
fn minutes_with(way: &[u32], extra: u64) -> u64
    requires few { length way.now ≤ 35 }
    requires range { All IsSegment way.now }
    requires extra { extra ≤ 4 }
    ensures value { result ≡ sum_by (λ d. d + extra) way.now }
    ensures small { result ≤ 420 }
{
    let mut sum = 0u64;
    'segments: for least in way {
        sum += u64::from(*least) + extra;
    }
    sum
}

/// Adds the names of a bid.
fn put_names(alloc: Global, fields: &mut Fields, bid: &DemoBid) -> Result<(), AllocError>
    requires { bid.now.offset + bid.now.tracks ≤ 36 }
    ensures { OnOk result (fields.new ≡ fields.old ++ name_fields bid.now) }
{
    let near = u64::from(bid.offset) + 1;
    let far = u64::from(bid.offset) + u64::from(bid.tracks) + 1;
    let (from, to) = if bid.is_back {
        (far, near)
    } else {
        (near, far)
    };
    put_name(alloc, fields, BID, u64::from(bid.number))?;
    put_name(alloc, fields, BIDDER, u64::from(bid.bidder))?;
    fields.text(kind_name(bid.kind))?;
    put_name(alloc, fields, STATION, from)?;
    put_name(alloc, fields, STATION, to)
}

/// Adds the minutes of a window round an ideal one.
fn put_window(fields: &mut Fields, early: u64, ideal: u64, late: u64) -> Result<(), AllocError>
    requires early { early ≤ ideal }
    requires small { ideal + late < 3000 }
    ensures { OnOk result (fields.new ≡ fields.old ++ window_fields early ideal late) }
{
    fields.number(ideal - early)?;
    fields.number(ideal)?;
    fields.number(ideal + late)
}

/// Adds numbers.
fn put_numbers(fields: &mut Fields, numbers: &[u64]) -> Result<(), AllocError>
    ensures { OnOk result (fields.new ≡ fields.old ++ map decimal numbers.now) }
{
    'numbers: for number in numbers {
        fields.number(*number)?;
    }
    Ok(())
}

/// Prints the stops of the bids.
fn print_all_stops(
    alloc: Global,
    printer: &mut Printer,
    fields: &mut Fields,
    bids: &[DemoBid],
) -> Result<(), AllocError>
    requires { All (λ bid. bid.offset + bid.tracks ≤ 36) bids.now }
    ensures { OnOk result (printer.new ≡ printer.old ++ records_text
        (flat_map stop_rows bids.now)) }
{
    'bids: for bid in bids {
        print_stops(alloc, printer, fields, bid)?;
    }
    Ok(())
}

/// Prints the stop of a bid that has one.
fn print_stops(
    alloc: Global,
    printer: &mut Printer,
    fields: &mut Fields,
    bid: &DemoBid,
) -> Result<(), AllocError>
    requires { bid.now.offset + bid.now.tracks ≤ 36 }
    ensures { OnOk result (printer.new ≡ printer.old ++ records_text (stop_rows bid.now)) }
{
    if bid.tracks < LONG_WAY {
        return Ok(());
    }
    fields.clear();
    put_name(alloc, fields, BID, u64::from(bid.number))?;
    put_name(
        alloc,
        fields,
        STATION,
        u64::from(bid.offset + 1 + bid.tracks / 2),
    )?;
    put_numbers(fields, &STOP)?;
    printer.print(fields)
}
