//! Bids and their stops, written as tables that are read again as the same bids.

ghost use Rattle.std.specs.Prelude.{◌≡◌, ◌++◌, ◌∷◌, [], map, All, IfOk, OnOk};
ghost use Rattle.std.specs.Fmt.{signed_decimal};
ghost use Rattle.optra_network.specs.Names.{AllDiffer};
ghost use Rattle.optra_network.specs.Net.{IsStation};
ghost use Rattle.optra_bid.specs.Instances.{IsInstance};
ghost use Rattle.optra_bid.specs.Specs.{IsPathOn};
ghost use Rattle.optra_records.specs.Texts.{record_text, records_text};
ghost use Rattle.optra_bid.specs.Offers.{offer_of, offers_of};
ghost use Rattle.optra_tables.specs.Bids.{bids_header};
ghost use Rattle.optra_tables.specs.Stops.{stops_header};
ghost use Rattle.optra_tables.specs.Written.{IsSound, Mean, all_stop_records, bids_table, stops_table};
ghost use Rattle.optra_tables.specs.Written.{bid_record, money_fields, name_fields, stop_record, window_fields};

use crate::bids::BIDS_HEADER;
use crate::stops::STOPS_HEADER;
use optra_bid::{Bid, Money, Stop, Window};
use optra_network::{Cents, Network, NoMemory};
use optra_records::{Fields, Printer};
use std::alloc::Global;

/// The table of the bids: its header, and a record for each bid in their order. Names stand as they are, numbers in
/// decimal without zeros in front. Read with the table of their stops, it means the same bids.
pub fn bids_text(alloc: Global, net: &Network, bids: &[Bid]) -> Result<Vec<u8>, NoMemory>
    requires instance { IsInstance net.now bids.now }
    requires differ { AllDiffer (map (λ bid. bid.name) bids.now) }
    ensures text { IfOk result (λ text. text.items ≡ bids_table net.now (offers_of bids.now)) }
    ensures again { IfOk result (λ text. Mean net.now text.items
        (stops_table net.now (offers_of bids.now)) (offers_of bids.now)) }
{
    net.laws();
    let mut printer = Printer::new(alloc);
    let mut fields = Fields::new(alloc);
    print_bids_header(&mut printer, &mut fields)?;
    print_bids(&mut printer, &mut fields, net, bids)?;
    printer.finish()
}

/// The table of the stops: its header, and for each bid in their order a record for each of its stops, in the order
/// in which they are made. Read with the table of the bids, it means the same bids.
pub fn stops_text(alloc: Global, net: &Network, bids: &[Bid]) -> Result<Vec<u8>, NoMemory>
    requires instance { IsInstance net.now bids.now }
    requires differ { AllDiffer (map (λ bid. bid.name) bids.now) }
    ensures text { IfOk result (λ text. text.items ≡ stops_table net.now (offers_of bids.now)) }
    ensures again { IfOk result (λ text. Mean net.now (bids_table net.now (offers_of bids.now))
        text.items (offers_of bids.now)) }
{
    net.laws();
    let mut printer = Printer::new(alloc);
    let mut fields = Fields::new(alloc);
    print_stops_header(&mut printer, &mut fields)?;
    print_stops(&mut printer, &mut fields, net, bids)?;
    printer.finish()
}

/// The name of a bid, with what every bid keeps.
fn name(bid: &Bid) -> &str
    ensures text { result.now ≡ bid.now.name }
    ensures sound { IsSound (offer_of bid.now) }
{
    let _bidder = bid.bidder.text();
    bid.name.text()
}

fn print_bids_header(printer: &mut Printer, fields: &mut Fields) -> Result<(), NoMemory>
    ensures { OnOk result (printer.new ≡ printer.old ++ record_text bids_header) }
{
    fields.clear();
    fields.texts(&BIDS_HEADER)?;
    printer.print(fields)
}

fn print_stops_header(printer: &mut Printer, fields: &mut Fields) -> Result<(), NoMemory>
    ensures { OnOk result (printer.new ≡ printer.old ++ record_text stops_header) }
{
    fields.clear();
    fields.texts(&STOPS_HEADER)?;
    printer.print(fields)
}

/// Adds the names of a bid.
fn put_names(fields: &mut Fields, net: &Network, bid: &Bid) -> Result<(), NoMemory>
    requires { IsPathOn net.now bid.now.path }
    ensures { OnOk result (fields.new ≡ fields.old ++ name_fields net.now (offer_of bid.now)) }
{
    fields.text(bid.name.text())?;
    fields.text(bid.bidder.text())?;
    fields.text(net.type_name(bid.path.kind))?;
    fields.text(net.station_name(bid.path.origin))?;
    fields.text(net.station_name(bid.path.destination))
}

/// Adds the minutes of a window.
fn put_window(fields: &mut Fields, window: Window) -> Result<(), NoMemory>
    ensures { OnOk result (fields.new ≡ fields.old ++ window_fields window) }
{
    fields.number(u64::from(window.from))?;
    fields.number(u64::from(window.ideal))?;
    fields.number(u64::from(window.to))
}

/// Adds two amounts.
fn put_pair(fields: &mut Fields, first: Cents, second: Cents) -> Result<(), NoMemory>
    ensures { OnOk result (fields.new ≡ fields.old ++ signed_decimal first ∷ signed_decimal second
        ∷ []) }
{
    fields.signed(first)?;
    fields.signed(second)
}

/// Adds the base and the rates.
fn put_money(fields: &mut Fields, money: Money) -> Result<(), NoMemory>
    ensures { OnOk result (fields.new ≡ fields.old ++ money_fields money) }
{
    fields.signed(money.base)?;
    put_pair(fields, money.early_depart, money.late_depart)?;
    put_pair(fields, money.early_arrive, money.late_arrive)?;
    put_pair(fields, money.travel, money.wait)
}

/// Makes the fields those of a bid.
#[tactic(auto, unfolding(crate::specs::Written::bid_record))]
fn put_bid(fields: &mut Fields, net: &Network, bid: &Bid) -> Result<(), NoMemory>
    requires { IsPathOn net.now bid.now.path }
    ensures { OnOk result (fields.new ≡ bid_record net.now (offer_of bid.now)) }
{
    fields.clear();
    put_names(fields, net, bid)?;
    put_window(fields, bid.path.depart)?;
    put_window(fields, bid.path.arrive)?;
    put_money(fields, bid.money)?;
    fields.number(u64::from(bid.path.wait_max))
}

/// Prints the record of a bid.
#[tactic(auto, unfolding(crate::specs::Written::bid_record))]
fn print_bid(
    printer: &mut Printer,
    fields: &mut Fields,
    net: &Network,
    bid: &Bid,
) -> Result<(), NoMemory>
    requires { IsPathOn net.now bid.now.path }
    ensures text { OnOk result (printer.new ≡ printer.old
        ++ record_text (bid_record net.now (offer_of bid.now))) }
    ensures sound { IsSound (offer_of bid.now) }
{
    let _sound = name(bid);
    put_bid(fields, net, bid)?;
    printer.print(fields)
}

/// Prints the records of the bids.
fn print_bids(
    printer: &mut Printer,
    fields: &mut Fields,
    net: &Network,
    bids: &[Bid],
) -> Result<(), NoMemory>
    requires { All (λ bid. IsPathOn net.now bid.path) bids.now }
    ensures text { OnOk result (printer.new ≡ printer.old
        ++ records_text (map (bid_record net.now) (offers_of bids.now))) }
    ensures sound { OnOk result (All (λ bid. IsSound (offer_of bid)) bids.now) }
{
    'bids: for bid in bids {
        print_bid(printer, fields, net, bid)?;
    }
    Ok(())
}

/// Makes the fields those of a stop.
#[tactic(auto, unfolding(crate::specs::Written::stop_record))]
fn put_stop(fields: &mut Fields, net: &Network, name: &str, stop: &Stop) -> Result<(), NoMemory>
    requires { IsStation net.now stop.now.station }
    ensures { OnOk result (fields.new ≡ stop_record net.now name.now stop.now) }
{
    fields.clear();
    fields.text(name)?;
    fields.text(net.station_name(stop.station))?;
    fields.number(u64::from(stop.min_dwell))?;
    fields.number(u64::from(stop.max_dwell))?;
    fields.number(u64::from(stop.arrive.from))?;
    fields.number(u64::from(stop.arrive.to))
}

/// Prints the records of the stops of the bid with this name.
#[tactic(auto, unfolding(crate::specs::Written::stop_record))]
fn print_stops_of(
    printer: &mut Printer,
    fields: &mut Fields,
    net: &Network,
    name: &str,
    stops: &[Stop],
) -> Result<(), NoMemory>
    requires { All (λ stop. IsStation net.now stop.station) stops.now }
    ensures { OnOk result (printer.new ≡ printer.old
        ++ records_text (map (stop_record net.now name.now) stops.now)) }
{
    'stops: for stop in stops {
        put_stop(fields, net, name, stop)?;
        printer.print(fields)?;
    }
    Ok(())
}

/// Prints the records of the stops of the bids.
fn print_stops(
    printer: &mut Printer,
    fields: &mut Fields,
    net: &Network,
    bids: &[Bid],
) -> Result<(), NoMemory>
    requires { All (λ bid. IsPathOn net.now bid.path) bids.now }
    ensures text { OnOk result (printer.new ≡ printer.old
        ++ records_text (all_stop_records net.now (offers_of bids.now))) }
    ensures sound { OnOk result (All (λ bid. IsSound (offer_of bid)) bids.now) }
{
    'bids: for bid in bids {
        print_stops_of(printer, fields, net, name(bid), &bid.path.stops)?;
    }
    Ok(())
}
