//! The text of compressed times.
ghost use Rattle.std.specs.Prelude.{◌≡◌, ◌≤◌, ◌<◌, ◌++◌, length, map, unwrap_or, All, IfOk, IfSome, OnOk};
ghost use Rattle.optra_network.specs.Net.{IsTrack};
ghost use Rattle.optra_walk.specs.Choices.{IsChoice};
ghost use Rattle.optra_walk.specs.Values.{first_departure, last_arrival};
ghost use Rattle.optra_records.specs.Texts.{record_text, records_text};
ghost use Rattle.optra_compress.specs.Starts.{AreStarts};
ghost use Rattle.optra_compress.specs.Trains.{trains_of};
ghost use Rattle.optra_text.specs.CompressedTexts.{cause_fields, chain_record, compress_text_of, earlier, later, minutes_taken, moved_entry, moved_leg, moved_legs, moved_record, moved_records, moved_walk, moved_walks};

use crate::plans::{print_count, print_legs};
use optra_bid::Bid;
use optra_compress::{Cause, Compressed, Link};
use optra_network::{Minute, Network, NoMemory, TypeId};
use optra_records::{Fields, Printer};
use optra_walk::{Choice, Instance, Leg, Walk, arrival};
use std::alloc::Global;

/// The minute behind the two days.
const DAYS_END: u32 = 2_880;

/// The text of compressed times: how many minutes the trains take together before and after, each train with its legs at the new
/// times, and what each start rests on. The starts are for the trains of the choice, and none is later than in it.
#[tactic(auto, unfolding(crate::specs::CompressedTexts::compress_text_of))]
pub fn compress_text(
    alloc: Global,
    inst: Instance<'_>,
    choice: &Choice,
    done: &Compressed,
) -> Result<Vec<u8>, NoMemory>
    requires choice { IsChoice inst.net.now inst.bids.now choice.now }
    requires starts { AreStarts (trains_of inst.bids.now choice.now) done.now.starts }
    ensures { IfOk result (λ text. text.items ≡ compress_text_of inst.entry.net.now
        inst.entry.bids.now choice.now done.now) }
{
    let moved = moved_walks(alloc, inst, &choice.walks, &done.starts)?;
    let mut printer = Printer::new(alloc);
    let mut fields = Fields::new(alloc);
    let before = minutes_taken(inst.net, inst.bids, &choice.walks);
    print_count(&mut printer, &mut fields, "before", u64::from(before))?;
    let after = minutes_taken(inst.net, inst.bids, &moved);
    print_count(&mut printer, &mut fields, "after", u64::from(after))?;
    print_moved(&mut printer, &mut fields, inst.net, inst.bids, &moved)?;
    print_links(&mut printer, &mut fields, &done.chains)?;
    printer.finish()
}

/// The walks of a choice at their new times.
fn moved_walks(
    alloc: Global,
    inst: Instance<'_>,
    walks: &[Option<Walk>],
    starts: &[Option<Minute>],
) -> Result<Vec<Option<Walk>>, NoMemory>
    requires choice { IsChoice inst.net.now inst.bids.now walks.now }
    requires starts { AreStarts (trains_of inst.bids.now walks.now) starts.now }
    ensures moved { IfOk result (λ moved. moved.items ≡ moved_walks starts.now walks.now) }
    ensures long { IfOk result (λ moved. length moved.items ≡ length inst.entry.bids.now) }
    ensures tracks { IfOk result (λ moved. All (λ walk. IfSome walk
        (All (λ leg. IsTrack inst.entry.net.now leg.track))) moved.items) }
{
    let mut moved = Vec::with_capacity(alloc, walks.len())?;
    'walks: for (i, walk) in walks.iter().enumerate() {
        moved.push(moved_walk(alloc, walk, starts[i])?)?;
    }
    Ok(moved)
}

/// The walk of a bid at its new times.
fn moved_walk(
    alloc: Global,
    walk: &Option<Walk>,
    start: Option<Minute>,
) -> Result<Option<Walk>, NoMemory>
    requires { IfSome walk.now (λ legs. unwrap_or start 0 ≤ first_departure legs) }
    ensures { IfOk result (λ moved. moved ≡ moved_walk start walk.now) }
{
    let Some(walk) = walk else {
        return Ok(None);
    };
    let legs = moved_legs(alloc, &walk.legs, start.unwrap_or(0))?;
    Ok(Some(Walk { legs }))
}

/// The legs of a train that starts at a minute, which is no later than its first departure.
fn moved_legs(alloc: Global, legs: &[Leg], start: Minute) -> Result<Vec<Leg>, NoMemory>
    requires { start ≤ first_departure legs.now }
    ensures { IfOk result (λ moved. moved.items ≡ moved_legs start legs.now) }
{
    let first = first_departure(legs);
    let mut moved = Vec::with_capacity(alloc, legs.len())?;
    'legs: for leg in legs {
        moved.push(moved_leg(first, start, *leg))?;
    }
    Ok(moved)
}

/// A leg of a train that departed first at one minute, and now does at one that is no later.
fn moved_leg(first: Minute, start: Minute, leg: Leg) -> Leg
    requires { start ≤ first }
    ensures { result ≡ moved_leg first start leg }
{
    let depart = start + leg.depart.saturating_sub(first);
    Leg { depart, ..leg }
}

/// The departure of the first leg, and 0 where there is none.
fn first_departure(legs: &[Leg]) -> Minute
    ensures { result ≡ first_departure legs.now }
{
    match legs.first() {
        Some(leg) => leg.depart,
        None => 0,
    }
}

/// The arrival of the last leg, and 0 where there is none.
fn last_arrival(net: &Network, kind: TypeId, legs: &[Leg]) -> u32
    ensures { result ≡ last_arrival net.now kind legs.now }
{
    match legs.last() {
        Some(leg) => arrival(net, kind, *leg).unwrap_or(0),
        None => 0,
    }
}

/// The minutes from the earliest first departure of the walks to their latest last arrival, and 0 where there are none.
fn minutes_taken(net: &Network, bids: &[Bid], walks: &[Option<Walk>]) -> u32
    requires { length walks.now ≡ length bids.now }
    ensures { result ≡ minutes_taken net.now bids.now walks.now }
{
    let mut first = DAYS_END;
    let mut last = 0;
    'bids: for (i, bid) in bids.iter().enumerate() {
        if let Some(walk) = &walks[i] {
            first = earlier(first, u32::from(first_departure(&walk.legs)));
            last = later(last, last_arrival(net, bid.path.kind, &walk.legs));
        }
    }
    last.saturating_sub(first)
}

/// The earlier of two minutes.
fn earlier(a: u32, b: u32) -> u32
    ensures { result ≡ earlier a b }
{
    if b < a { b } else { a }
}

/// The later of two minutes.
fn later(a: u32, b: u32) -> u32
    ensures { result ≡ later a b }
{
    if a < b { b } else { a }
}

/// Prints each train with its legs, by the position of its bid.
fn print_moved(
    printer: &mut Printer,
    fields: &mut Fields,
    net: &Network,
    bids: &[Bid],
    walks: &[Option<Walk>],
) -> Result<(), NoMemory>
    requires long { length walks.now ≡ length bids.now }
    requires tracks { All (λ walk. IfSome walk (All (λ leg. IsTrack net.now leg.track))) walks.now }
    ensures { OnOk result (printer.new ≡ printer.old
        ++ records_text (moved_records net.now 1 bids.now walks.now)) }
{
    'bids: for (i, bid) in bids.iter().enumerate() {
        print_moved_entry(printer, fields, net, i as u64 + 1, bid, &walks[i])?;
    }
    Ok(())
}

/// Prints the train of one bid.
fn print_moved_entry(
    printer: &mut Printer,
    fields: &mut Fields,
    net: &Network,
    number: u64,
    bid: &Bid,
    walk: &Option<Walk>,
) -> Result<(), NoMemory>
    requires { IfSome walk.now (All (λ leg. IsTrack net.now leg.track)) }
    ensures { OnOk result (printer.new ≡ printer.old ++ records_text (moved_entry net.now number
        bid.now walk.now)) }
{
    let Some(walk) = walk else {
        return Ok(());
    };
    print_moved_train(printer, fields, number, bid, &walk.legs)?;
    print_legs(printer, fields, net, bid.path.kind, &walk.legs)
}

/// Prints the record of a train.
fn print_moved_train(
    printer: &mut Printer,
    fields: &mut Fields,
    number: u64,
    bid: &Bid,
    legs: &[Leg],
) -> Result<(), NoMemory>
    ensures { OnOk result (printer.new ≡ printer.old
        ++ record_text (moved_record number bid.now legs.now)) }
{
    fields.clear();
    fields.text("train")?;
    fields.number(number)?;
    fields.text(bid.name.text())?;
    fields.text(bid.bidder.text())?;
    fields.number(u64::from(first_departure(legs)))?;
    printer.print(fields)
}

/// Prints what the starts rest on.
fn print_links(printer: &mut Printer, fields: &mut Fields, links: &[Link]) -> Result<(), NoMemory>
    ensures { OnOk result (printer.new ≡ printer.old
        ++ records_text (map chain_record links.now)) }
{
    'links: for link in links {
        print_link(printer, fields, *link)?;
    }
    Ok(())
}

/// Prints what a start rests on.
fn print_link(printer: &mut Printer, fields: &mut Fields, link: Link) -> Result<(), NoMemory>
    ensures { OnOk result (printer.new ≡ printer.old ++ record_text (chain_record link)) }
{
    fields.clear();
    fields.text("chain")?;
    fields.number(u64::from(link.bid) + 1)?;
    match link.cause {
        Cause::Zero => fields.text("start")?,
        Cause::After {
            bid,
            leg,
            own_leg,
            gap,
        } => {
            fields.number(u64::from(own_leg) + 1)?;
            fields.number(u64::from(bid) + 1)?;
            fields.number(u64::from(leg) + 1)?;
            fields.number(u64::from(gap))?;
        }
    }
    printer.print(fields)
}
