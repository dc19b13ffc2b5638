//! The text of a plan.

ghost use Rattle.std.specs.Prelude.{◌≡◌, ℕ, ◌+◌, ◌<◌, ◌++◌, ◌∷◌, [], length, map, All, IfOk, IfSome, OnOk, codes};
ghost use Rattle.std.specs.Fmt.{decimal, signed_decimal};
ghost use Rattle.optra_network.specs.Net.{IsTrack};
ghost use Rattle.optra_walk.specs.Walks.{IsWalk, tail_of, head_of};
ghost use Rattle.optra_walk.specs.Choices.{IsChoice};
ghost use Rattle.optra_records.specs.Texts.{record_text, records_text};
ghost use Rattle.optra_text.specs.PlanTexts.{plan_text_of, head_records, train_records, entry_records, train_record, leg_record};
ghost use Rattle.optra_text.specs.PlanTexts.{status_word, track_text, station_text};
ghost use Rattle.optra_text.specs.PlanLaws.{TextTellsPlan};

use optra_bid::Bid;
use optra_network::{Cents, Network, NoMemory, TrackId, TypeId};
use optra_records::{Fields, Printer};
use optra_walk::{Choice, Instance, Leg, Walk, arrival, value};
use std::alloc::Global;

/// A plan, as it is printed.
#[derive(Clone, Copy)]
pub struct PlanView<'a> {
    /// The network and the bids that were planned.
    pub inst: Instance<'a>,
    /// One optional walk for each bid.
    pub choice: &'a Choice,
    /// What the walks are worth together, in cents.
    pub revenue: Cents,
    /// What no choice that is free of conflict can be worth more than, in cents.
    pub bound: Cents,
    /// How many nodes of the search were taken.
    pub nodes: u64,
}

/// The text of a plan: four records on how it ended, then each served train with its legs. Each entry of the choice
/// that is there is a walk of its bid.
#[tactic(auto, unfolding(crate::specs::PlanTexts::plan_text_of))]
pub fn plan_text(alloc: Global, view: PlanView<'_>) -> Result<Vec<u8>, NoMemory>
    requires { IsChoice view.inst.net.now view.inst.bids.now view.choice.now }
    ensures { IfOk result (λ text. text.items
        ≡ plan_text_of view.entry.inst.net.now view.entry.inst.bids.now view.entry.choice.now
        view.entry.revenue view.entry.bound view.entry.nodes) }
{
    let choice = view.choice;
    let mut printer = Printer::new(alloc);
    let mut fields = Fields::new(alloc);
    print_head(
        &mut printer,
        &mut fields,
        view.revenue,
        view.bound,
        view.nodes,
    )?;
    print_trains(
        &mut printer,
        &mut fields,
        view.inst.net,
        view.inst.bids,
        &choice.walks,
    )?;
    printer.finish()
}

/// A law, and no work: two plans of one instance with the same text are the same plan.
pub fn text_tells_plan(inst: Instance<'_>)
    ensures { TextTellsPlan inst.entry.net.now inst.entry.bids.now }
{
    let _few = count(inst.bids);
}

/// How many bids there are.
fn count(bids: &[Bid]) -> usize
    ensures { result ≡ length bids.now }
{
    bids.len()
}

/// Prints the first four records of a plan.
pub(crate) fn print_head(
    printer: &mut Printer,
    fields: &mut Fields,
    revenue: Cents,
    bound: Cents,
    nodes: u64,
) -> Result<(), NoMemory>
    ensures { OnOk result (printer.new ≡ printer.old
        ++ records_text (head_records revenue bound nodes)) }
{
    print_status(printer, fields, revenue, bound)?;
    print_amount(printer, fields, "revenue", revenue)?;
    print_amount(printer, fields, "bound", bound)?;
    print_count(printer, fields, "nodes", nodes)
}

/// Prints whether the bound is met.
fn print_status(
    printer: &mut Printer,
    fields: &mut Fields,
    revenue: Cents,
    bound: Cents,
) -> Result<(), NoMemory>
    ensures { OnOk result (printer.new ≡ printer.old ++ record_text (codes "status"
        ∷ status_word revenue bound ∷ [])) }
{
    fields.clear();
    fields.text("status")?;
    fields.text(if revenue < bound { "gap" } else { "optimal" })?;
    printer.print(fields)
}

/// Prints a word and an amount.
pub(crate) fn print_amount(
    printer: &mut Printer,
    fields: &mut Fields,
    word: &str,
    amount: Cents,
) -> Result<(), NoMemory>
    ensures { OnOk result (printer.new ≡ printer.old
        ++ record_text (word.now ∷ signed_decimal amount ∷ [])) }
{
    fields.clear();
    fields.text(word)?;
    fields.signed(amount)?;
    printer.print(fields)
}

/// Prints a word and a count.
pub(crate) fn print_count(
    printer: &mut Printer,
    fields: &mut Fields,
    word: &str,
    count: u64,
) -> Result<(), NoMemory>
    ensures { OnOk result (printer.new ≡ printer.old ++ record_text (word.now ∷ decimal count
        ∷ [])) }
{
    fields.clear();
    fields.text(word)?;
    fields.number(count)?;
    printer.print(fields)
}

/// Prints each served train with its legs, by the position of its bid.
pub(crate) fn print_trains(
    printer: &mut Printer,
    fields: &mut Fields,
    net: &Network,
    bids: &[Bid],
    walks: &[Option<Walk>],
) -> Result<(), NoMemory>
    requires { IsChoice net.now bids.now walks.now }
    ensures { OnOk result (printer.new ≡ printer.old
        ++ records_text (train_records net.now 1 bids.now walks.now)) }
{
    'bids: for (i, bid) in bids.iter().enumerate() {
        print_entry(printer, fields, net, i as u64 + 1, bid, &walks[i])?;
    }
    Ok(())
}

/// Prints what is served of one bid.
fn print_entry(
    printer: &mut Printer,
    fields: &mut Fields,
    net: &Network,
    number: u64,
    bid: &Bid,
    walk: &Option<Walk>,
) -> Result<(), NoMemory>
    requires { IfSome walk.now (IsWalk net.now bid.now.path) }
    ensures { OnOk result (printer.new ≡ printer.old ++ records_text (entry_records net.now number
        bid.now walk.now)) }
{
    let Some(walk) = walk else {
        return Ok(());
    };
    net.laws();
    print_train(printer, fields, net, number, bid, &walk.legs)?;
    print_legs(printer, fields, net, bid.path.kind, &walk.legs)
}

/// Prints the record of a train.
fn print_train(
    printer: &mut Printer,
    fields: &mut Fields,
    net: &Network,
    number: u64,
    bid: &Bid,
    legs: &[Leg],
) -> Result<(), NoMemory>
    requires { IsWalk net.now bid.now.path legs.now }
    ensures { OnOk result (printer.new ≡ printer.old
        ++ record_text (train_record net.now number bid.now legs.now)) }
{
    fields.clear();
    fields.text("train")?;
    fields.number(number)?;
    fields.text(bid.name.text())?;
    fields.text(bid.bidder.text())?;
    fields.signed(value(net, bid, legs))?;
    printer.print(fields)
}

/// Prints the records of legs.
pub(crate) fn print_legs(
    printer: &mut Printer,
    fields: &mut Fields,
    net: &Network,
    kind: TypeId,
    legs: &[Leg],
) -> Result<(), NoMemory>
    requires { All (λ leg. IsTrack net.now leg.track) legs.now }
    ensures { OnOk result (printer.new ≡ printer.old ++ records_text (map (leg_record net.now kind)
        legs.now)) }
{
    'legs: for leg in legs {
        print_leg(printer, fields, net, kind, *leg)?;
    }
    Ok(())
}

/// Prints the record of a leg.
pub(crate) fn print_leg(
    printer: &mut Printer,
    fields: &mut Fields,
    net: &Network,
    kind: TypeId,
    leg: Leg,
) -> Result<(), NoMemory>
    requires { IsTrack net.now leg.track }
    ensures { OnOk result (printer.new ≡ printer.old ++ record_text (leg_record net.now kind leg)) }
{
    fields.clear();
    fields.text("leg")?;
    fields.text(track_name(net, leg.track))?;
    fields.text(tail_name(net, leg))?;
    fields.number(u64::from(leg.depart))?;
    fields.text(head_name(net, leg))?;
    fields.number(u64::from(arrival(net, kind, leg).unwrap_or(0)))?;
    fields.text(leg.action.word())?;
    fields.number(u64::from(leg.action.dwell()))?;
    printer.print(fields)
}

/// The name of a track.
fn track_name(net: &Network, track: TrackId) -> &str
    requires { IsTrack net.now track }
    ensures { result.now ≡ track_text net.now track }
{
    net.laws();
    net.track_name(track)
}

/// The name of the station that a leg leaves.
fn tail_name(net: &Network, leg: Leg) -> &str
    requires { IsTrack net.now leg.track }
    ensures { result.now ≡ station_text net.now (tail_of net.now leg) }
{
    net.laws();
    net.station_name(net.tail(leg.track))
}

/// The name of the station at which a leg arrives.
fn head_name(net: &Network, leg: Leg) -> &str
    requires { IsTrack net.now leg.track }
    ensures { result.now ≡ station_text net.now (head_of net.now leg) }
{
    net.laws();
    net.station_name(net.head(leg.track))
}
