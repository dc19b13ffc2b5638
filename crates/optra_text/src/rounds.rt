//! The text of an auction: its rounds, and what comes after the last one.

ghost use Rattle.std.specs.Prelude.{◌≡◌, ◌++◌, ◌∷◌, [], length, map, IfOk, OnOk, codes};
ghost use Rattle.std.specs.Fmt.{decimal, signed_decimal};
ghost use Rattle.optra_walk.specs.Choices.{IsChoice};
ghost use Rattle.optra_records.specs.Texts.{record_text, records_text};
ghost use Rattle.optra_text.specs.RoundTexts.{award_record, count_record, late_record, outcome_record, outcome_word, refusal_code, standing_record, standing_records, won_word};
ghost use Rattle.optra_text.specs.RoundViews.{award_of, close_text_of, round_text_of};

use crate::plans::{PlanView, print_count, print_head, print_trains};
use optra_auction::Refusal;
use optra_bid::{Bid, Name};
use optra_network::{Cents, NoMemory};
use optra_records::{Fields, Printer};
use optra_walk::Walk;
use std::alloc::Global;

/// A round of an auction, as it is printed.
#[derive(Clone, Copy)]
pub struct RoundView<'a> {
    /// The round, from 1.
    pub round: u16,
    /// The round's actions in order: the row of each in the table of actions, and why it was refused, or `None` where it was
    /// accepted.
    pub outcomes: &'a [(u32, Option<Refusal>)],
    /// The plan of the standing bids.
    pub plan: PlanView<'a>,
    /// The name of each standing bid's specification.
    pub specs: &'a [Name],
    /// How many graphs were built so far.
    pub graphs: u64,
}

/// A bid that won the last round.
#[derive(Clone, Copy)]
pub struct Award<'a> {
    pub bid: &'a Name,
    pub bidder: &'a Name,
    /// What its bidder pays, in cents.
    pub value: Cents,
}

/// What is printed after the last round of an auction.
#[derive(Clone, Copy)]
pub struct CloseView<'a> {
    /// The last round.
    pub round: u16,
    /// The rows of the actions of later rounds, in the order of their table.
    pub late: &'a [u32],
    /// The winners, in the order of the standing bids.
    pub awards: &'a [Award<'a>],
}

/// The text of a round: its number, what became of its actions, four records on how the plan ended, the standing bids, the
/// served trains with their legs, and how many graphs were built so far. Each entry of the choice that is there is a walk of
/// its bid.
#[tactic(auto, unfolding(crate::specs::RoundViews::round_text_of))]
pub fn round_text(alloc: Global, view: RoundView<'_>) -> Result<Vec<u8>, NoMemory>
    requires choice { IsChoice view.plan.inst.net.now view.plan.inst.bids.now view.plan.choice.now }
    requires specs { length view.specs.now ≡ length view.plan.inst.bids.now }
    ensures { IfOk result (λ text. text.items ≡ round_text_of view.entry) }
{
    let plan = view.plan;
    let choice = plan.choice;
    let bids = plan.inst.bids;
    let mut printer = Printer::new(alloc);
    let mut fields = Fields::new(alloc);
    print_count(&mut printer, &mut fields, "round", u64::from(view.round))?;
    print_outcomes(&mut printer, &mut fields, view.outcomes)?;
    print_head(
        &mut printer,
        &mut fields,
        plan.revenue,
        plan.bound,
        plan.nodes,
    )?;
    print_standing(&mut printer, &mut fields, view.specs, bids, &choice.walks)?;
    print_trains(
        &mut printer,
        &mut fields,
        plan.inst.net,
        bids,
        &choice.walks,
    )?;
    print_count(&mut printer, &mut fields, "graphs", view.graphs)?;
    printer.finish()
}

/// The text after the last round: its number, the actions of later rounds, which are refused, and the winners.
#[tactic(auto, unfolding(crate::specs::RoundViews::close_text_of))]
pub fn close_text(alloc: Global, view: CloseView<'_>) -> Result<Vec<u8>, NoMemory>
    ensures { IfOk result (λ text. text.items ≡ close_text_of view.entry) }
{
    let mut printer = Printer::new(alloc);
    let mut fields = Fields::new(alloc);
    print_count(&mut printer, &mut fields, "closed", u64::from(view.round))?;
    print_late(&mut printer, &mut fields, view.late)?;
    print_awards(&mut printer, &mut fields, view.awards)?;
    printer.finish()
}

/// Prints what became of actions.
fn print_outcomes(
    printer: &mut Printer,
    fields: &mut Fields,
    outcomes: &[(u32, Option<Refusal>)],
) -> Result<(), NoMemory>
    ensures { OnOk result (printer.new ≡ printer.old
        ++ records_text (map outcome_record outcomes.now)) }
{
    'outcomes: for outcome in outcomes {
        print_outcome(printer, fields, *outcome)?;
    }
    Ok(())
}

/// Prints what became of an action.
fn print_outcome(
    printer: &mut Printer,
    fields: &mut Fields,
    outcome: (u32, Option<Refusal>),
) -> Result<(), NoMemory>
    ensures { OnOk result (printer.new ≡ printer.old ++ record_text (outcome_record outcome)) }
{
    let (row, refusal) = outcome;
    fields.clear();
    fields.text("action")?;
    fields.number(u64::from(row))?;
    fields.text(outcome_word(refusal))?;
    printer.print(fields)
}

/// Prints the standing bids, each with the name of its specification and whether it is served.
fn print_standing(
    printer: &mut Printer,
    fields: &mut Fields,
    specs: &[Name],
    bids: &[Bid],
    walks: &[Option<Walk>],
) -> Result<(), NoMemory>
    requires specs { length specs.now ≡ length bids.now }
    requires walks { length walks.now ≡ length bids.now }
    ensures { OnOk result (printer.new ≡ printer.old
        ++ records_text (standing_records specs.now bids.now walks.now)) }
{
    'bids: for (i, bid) in bids.iter().enumerate() {
        print_standing_bid(printer, fields, &specs[i], bid, &walks[i])?;
    }
    Ok(())
}

/// Prints a standing bid.
fn print_standing_bid(
    printer: &mut Printer,
    fields: &mut Fields,
    spec: &Name,
    bid: &Bid,
    walk: &Option<Walk>,
) -> Result<(), NoMemory>
    ensures { OnOk result (printer.new ≡ printer.old
        ++ record_text (standing_record spec.now bid.now walk.now)) }
{
    fields.clear();
    fields.text("bid")?;
    fields.text(bid.name.text())?;
    fields.text(bid.bidder.text())?;
    fields.text(spec.text())?;
    fields.signed(bid.money.base)?;
    fields.text(won_word(walk))?;
    printer.print(fields)
}

/// Prints actions of later rounds.
fn print_late(printer: &mut Printer, fields: &mut Fields, rows: &[u32]) -> Result<(), NoMemory>
    ensures { OnOk result (printer.new ≡ printer.old ++ records_text (map late_record rows.now)) }
{
    'rows: for row in rows {
        print_outcome(printer, fields, (*row, Some(Refusal::A9)))?;
    }
    Ok(())
}

/// Prints winners.
fn print_awards(
    printer: &mut Printer,
    fields: &mut Fields,
    awards: &[Award<'_>],
) -> Result<(), NoMemory>
    ensures { OnOk result (printer.new ≡ printer.old
        ++ records_text (map award_record (map award_of awards.now))) }
{
    'awards: for award in awards {
        print_award(printer, fields, *award)?;
    }
    Ok(())
}

/// Prints a winner.
fn print_award(printer: &mut Printer, fields: &mut Fields, award: Award<'_>) -> Result<(), NoMemory>
    ensures { OnOk result (printer.new ≡ printer.old
        ++ record_text (award_record (award_of award.entry))) }
{
    fields.clear();
    fields.text("award")?;
    fields.text(award.bid.text())?;
    fields.text(award.bidder.text())?;
    fields.signed(award.value)?;
    printer.print(fields)
}

/// The word of what became of an action.
fn outcome_word(refusal: Option<Refusal>) -> &'static str
    ensures { result.now ≡ outcome_word refusal }
{
    match refusal {
        None => "accepted",
        Some(why) => refusal_code(why),
    }
}

/// The code of a refusal.
fn refusal_code(why: Refusal) -> &'static str
    ensures { result.now ≡ refusal_code why }
{
    match why {
        Refusal::A1 => "A1",
        Refusal::A2 => "A2",
        Refusal::A3 => "A3",
        Refusal::A4 => "A4",
        Refusal::A5 => "A5",
        Refusal::A6 => "A6",
        Refusal::A7 => "A7",
        Refusal::A8 => "A8",
        Refusal::A9 => "A9",
        Refusal::A10 => "A10",
    }
}

/// Whether a bid is served, as it is printed.
fn won_word(walk: &Option<Walk>) -> &'static str
    ensures { result.now ≡ won_word walk.now }
{
    match walk {
        None => "lost",
        Some(_) => "won",
    }
}
