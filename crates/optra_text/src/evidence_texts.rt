//! The text of evidence: the verdict on a valid certificate, and then what it says of each bid.
ghost use Rattle.std.specs.Prelude.{◌≡◌, ◌++◌, ◌∷◌, [], All, IfOk, IfSome, OnOk, length};
ghost use Rattle.optra_walk.specs.Choices.{IsChoice};
ghost use Rattle.optra_walk.specs.Walks.{IsWalk};
ghost use Rattle.optra_records.specs.Texts.{record_text, records_text};
ghost use Rattle.optra_text.specs.EvidenceTexts.{IsFigure, AreFigures, told_of, margin_of, bid_record, bid_records, evidence_text_of, figure_text, standing_amount, standing_word};

use crate::verdicts::{VerdictView, print_verdict};
use itoa::Buffer;
use optra_bid::Bid;
use optra_network::{Cents, Network, NoMemory};
use optra_records::{Fields, Printer};
use optra_walk::{Instance, Walk, value};
use std::alloc::Global;

/// What a choice earns at most, by a certificate, in whole cents.
#[derive(Clone, Copy, Debug, PartialEq, Eq)]
pub struct BidFigures {
    /// One that serves the bid; `None` where there is no such choice.
    pub served: Option<i128>,
    /// One that leaves the bid out; `None` where there is no such choice.
    pub left: Option<i128>,
}

/// Evidence, as it is printed.
#[derive(Clone, Copy)]
pub struct EvidenceView<'a> {
    /// The network and the bids.
    pub inst: Instance<'a>,
    /// One optional walk for each bid.
    pub walks: &'a [Option<Walk>],
    /// What the walks are worth together, in cents.
    pub revenue: Cents,
    /// What no choice that is free of conflict can be worth more than, in cents.
    pub bound: Cents,
    /// The figures of each bid.
    pub figures: &'a [BidFigures],
}

/// A figure of a bid and how much below the revenue it is, in whole cents.
#[derive(Clone, Copy, Debug, PartialEq, Eq)]
pub(crate) struct Told {
    pub(crate) figure: Option<i128>,
    pub(crate) margin: Option<i128>,
}

/// The text of evidence: the record of the verdict, then for each bid in order whether it is served, what its walk is worth or
/// else its base, and of the figure that speaks of the other outcome the amount and how much below the revenue it is.
///
/// It needs a walk or none and figures of at most 2^123 for each bid.
#[tactic(auto, unfolding(crate::specs::EvidenceTexts::evidence_text_of))]
pub fn evidence_text(alloc: Global, view: EvidenceView<'_>) -> Result<Vec<u8>, NoMemory>
    requires walks { IsChoice view.inst.net.now view.inst.bids.now view.walks.now }
    requires count { length view.figures.now ≡ length view.inst.bids.now }
    requires figures { All AreFigures view.figures.now }
    ensures { IfOk result (λ text. text.items ≡ evidence_text_of view.entry.inst.net.now
        view.entry.inst.bids.now view.entry.walks.now view.entry.revenue view.entry.bound
        view.entry.figures.now) }
{
    let mut printer = Printer::new(alloc);
    let mut fields = Fields::new(alloc);
    let verdict = VerdictView::Yes {
        revenue: view.revenue,
        bound: view.bound,
    };
    print_verdict(alloc, &mut printer, &mut fields, verdict)?;
    print_bids(&mut printer, &mut fields, view)?;
    printer.finish()
}

/// Prints the record of each bid, by its position.
fn print_bids(
    printer: &mut Printer,
    fields: &mut Fields,
    view: EvidenceView<'_>,
) -> Result<(), NoMemory>
    requires walks { IsChoice view.inst.net.now view.inst.bids.now view.walks.now }
    requires count { length view.figures.now ≡ length view.inst.bids.now }
    requires figures { All AreFigures view.figures.now }
    ensures { OnOk result (printer.new ≡ printer.old ++ records_text (bid_records
        view.entry.inst.net.now view.entry.revenue 1 view.entry.inst.bids.now view.entry.walks.now
        view.entry.figures.now)) }
{
    let net = view.inst.net;
    let bids = view.inst.bids;
    let walks = view.walks;
    let figures = view.figures;
    'bids: for (i, bid) in bids.iter().enumerate() {
        let walk = &walks[i];
        let told = told_of(view.revenue, walk, figures[i]);
        print_bid(printer, fields, net, i as u64 + 1, bid, walk, told)?;
    }
    Ok(())
}

/// How much below the revenue a figure is.
fn margin(revenue: Cents, figure: Option<i128>) -> Option<i128>
    requires { IfSome figure IsFigure }
    ensures { result ≡ margin_of revenue figure }
{
    match figure {
        Some(figure) => Some(i128::from(revenue) - figure),
        None => None,
    }
}

/// The figure that speaks of the other outcome: without the bid where it is served, and else with it.
fn told_of(revenue: Cents, walk: &Option<Walk>, figures: BidFigures) -> Told
    requires { AreFigures figures }
    ensures { result ≡ told_of revenue walk.now figures }
{
    let figure = match walk {
        Some(_) => figures.left,
        None => figures.served,
    };
    Told {
        figure,
        margin: margin(revenue, figure),
    }
}

/// Prints the record of a bid.
fn print_bid(
    printer: &mut Printer,
    fields: &mut Fields,
    net: &Network,
    number: u64,
    bid: &Bid,
    walk: &Option<Walk>,
    told: Told,
) -> Result<(), NoMemory>
    requires { IfSome walk.now (IsWalk net.now bid.now.path) }
    ensures { OnOk result (printer.new ≡ printer.old
        ++ record_text (bid_record net.now number bid.now walk.now told)) }
{
    fields.clear();
    fields.text("bid")?;
    fields.number(number)?;
    fields.text(bid.name.text())?;
    fields.text(bid.bidder.text())?;
    fields.text(standing(walk))?;
    fields.signed(amount(net, bid, walk))?;
    add_figure(fields, told.figure)?;
    add_figure(fields, told.margin)?;
    printer.print(fields)
}

/// Whether a bid is served, as a word.
fn standing(walk: &Option<Walk>) -> &'static str
    ensures { result.now ≡ standing_word walk.now }
{
    match walk {
        Some(_) => "served",
        None => "lost",
    }
}

/// What the bid's walk is worth, or its base where it has none, in cents.
fn amount(net: &Network, bid: &Bid, walk: &Option<Walk>) -> Cents
    requires { IfSome walk.now (IsWalk net.now bid.now.path) }
    ensures { result ≡ standing_amount net.now bid.now walk.now }
{
    match walk {
        Some(walk) => value(net, bid, &walk.legs),
        None => bid.money.base,
    }
}

/// Adds a figure, or `none` where there is none.
fn add_figure(fields: &mut Fields, figure: Option<i128>) -> Result<(), NoMemory>
    ensures { OnOk result (fields.new ≡ fields.old ++ figure_text figure ∷ []) }
{
    match figure {
        Some(figure) => {
            let mut buffer = Buffer::new();
            fields.text(buffer.format(figure))
        }
        None => fields.text("none"),
    }
}
