//! What each bidder pays.
ghost use Rattle.std.specs.Prelude.{◌≡◌, ◌≤ℤ◌, pos, negsuc, map, All, IfOk};
ghost use Rattle.optra_bid.specs.Specs.{IsBetween};
ghost use Rattle.optra_walk.specs.Choices.{IsChoice};
ghost use Rattle.optra_walk.specs.Families.{entries_of};
ghost use Rattle.optra_payment.specs.Parts.{bidders_of, own_count, own_worth, others_worth};
ghost use Rattle.optra_payment.specs.Allowed.{IsAllowed};
ghost use Rattle.optra_payment.specs.Planners.{FindAlike};
ghost use Rattle.optra_payment.specs.Payments.{IsIntervalOf, IsFoundInterval, HoldsPayment};

use crate::bidders::bidders;
use crate::others::others;
use crate::planner::Planner;
use crate::share::Share;
use crate::{Found, Interval};
use optra_bid::Name;
use optra_network::NoMemory;
use optra_walk::{Choice, Instance, RowFamily};
use std::alloc::Global;

/// For each bidder, in first-seen order, an interval that holds its payment at a choice that keeps the rule: the greatest
/// revenue of choices of the others' bids that keep it, less what the others' walks are worth in the choice. That is the
/// Vickrey-Clarke-Groves payment where the choice is optimal (W. Vickrey 1961, E. Clarke 1971, T. Groves 1973).
///
/// The ends come from what the planner finds of the others' bids, and they are equal where its revenue and its bound are.
/// `NoMemory` is its only refusal.
pub fn payments<F: RowFamily, P: Planner<F>>(
    alloc: Global,
    inst: Instance<'_>,
    rows: &F,
    choice: &Choice,
    planner: &mut P,
) -> Result<Vec<Interval>, NoMemory>
    requires { IsAllowed inst.net.now (F.KeepsRule rows.now inst.net.now) inst.bids.now
        choice.now }
    ensures bidders { IfOk result (λ pays. map (λ pay. pay.bidder) pays.items
        ≡ bidders_of inst.entry.bids.now) }
    ensures found { let net = inst.entry.net.now in IfOk result (λ pays. All (IsFoundInterval
        (P.Finds planner.old rows.now net) net inst.entry.bids.now choice.now) pays.items) }
    ensures payments { let net = inst.entry.net.now in IfOk result (λ pays. All (HoldsPayment net
        (F.KeepsRule rows.now net) inst.entry.bids.now choice.now) pays.items) }
    ensures alike { FindAlike (P.Finds planner.old) (P.Finds planner.new) }
{
    let bidders = bidders(alloc, inst.bids)?;
    let mut pays = Vec::with_capacity(alloc, bidders.len())?;
    'bidders: for bidder in &bidders {
        pays.push(payment(alloc, inst, rows, choice, planner, bidder)?)?;
    }
    Ok(pays)
}

/// The interval of one bidder.
fn payment<F: RowFamily, P: Planner<F>>(
    alloc: Global,
    inst: Instance<'_>,
    rows: &F,
    choice: &Choice,
    planner: &mut P,
    bidder: &Name,
) -> Result<Interval, NoMemory>
    requires { IsAllowed inst.net.now (F.KeepsRule rows.now inst.net.now) inst.bids.now
        choice.now }
    ensures bidder { IfOk result (λ pay. pay.bidder ≡ bidder.now) }
    ensures found { let net = inst.entry.net.now in IfOk result (IsFoundInterval
        (P.Finds planner.old rows.now net) net inst.entry.bids.now choice.now) }
    ensures payment { let net = inst.entry.net.now in IfOk result (HoldsPayment net
        (F.KeepsRule rows.now net) inst.entry.bids.now choice.now) }
    ensures alike { FindAlike (P.Finds planner.old) (P.Finds planner.new) }
{
    let others = others(alloc, bidder, inst.bids)?;
    let found = planner.find(alloc, inst.net, rows, &others)?;
    let bidder = bidder.copied(alloc)?;
    Ok(interval(inst, choice, found, bidder))
}

/// The interval of a bidder by what is found of the others' bids.
fn interval(inst: Instance<'_>, choice: &Choice, found: Found, bidder: Name) -> Interval
    requires choice { IsChoice inst.net.now inst.bids.now choice.now }
    requires ordered { found.revenue ≤ℤ found.bound }
    requires part { others_worth inst.net.now bidder inst.bids.now choice.now ≤ℤ found.bound }
    requires bound { found.bound ≤ℤ pos 1000000000000 }
    ensures bidder { result.bidder ≡ bidder }
    ensures interval { IsIntervalOf inst.entry.net.now inst.entry.bids.now choice.now found result }
{
    let share = Share::of(inst.net, inst.bids, &choice.walks, &bidder);
    Interval {
        bidder,
        won: share.won,
        value: share.value,
        low: found.revenue.max(share.others) - share.others,
        high: found.bound - share.others,
    }
}
