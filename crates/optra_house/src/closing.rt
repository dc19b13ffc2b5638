//! The close of a round: its actions, the values of the bids that stand then, and its payload.
ghost use Rattle.std.specs.Prelude.{◌≡◌, ◌+◌, ◌≤◌, All, IfOk, List, OnOk, Option, Some, false, length};
ghost use Rattle.std.specs.Prelude.{ℤ};
ghost use Rattle.std.specs.List.{AllByRecursion};
ghost use Rattle.optra_bid.specs.Specs.{Path};
ghost use Rattle.optra_bid.specs.declared.bids.Bid.{Bid};
ghost use Rattle.optra_auction.specs.Machine.{HasAmount, IsAuction, Offer, after_all, refusals_of};
ghost use Rattle.optra_house.specs.Payloads.{AreValues, IsSpelled, head_bytes};
ghost use Rattle.optra_house.specs.Replay.{IsPlannedRound, WasAsked, after_payload, offers_of};

use crate::payloads::put_values;
use crate::rounds::Rounds;
use optra_auction::{Act, Auction, Refusal, take_acts};
use optra_network::{Cents, NoMemory};
use std::alloc::Global;

/// Takes the actions of a round, has the bids planned that stand then, closes the round, and puts the values behind the payload
/// up to them. Why each action is refused, if it is.
pub(crate) fn close_round<P: Rounds>(
    alloc: Global,
    auction: &mut Auction,
    acts: Vec<Act>,
    payload: &mut Vec<u8>,
    planner: &mut P,
) -> Result<Vec<Option<Refusal>>, NoMemory>
    requires is_open { auction.old.closed ≡ false }
    requires few { length acts.items ≤ 100000 }
    requires amounts { All HasAmount acts.items }
    requires spelled { AllByRecursion IsSpelled acts.items }
    requires head { payload.old.items ≡ head_bytes auction.old.round acts.items }
    requires paths { All (λ (spec : Bid). P.takes planner.old spec.path) auction.old.specs }

    ensures state { OnOk result (IsPlannedRound (P.Means planner.old) auction.old acts.items
        auction.new) }
    ensures asked { OnOk result (WasAsked (P.After planner.old) (after_all auction.old
        acts.items) planner.new) }
    ensures outcomes { IfOk result (λ outcomes. outcomes.items
        ≡ refusals_of auction.old acts.items) }
    ensures same_values { (bids : List Offer) (values : List (Option ℤ))
        → (P.Means planner.old bids values → P.Means planner.new bids values)
        × (P.Means planner.new bids values → P.Means planner.old bids values) }
    ensures same_paths { (path : Path)
        → (P.takes planner.old path → P.takes planner.new path)
        × (P.takes planner.new path → P.takes planner.old path) }

    // The payload is read as the round, and has at most 4,504 bytes more.
    ensures read { OnOk result (after_payload (Some auction.old) payload.new.items
        ≡ Some auction.new) }
    ensures size { OnOk result (length payload.new.items ≤ length payload.old.items + 4504) }
{
    let outcomes = take_acts(alloc, auction, acts)?;
    let values = values_of(alloc, auction, planner)?;
    auction.close_round(&values);
    put_values(payload, &values)?;
    Ok(outcomes)
}

/// The values that a planner means for the standing bids.
fn values_of<P: Rounds>(
    alloc: Global,
    auction: &Auction,
    planner: &mut P,
) -> Result<Vec<Option<Cents>>, NoMemory>
    requires { All (λ (spec : Bid). P.takes planner.old spec.path) auction.now.specs }
    ensures values { IfOk result (λ values. P.Means planner.old (offers_of auction.now)
        values.items) }
    ensures asked { OnOk result (WasAsked (P.After planner.old) auction.now planner.new) }
    ensures each { IfOk result (λ values. AreValues (length auction.now.standing) values.items) }
    ensures auction { IsAuction auction.now }
    ensures same_values { (bids : List Offer) (values : List (Option ℤ))
        → (P.Means planner.old bids values → P.Means planner.new bids values)
        × (P.Means planner.new bids values → P.Means planner.old bids values) }
    ensures same_paths { (path : Path)
        → (P.takes planner.old path → P.takes planner.new path)
        × (P.takes planner.new path → P.takes planner.old path) }
{
    let bids = auction.standing_bids(alloc)?;
    let values = planner.values(alloc, &bids)?;
    Ok(values)
}
