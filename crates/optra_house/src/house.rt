//! An auction house.
ghost use Rattle.std.specs.Prelude.{◌≡◌, ◌⊎◌, ◌+◌, ◌<◌, ◌≤◌, ◌^◌, ◌↔◌, List, ℕ, Option, [], ◌∷◌, All, None, Some, length, map, true, false, IfOk, OnOk, IsErrOf, IsTrue, is_some};
ghost use Rattle.std.specs.Prelude.{ℤ};
ghost use Rattle.std.specs.List.{AllByRecursion};
ghost use Rattle.optra_outside.specs.Disk.{HasCause, IsSynced, KeepsFile, Leaves, MayLeave, SameChosen, after_sync};
ghost use Rattle.optra_bid.specs.Specs.{Path};
ghost use Rattle.optra_bid.specs.declared.bids.Bid.{Bid};
ghost use Rattle.optra_auction.specs.Machine.{AreRules, AreSpecs, HasAmount, Offer, after_all, refusals_of};
ghost use Rattle.optra_auction.specs.declared.Rules.{Rules};
ghost use Rattle.optra_house.specs.declared.refusals.OpenError.TheVariants as opening;
ghost use Rattle.optra_house.specs.declared.refusals.PostError.TheVariants as posting;
ghost use Rattle.optra_house.specs.Answers.{FollowsOpenRule, IsUnwritten, open_refusal, opened_gate};
ghost use Rattle.optra_house.specs.Entries.{most_bytes};
ghost use Rattle.optra_house.specs.Journal.{HasBeforeOrAfter, IsSettled};
ghost use Rattle.optra_house.specs.Ledger.{IsAtRest, OpensAsEither};
ghost use Rattle.optra_outside.specs.Moments.{LeavesOnly};
ghost use Rattle.optra_house.specs.Payloads.{AreValues};
ghost use Rattle.optra_house.specs.PostAnswers.{FollowsPostRule, IsRefusal};
ghost use Rattle.optra_house.specs.Replay.{IsPlannedRound, WasAsked, offers_of, opens_as};
ghost use Rattle.optra_house.specs.Stamps.{payload_of};

use crate::closing::close_round;
use crate::journal::{ENTRY_BYTES, FIRST_GATE, MOST_BYTES, append_entry, write_heading};
use crate::payloads::head_of;
use crate::replay::{NO_ENTRY, replay};
use crate::rounds::Rounds;
use crate::stamp::Stamp;
use crate::{OpenError, PostError};
use optra_auction::{Act, Auction, Refusal, Rules};
use optra_bid::Bid;
use optra_outside::Disk;
use std::alloc::Global;
use std::marker::Model;

/// The most bytes that the values of a round take: 500 bids stand, and each has 9 bytes.
const MOST_VALUES: u64 = 4_500;

/// What a round's entry and the gate behind it take beside the payload up to its values and the values themselves: a gate, four
/// bytes of length, four bytes of the number of values, and the next gate.
const ROUND_BYTES: u64 = 10;

/// An auction whose rounds are kept in a journal on a disk.
#[derive(Drop)]
pub struct House {
    auction: Auction,
    /// The place of the last gate of the journal.
    gate: u64,
}

impl Model for House {
    ghost use Rattle.std.specs.Prelude.{◌<◌};
    ghost use Rattle.optra_house.specs.Entries.{most_bytes};
    ghost use Rattle.optra_house.specs.Ledger.{Ledger};

    ghost Value = { Ledger };

    ghost view = { λ a. record { auction = a.auction; gate = a.gate } };

    ghost invariant = { λ a. a.gate < most_bytes };
}

/// A house after a round, and why each of the round's actions was refused, or `None` where it was accepted.
#[derive(Drop)]
pub struct Posted {
    pub house: House,
    pub outcomes: Vec<Option<Refusal>>,
}

impl House {
    /// Opens a journal on the chosen file, or begins one, with the payload of a stamp. The disk is synced before the file is
    /// looked at. On a refusal the specifications are dropped.
    ///
    /// - `NotAJournal`, where the file has 10 bytes or more and isn't a journal of this auction;
    /// - `Full`, where it has no entry, and the stamp doesn't fit.
    pub fn open<D: Disk>(
        alloc: Global,
        disk: &mut D,
        specs: Vec<Bid>,
        rules: Rules,
        stamp: &Stamp,
    ) -> Result<House, OpenError>
        requires chosen { (D.state disk.old).chosen ≡ true }
        requires specs { AreSpecs specs.items }
        requires rules { AreRules rules }

        ensures leaves { Leaves (D.state disk.old) (D.state disk.new) }
        ensures same { SameChosen (D.state disk.old) (D.state disk.new) }
        ensures cause { IsErrOf result OpenError.Disk → HasCause (D.state disk.old)
            (D.state disk.new) }

        ensures specs { IfOk result (λ house. house.auction.specs ≡ specs.items) }

        // Where the disk tells, the answer is the one of the rule, and the house is the auction as which the file opens.
        ensures rule { (D.state disk.old).tells ≡ true
            → FollowsOpenRule
            (open_refusal stamp.now specs.items rules (D.state disk.old).file.now.bytes) result }
        ensures state { (D.state disk.old).tells ≡ true → IfOk result
            (λ house. opens_as (payload_of stamp.now) specs.items rules
            (D.state disk.old).file.now.bytes ≡ Some house.auction) }
        ensures gate { (D.state disk.old).tells ≡ true → IfOk result
            (λ house. house.gate ≡ opened_gate stamp.now (D.state disk.old).file.now.bytes) }
        ensures at_rest { (D.state disk.old).tells ≡ true → IfOk result
            (λ house. IsAtRest (payload_of stamp.now) specs.items rules house
            (D.state disk.new).file.now) }

        // Nothing is written where the rule refuses the file.
        ensures unwritten { (D.state disk.old).tells ≡ true
            → is_some
            (open_refusal stamp.now specs.items rules (D.state disk.old).file.now.bytes) ≡ true
            → IsUnwritten (D.state disk.old).file (D.state disk.new).file }

        // Until its first sync has succeeded it changes nothing. From then on a crash leaves a file that opens as it did.
        ensures any_moment { (D.state disk.old).tells ≡ true
            → ((D.state disk.new).file ≡ (D.state disk.old).file)
            ⊎ LeavesOnly (after_sync (D.state disk.old).file) (D.state disk.new).file
            (λ image. opens_as (payload_of stamp.now) specs.items rules image
            ≡ opens_as (payload_of stamp.now) specs.items rules (D.state disk.old).file.now.bytes) }
    {
        let payload = stamp.payload(alloc)?;
        let mut auction = Auction::new(alloc, specs, rules)?;
        disk.sync()?;
        let file = read_file(alloc, disk)?;
        let gate = match replay(alloc, &mut auction, &payload, &file)? {
            Some(place) => place as u64,
            None => put_stamp(alloc, disk, file.len() <= NO_ENTRY, &payload)?,
        };
        Ok(House { auction, gate })
    }

    /// Posts a round: takes its actions, has the bids planned that stand then, closes the round and appends it to the journal.
    ///
    /// - `RoundOrder`, where the auction is closed, or `round` isn't its round;
    /// - `Full`, where the round may not fit into the journal.
    pub fn post<D: Disk, P: Rounds>(
        self,
        alloc: Global,
        disk: &mut D,
        round: u16,
        acts: Vec<Act>,
        planner: &mut P,
    ) -> Result<Posted, PostError>
        requires chosen { (D.state disk.old).chosen ≡ true }
        requires inside { (D.state disk.old).tells ≡ true → self.gate < length
            (D.state disk.old).file.now.bytes }
        requires few { length acts.items ≤ 100000 }
        requires amounts { All HasAmount acts.items }
        requires paths { All (λ (spec : Bid). P.takes planner.old spec.path) self.auction.specs }

        ensures leaves { Leaves (D.state disk.old) (D.state disk.new) }
        ensures same { SameChosen (D.state disk.old) (D.state disk.new) }
        ensures cause { IsErrOf result PostError.Disk → HasCause (D.state disk.old)
            (D.state disk.new) }
        ensures same_values { (bids : List Offer) (values : List (Option ℤ))
            → (P.Means planner.old bids values → P.Means planner.new bids values)
            × (P.Means planner.new bids values → P.Means planner.old bids values) }
        ensures same_paths { (path : Path)
            → (P.takes planner.old path → P.takes planner.new path)
            × (P.takes planner.new path → P.takes planner.old path) }

        // A round that is refused leaves the house and the disk as they were.
        ensures rule { FollowsPostRule self round acts.items result }
        ensures refused { IsRefusal result → D.state disk.new ≡ D.state disk.old }

        // The auction is the one after the actions, the values that the planner means for the bids that stand then, and the close of
        // the round. The planner was asked for these bids alone.
        ensures state { IfOk result (λ posted. IsPlannedRound (P.Means planner.old) self.auction
            acts.items posted.house.auction) }
        ensures asked { OnOk result (WasAsked (P.After planner.old) (after_all self.auction
            acts.items) planner.new) }
        ensures outcomes { IfOk result (λ posted. posted.outcomes.items
            ≡ refusals_of self.auction acts.items) }
        ensures at_rest { (D.state disk.old).tells ≡ true → IfOk result
            (λ posted. (stamp : List ℕ) (specs : List Bid) (rules : Rules)
            → IsAtRest stamp specs rules self (D.state disk.old).file.now
            → IsAtRest stamp specs rules posted.house (D.state disk.new).file.now) }

        // After `Ok` each crash leaves a file that opens as the auction with this round.
        ensures acknowledged { IfOk result (λ posted. (D.state disk.old).tells ≡ true
            → (stamp : List ℕ) (specs : List Bid) (rules : Rules)
            → IsAtRest stamp specs rules self (D.state disk.old).file.now
            → (image : List ℕ) → MayLeave (D.state disk.new).file.now image
            → opens_as stamp specs rules image ≡ Some posted.house.auction) }

        // A crash at any moment of the call leaves a file that opens as the auction before this round or after it.
        ensures any_moment { (D.state disk.old).tells ≡ true
            → (stamp : List ℕ) (specs : List Bid) (rules : Rules)
            → IsAtRest stamp specs rules self (D.state disk.old).file.now
            → LeavesOnly (D.state disk.old).file (D.state disk.new).file
            (OpensAsEither stamp specs rules self.auction (IsPlannedRound (P.Means planner.old)
            self.auction acts.items)) }
    {
        if self.auction.closed() || self.auction.round() != round {
            return Err(PostError::RoundOrder(self));
        }
        let mut payload = head_of(alloc, round, &acts)?;
        if !self.has_room(payload.len() as u64) {
            return Err(PostError::Full(self));
        }
        let House { mut auction, gate } = self;
        let outcomes = close_round(alloc, &mut auction, acts, &mut payload, planner)?;
        append_entry(alloc, disk, gate, &payload)?;
        let gate = gate + ENTRY_BYTES + payload.len() as u64;
        Ok(Posted {
            house: House { auction, gate },
            outcomes,
        })
    }

    /// The auction.
    pub fn state(&self) -> &Auction
        ensures { result.now ≡ self.now.auction }
    {
        &self.auction
    }

    /// Whether there is room for a round whose payload has so many bytes up to its values.
    fn has_room(&self, head: u64) -> bool
        requires { head < 2 ^ 63 }
        ensures { IsTrue result ↔ (self.now.gate + 10 + head + 4500 ≤ most_bytes) }
    {
        self.gate + ROUND_BYTES + head + MOST_VALUES <= MOST_BYTES
    }
}

/// The bytes of the file, which is no longer than a journal may be.
fn read_file<D: Disk>(alloc: Global, disk: &mut D) -> Result<Vec<u8>, OpenError>
    requires { (D.state disk.old).chosen ≡ true }
    ensures leaves { Leaves (D.state disk.old) (D.state disk.new) }
    ensures same { SameChosen (D.state disk.old) (D.state disk.new) }
    ensures keeps { KeepsFile (D.state disk.old) (D.state disk.new) }
    ensures cause { IsErrOf result OpenError.Disk → HasCause (D.state disk.old)
        (D.state disk.new) }
    ensures fits { IfOk result (λ file. length file.items ≤ most_bytes) }
    ensures bytes { (D.state disk.old).tells ≡ true → IfOk result
        (λ file. file.items ≡ (D.state disk.old).file.now.bytes) }
    ensures long { (D.state disk.old).tells ≡ true → IsErrOf result OpenError.NotAJournal
        → most_bytes < length (D.state disk.old).file.now.bytes }
    ensures not_full { IsErrOf result OpenError.Full → ⊥ }
{
    let len = disk.len()?;
    if len > MOST_BYTES {
        return Err(OpenError::NotAJournal);
    }
    let file = disk.read(alloc, 0, len)?;
    if file.len() as u64 > MOST_BYTES {
        return Err(OpenError::NotAJournal);
    }
    Ok(file)
}

/// Appends the stamp to a journal with no entry, behind the heading, which is written where the file is too short for one. The
/// place of the next gate.
fn put_stamp<D: Disk>(
    alloc: Global,
    disk: &mut D,
    is_short: bool,
    payload: &[u8],
) -> Result<u64, OpenError>
    requires chosen { (D.state disk.old).chosen ≡ true }
    requires short { is_short ≡ true → (D.state disk.old).tells ≡ true
        → length (D.state disk.old).file.now.bytes ≤ 9 }
    requires settled { is_short ≡ false → (D.state disk.old).tells ≡ true
        → IsSettled [] 8 (D.state disk.old).file.now }

    ensures leaves { Leaves (D.state disk.old) (D.state disk.new) }
    ensures same { SameChosen (D.state disk.old) (D.state disk.new) }
    ensures cause { IsErrOf result OpenError.Disk → HasCause (D.state disk.old)
        (D.state disk.new) }
    ensures next { IfOk result (λ next. next ≡ 13 + length payload.now) }
    ensures fits { OnOk result (14 + length payload.now ≤ most_bytes) }
    ensures full { IsErrOf result OpenError.Full → most_bytes < 14 + length payload.now }
    ensures unwritten { most_bytes < 14 + length payload.now → D.state disk.new ≡ D.state disk.old }
    ensures is_one { IsErrOf result OpenError.NotAJournal → ⊥ }
    ensures any_moment { (D.state disk.old).tells ≡ true
        → LeavesOnly (D.state disk.old).file (D.state disk.new).file
        (HasBeforeOrAfter [] payload.now) }
    ensures settled { OnOk result ((D.state disk.old).tells ≡ true
        → IsSettled (payload.now ∷ []) (13 + length payload.now) (D.state disk.new).file.now) }
{
    let next = FIRST_GATE + ENTRY_BYTES + payload.len() as u64;
    if next >= MOST_BYTES {
        return Err(OpenError::Full);
    }
    if is_short {
        write_heading(disk)?;
    }
    append_entry(alloc, disk, FIRST_GATE, payload)?;
    Ok(next)
}
