//! The auction: what each action changes or why it is refused, and the close of a round.
ghost use Rattle.std.specs.Prelude.{◌≡◌, ◌<◌, ◌≤◌, length, slice_get, option_map, false, IsTrue, None, Some, IfOk, OnOk};
ghost use Rattle.std.specs.Option.{option_and_then};
ghost use Rattle.optra_network.specs.Names.{AllDiffer, is_name};
ghost use Rattle.optra_auction.specs.declared.Act.TheVariants.{Opening, Raise, Amend, Withdraw};
ghost use Rattle.optra_auction.specs.Tests.{FindsPlace, FindsPlaces};
ghost use Rattle.optra_bid.specs.Offers.{offer_of};
ghost use Rattle.optra_auction.specs.Machine.{ArePathsOfSpecs, ArePlanned, AreRules, AreSpecs, HasAmount, IsAmount, IsAuction, IsStep, after_round, amend_refusal, is_last_round, least_raise_of, opened, opening_refusal, place_named, planned_of, raise_refusal, spec_named, spec_names, withdraw_refusal};

use crate::planning::planned;
use crate::spec_list::SpecList;
use crate::standing_bids::{MOST_STANDING, StandingBids};
use crate::terms::Terms;
use crate::{Act, Refusal, Refused, Rules};
use optra_bid::{Bid, Name};
use optra_network::{Cents, NoMemory};
use std::alloc::Global;
use std::marker::Model;

/// An auction: its specifications and rules, its round, and the bids that stand. Contracts see it as the state of the auction
/// machine.
#[derive(Drop)]
pub struct Auction {
    specs: SpecList,
    rules: Rules,
    /// The round, from 1.
    round: u16,
    standing: StandingBids,
    /// Whether an action of this round was accepted.
    moved: bool,
    closed: bool,
}

impl Model for Auction {
    ghost use Rattle.optra_auction.specs.Machine.{IsAuction, State, state_of};

    ghost Value = { State };

    ghost view = { λ a. state_of a.specs a.rules a.round a.standing a.moved a.closed };

    ghost invariant = { λ a. IsAuction (state_of a.specs a.rules a.round a.standing a.moved a.closed) };
}

impl Auction {
    /// An auction of specifications by rules, in round 1, with no bid. It reserves what all later actions need.
    pub fn new(alloc: Global, specs: Vec<Bid>, rules: Rules) -> Result<Auction, NoMemory>
        requires specs { AreSpecs specs.items }
        requires rules { AreRules rules }
        ensures opened { IfOk result (λ auction. auction ≡ opened specs.items rules) }
        ensures auction { IfOk result (λ auction. IsAuction auction) }
    {
        Ok(Auction {
            specs: SpecList::new(alloc, specs)?,
            rules,
            round: 1,
            standing: StandingBids::new(alloc)?,
            moved: false,
            closed: false,
        })
    }

    /// How many bids stand.
    pub fn count(&self) -> u32
        ensures count { result ≡ length self.now.standing }
        ensures auction { IsAuction self.now }
    {
        self.standing.len() as u32
    }

    /// The round, from 1.
    pub fn round(&self) -> u16
        ensures { result ≡ self.now.round }
    {
        self.round
    }

    /// Whether the auction is closed: no further action is accepted, and no further round is planned.
    pub fn closed(&self) -> bool
        ensures { result ≡ self.now.closed }
    {
        self.closed
    }

    /// The least raise of a standing bid, in cents.
    pub fn least_raise(&self, standing: u32) -> Cents
        requires { standing < length self.now.standing }
        ensures { option_map (λ b. least_raise_of self.now.rules b.amount) (slice_get
            self.now.standing standing) ≡ Some result }
    {
        let (_, terms) = self.standing.at(standing as usize);
        self.rules.least_raise(terms.amount)
    }

    /// The place of a standing bid's specification, from 0.
    pub fn spec_of(&self, standing: u32) -> u32
        requires { standing < length self.now.standing }
        ensures { option_map (λ b. b.spec) (slice_get self.now.standing standing) ≡ Some result }
    {
        let (_, terms) = self.standing.at(standing as usize);
        terms.spec
    }

    /// The value, in cents, at which a standing bid won the last closed round. `None` exactly where it didn't win that round.
    pub fn award(&self, standing: u32) -> Option<Cents>
        requires { standing < length self.now.standing }
        ensures { option_map (λ b. b.won) (slice_get self.now.standing standing) ≡ Some result }
    {
        let (_, terms) = self.standing.at(standing as usize);
        terms.won
    }

    /// The standing bids as they are planned, in order: each is its specification with the standing bid's own name and bidder,
    /// and with its amount as base.
    pub fn standing_bids(&self, alloc: Global) -> Result<Vec<Bid>, NoMemory>
        ensures bids { IfOk result (λ bids. ArePlanned self.now bids.items) }
        ensures few { IfOk result (λ bids. length bids.items ≤ 500) }
        ensures differ { IfOk result (λ bids. AllDiffer (spec_names bids.items)) }
        ensures paths { IfOk result (λ bids. ArePathsOfSpecs self.now.specs bids.items) }
        ensures auction { IsAuction self.now }
    {
        let count = self.standing.len();
        let mut bids = Vec::with_capacity(alloc, count)?;
        for place in 0..count {
            let bid = self.planned(alloc, place)?;
            bids.push(bid)?;
        }
        Ok(bids)
    }

    fn planned(&self, alloc: Global, place: usize) -> Result<Bid, NoMemory>
        requires { place < length self.now.standing }
        ensures { IfOk result (λ bid. option_and_then (planned_of self.now.specs) (slice_get
            self.now.standing place) ≡ Some (offer_of bid)) }
    {
        let (name, terms) = self.standing.at(place);
        let spec = self.specs.at(terms.spec as usize);
        planned(alloc, spec, name, terms)
    }

    /// Takes an action, or refuses it and hands it back. A refused action changes nothing. The refusals are tested in this order:
    ///
    /// - an opening: `A9`, `A1`, `A2`, `A3`, `A10`;
    /// - a raise: `A9`, `A4`, `A5`, `A6`, `A7`, `A8`;
    /// - an amendment: `A9`, `A1`, `A4`, `A5`, `A7`, `A8`, `A3`;
    /// - a withdrawal: `A9`, `A4`, `A5`, `A7`, `A8`.
    pub fn act(&mut self, action: Act) -> Result<(), Refused>
        requires { HasAmount action }
        ensures step { IsStep self.old action self.new result }
        ensures auction { IsAuction self.new }
    {
        match action {
            Act::Opening {
                bidder,
                bid,
                spec,
                amount,
            } => self.open(bidder, bid, spec, amount),
            Act::Raise {
                bidder,
                bid,
                amount,
            } => self.raise(bidder, bid, amount),
            Act::Amend { bidder, bid, spec } => self.amend(bidder, bid, spec),
            Act::Withdraw { bidder, bid } => self.withdraw(bidder, bid),
        }
    }

    fn open(&mut self, bidder: Name, bid: Name, spec: Name, amount: Cents) -> Result<(), Refused>
        requires { IsAmount amount }
        ensures step { IsStep self.old (Opening bidder bid spec amount) self.new result }
        ensures auction { IsAuction self.new }
    {
        let spec_place = match self.opening_place(&bid, &spec, amount) {
            Ok(place) => place,
            Err(why) => {
                let action = Act::Opening {
                    bidder,
                    bid,
                    spec,
                    amount,
                };
                return Err(Refused { why, action });
            }
        };
        let terms = Terms {
            bidder,
            spec: spec_place as u32,
            amount,
            won: None,
            acted: true,
        };
        self.standing.push(bid, terms);
        self.moved = true;
        Ok(())
    }

    fn raise(&mut self, bidder: Name, bid: Name, amount: Cents) -> Result<(), Refused>
        requires { IsAmount amount }
        ensures step { IsStep self.old (Raise bidder bid amount) self.new result }
        ensures auction { IsAuction self.new }
    {
        let place = match self.raise_place(&bidder, &bid, amount) {
            Ok(place) => place,
            Err(why) => {
                let action = Act::Raise {
                    bidder,
                    bid,
                    amount,
                };
                return Err(Refused { why, action });
            }
        };
        self.standing.raise(place, amount);
        self.moved = true;
        Ok(())
    }

    fn amend(&mut self, bidder: Name, bid: Name, spec: Name) -> Result<(), Refused>
        ensures step { IsStep self.old (Amend bidder bid spec) self.new result }
        ensures auction { IsAuction self.new }
    {
        let (place, spec_place) = match self.amend_places(&bidder, &bid, &spec) {
            Ok(places) => places,
            Err(why) => {
                let action = Act::Amend { bidder, bid, spec };
                return Err(Refused { why, action });
            }
        };
        self.standing.amend(place, spec_place as u32);
        self.moved = true;
        Ok(())
    }

    fn withdraw(&mut self, bidder: Name, bid: Name) -> Result<(), Refused>
        ensures step { IsStep self.old (Withdraw bidder bid) self.new result }
        ensures auction { IsAuction self.new }
    {
        let place = match self.withdraw_place(&bidder, &bid) {
            Ok(place) => place,
            Err(why) => {
                let action = Act::Withdraw { bidder, bid };
                return Err(Refused { why, action });
            }
        };
        self.standing.remove(place);
        self.moved = true;
        Ok(())
    }

    /// The place of the specification on which a bid may be opened, or why it is refused.
    fn opening_place(&self, bid: &Name, spec: &Name, amount: Cents) -> Result<usize, Refusal>
        ensures place { FindsPlace (opening_refusal self.now bid.now spec.now amount)
            (spec_named self.now spec.now) result }
        ensures name { OnOk result (IsTrue (is_name bid.now)) }
    {
        if self.closed {
            return Err(Refusal::A9);
        }
        let Some(place) = self.specs.place(spec.text()) else {
            return Err(Refusal::A1);
        };
        if self.standing.place(bid.text()).is_some() {
            return Err(Refusal::A2);
        }
        if amount < self.specs.at(place).money.base {
            return Err(Refusal::A3);
        }
        if self.standing.len() >= MOST_STANDING {
            return Err(Refusal::A10);
        }
        Ok(place)
    }

    /// The place of the standing bid that may be raised, or why it is refused.
    fn raise_place(&self, bidder: &Name, bid: &Name, amount: Cents) -> Result<usize, Refusal>
        ensures { FindsPlace (raise_refusal self.now bidder.now bid.now amount)
            (place_named self.now bid.now) result }
    {
        if self.closed {
            return Err(Refusal::A9);
        }
        let Some(place) = self.standing.place(bid.text()) else {
            return Err(Refusal::A4);
        };
        let (_, terms) = self.standing.at(place);
        match terms.raise_refusal(self.rules, bidder.text(), amount) {
            Some(why) => Err(why),
            None => Ok(place),
        }
    }

    /// The places of the standing bid that may be amended and of its new specification, or why it is refused.
    fn amend_places(
        &self,
        bidder: &Name,
        bid: &Name,
        spec: &Name,
    ) -> Result<(usize, usize), Refusal>
        ensures { FindsPlaces (amend_refusal self.now bidder.now bid.now spec.now)
            (place_named self.now bid.now) (spec_named self.now spec.now) result }
    {
        if self.closed {
            return Err(Refusal::A9);
        }
        let Some(spec_place) = self.specs.place(spec.text()) else {
            return Err(Refusal::A1);
        };
        let Some(place) = self.standing.place(bid.text()) else {
            return Err(Refusal::A4);
        };
        let (_, terms) = self.standing.at(place);
        let reserve = self.specs.at(spec_place).money.base;
        match terms.amend_refusal(bidder.text(), reserve) {
            Some(why) => Err(why),
            None => Ok((place, spec_place)),
        }
    }

    /// The place of the standing bid that may be withdrawn, or why it is refused.
    fn withdraw_place(&self, bidder: &Name, bid: &Name) -> Result<usize, Refusal>
        ensures { FindsPlace (withdraw_refusal self.now bidder.now bid.now)
            (place_named self.now bid.now) result }
    {
        if self.closed {
            return Err(Refusal::A9);
        }
        let Some(place) = self.standing.place(bid.text()) else {
            return Err(Refusal::A4);
        };
        let (_, terms) = self.standing.at(place);
        match terms.withdraw_refusal(bidder.text()) {
            Some(why) => Err(why),
            None => Ok(place),
        }
    }

    /// Whether the auction closes with this round: no action of it was accepted, or it is the last one by the rules.
    fn is_last_round(&self) -> bool
        ensures { result ≡ is_last_round self.now }
    {
        !self.moved || self.round >= self.rules.rounds
    }

    /// Closes the round, with the value in cents of each standing bid that its choice serves, and opens the next one or closes
    /// the auction.
    pub fn close_round(&mut self, values: &[Option<Cents>])
        requires open { self.old.closed ≡ false }
        requires values { length values.now ≡ length self.old.standing }
        ensures round { self.new ≡ after_round self.old values.now }
        ensures auction { IsAuction self.new }
    {
        let is_last = self.is_last_round();
        self.standing.set_values(values);
        if is_last {
            self.closed = true;
        } else {
            self.standing.rest();
            self.round += 1;
            self.moved = false;
        }
    }
}
