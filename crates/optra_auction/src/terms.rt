//! What is known of a standing bid beside its name, and why an action on it is refused.
ghost use Rattle.std.specs.Prelude.{◌≡◌, []};
ghost use Rattle.optra_auction.specs.Tests.{amend_tests, own_tests, raise_tests, withdraw_tests};
ghost use Rattle.optra_auction.specs.Machine.{AreRules, IsAmount, is_below_raise};
ghost use Rattle.optra_auction.specs.Kept.{named};

use crate::{Refusal, Rules};
use optra_bid::Name;
use optra_network::Cents;

/// A standing bid without its name.
#[derive(Drop)]
pub(crate) struct Terms {
    pub(crate) bidder: Name,
    /// The place of its specification, from 0.
    pub(crate) spec: u32,
    /// In cents.
    pub(crate) amount: Cents,
    /// The value at which it won the last round, if it did, in cents.
    pub(crate) won: Option<Cents>,
    /// Whether it was opened, raised or amended in this round.
    pub(crate) acted: bool,
}

impl Terms {
    /// Why a raise to an amount is refused.
    pub(crate) fn raise_refusal(&self, rules: Rules, bidder: &str, amount: Cents) -> Option<Refusal>
        requires rules { AreRules rules }
        requires amount { IsAmount self.now.amount }
        ensures { result ≡ raise_tests rules bidder.now amount (named [] self.now) }
    {
        if self.bidder.text() != bidder {
            return Some(Refusal::A5);
        }
        if self.is_below_raise(rules, amount) {
            return Some(Refusal::A6);
        }
        self.own_refusal()
    }

    /// Whether an amount is below the bid's own one and its least raise.
    fn is_below_raise(&self, rules: Rules, amount: Cents) -> bool
        requires rules { AreRules rules }
        requires amount { IsAmount self.now.amount }
        ensures { result ≡ is_below_raise rules amount (named [] self.now) }
    {
        let raise = rules.least_raise(self.amount);
        amount < self.amount + raise
    }

    /// Why a change to a specification with a reserve is refused.
    pub(crate) fn amend_refusal(&self, bidder: &str, reserve: Cents) -> Option<Refusal>
        ensures { result ≡ amend_tests bidder.now reserve (named [] self.now) }
    {
        if let Some(why) = self.withdraw_refusal(bidder) {
            return Some(why);
        }
        if self.amount < reserve {
            return Some(Refusal::A3);
        }
        None
    }

    /// Why a withdrawal is refused.
    pub(crate) fn withdraw_refusal(&self, bidder: &str) -> Option<Refusal>
        ensures { result ≡ withdraw_tests bidder.now (named [] self.now) }
    {
        if self.bidder.text() != bidder {
            return Some(Refusal::A5);
        }
        self.own_refusal()
    }

    /// Why no action of its own bidder is accepted.
    fn own_refusal(&self) -> Option<Refusal>
        ensures { result ≡ own_tests (named [] self.now) }
    {
        if self.won.is_some() {
            return Some(Refusal::A7);
        }
        if self.acted {
            return Some(Refusal::A8);
        }
        None
    }
}
