//! The auction of slots in rounds: which bids stand, which actions are refused and why, and what the close of a round leaves.
//!
//! Bids with flexible times are made in rounds, and the track allocation problem decides the winners, as R. Borndörfer and
//! others propose it ("An auctioning approach to railway slot allocation", 2006). The exact rules are optra's own.
#![tactic(auto)]

ghost use Rattle.std.specs.Prelude.{◌≡◌, ◌≤◌};
ghost use Rattle.optra_auction.specs.Machine.{AreRules, IsAmount, least_raise_of, share_of};

use optra_bid::Name;
use optra_network::Cents;

mod auctions;
mod planning;
mod spec_list;
mod standing_bids;
mod steps;
mod terms;

pub use auctions::Auction;
pub use steps::{take_act, take_acts};

/// The rules of an auction.
#[derive(Clone, Copy, Debug, PartialEq, Eq)]
pub struct Rules {
    /// The least raise, in cents: 1 to 1,000,000,000.
    pub min_increment: Cents,
    /// The least raise in thousandths of the amount, rounded up: 0 to 1,000.
    pub permille: u16,
    /// The most rounds: 1 to 100.
    pub rounds: u16,
}

impl Rules {
    /// The least raise of an amount, in cents: the least increment or so many thousandths of the amount, rounded up, whichever
    /// is more.
    pub(crate) fn least_raise(self, amount: Cents) -> Cents
        requires rules { AreRules self }
        requires amount { IsAmount amount }
        ensures { result ≡ least_raise_of self amount }
    {
        self.min_increment.max(share(amount, self.permille))
    }
}

/// So many thousandths of an amount in cents, rounded up.
fn share(amount: Cents, permille: u16) -> Cents
    requires amount { IsAmount amount }
    requires permille { permille ≤ 1000 }
    ensures { result ≡ share_of amount permille }
{
    (amount * i64::from(permille) + 999).div_euclid(1_000)
}

/// What a bidder asks for.
#[derive(Drop)]
pub enum Act {
    /// A new bid on a specification, for an amount in cents.
    Opening {
        bidder: Name,
        bid: Name,
        spec: Name,
        amount: Cents,
    },
    /// Another amount, in cents, for a standing bid.
    Raise {
        bidder: Name,
        bid: Name,
        amount: Cents,
    },
    /// Another specification for a standing bid.
    Amend {
        bidder: Name,
        bid: Name,
        spec: Name,
    },
    /// A standing bid that shall stand no longer.
    Withdraw {
        bidder: Name,
        bid: Name,
    },
}

/// Why an action is refused.
#[derive(Clone, Copy, Debug, PartialEq, Eq)]
pub enum Refusal {
    /// No specification has the name.
    A1,
    /// A standing bid has the name.
    A2,
    /// The amount is below the reserve of the specification that is named.
    A3,
    /// No standing bid has the name.
    A4,
    /// The standing bid belongs to another bidder.
    A5,
    /// The new amount is below the old one plus the least raise.
    A6,
    /// The standing bid won the last planned round.
    A7,
    /// The standing bid was opened, raised or amended in this round.
    A8,
    /// The auction is closed.
    A9,
    /// 500 bids stand.
    A10,
}

/// A refused action, which is handed back.
#[derive(Drop)]
pub struct Refused {
    pub why: Refusal,
    pub action: Act,
}
