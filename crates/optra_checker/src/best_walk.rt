//! The best walk of a bid at a node: what it is worth, and its legs.
//!
//! Further decisions leave fewer walks allowed. So what the best walk is worth at a node bounds the
//! walks at every node below, and where such a walk is still allowed there, it is the best.
ghost use Rattle.std.specs.Prelude.{◌≡◌, ◌↔◌, ◌<◌, [], length, slice_get, All, IsSomeAnd, IsTrue, Some, is_some, not, pos, ◌*ℤ◌};
ghost use Rattle.optra_bid.specs.declared.bids.Bid.{Bid as Asked};
ghost use Rattle.optra_node.specs.Duals.{ArePrices};
ghost use Rattle.optra_node.specs.Certificates.{AreAscending};
ghost use Rattle.optra_walk.specs.Values.{IsValue, value_of};
ghost use Rattle.optra_walk.specs.Walks.{IsWalk};
ghost use Rattle.optra_checker.specs.BestOnWay.{AreFreeAt, IsBestAt, IsBestWalk};
ghost use Rattle.optra_checker.specs.Frees.{Attains};
ghost use Rattle.optra_open.specs.Loaded.{KeepsOff};

use crate::free_legs::are_free_legs;
use optra_bid::Bid;
use optra_network::{Cents, Network};
use optra_open::{OpenNode, all_keep_off};
use optra_rests::kind_of;
use optra_walk::{Leg, RowFamily, follows, value};
use std::alloc::Global;

/// What the best walk of a bid is worth at a node on the way to the one that is open, and the legs
/// of such a walk.
#[derive(Drop)]
pub(crate) struct BestWalk {
    /// Of so many first decisions of the open node that node is.
    pub(crate) depth: usize,
    /// In thousandths of a cent; `None` where no walk is allowed there.
    pub(crate) worth: Option<i128>,
    /// The legs of one that is worth as much and allowed there, or none where none is at hand.
    pub(crate) legs: Vec<Leg>,
}

/// The value of a walk in thousandths of a cent.
fn thousandths(cents: Cents) -> i128
    requires { IsValue cents }
    ensures { result ≡ pos 1000 *ℤ cents }
{
    i128::from(cents) * 1000
}

/// What a walk is worth, in thousandths of a cent.
fn worth(net: &Network, bid: &Bid, legs: &[Leg]) -> i128
    requires { IsWalk net.now bid.now.path legs.now }
    ensures { result ≡ pos 1000 *ℤ value_of net.now bid.now.path bid.now.money legs.now }
{
    thousandths(value(net, bid, legs))
}

/// Whether there is a number and it is this one.
fn is_number(best: Option<i128>, number: i128) -> bool
    ensures { IsTrue result ↔ (best ≡ Some number) }
{
    match best {
        Some(best) => best == number,
        None => false,
    }
}

/// Whether there is no number.
fn is_missing(best: Option<i128>) -> bool
    ensures { result ≡ not (is_some best) }
{
    best.is_none()
}

impl BestWalk {
    /// The legs that are at hand.
    pub(crate) fn legs(&self) -> &[Leg]
        ensures { result.now ≡ self.now.legs.items }
    {
        &self.legs
    }

    /// Whether the legs that are at hand are a walk of the bid that is worth as much.
    ///
    /// That they are no such walk where the answer is no is left open, here and below: legs that are
    /// not used cost time alone.
    pub(crate) fn attains(&self, net: &Network, bid: &Bid) -> bool
        ensures { IsTrue result → Attains net.now bid.now self.now.worth self.now.legs.items }
    {
        let legs = self.legs();
        if !follows(net, bid, legs) {
            return false;
        }
        is_number(self.worth, worth(net, bid, legs))
    }

    /// As [`BestWalk::attains`], and no leg alone uses a row above its capacity.
    pub(crate) fn attains_at_root<F: RowFamily>(&self, net: &Network, rows: &F, bid: &Bid) -> bool
        ensures walk { IsTrue result → Attains net.now bid.now self.now.worth self.now.legs.items }
        ensures fits { IsTrue result → All (KeepsOff F.Row.cmp (F.rows_of rows.now net.now)
            bid.now.path.kind []) self.now.legs.items }
    {
        if !self.attains(net, bid) {
            return false;
        }
        net.laws();
        all_keep_off(net, rows, &[], kind_of(bid), self.legs())
    }

    /// As [`BestWalk::attains`], of the bid at a position, and the node allows the legs.
    pub(crate) fn attains_at<F: RowFamily>(&self, node: &OpenNode<'_, F>, bid: u32) -> bool
        requires { bid < length node.now.bids }
        ensures walk { IsTrue result → (b : Asked) → slice_get node.now.bids bid ≡ Some b
            → Attains node.now.net b self.now.worth self.now.legs.items }
        ensures free { IsTrue result → AreFreeAt F.rows_of F.rows_used node.now bid []
            self.now.legs.items }
    {
        let inst = node.inst();
        if !self.attains(inst.net, &inst.bids[bid as usize]) {
            return false;
        }
        node.laws();
        let prices: [(F::Row, i64); 0] = [];
        are_free_legs(node, &prices, bid, self.legs())
    }

    /// Whether it is seen at once that nothing is better at the open node, below the one that this is
    /// the best walk of: that one has none, or the open node allows the legs of it, at no price.
    ///
    /// What may be better where it isn't seen is left open: then the walk is searched anew, which
    /// costs time alone.
    pub(crate) fn stays_best<F: RowFamily>(
        &self,
        node: &OpenNode<'_, F>,
        prices: &[(F::Row, i64)],
        bid: u32,
    ) -> bool
        requires bid { bid < length node.now.bids }
        requires best { IsSomeAnd (slice_get node.now.bids bid) (λ b. IsBestWalk node.now.net
            (F.rows_of node.now.family node.now.net) (F.rows_used node.now.family node.now.net)
            node.now.bids node.now.node bid b self.now) }
        requires ascending { AreAscending F.Row.cmp prices.now }
        requires proper { ArePrices (F.rows_of node.now.family node.now.net) prices.now }
        ensures best { IsTrue result → IsBestAt F.rows_of F.rows_used node.now bid prices.now
            self.now.worth }
        ensures free { IsTrue result → 0 < length self.now.legs.items → AreFreeAt F.rows_of
            F.rows_used node.now bid prices.now self.now.legs.items }
    {
        if is_missing(self.worth) {
            return true;
        }
        node.laws();
        are_free_legs(node, prices, bid, self.legs())
    }

    /// The same with no legs at hand.
    pub(crate) fn without_legs(self, alloc: Global) -> BestWalk
        ensures depth { result.depth ≡ self.depth }
        ensures worth { result.worth ≡ self.worth }
        ensures legs { result.legs.items ≡ [] }
    {
        BestWalk {
            depth: self.depth,
            worth: self.worth,
            legs: Vec::new(alloc),
        }
    }
}
