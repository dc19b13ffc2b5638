//! What legs cost a bid at a node, at the prices of a leaf.
ghost use Rattle.std.specs.Prelude.{◌≡◌, ◌<◌, length};
ghost use Rattle.optra_node.specs.Duals.{ArePrices};
ghost use Rattle.optra_node.specs.Certificates.{AreAscending};
ghost use Rattle.optra_open.specs.Loaded.{AreRising, AreLoaded};

use optra_network::Minute;
use optra_open::OpenNode;
use optra_rests::Weighing;
use optra_walk::{Leg, RowFamily};

/// A bid at a node, with prices: a leg costs its price, and a walk may have the starts and the legs
/// that the node allows.
#[derive(Drop)]
pub(crate) struct LeafWeights<'a, 'b, F: RowFamily> {
    pub(crate) node: &'a OpenNode<'b, F>,
    pub(crate) bid: u32,
    /// Proper prices, in thousandths of a cent, whose rows ascend.
    pub(crate) prices: &'a [(F::Row, i64)],
    /// The rows of which the node's yes legs use something, ascending.
    pub(crate) loaded: &'a [F::Row],
    ghost in_range: { bid < length node.now.bids },
    ghost ascending: { AreAscending F.Row.cmp prices.now },
    ghost rising: { AreRising F.Row.cmp loaded.now },
    ghost all: { AreLoaded F.Row.cmp (F.rows_of node.now.family node.now.net) node.now.bids node.now.node loaded.now },
    ghost proper: { ArePrices (F.rows_of node.now.family node.now.net) prices.now },
}

impl<'a, 'b, F: RowFamily> Weighing for LeafWeights<'a, 'b, F> {
    ghost use Rattle.optra_open.specs.NodeWeights.{weights_at};

    ghost weights = { λ s. weights_at F.rows_of F.rows_used s.node.now s.bid s.prices.now };

    fn cost(&self, leg: Leg) -> Option<i128> {
        if self.node.leg_ok_beside(self.loaded, self.bid, leg) {
            Some(self.node.leg_price(self.prices, self.bid, leg))
        } else {
            None
        }
    }

    /// That legs which cost alike are told to is left open: an answer of no costs time alone, since
    /// each of them is then weighed by itself.
    fn alike(&self, first: Leg, second: Leg) -> bool {
        self.node.are_alike(self.bid, first, second)
    }

    fn may_start(&self, minute: Minute) -> bool {
        self.node.may_start(self.bid, minute)
    }
}
