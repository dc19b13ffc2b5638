//! The best walks of a bid at the nodes on the way to the one that is open.
//!
//! A best walk that is still allowed at a node below is the best there. A decision bears on few
//! bids, so few are searched anew.
ghost use Rattle.std.specs.Prelude.{◌≡◌, ◌<◌, ◌≤◌, [], ◌∷◌, All, IfOk, IfSome, IsTrue, OnOk, Some, length, slice_get, take};
ghost use Rattle.optra_bid.specs.declared.bids.Bid.{Bid as Asked};
ghost use Rattle.optra_node.specs.Duals.{ArePrices};
ghost use Rattle.optra_node.specs.Certificates.{AreAscending};
ghost use Rattle.optra_node.specs.Nodes.{kind_at};
ghost use Rattle.optra_walk.specs.Families.{IsUsable};
ghost use Rattle.optra_checker.specs.BestOnWay.{AreBestAt, AreFreeAt, AreTurned, IsBestAt, IsFoundAt, last_best, weights_within};
ghost use Rattle.optra_open.specs.Loaded.{AreLatestAt};
ghost use Rattle.optra_checker.specs.Frees.{Attains, IsStillFree};
ghost use Rattle.optra_rests.specs.Weights.{IsWorthSize};

use crate::best_walk::BestWalk;
use crate::free_legs::still_allows;
use crate::leaf_search::best_found;
use optra_network::{Minute, NoMemory};
use optra_node::is_formed_leg;
use optra_open::OpenNode;
use optra_rests::{Admits, RestTable, trace};
use optra_walk::{Leg, RowFamily};
use std::alloc::Global;

/// The best walks of a bid at nodes on the way to the one that is open, the nearest last.
#[derive(Drop)]
pub struct BestOnWay {
    kept: Vec<BestWalk>,
    /// So many first decisions of the open node are known to allow the legs of the last one.
    allowed_depth: usize,
}

/// How many first ones are of nodes of at most so many decisions, up to the first that isn't. That
/// it is no fewer is left open, as [`BestOnWay::turn_back`] says.
fn count_within(kept: &[BestWalk], depth: usize) -> usize
    ensures count { result ≤ length kept.now }
    ensures within { All (λ best. best.depth ≤ depth) (take result kept.now) }
{
    let mut count = 0;
    'kept: for best in kept {
        if best.depth > depth {
            return count;
        }
        count += 1;
    }
    count
}

/// Starts and legs that a node allows a walk of a bid.
#[derive(Drop)]
struct NodeLegs<'a, 'b, F: RowFamily> {
    node: &'a OpenNode<'b, F>,
    bid: u32,
    ghost in_range: { bid < length node.now.bids },
}

impl<'a, 'b, F: RowFamily> Admits for NodeLegs<'a, 'b, F> {
    fn admits_start(&self, minute: Minute) -> bool {
        self.node.may_start(self.bid, minute)
    }

    fn admits(&self, leg: Leg) -> bool {
        is_formed_leg(self.node.inst().net, leg) && self.node.leg_ok(self.bid, leg)
    }
}

/// The legs that the table leads along, which a search left filled, and that the node allows; a
/// proposal. `NoMemory` is its only refusal.
fn trace_legs<F: RowFamily>(
    alloc: Global,
    node: &OpenNode<'_, F>,
    bid: u32,
    table: &RestTable,
) -> Result<Vec<Leg>, NoMemory>
    requires { bid < length node.now.bids }
{
    let inst = node.inst();
    let allowed = NodeLegs { node, bid };
    trace(alloc, inst.net, &inst.bids[bid as usize], &allowed, table)
}

/// The best walk of the bid that the node allows, by a search. `NoMemory` is its only refusal.
fn find_best<F: RowFamily>(
    alloc: Global,
    node: &OpenNode<'_, F>,
    bid: u32,
    table: &mut RestTable,
) -> Result<BestWalk, NoMemory>
    requires { bid < length node.now.bids }
    ensures { IfOk result (IsFoundAt F.rows_of F.rows_used node.now bid) }
{
    let prices: [(F::Row, i64); 0] = [];
    let worth = best_found(alloc, node, &prices, bid, table)?;
    let legs = trace_legs(alloc, node, bid, table)?;
    let best = BestWalk {
        depth: node.depth(),
        worth,
        legs,
    };
    if best.attains_at(node, bid) {
        return Ok(best);
    }
    Ok(best.without_legs(alloc))
}

impl BestOnWay {
    /// The best walk of a bid at the root alone.
    pub(crate) fn at_root(alloc: Global, free: BestWalk) -> Result<BestOnWay, NoMemory>
        ensures kept { IfOk result (λ walks. walks.kept.items ≡ free ∷ []) }
        ensures allowed_depth { IfOk result (λ walks. walks.allowed_depth ≡ 0) }
    {
        let mut kept = Vec::new(alloc);
        kept.push(free)?;
        Ok(BestOnWay {
            kept,
            allowed_depth: 0,
        })
    }

    /// Turns from the open node to that of so many first decisions. The best walks of nodes below it
    /// go. How many of the others stay is left open: fewer cost time alone, since what is gone is
    /// searched anew.
    pub(crate) fn turn_back(&mut self, depth: usize)
        ensures { AreTurned depth self.old self.new }
    {
        let count = count_within(&self.kept, depth);
        if count < self.kept.len() {
            self.kept.truncate(count);
            self.allowed_depth = 0;
            return;
        }
        self.allowed_depth = self.allowed_depth.min(depth);
    }

    /// What the last one is worth, where it is seen at once that nothing is better at the open node
    /// and the prices, and that the node allows its legs at no price. That it is seen is left open: a
    /// search costs time alone.
    fn last_if_best_at<F: RowFamily>(
        &self,
        node: &OpenNode<'_, F>,
        prices: &[(F::Row, i64)],
        bid: u32,
    ) -> Option<Option<i128>>
        requires bid { bid < length node.now.bids }
        requires ascending { AreAscending F.Row.cmp prices.now }
        requires proper { ArePrices (F.rows_of node.now.family node.now.net) prices.now }
        requires walks { AreBestAt F.rows_of F.rows_used node.now bid self.now }
        ensures best { IfSome result (IsBestAt F.rows_of F.rows_used node.now bid prices.now) }
        ensures size { IfSome result (λ worth. IfSome worth IsWorthSize) }
        ensures free { IfSome result (λ _. IfSome (last_best self.now) (λ best.
            0 < length best.legs.items → AreFreeAt F.rows_of F.rows_used node.now bid prices.now
            best.legs.items)) }
    {
        let Some(best) = self.kept.last() else {
            return None;
        };
        if best.stays_best(node, prices, bid) {
            Some(best.worth)
        } else {
            None
        }
    }

    /// As [`BestOnWay::last_if_best_at`], where no row has a price.
    fn last_if_best<F: RowFamily>(
        &self,
        node: &OpenNode<'_, F>,
        latest: &[F::Row],
        bid: u32,
    ) -> Option<Option<i128>>
        requires bid { bid < length node.now.bids }
        requires latest { AreLatestAt F.Row.cmp F.rows_of node.now latest.now }
        requires walks { AreBestAt F.rows_of F.rows_used node.now bid self.now }
        ensures best { IfSome result (IsBestAt F.rows_of F.rows_used node.now bid []) }
        ensures size { IfSome result (λ worth. IfSome worth IsWorthSize) }
        ensures free { IfSome result (λ _. IfSome (last_best self.now) (λ best.
            0 < length best.legs.items → AreFreeAt F.rows_of F.rows_used node.now bid []
            best.legs.items)) }
    {
        let Some(best) = self.kept.last() else {
            return None;
        };
        node.laws();
        if still_allows(node, latest, bid, self.allowed_depth, best.legs()) {
            return Some(best.worth);
        }
        let prices: [(F::Row, i64); 0] = [];
        self.last_if_best_at(node, &prices, bid)
    }

    /// Advances to the open node, so that the last one serves all nodes below it. What the best walk
    /// is worth there, where no row has a price, in thousandths of a cent; `None` exactly where the
    /// node allows no walk. `NoMemory` is its only refusal.
    pub(crate) fn advance<F: RowFamily>(
        &mut self,
        alloc: Global,
        node: &OpenNode<'_, F>,
        latest: &[F::Row],
        bid: u32,
        table: &mut RestTable,
    ) -> Result<Option<i128>, NoMemory>
        requires bid { bid < length node.now.bids }
        requires latest { AreLatestAt F.Row.cmp F.rows_of node.now latest.now }
        requires walks { AreBestAt F.rows_of F.rows_used node.now bid self.old }
        ensures walks { OnOk result (AreBestAt F.rows_of F.rows_used node.now bid self.new) }
        ensures best { IfOk result (IsBestAt F.rows_of F.rows_used node.now bid []) }
        ensures size { IfOk result (λ worth. IfSome worth IsWorthSize) }
    {
        if let Some(worth) = self.last_if_best(node, latest, bid) {
            self.allowed_depth = node.depth();
            return Ok(worth);
        }
        let best = find_best(alloc, node, bid, table)?;
        let worth = best.worth;
        self.kept.push(best)?;
        self.allowed_depth = node.depth();
        Ok(worth)
    }

    /// As [`BestOnWay::advance`], at the prices.
    pub fn advance_at<F: RowFamily>(
        &mut self,
        alloc: Global,
        node: &OpenNode<'_, F>,
        latest: &[F::Row],
        prices: &[(F::Row, i64)],
        bid: u32,
        table: &mut RestTable,
    ) -> Result<Option<i128>, NoMemory>
        requires bid { bid < length node.now.bids }
        requires latest { AreLatestAt F.Row.cmp F.rows_of node.now latest.now }
        requires ascending { AreAscending F.Row.cmp prices.now }
        requires proper { ArePrices (F.rows_of node.now.family node.now.net) prices.now }
        requires walks { AreBestAt F.rows_of F.rows_used node.now bid self.old }
        ensures walks { OnOk result (AreBestAt F.rows_of F.rows_used node.now bid self.new) }
        ensures best { IfOk result (IsBestAt F.rows_of F.rows_used node.now bid prices.now) }
        ensures size { IfOk result (λ worth. IfSome worth IsWorthSize) }
    {
        let worth = self.advance(alloc, node, latest, bid, table)?;
        if prices.is_empty() {
            return Ok(worth);
        }
        if let Some(worth) = self.last_if_best_at(node, prices, bid) {
            return Ok(worth);
        }
        best_found(alloc, node, prices, bid, table)
    }
}
