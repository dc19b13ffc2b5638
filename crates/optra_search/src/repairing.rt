//! Who repairs: the planner takes the repair through a trait, so that the crate that repairs need not stand below it.
ghost use Rattle.std.specs.Prelude.{◌≡◌, ◌≤◌, All, Contains, IfOk, length};
ghost use Rattle.optra_walk.specs.Choices.{IsChoice};
ghost use Rattle.optra_node.specs.Nodes.{IsNode};
ghost use Rattle.optra_prices.specs.Keepings.{AreKeptAt};
ghost use Rattle.optra_prices.specs.Repairs.{IsRepair};

use crate::entered::Entered;
use optra_graph::Graphs;
use optra_network::NoMemory;
use optra_node::Node;
use optra_prices::Dual;
use optra_walk::{Choice, Instance, RowFamily};
use std::alloc::Global;

/// Makes a choice that keeps the rule out of what a price path knows of the bids.
pub trait Repairer<F: RowFamily, G: Graphs> {
    /// The repaired choice at a node, for the replies and terms of a valuation.
    ///
    /// The bids are taken by falling contribution, their term, or 0 without a reply, and then by position. Each takes the
    /// first walk in walk order with the greatest value among its allowed walks of which every leg, by itself, fits with
    /// what is placed. The walk is kept where its value is above zero and the whole walk fits. A leg or a walk fits where
    /// no row gets above its capacity.
    ///
    /// It needs at most 1,000 bids, the graphs of the bids on the instance's network, one term and one entry of the
    /// replies for each bid, and replies that are walks of their bids. `NoMemory` is its only refusal.
    fn repair(
        &self,
        alloc: Global,
        inst: Instance<'_>,
        graphs: &G,
        rows: &F,
        node: &Node,
        dual: &Dual,
    ) -> Result<Choice, NoMemory>
        requires node { IsNode inst.net.now (length inst.bids.now) node.now }
        requires network { G.network graphs.now ≡ inst.net.now }
        requires held { All (λ bid. Contains (G.held graphs.now) bid.path) inst.bids.now }
        requires terms { length dual.now.terms ≡ length inst.bids.now }
        requires replies { IsChoice inst.net.now inst.bids.now dual.now.replies }
        ensures { IfOk result (λ choice. IsRepair inst.entry.net.now
            (F.rows_of rows.now inst.entry.net.now) inst.entry.bids.now node.now dual.now choice) };

    /// As [`Repairer::repair`], by tables of arcs that are at the node. Who repairs faster by them says so here.
    fn repair_over(
        &self,
        alloc: Global,
        inst: Instance<'_>,
        rows: &F,
        entered: &Entered<'_, '_, G, F::Row>,
        dual: &Dual,
    ) -> Result<Choice, NoMemory>
        requires node { IsNode inst.net.now (length inst.bids.now) entered.now.node.now }
        requires network { G.network entered.now.graphs.now ≡ inst.net.now }
        requires held { All (λ bid. Contains (G.held entered.now.graphs.now) bid.path)
            inst.bids.now }
        requires kept { AreKeptAt F.Row.cmp inst.net.now (F.rows_of rows.now inst.net.now)
            (F.rows_used rows.now inst.net.now) inst.bids.now entered.now.node.now
            entered.now.kept.now }
        requires terms { length dual.now.terms ≡ length inst.bids.now }
        requires replies { IsChoice inst.net.now inst.bids.now dual.now.replies }
        ensures { IfOk result (λ choice. IsRepair inst.entry.net.now
            (F.rows_of rows.now inst.entry.net.now) inst.entry.bids.now entered.now.node.now
            dual.now choice) }
    {
        self.repair(alloc, inst, entered.graphs, rows, entered.node, dual)
    }
}
