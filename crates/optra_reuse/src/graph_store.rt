//! The store of graphs.
ghost use Rattle.std.specs.Prelude.{◌≡◌, ◌↔◌, [], length, slice_get, Some, Contains, IfOk, OnErr, IsOk, IsTrue};
ghost use Rattle.optra_network.specs.Names.{AllDiffer};
ghost use Rattle.optra_bid.specs.Specs.{IsPathOn};
ghost use Rattle.optra_graph.specs.Timed.{IsGraphOf};
ghost use Rattle.optra_reuse.specs.Stores.{Keeps};

use optra_bid::Bid;
use optra_graph::{Builds, GraphMap, Graphs, TimeGraph};
use optra_network::{Network, NoMemory};
use std::alloc::Global;
use std::marker::Model;

/// Graphs on one network, one for each path specification that was asked for. A graph is built when its path specification is
/// first asked for, and then held for good. Contracts see the network, the path specifications, and how often a graph was built.
#[derive(Drop)]
pub struct GraphStore<'n> {
    alloc: Global,
    net: &'n Network,
    graphs: GraphMap,
    builds: Builds,
}

impl<'n> Model for GraphStore<'n> {
    ghost use Rattle.optra_graph.specs.Served.{Holding};

    ghost Value = { Holding };

    ghost use Rattle.optra_reuse.specs.StoreParts.{holding_of, AreKept};

    ghost view = { holding_of };

    ghost invariant = { AreKept };
}

impl<'n> GraphStore<'n> {
    ghost use Rattle.std.specs.Borrow.{sem};
    ghost use Rattle.optra_reuse.specs.Lending.{EndsKept};

    /// Holds nothing yet.
    pub fn new(alloc: Global, net: &'n Network) -> Result<GraphStore<'n>, NoMemory>
        ensures { IfOk result (λ store. store
            ≡ record { network = net.now; held = []; built = 0 }) }
    {
        Ok(GraphStore {
            alloc,
            net,
            graphs: GraphMap::new(alloc),
            builds: Builds::new(),
        })
    }

    /// The graph of the bid's path specification. It is built exactly where `holds` was false, and held for good then. The path
    /// specification is copied, and room is made for it, before its graph is built: after `NoMemory` the store is as before.
    /// Where `holds` was true the answer is `Ok`, and no memory is taken. The bid's type and stations must be positions of the
    /// network.
    pub fn graph_for(&mut self, bid: &Bid) -> Result<&TimeGraph, NoMemory>
        requires { IsPathOn self.old.network bid.now.path }
        ensures* keeps { sem 𝓛 (EndsKept self.entry bid.now.path result) }
        ensures graph { IfOk result (λ graph. IsGraphOf self.old.network bid.now.path graph.now) }
        ensures held { Contains self.old.held bid.now.path → IsOk result }
    {
        let place = self.keep(bid)?;
        Ok(self.graphs.at(place))
    }

    /// Whether the graph of the bid's path specification is held.
    pub fn holds(&self, bid: &Bid) -> bool
        ensures { IsTrue result ↔ Contains self.now.held bid.now.path }
    {
        self.graphs.holds(bid)
    }

    /// How many path specifications are held, all different: each graph was built once.
    pub fn builds(&self) -> u64
        ensures count { result ≡ length self.now.held }
        ensures built { result ≡ self.now.built }
        ensures differ { AllDiffer self.now.held }
    {
        self.builds.count()
    }

    /// Sees to it that the bid's path specification is held, and answers its place.
    fn keep(&mut self, bid: &Bid) -> Result<usize, NoMemory>
        requires { IsPathOn self.old.network bid.now.path }
        ensures kept { IfOk result (λ place. Keeps bid.now.path self.old self.new) }
        ensures place { IfOk result (λ place. slice_get self.new.held place ≡ Some bid.now.path) }
        ensures err { OnErr result (self.new ≡ self.old) }
        ensures held { Contains self.old.held bid.now.path → IsOk result }
    {
        self.graphs
            .keep(self.alloc, self.net, bid, &mut self.builds)
    }
}

impl Graphs for GraphStore<'_> {
    ghost use Rattle.std.specs.Prelude.{true};

    ghost network = { λ store. store.network };

    ghost held = { λ store. store.held };

    ghost keeps = { λ _. true };

    ghost built = { λ store. store.built };

    fn prepare(&mut self, alloc: Global, bids: &[Bid]) -> Result<(), NoMemory> {
        self.graphs
            .keep_all(alloc, self.net, bids, &mut self.builds)
    }

    fn graph(&self, bid: &Bid) -> &TimeGraph {
        let Some(graph) = self.graphs.graph(bid) else {
            unreachable!()
        };
        graph
    }

    fn builds(&self) -> u64 {
        self.builds.count()
    }
}
