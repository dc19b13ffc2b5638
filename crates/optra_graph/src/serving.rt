//! Who serves the graphs of bids.
ghost use Rattle.std.specs.Prelude.{◌≡◌, ◌⊎◌, ℕ, Bool, true, List, [], map, All, Contains, OnOk};
ghost use Rattle.optra_network.specs.Net.{Net};
ghost use Rattle.optra_bid.specs.Specs.{Path, IsPathOn};
ghost use Rattle.optra_graph.specs.Timed.{IsGraphOf};

use crate::building::Builds;
use crate::graph_map::GraphMap;
use crate::timegraphs::TimeGraph;
use optra_bid::Bid;
use optra_network::{Network, NoMemory};
use std::alloc::Global;
use std::marker::Model;

/// Graphs of bids on one network, which never changes.
pub trait Graphs {
    /// The network that it was made with.
    ghost network: { Self → Net };

    /// The path specifications whose graphs it holds.
    ghost held: { Self → List Path };

    /// Whether it keeps what it holds.
    ghost keeps: { Self → Bool };

    /// How often it built a graph.
    ghost built: { Self → ℕ };

    /// Sees to it that the path specification of each bid of the list is held, and no other one that was not held
    /// before. One that keeps still holds all that it held. The bids' types and stations must be positions of the
    /// network. After `NoMemory` it may hold other graphs than before.
    fn prepare(&mut self, alloc: Global, bids: &[Bid]) -> Result<(), NoMemory>
        requires { All (λ bid. IsPathOn (network self.old) bid.path) bids.now }
        ensures held { OnOk result (All (λ bid. Contains (held self.new) bid.path) bids.now) }
        ensures others { OnOk result (All (λ path. Contains (held self.old) path
            ⊎ Contains (map (λ bid. bid.path) bids.now) path) (held self.new)) }
        ensures kept { OnOk result (keeps self.old ≡ true
            → All (Contains (held self.new)) (held self.old)) }
        ensures network { network self.new ≡ network self.old }
        ensures keeps { keeps self.new ≡ keeps self.old };

    /// The graph of the bid's path specification, which must be held.
    fn graph(&self, bid: &Bid) -> &TimeGraph
        requires { Contains (held self.now) bid.now.path }
        ensures { IsGraphOf (network self.now) bid.now.path result.now };

    /// How often it built a graph, as its `Builds` counts.
    fn builds(&self) -> u64
        ensures { result ≡ built self.now };
}

/// Graphs that are built anew, one for each path specification, whenever some are prepared. Those held before are then let go.
#[derive(Drop)]
pub struct FreshGraphs<'n> {
    net: &'n Network,
    served: Option<GraphMap>,
    builds: Builds,
}

impl<'n> Model for FreshGraphs<'n> {
    ghost use Rattle.optra_graph.specs.Served.{Holding};

    ghost Value = { Holding };

    ghost use Rattle.optra_graph.specs.FreshParts.{holding_of, AreServed};

    ghost view = { holding_of };

    ghost invariant = { AreServed };
}

impl FreshGraphs<'_> {
    /// Holds nothing yet.
    pub fn new(net: &Network) -> FreshGraphs<'_>
        ensures { result ≡ record { network = net.now; held = []; built = 0 } }
    {
        FreshGraphs {
            net,
            served: None,
            builds: Builds::new(),
        }
    }
}

impl Graphs for FreshGraphs<'_> {
    ghost use Rattle.std.specs.Prelude.{false};

    ghost network = { λ graphs. graphs.network };

    ghost held = { λ graphs. graphs.held };

    ghost keeps = { λ _. false };

    ghost built = { λ graphs. graphs.built };

    fn prepare(&mut self, alloc: Global, bids: &[Bid]) -> Result<(), NoMemory> {
        self.served = None;
        let mut served = GraphMap::new(alloc);
        served.keep_all(alloc, self.net, bids, &mut self.builds)?;
        self.served = Some(served);
        Ok(())
    }

    fn graph(&self, bid: &Bid) -> &TimeGraph {
        let Some(served) = &self.served else {
            unreachable!()
        };
        let Some(graph) = served.graph(bid) else {
            unreachable!()
        };
        graph
    }

    fn builds(&self) -> u64 {
        self.builds.count()
    }
}
