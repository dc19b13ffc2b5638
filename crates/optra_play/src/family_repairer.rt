//! The repair of the search.
ghost use Rattle.std.specs.Prelude.{◌≡◌, ◌≤◌, All, Contains, IfOk, length};
ghost use Rattle.optra_walk.specs.Choices.{IsChoice};
ghost use Rattle.optra_node.specs.Nodes.{IsNode};
ghost use Rattle.optra_prices.specs.Keepings.{AreKeptAt};
ghost use Rattle.optra_prices.specs.Repairs.{IsRepair};

use optra_graph::Graphs;
use optra_network::NoMemory;
use optra_node::Node;
use optra_prices::Dual;
use optra_search::{Entered, Repairer};
use optra_walk::{Choice, Instance, RowFamily};
use std::alloc::Global;

/// Repairs a choice by the call of `optra_repair`, over any family and any graphs.
#[derive(Clone, Copy)]
pub struct FamilyRepairer;

impl<F: RowFamily, G: Graphs> Repairer<F, G> for FamilyRepairer {
    fn repair(
        &self,
        alloc: Global,
        inst: Instance<'_>,
        graphs: &G,
        rows: &F,
        node: &Node,
        dual: &Dual,
    ) -> Result<Choice, NoMemory> {
        optra_repair::repair(alloc, inst, graphs, rows, node, dual)
    }

    fn repair_over(
        &self,
        alloc: Global,
        inst: Instance<'_>,
        rows: &F,
        entered: &Entered<'_, '_, G, F::Row>,
        dual: &Dual,
    ) -> Result<Choice, NoMemory> {
        optra_repair::repair_over(alloc, inst, rows, entered.node, entered.kept, dual)
    }
}
