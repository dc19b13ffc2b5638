//! The repaired choice.
ghost use Rattle.std.specs.Prelude.{◌≡◌, ◌≢◌, ◌≤◌, ◌<◌, All, Contains, IfOk, length};
ghost use Rattle.std.specs.List.{AllPairs};
ghost use Rattle.optra_walk.specs.Choices.{IsChoice};
ghost use Rattle.optra_walk.specs.Families.{entries_of};
ghost use Rattle.optra_node.specs.Nodes.{IsNode};
ghost use Rattle.optra_prices.specs.Keepings.{AreKept, AreKeptAt};
ghost use Rattle.optra_prices.specs.Repairs.{IsRepair, GivesInTurn, empty_choice};

use crate::placing::place;
use crate::taking::taking_order;
use crate::worth::Lent;
use optra_bid::Bid;
use optra_dag::Buffers;
use optra_graph::Graphs;
use optra_network::NoMemory;
use optra_node::Node;
use optra_prices::keeping::{bring_to, keep_arcs};
use optra_prices::parts::free_room;
use optra_prices::{ArcTables, Dual};
use optra_walk::{Choice, Instance, RowFamily, Walk};
use std::alloc::Global;

/// No walk for any of so many bids.
fn no_walks(alloc: Global, bids: &[Bid]) -> Result<Vec<Option<Walk>>, NoMemory>
    ensures { IfOk result (λ walks. walks.items ≡ empty_choice bids.now) }
{
    bids.iter().map(|_bid| None).collect(alloc)
}

/// Places the bids of these positions one after the other.
fn place_all<F: RowFamily>(
    alloc: Global,
    inst: Instance<'_>,
    rows: &F,
    node: &Node,
    kept: &ArcTables<'_, F::Row>,
    order: &[u32],
) -> Result<Vec<Option<Walk>>, NoMemory>
    requires kept { AreKeptAt F.Row.cmp inst.net.now (F.rows_of rows.now inst.net.now)
        (F.rows_used rows.now inst.net.now) inst.bids.now node.now kept.now }
    requires within { All (λ number. number < length inst.bids.now) order.now }
    requires once { AllPairs (λ a b. a ≢ b) order.now }
    ensures { IfOk result (λ walks. GivesInTurn inst.entry.net.now
        (F.rows_of rows.now inst.entry.net.now) inst.entry.bids.now node.now order.now
        (empty_choice inst.entry.bids.now) walks.items) }
{
    let bids = inst.bids;
    let mut lent = Lent {
        room: free_room(alloc, inst, rows, kept)?,
        parts: Vec::new(alloc),
        buffers: Buffers::new(alloc),
    };
    let mut walks = no_walks(alloc, bids)?;
    for turn in 0..order.len() {
        let number = order[turn];
        let given = place(alloc, &mut lent, inst, rows, node, kept, number)?;
        walks[number as usize] = given;
    }
    Ok(walks)
}

/// The repaired choice at a node, for the replies and terms of a valuation. It keeps the rule.
///
/// The bids are taken by falling contribution, their term, or 0 without a reply, and then by position. Each takes the
/// first walk in walk order with the greatest value among its allowed walks of which every leg, by itself, fits with what
/// is placed. The walk is kept where its value is above zero and the whole walk fits. A leg or a walk fits where no row
/// gets above its capacity.
///
/// It needs at most 1,000 bids, the graphs of the bids on the instance's network, one term and one entry of the replies
/// for each bid, and replies that are walks of their bids. `NoMemory` is its only refusal.
pub fn repair<F: RowFamily, G: Graphs>(
    alloc: Global,
    inst: Instance<'_>,
    graphs: &G,
    rows: &F,
    node: &Node,
    dual: &Dual,
) -> Result<Choice, NoMemory>
    requires node { IsNode inst.net.now (length inst.bids.now) node.now }
    requires network { G.network graphs.now ≡ inst.net.now }
    requires held { All (λ bid. Contains (G.held graphs.now) bid.path) inst.bids.now }
    requires terms { length dual.now.terms ≡ length inst.bids.now }
    requires replies { IsChoice inst.net.now inst.bids.now dual.now.replies }
    ensures repair { IfOk result (λ choice. IsRepair inst.entry.net.now
        (F.rows_of rows.now inst.entry.net.now) inst.entry.bids.now node.now dual.now choice) }
    ensures choice { IfOk result (λ choice. IsChoice inst.entry.net.now inst.entry.bids.now
        choice) }
    ensures keeps { IfOk result (λ choice. F.KeepsRule rows.now inst.entry.net.now
        (entries_of inst.entry.bids.now choice)) }
{
    let mut kept = keep_arcs(alloc, inst, graphs, rows)?;
    let choice = repair_brought(alloc, inst, rows, node, &mut kept, dual);
    drop(kept);
    choice
}

/// As [`repair`], by tables of arcs that are brought to the node.
fn repair_brought<F: RowFamily>(
    alloc: Global,
    inst: Instance<'_>,
    rows: &F,
    node: &Node,
    kept: &mut ArcTables<'_, F::Row>,
    dual: &Dual,
) -> Result<Choice, NoMemory>
    requires node { IsNode inst.net.now (length inst.bids.now) node.now }
    requires kept { AreKept F.Row.cmp inst.net.now (F.rows_of rows.now inst.net.now)
        (F.rows_used rows.now inst.net.now) inst.bids.now kept.old }
    requires terms { length dual.now.terms ≡ length inst.bids.now }
    requires replies { IsChoice inst.net.now inst.bids.now dual.now.replies }
    ensures repair { IfOk result (λ choice. IsRepair inst.entry.net.now
        (F.rows_of rows.now inst.entry.net.now) inst.entry.bids.now node.now dual.now choice) }
    ensures choice { IfOk result (λ choice. IsChoice inst.entry.net.now inst.entry.bids.now
        choice) }
    ensures keeps { IfOk result (λ choice. F.KeepsRule rows.now inst.entry.net.now
        (entries_of inst.entry.bids.now choice)) }
{
    bring_to(alloc, inst, rows, node, kept)?;
    repair_over(alloc, inst, rows, node, kept, dual)
}

/// As [`repair`], by tables of arcs that are at the node.
pub fn repair_over<F: RowFamily>(
    alloc: Global,
    inst: Instance<'_>,
    rows: &F,
    node: &Node,
    kept: &ArcTables<'_, F::Row>,
    dual: &Dual,
) -> Result<Choice, NoMemory>
    requires node { IsNode inst.net.now (length inst.bids.now) node.now }
    requires kept { AreKeptAt F.Row.cmp inst.net.now (F.rows_of rows.now inst.net.now)
        (F.rows_used rows.now inst.net.now) inst.bids.now node.now kept.now }
    requires terms { length dual.now.terms ≡ length inst.bids.now }
    requires replies { IsChoice inst.net.now inst.bids.now dual.now.replies }
    ensures repair { IfOk result (λ choice. IsRepair inst.entry.net.now
        (F.rows_of rows.now inst.entry.net.now) inst.entry.bids.now node.now dual.now choice) }
    ensures choice { IfOk result (λ choice. IsChoice inst.entry.net.now inst.entry.bids.now
        choice) }
    ensures keeps { IfOk result (λ choice. F.KeepsRule rows.now inst.entry.net.now
        (entries_of inst.entry.bids.now choice)) }
{
    let order = taking_order(alloc, dual)?;
    let walks = place_all(alloc, inst, rows, node, kept, &order)?;
    Ok(Choice { walks })
}
