//! The freest walk of a bid: of its allowed walks, the first one with the most legs that are not fixed.
ghost use Rattle.std.specs.Prelude.{◌≡◌, ◌≤◌, ◌<◌, slice_get, length, All, Contains, IfOk, MatchOption, IsSomeAnd};
ghost use Rattle.optra_graph.specs.Timed.{IsGraphOf};
ghost use Rattle.optra_node.specs.Nodes.{IsNode};
ghost use Rattle.optra_search.specs.Splits.{IsFree, IsFirstOrNone};
ghost use Rattle.optra_search.specs.Marks.{IsMarkOf, AreMarked, IsFreestOrNone, IsFreeLegOrNone, IsFreestLegOrNone, IsBestWalkOrNone};

use crate::fixing::is_fixed;
use optra_dag::{Weight, first_best};
use optra_graph::{Graphs, TimeGraph};
use optra_network::NoMemory;
use optra_node::{Node, tests_tell_allowed};
use optra_walk::{Instance, Leg, RowFamily, Walk};
use std::alloc::Global;

/// Whether an arc may be taken at the node, and whether it has a leg that is not fixed.
#[derive(Clone, Copy)]
pub(crate) struct ArcMark {
    pub(crate) allowed: bool,
    pub(crate) free: bool,
}

/// The marks of a graph's arcs, by number.
#[derive(Clone, Copy)]
pub(crate) struct Marks<'a> {
    marks: &'a [ArcMark],
}

impl Weight for Marks<'_> {
    ghost use Rattle.std.specs.Prelude.{length};
    ghost use Rattle.optra_search.specs.Splits.{IsFree, IsFirstOrNone};
    ghost use Rattle.optra_search.specs.Marks.{allows_at, weight_at};

    ghost asked = { λ w. length w.marks.now };

    ghost allows = { λ w k. allows_at w.marks.now k };

    ghost weight = { λ w k. weight_at w.marks.now k };

    fn allowed(&self, arc: u32) -> bool {
        self.marks[arc as usize].allowed
    }

    fn of(&self, arc: u32) -> i128 {
        if self.marks[arc as usize].free { 1 } else { 0 }
    }
}

/// The mark of an arc.
fn mark<F: RowFamily>(
    inst: Instance<'_>,
    rows: &F,
    node: &Node,
    bid: u32,
    graph: &TimeGraph,
    arc: u32,
) -> ArcMark
    requires node { IsNode inst.net.now (length inst.bids.now) node.now }
    requires graph { IsSomeAnd (slice_get inst.bids.now bid) (λ b. IsGraphOf inst.net.now b.path
        graph.now) }
    requires arc { arc < length graph.now.dag.arcs }
    ensures { IsMarkOf inst.entry.net.now (F.rows_of rows.now inst.entry.net.now)
        inst.entry.bids.now node.now bid graph.now arc result }
{
    if let Some(leg) = graph.leg(arc) {
        return ArcMark {
            allowed: node.leg_ok(inst, rows, bid, leg),
            free: !is_fixed(node, bid, leg),
        };
    }
    let allowed = match graph.start(arc) {
        Some(minute) => node.start_ok(inst, bid, minute),
        None => false,
    };
    ArcMark {
        allowed,
        free: false,
    }
}

/// The marks of all arcs of the bid's graph.
fn mark_all<F: RowFamily>(
    alloc: Global,
    inst: Instance<'_>,
    rows: &F,
    node: &Node,
    bid: u32,
    graph: &TimeGraph,
) -> Result<Vec<ArcMark>, NoMemory>
    requires node { IsNode inst.net.now (length inst.bids.now) node.now }
    requires graph { IsSomeAnd (slice_get inst.bids.now bid) (λ b. IsGraphOf inst.net.now b.path
        graph.now) }
    ensures { IfOk result (λ marks. AreMarked inst.entry.net.now
        (F.rows_of rows.now inst.entry.net.now) inst.entry.bids.now node.now bid graph.now
        (length graph.now.dag.arcs) marks.items) }
{
    let count = graph.dag().arcs();
    let mut marks = Vec::with_capacity(alloc, count as usize)?;
    for arc in 0..count {
        marks.push(mark(inst, rows, node, bid, graph, arc))?;
    }
    Ok(marks)
}

/// The walk of the first path of allowed arcs with the most free ones. `None` where there is no such path.
fn best_walk(alloc: Global, graph: &TimeGraph, marks: &[ArcMark]) -> Result<Option<Walk>, NoMemory>
    requires { length graph.now.dag.arcs ≤ length marks.now }
    ensures { IfOk result (λ walk. IsBestWalkOrNone graph.now marks.now walk) }
{
    let weight = Marks { marks };
    match first_best(alloc, graph.dag(), &weight)? {
        Some((_, path)) => Ok(Some(graph.walk_of(alloc, &path)?)),
        None => Ok(None),
    }
}

/// Of the bid's allowed walks, the first one in walk order with the most legs that are not fixed. `None` where no walk is
/// allowed.
fn freest<F: RowFamily>(
    alloc: Global,
    inst: Instance<'_>,
    rows: &F,
    node: &Node,
    bid: u32,
    graph: &TimeGraph,
) -> Result<Option<Walk>, NoMemory>
    requires node { IsNode inst.net.now (length inst.bids.now) node.now }
    requires graph { IsSomeAnd (slice_get inst.bids.now bid) (λ b. IsGraphOf inst.net.now b.path
        graph.now) }
    ensures { IfOk result (λ walk. IsSomeAnd (slice_get inst.entry.bids.now bid)
        (λ b. IsFreestOrNone inst.entry.net.now (F.rows_of rows.now inst.entry.net.now)
        inst.entry.bids.now node.now bid b walk)) }
{
    tests_tell_allowed(inst, rows);
    let marks = mark_all(alloc, inst, rows, node, bid, graph)?;
    let walk = best_walk(alloc, graph, &marks)?;
    Ok(walk)
}

/// The first of the bid's legs that is not fixed.
pub(crate) fn first_free(node: &Node, bid: u32, legs: &[Leg]) -> Option<Leg>
    ensures { IsFirstOrNone (IsFree node.now bid) legs.now result }
{
    for leg in legs {
        if !is_fixed(node, bid, *leg) {
            return Some(*leg);
        }
    }
    None
}

/// The first leg that is not fixed of the bid's freest walk.
fn free_leg<F: RowFamily>(
    alloc: Global,
    inst: Instance<'_>,
    rows: &F,
    node: &Node,
    bid: u32,
    graph: &TimeGraph,
) -> Result<Option<Leg>, NoMemory>
    requires node { IsNode inst.net.now (length inst.bids.now) node.now }
    requires graph { IsSomeAnd (slice_get inst.bids.now bid) (λ b. IsGraphOf inst.net.now b.path
        graph.now) }
    ensures { IfOk result (λ leg. IsSomeAnd (slice_get inst.entry.bids.now bid)
        (λ b. IsFreeLegOrNone inst.entry.net.now (F.rows_of rows.now inst.entry.net.now)
        inst.entry.bids.now node.now bid b leg)) }
{
    match freest(alloc, inst, rows, node, bid, graph)? {
        Some(walk) => Ok(first_free(node, bid, &walk.legs)),
        None => Ok(None),
    }
}

/// For the first bid that has an allowed walk with a leg that is not fixed, its number and the first such leg of its
/// freest walk. `None` where no bid has such a walk.
pub(crate) fn freest_leg<F: RowFamily, G: Graphs>(
    alloc: Global,
    inst: Instance<'_>,
    graphs: &G,
    rows: &F,
    node: &Node,
) -> Result<Option<(u32, Leg)>, NoMemory>
    requires network { G.network graphs.now ≡ inst.net.now }
    requires held { All (λ bid. Contains (G.held graphs.now) bid.path) inst.bids.now }
    requires node { IsNode inst.net.now (length inst.bids.now) node.now }
    ensures { IfOk result (λ found. IsFreestLegOrNone inst.entry.net.now
        (F.rows_of rows.now inst.entry.net.now) inst.entry.bids.now node.now found) }
{
    for (number, bid) in inst.bids.iter().enumerate() {
        let number = number as u32;
        match free_leg(alloc, inst, rows, node, number, graphs.graph(bid))? {
            Some(leg) => return Ok(Some((number, leg))),
            None => continue,
        }
    }
    Ok(None)
}
