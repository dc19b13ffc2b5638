//! What the arcs of bids' graphs add and touch.
use crate::arcs::Arcs;
use crate::numbers::Numbers;
use crate::touches::Touches;
use optra_graph::TimeGraph;

/// Groups of touches: those of group `g` stand from `starts[g]` up to `starts[g + 1]`. All bids share them.
#[derive(Drop)]
pub(crate) struct Groups {
    pub(crate) starts: Numbers,
    pub(crate) touches: Touches,
}

/// The arcs of a bid's graph at a node, a number that none of their values exceeds in size, and whether the bid has a yes
/// leg.
#[derive(Drop)]
pub(crate) struct BidTable<'g> {
    pub(crate) graph: &'g TimeGraph,
    pub(crate) arcs: Arcs,
    pub(crate) most: i64,
    pub(crate) forced: bool,
}

/// What is known of a bid at prices: the path of its reply, which is empty where it has none, the groups of that path's
/// arcs, its term, and whether it has a yes leg and no allowed walk.
#[derive(Drop)]
pub(crate) struct Standing {
    pub(crate) path: Vec<u32>,
    pub(crate) groups: Vec<usize>,
    pub(crate) term: i128,
    pub(crate) stuck: bool,
}
