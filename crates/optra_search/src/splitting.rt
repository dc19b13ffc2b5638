//! The leg on which a node is split.
ghost use Rattle.std.specs.Prelude.{◌≡◌, ◌↔◌, ◌<◌, ◌≤◌, [], length, All, Contains, IfOk, IsTrue, unwrap_or};
ghost use Rattle.optra_walk.specs.Choices.{IsChoice};
ghost use Rattle.optra_walk.specs.Families.{IsUsable};
ghost use Rattle.optra_node.specs.Nodes.{IsNode, kind_at};
ghost use Rattle.optra_prices.specs.Overfull.{AreOverfilled};
ghost use Rattle.optra_search.specs.Splits.{IsFree, IsFreeLeg, IsFirstOrNone, reply_legs};
ghost use Rattle.optra_search.specs.Marks.{UsesOne, IsCrowding, IsFreeSplitOrNone, IsSplitLegOrNone};

use crate::fixing::is_fixed;
use crate::freeing::{first_free, freest_leg};
use optra_graph::Graphs;
use optra_network::{Network, NoMemory, TypeId};
use optra_node::{Node, kind_at};
use optra_walk::{Instance, Leg, RowFamily, Walk};
use std::alloc::Global;

/// Whether the leg of the type uses one of the rows.
fn uses_one<F: RowFamily>(
    net: &Network,
    rows: &F,
    kind: TypeId,
    leg: Leg,
    listed: &[F::Row],
) -> bool
    requires { IsUsable net.now kind leg }
    ensures { IsTrue result ↔ UsesOne (F.rows_of rows.now net.now) kind leg listed.now }
{
    for row in listed {
        if rows.leg_use(net, kind, leg, *row) > 0 {
            return true;
        }
    }
    false
}

/// Whether the leg is not fixed and uses one of the rows.
fn is_crowding<F: RowFamily>(
    inst: Instance<'_>,
    rows: &F,
    node: &Node,
    bid: u32,
    leg: Leg,
    listed: &[F::Row],
) -> bool
    requires bid { bid < length inst.bids.now }
    requires usable { IsUsable inst.net.now (kind_at inst.bids.now bid) leg }
    ensures { IsTrue result ↔ IsCrowding (F.rows_of rows.now inst.entry.net.now) inst.entry.bids.now
        node.now listed.now (bid, leg) }
{
    let kind = kind_at(inst, bid);
    !is_fixed(node, bid, leg) && uses_one(inst.net, rows, kind, leg, listed)
}

/// The first of the bid's legs that is not fixed and uses one of the rows.
fn first_crowding<F: RowFamily>(
    inst: Instance<'_>,
    rows: &F,
    node: &Node,
    bid: u32,
    legs: &[Leg],
    listed: &[F::Row],
) -> Option<Leg>
    requires bid { bid < length inst.bids.now }
    requires usable { All (IsUsable inst.net.now (kind_at inst.bids.now bid)) legs.now }
    ensures { IsFirstOrNone (λ leg. IsCrowding (F.rows_of rows.now inst.entry.net.now)
        inst.entry.bids.now node.now listed.now (bid, leg)) legs.now result }
{
    for leg in legs {
        if is_crowding(inst, rows, node, bid, *leg, listed) {
            return Some(*leg);
        }
    }
    None
}

/// The same of a reply; `None` too where there is no reply.
fn crowding_in<F: RowFamily>(
    inst: Instance<'_>,
    rows: &F,
    node: &Node,
    bid: u32,
    reply: &Option<Walk>,
    listed: &[F::Row],
) -> Option<Leg>
    requires bid { bid < length inst.bids.now }
    requires usable { All (IsUsable inst.net.now (kind_at inst.bids.now bid))
        (unwrap_or reply.now []) }
    ensures { IsFirstOrNone (λ leg. IsCrowding (F.rows_of rows.now inst.entry.net.now)
        inst.entry.bids.now node.now listed.now (bid, leg)) (unwrap_or reply.now []) result }
{
    match reply {
        Some(walk) => first_crowding(inst, rows, node, bid, &walk.legs, listed),
        None => None,
    }
}

/// The first leg of the replies, by bid and then along the reply, that is not fixed and uses one of the rows.
fn crowding_leg<F: RowFamily>(
    inst: Instance<'_>,
    rows: &F,
    node: &Node,
    replies: &[Option<Walk>],
    listed: &[F::Row],
) -> Option<(u32, Leg)>
    requires replies { IsChoice inst.net.now inst.bids.now replies.now }
    ensures { IsFirstOrNone (IsCrowding (F.rows_of rows.now inst.entry.net.now) inst.entry.bids.now
        node.now listed.now) (reply_legs replies.now) result }
{
    'replies: for (i, reply) in replies.iter().enumerate() {
        let bid = i as u32;
        match crowding_in(inst, rows, node, bid, reply, listed) {
            Some(leg) => return Some((bid, leg)),
            None => continue,
        }
    }
    None
}

/// The first leg of a reply that is not fixed; `None` too where there is no reply.
fn free_in(node: &Node, bid: u32, reply: &Option<Walk>) -> Option<Leg>
    ensures { IsFirstOrNone (IsFree node.now bid) (unwrap_or reply.now []) result }
{
    match reply {
        Some(walk) => first_free(node, bid, &walk.legs),
        None => None,
    }
}

/// The first leg of the replies, by bid and then along the reply, that is not fixed.
fn free_reply_leg(node: &Node, replies: &[Option<Walk>]) -> Option<(u32, Leg)>
    requires { length replies.now ≤ 1000 }
    ensures { IsFirstOrNone (IsFreeLeg node.now) (reply_legs replies.now) result }
{
    'replies: for (i, reply) in replies.iter().enumerate() {
        let bid = i as u32;
        match free_in(node, bid, reply) {
            Some(leg) => return Some((bid, leg)),
            None => continue,
        }
    }
    None
}

/// The first leg of a reply that is not fixed, or else the first such leg of the freest walk.
fn free_split<F: RowFamily, G: Graphs>(
    alloc: Global,
    inst: Instance<'_>,
    graphs: &G,
    rows: &F,
    node: &Node,
    replies: &[Option<Walk>],
) -> Result<Option<(u32, Leg)>, NoMemory>
    requires network { G.network graphs.now ≡ inst.net.now }
    requires held { All (λ bid. Contains (G.held graphs.now) bid.path) inst.bids.now }
    requires node { IsNode inst.net.now (length inst.bids.now) node.now }
    requires few { length replies.now ≤ 1000 }
    ensures { IfOk result (λ found. IsFreeSplitOrNone inst.entry.net.now
        (F.rows_of rows.now inst.entry.net.now) inst.entry.bids.now node.now replies.now found) }
{
    match free_reply_leg(node, replies) {
        Some(found) => Ok(Some(found)),
        None => {
            let found = freest_leg(alloc, inst, graphs, rows, node)?;
            Ok(found)
        }
    }
}

/// The split leg of a node, by the replies at the result of its price path and the rows that they overfill. `None` exactly
/// where no allowed walk has a leg that is not fixed; such a node closes.
pub(crate) fn split_leg<F: RowFamily, G: Graphs>(
    alloc: Global,
    inst: Instance<'_>,
    graphs: &G,
    rows: &F,
    node: &Node,
    replies: &[Option<Walk>],
    listed: &[F::Row],
) -> Result<Option<(u32, Leg)>, NoMemory>
    requires network { G.network graphs.now ≡ inst.net.now }
    requires held { All (λ bid. Contains (G.held graphs.now) bid.path) inst.bids.now }
    requires node { IsNode inst.net.now (length inst.bids.now) node.now }
    requires replies { IsChoice inst.net.now inst.bids.now replies.now }
    requires listed { AreOverfilled (F.rows_of rows.now inst.net.now) inst.bids.now replies.now
        listed.now }
    ensures { IfOk result (λ found. IsSplitLegOrNone inst.entry.net.now
        (F.rows_of rows.now inst.entry.net.now) inst.entry.bids.now node.now replies.now found) }
{
    match crowding_leg(inst, rows, node, replies, listed) {
        Some(found) => Ok(Some(found)),
        None => {
            let found = free_split(alloc, inst, graphs, rows, node, replies)?;
            Ok(found)
        }
    }
}
