//! The arcs of bids' graphs, and what they add and touch.
//!
//! It is the same at all nodes. Which arcs may be taken at a node is told afterwards, see `allowing`.
ghost use Rattle.std.specs.Prelude.{◌≡◌, ◌<◌, ◌≤◌, IfOk, OnOk, length, All, pos, neg_ℤ, ◌≤ℤ◌, ◌*ℤ◌, unsigned_abs};
ghost use Rattle.optra_bid.specs.Specs.{IsBetween};
ghost use Rattle.optra_graph.specs.Timed.{IsGraphOf};
ghost use Rattle.optra_walk.specs.Shares.{start_value, leg_value};
ghost use Rattle.optra_prices.specs.Arcs.{IsArcValue};
ghost use Rattle.optra_prices.specs.Makings.{IsMaking, Grows};
ghost use Rattle.optra_prices.specs.Standings.{Covers, IsMost};
ghost use Rattle.optra_prices.specs.Terms.{IsTerm, AreArcs};

use crate::arc_slice::ArcSlice;
use crate::arc_term::ArcTerm;
use crate::arcs::Arcs;
use crate::making::{Making, leg_group};
use crate::narrow_arc::NarrowArc;
use crate::numbering::BidTable;
use optra_bid::Bid;
use optra_graph::TimeGraph;
use optra_network::{Minute, Network, NoMemory, TypeId};
use optra_walk::{Leg, RowFamily, leg_cents, start_cents};
use std::alloc::Global;

/// The train type of a bid.
pub(crate) fn kind_of(bid: &Bid) -> TypeId
    ensures { result ≡ bid.now.path.kind }
{
    bid.path.kind
}

/// The arc of a start, which touches nothing.
fn start_term(bid: &Bid, minute: Minute) -> ArcTerm
    ensures value { result.value ≡ start_value bid.now minute }
    ensures range { IsArcValue result.value }
    ensures group { result.group ≡ 0 }
{
    ArcTerm::new(start_cents(bid, minute), 0)
}

/// The arc of a leg, which touches the rows of a group.
fn leg_term(net: &Network, bid: &Bid, leg: Leg, group: usize) -> ArcTerm
    ensures value { result.value ≡ leg_value net.now bid.now leg }
    ensures range { IsArcValue result.value }
    ensures group { result.group ≡ group }
{
    ArcTerm::new(leg_cents(net, bid, leg), group)
}

/// The arc at a place, with a group for its leg.
fn term_at<F: RowFamily>(
    net: &Network,
    rows: &F,
    bid: &Bid,
    graph: &TimeGraph,
    making: &mut Making<F::Row>,
    k: u32,
) -> Result<ArcTerm, NoMemory>
    requires graph { IsGraphOf net.now bid.now.path graph.now }
    requires within { k < length graph.now.dag.arcs }
    requires making { IsMaking net.now (F.rows_of rows.now net.now) (F.rows_used rows.now net.now)
        making.old }
    ensures making { OnOk result (IsMaking net.now (F.rows_of rows.now net.now)
        (F.rows_used rows.now net.now) making.new) }
    ensures grows { OnOk result (Grows making.old making.new) }
    ensures term { IfOk result (λ arc. IsTerm net.now (F.rows_of rows.now net.now)
        (F.rows_used rows.now net.now) bid.now graph.now making.new.named.items
        making.new.groups.starts.items making.new.groups.touches k arc) }
{
    net.laws();
    let Some(leg) = graph.leg(k) else {
        let minute = graph.start(k).unwrap_or(0);
        return Ok(start_term(bid, minute));
    };
    let group = leg_group(net, rows, making, kind_of(bid), leg)?;
    Ok(leg_term(net, bid, leg, group))
}

/// The greater of a number and of the size of a value.
fn widened(most: i64, value: i64) -> i64
    requires most { IsMost most }
    requires value { IsArcValue value }
    ensures range { IsMost result }
    ensures before { most ≤ℤ result }
    ensures value { IsBetween (neg_ℤ result) result value }
{
    let size = if value < 0 { -value } else { value };
    most.max(size)
}

/// The greatest number of cents that an arc adds or takes.
fn most_cents(arcs: &[NarrowArc]) -> u32
    ensures { All (λ arc. unsigned_abs arc.cents ≤ result) arcs.now }
{
    let mut most = 0;
    for k in 0..arcs.len() {
        most = most.max(arcs[k].size());
    }
    most
}

/// Cents in thousandths of a cent.
fn thousandths(cents: u32) -> i64
    ensures { result ≡ pos 1000 *ℤ pos cents }
{
    1000 * i64::from(cents)
}

/// What no value of the arcs exceeds in size. A greater number is left open: sums are then sooner taken in 128 bits, which costs time
/// alone.
fn most_of(arcs: &ArcSlice<'_>) -> i64
    requires { All (λ arc. IsArcValue arc.value) arcs.now }
    ensures { Covers result arcs.now }
{
    let mut most = thousandths(most_cents(arcs.narrow));
    for k in arcs.narrow.len()..arcs.len() {
        most = widened(most, arcs.value(k));
    }
    most
}

/// All arcs of the bid's graph, each of which may be taken until a node says otherwise.
pub(crate) fn bid_table<'g, F: RowFamily>(
    alloc: Global,
    net: &Network,
    rows: &F,
    bid: &Bid,
    graph: &'g TimeGraph,
    making: &mut Making<F::Row>,
) -> Result<BidTable<'g>, NoMemory>
    requires graph { IsGraphOf net.now bid.now.path graph.now }
    requires making { IsMaking net.now (F.rows_of rows.now net.now) (F.rows_used rows.now net.now)
        making.old }
    ensures making { OnOk result (IsMaking net.now (F.rows_of rows.now net.now)
        (F.rows_used rows.now net.now) making.new) }
    ensures grows { OnOk result (Grows making.old making.new) }
    ensures table { IfOk result (λ table. AreArcs net.now (F.rows_of rows.now net.now)
        (F.rows_used rows.now net.now) bid.now table.graph.now making.new.named.items
        table.arcs making.new.groups.starts.items making.new.groups.touches) }
    ensures covers { IfOk result (λ table. Covers table.most table.arcs) }
{
    let count = graph.dag().arcs();
    let mut arcs = Arcs::with_room(alloc, count as usize)?;
    for k in 0..count {
        let term = term_at(net, rows, bid, graph, making, k)?;
        arcs.push(term)?;
    }
    let most = most_of(&arcs.slice());
    Ok(BidTable {
        graph,
        arcs,
        most,
        forced: false,
    })
}
