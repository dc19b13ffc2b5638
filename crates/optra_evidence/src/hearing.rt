//! The figures of all bids, as the leaves of a tree are gone through.
ghost use Rattle.std.specs.Prelude.{◌≡◌, ◌≤◌, [], List, All, IfOk, OnOk, length, take};
ghost use Rattle.optra_bid.specs.Instances.{IsInstance};
ghost use Rattle.optra_node.specs.Duals.{ArePrices, PriceList};
ghost use Rattle.optra_node.specs.declared.Decision.{Decision};
ghost use Rattle.optra_node.specs.Trees.{places};
ghost use Rattle.optra_node.specs.Certificates.{AreAscending, IsFormedItem, HasPrices};
ghost use Rattle.optra_checker.specs.BestOnWay.{AreAllBest, AreAllBestAt};
ghost use Rattle.optra_checker.specs.Bounds.{IsSoundTree};
ghost use Rattle.optra_open.specs.Opens.{IsRoom};
ghost use Rattle.optra_evidence.specs.Figures.{AreAllMostOf, AreHeard, AreHeardOf, nothing_said};
ghost use Rattle.optra_evidence.specs.Listed.{AreListed};
ghost use Rattle.optra_evidence.specs.Worths.{AreWorthsAt, IsLiveValue};

use crate::figures::Figures;
use crate::leaf_worths::{best_worths, live_value};
use crate::saying::said_of;
use optra_checker::{BestOnWay, advance_all, turn_back_all};
use optra_network::NoMemory;
use optra_node::{Item, Prices};
use optra_open::{NodeRoom, OpenNode, pass};
use optra_rests::RestTable;
use optra_walk::{Instance, RowFamily};
use std::alloc::Global;

/// The entries of prices.
fn entries<R>(prices: &Prices<R>) -> &[(R, i64)]
    ensures { result.now ≡ prices.now }
{
    &prices.entries
}

/// Raises the figures of each bid to what the leaf says of it, by what the bids' best walks are worth there and by the dual value
/// where it counts.
fn raise_each<F: RowFamily>(
    node: &OpenNode<'_, F>,
    prices: &[(F::Row, i64)],
    worths: &[Option<i128>],
    value: Option<i128>,
    figures: &mut [Figures],
)
    requires worths { AreWorthsAt F.rows_of F.rows_used node.now prices.now worths.now }
    requires value { IsLiveValue node.now.net (F.rows_of node.now.family node.now.net) node.now.bids
        node.now.node prices.now value }
    requires count { length figures.old ≡ length node.now.bids }
    ensures { AreHeard node.now.net (F.rows_of node.now.family node.now.net) node.now.bids
        node.now.node prices.now figures.old figures.new }
{
    let count = node.inst().bids.len() as u32;
    'bids: for bid in 0..count {
        let said = said_of(node, prices, bid, worths[bid as usize], value);
        let before = figures[bid as usize];
        figures[bid as usize] = before.raised(said);
    }
}

/// Raises the figures of each bid to what the leaf says of it at its prices. The bids' best walks are advanced to it. `NoMemory` is
/// its only refusal.
fn hear_leaf<F: RowFamily>(
    alloc: Global,
    node: &OpenNode<'_, F>,
    prices: &[(F::Row, i64)],
    walks: &mut [BestOnWay],
    table: &mut RestTable,
    figures: &mut [Figures],
) -> Result<(), NoMemory>
    requires instance { IsInstance node.now.net node.now.bids }
    requires ascending { AreAscending F.Row.cmp prices.now }
    requires proper { ArePrices (F.rows_of node.now.family node.now.net) prices.now }
    requires walks { AreAllBestAt F.rows_of F.rows_used node.now walks.old }
    requires count { length figures.old ≡ length node.now.bids }
    ensures walks { OnOk result (AreAllBestAt F.rows_of F.rows_used node.now walks.new) }
    ensures heard { OnOk result (AreHeard node.now.net (F.rows_of node.now.family node.now.net)
        node.now.bids node.now.node prices.now figures.old figures.new) }
{
    let latest = node.latest_rows(alloc)?;
    let worths = best_worths(alloc, node, &latest, prices, walks, table);
    drop(latest);
    let worths = worths?;
    let value = live_value(node, prices, &worths);
    raise_each(node, prices, &worths, value, figures);
    drop(worths);
    Ok(())
}

/// Raises the figures of each bid to what the item says, where it is a leaf with prices. The bids' best walks are advanced to such
/// a leaf, and to a split, below which they serve. `NoMemory` is its only refusal.
fn hear_item<F: RowFamily>(
    alloc: Global,
    node: &OpenNode<'_, F>,
    item: &Item<F::Row>,
    walks: &mut [BestOnWay],
    table: &mut RestTable,
    figures: &mut [Figures],
) -> Result<(), NoMemory>
    requires instance { IsInstance node.now.net node.now.bids }
    requires formed { IsFormedItem F.Row.cmp node.now.net (length node.now.bids) item.now }
    requires prices { HasPrices (F.rows_of node.now.family node.now.net) item.now }
    requires walks { AreAllBestAt F.rows_of F.rows_used node.now walks.old }
    requires count { length figures.old ≡ length node.now.bids }
    ensures walks { OnOk result (AreAllBestAt F.rows_of F.rows_used node.now walks.new) }
    ensures heard { OnOk result (AreHeardOf node.now.net (F.rows_of node.now.family node.now.net)
        node.now.bids node.now.node item.now figures.old figures.new) }
{
    match item {
        Item::Priced { prices } => {
            hear_leaf(alloc, node, entries(prices), walks, table, figures)
        }
        Item::Split { .. } => advance_all(alloc, node, walks, table),
        Item::NoWalk { .. } | Item::Forced { .. } => Ok(()),
    }
}

/// As [`hear_item`], of the item of the node that the room has. The best walks are turned to the node of the decisions that stay
/// after it.
fn hear<F: RowFamily>(
    alloc: Global,
    node: &OpenNode<'_, F>,
    item: &Item<F::Row>,
    walks: &mut [BestOnWay],
    depth: usize,
    table: &mut RestTable,
    figures: &mut [Figures],
) -> Result<(), NoMemory>
    requires instance { IsInstance node.now.net node.now.bids }
    requires formed { IsFormedItem F.Row.cmp node.now.net (length node.now.bids) item.now }
    requires prices { HasPrices (F.rows_of node.now.family node.now.net) item.now }
    requires depth { depth ≤ length node.now.node }
    requires walks { AreAllBestAt F.rows_of F.rows_used node.now walks.old }
    requires count { length figures.old ≡ length node.now.bids }
    ensures walks { OnOk result (AreAllBest node.now.net (F.rows_of node.now.family node.now.net)
        (F.rows_used node.now.family node.now.net) node.now.bids (take depth node.now.node)
        walks.new) }
    ensures heard { OnOk result (AreHeardOf node.now.net (F.rows_of node.now.family node.now.net)
        node.now.bids node.now.node item.now figures.old figures.new) }
{
    hear_item(alloc, node, item, walks, table, figures)?;
    turn_back_all(node, walks, depth);
    Ok(())
}

/// The figures of no leaf, for each of so many bids. `NoMemory` is its only refusal.
pub(crate) fn no_figures(alloc: Global, count: usize) -> Result<Vec<Figures>, NoMemory>
    ensures count { IfOk result (λ figures. length figures.items ≡ count) }
    ensures nothing { IfOk result (λ figures. All (λ f. f ≡ nothing_said) figures.items) }
{
    vec![in alloc; Figures::nothing(); count]
}

/// Raises the figures of each bid, which are those of no leaf, to the greatest that the tree's leaves say of it. The room has the
/// root, and the best walks are those there. `NoMemory` is its only refusal.
pub(crate) fn hear_tree<F: RowFamily>(
    alloc: Global,
    room: &mut NodeRoom<F>,
    inst: Instance<'_>,
    rows: &F,
    tree: &[Item<F::Row>],
    walks: &mut [BestOnWay],
    table: &mut RestTable,
) -> Result<Vec<Figures>, NoMemory>
    requires room { IsRoom F.Row.cmp inst.net.now (F.rows_of rows.now inst.net.now) inst.bids.now
        room.old }
    requires root { room.old.decisions.items ≡ [] }
    requires tree { IsSoundTree F.Row.cmp inst.net.now (F.rows_of rows.now inst.net.now)
        inst.bids.now tree.now }
    requires walks { AreAllBest inst.net.now (F.rows_of rows.now inst.net.now)
        (F.rows_used rows.now inst.net.now) inst.bids.now [] walks.old }
    ensures { IfOk result (λ figures. (prices_at : List Decision → PriceList F.Row)
        → AreListed (F.rows_of rows.now inst.entry.net.now) tree.now prices_at
        → AreAllMostOf inst.entry.net.now (F.rows_of rows.now inst.entry.net.now)
        inst.entry.bids.now (places tree.now) prices_at figures.items) }
{
    let mut figures = no_figures(alloc, inst.bids.len())?;
    'items: for item in tree {
        let node = OpenNode::of(inst, rows, room);
        let depth = node.depth_after(item);
        let heard = hear(alloc, &node, item, walks, depth, table, &mut figures);
        drop(node);
        heard?;
        pass(room, inst, rows, item)?;
    }
    Ok(figures)
}
