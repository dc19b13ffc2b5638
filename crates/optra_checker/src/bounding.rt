//! Whether the stated bound is the greatest bound of the leaves with prices.
ghost use Rattle.std.specs.Prelude.{◌≡◌, ◌↔◌, [], IsTrue, IfOk, OnOk, Some, ◌≤◌, length, take};
ghost use Rattle.optra_bid.specs.Instances.{IsInstance};
ghost use Rattle.optra_node.specs.Trees.{places};
ghost use Rattle.optra_node.specs.Certificates.{IsFormedItem, HasPrices, IsGreatestBound};
ghost use Rattle.optra_checker.specs.BestOnWay.{AreAllBest, AreAllBestAt};
ghost use Rattle.optra_checker.specs.Bounds.{IsItemBound, IsGreatestOf, IsSoundTree};
ghost use Rattle.optra_open.specs.Opens.{IsRoom};

use crate::all_best::{advance_all, turn_back_all};
use crate::best_on_way::BestOnWay;
use crate::frees::find_frees;
use crate::terms::leaf_bound;
use optra_network::{Cents, NoMemory};
use optra_node::{Item, Prices};
use optra_open::{NodeRoom, OpenNode, pass, root_room};
use optra_rests::{RestTable, greater};
use optra_walk::{Instance, RowFamily};
use std::alloc::Global;

/// The entries of prices.
fn entries<R>(prices: &Prices<R>) -> &[(R, i64)]
    ensures { result.now ≡ prices.now }
{
    &prices.entries
}

/// The bound of a leaf with prices, in whole cents; none of any other item. The bids' best walks are
/// advanced to a leaf with prices, and to a split, below which they serve. `NoMemory` is its only
/// refusal.
fn item_bound<F: RowFamily>(
    alloc: Global,
    node: &OpenNode<'_, F>,
    item: &Item<F::Row>,
    walks: &mut [BestOnWay],
    table: &mut RestTable,
) -> Result<Option<i128>, NoMemory>
    requires instance { IsInstance node.now.net node.now.bids }
    requires formed { IsFormedItem F.Row.cmp node.now.net (length node.now.bids) item.now }
    requires prices { HasPrices (F.rows_of node.now.family node.now.net) item.now }
    requires walks { AreAllBestAt F.rows_of F.rows_used node.now walks.old }
    ensures walks { OnOk result (AreAllBestAt F.rows_of F.rows_used node.now walks.new) }
    ensures bound { IfOk result (IsItemBound node.now.net (F.rows_of node.now.family node.now.net)
        node.now.bids node.now.node item.now) }
{
    match item {
        Item::Priced { prices } => {
            let cents = leaf_bound(alloc, node, entries(prices), walks, table)?;
            Ok(Some(cents))
        }
        Item::Split { .. } => {
            advance_all(alloc, node, walks, table)?;
            Ok(None)
        }
        Item::NoWalk { .. } | Item::Forced { .. } => Ok(None),
    }
}

/// As [`item_bound`], of the item of the node that the room has. The best walks are turned to the
/// node of the decisions that stay after it.
fn bound_of<F: RowFamily>(
    alloc: Global,
    node: &OpenNode<'_, F>,
    item: &Item<F::Row>,
    walks: &mut [BestOnWay],
    depth: usize,
    table: &mut RestTable,
) -> Result<Option<i128>, NoMemory>
    requires instance { IsInstance node.now.net node.now.bids }
    requires formed { IsFormedItem F.Row.cmp node.now.net (length node.now.bids) item.now }
    requires prices { HasPrices (F.rows_of node.now.family node.now.net) item.now }
    requires depth { depth ≤ length node.now.node }
    requires walks { AreAllBestAt F.rows_of F.rows_used node.now walks.old }
    ensures walks { OnOk result (AreAllBest node.now.net (F.rows_of node.now.family node.now.net)
        (F.rows_used node.now.family node.now.net) node.now.bids (take depth node.now.node)
        walks.new) }
    ensures bound { IfOk result (IsItemBound node.now.net (F.rows_of node.now.family node.now.net)
        node.now.bids node.now.node item.now) }
{
    let cents = item_bound(alloc, node, item, walks, table)?;
    turn_back_all(node, walks, depth);
    Ok(cents)
}

/// As [`greatest_bound`], from the root on, which the room has.
fn greatest_from<F: RowFamily>(
    alloc: Global,
    room: &mut NodeRoom<F>,
    inst: Instance<'_>,
    rows: &F,
    tree: &[Item<F::Row>],
    walks: &mut [BestOnWay],
    table: &mut RestTable,
) -> Result<Option<i128>, NoMemory>
    requires room { IsRoom F.Row.cmp inst.net.now (F.rows_of rows.now inst.net.now) inst.bids.now
        room.old }
    requires root { room.old.decisions.items ≡ [] }
    requires tree { IsSoundTree F.Row.cmp inst.net.now (F.rows_of rows.now inst.net.now)
        inst.bids.now tree.now }
    requires walks { AreAllBest inst.net.now (F.rows_of rows.now inst.net.now)
        (F.rows_used rows.now inst.net.now) inst.bids.now [] walks.old }
    ensures { IfOk result (IsGreatestOf inst.entry.net.now (F.rows_of rows.now inst.entry.net.now)
        inst.entry.bids.now (places tree.now)) }
{
    let mut greatest = None;
    'items: for item in tree {
        let node = OpenNode::of(inst, rows, room);
        let depth = node.depth_after(item);
        let cents = bound_of(alloc, &node, item, walks, depth, table);
        drop(node);
        greatest = greater(greatest, cents?);
        pass(room, inst, rows, item)?;
    }
    Ok(greatest)
}

/// As [`greatest_bound`], with the best walks at the root at hand.
fn greatest_by<F: RowFamily>(
    alloc: Global,
    inst: Instance<'_>,
    rows: &F,
    tree: &[Item<F::Row>],
    walks: &mut [BestOnWay],
    table: &mut RestTable,
) -> Result<Option<i128>, NoMemory>
    requires tree { IsSoundTree F.Row.cmp inst.net.now (F.rows_of rows.now inst.net.now)
        inst.bids.now tree.now }
    requires walks { AreAllBest inst.net.now (F.rows_of rows.now inst.net.now)
        (F.rows_used rows.now inst.net.now) inst.bids.now [] walks.old }
    ensures { IfOk result (IsGreatestOf inst.entry.net.now (F.rows_of rows.now inst.entry.net.now)
        inst.entry.bids.now (places tree.now)) }
{
    let mut room = root_room(alloc, inst, rows)?;
    let greatest = greatest_from(alloc, &mut room, inst, rows, tree, walks, table);
    drop(room);
    greatest
}

/// The greatest bound of the leaves with prices, in whole cents; `None` where there is no such
/// leaf.
fn greatest_bound<F: RowFamily>(
    alloc: Global,
    inst: Instance<'_>,
    rows: &F,
    tree: &[Item<F::Row>],
    table: &mut RestTable,
) -> Result<Option<i128>, NoMemory>
    requires { IsSoundTree F.Row.cmp inst.net.now (F.rows_of rows.now inst.net.now)
        inst.bids.now tree.now }
    ensures { IfOk result (IsGreatestOf inst.entry.net.now (F.rows_of rows.now inst.entry.net.now)
        inst.entry.bids.now (places tree.now)) }
{
    let mut walks = find_frees(alloc, inst, rows, table)?;
    let greatest = greatest_by(alloc, inst, rows, tree, &mut walks, table);
    drop(walks);
    greatest
}

/// Whether there is a number and it is the stated one.
fn is_stated(greatest: Option<i128>, stated: Cents) -> bool
    ensures { IsTrue result ↔ (greatest ≡ Some stated) }
{
    match greatest {
        Some(cents) => cents == i128::from(stated),
        None => false,
    }
}

/// Whether the stated bound, in cents, is the greatest bound of the leaves with prices. The table is
/// room for searches.
pub(crate) fn bound_holds<F: RowFamily>(
    alloc: Global,
    inst: Instance<'_>,
    rows: &F,
    tree: &[Item<F::Row>],
    stated: Cents,
    table: &mut RestTable,
) -> Result<bool, NoMemory>
    requires { IsSoundTree F.Row.cmp inst.net.now (F.rows_of rows.now inst.net.now)
        inst.bids.now tree.now }
    ensures { IfOk result (λ holds. IsTrue holds ↔ IsGreatestBound inst.entry.net.now (F.rows_of
        rows.now inst.entry.net.now) inst.entry.bids.now tree.now stated) }
{
    let greatest = greatest_bound(alloc, inst, rows, tree, table)?;
    Ok(is_stated(greatest, stated))
}
