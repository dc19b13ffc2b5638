//! Whether each leaf without prices is dead: no choice that keeps the rule is of its node.
ghost use Rattle.std.specs.Prelude.{◌≡◌, ◌<◌, ◌↔◌, [], All, IsTrue, IfOk, IsSomeAnd, length, slice_get};
ghost use Rattle.optra_node.specs.Duals.{IsStuck};
ghost use Rattle.optra_node.specs.Trees.{IsTree, places};
ghost use Rattle.optra_node.specs.Certificates.{IsFormedItem, SplitsUndecided, EndsDead};
ghost use Rattle.optra_open.specs.Opens.{IsRoom};

use crate::leaf_search::best_found;
use crate::terms::offer_of;
use optra_network::NoMemory;
use optra_node::Item;
use optra_open::{NodeRoom, OpenNode, pass, root_room};
use optra_rests::RestTable;
use optra_walk::{Instance, RowFamily};
use std::alloc::Global;

/// Whether the bid has a yes leg and no allowed walk.
fn is_stuck<F: RowFamily>(
    alloc: Global,
    node: &OpenNode<'_, F>,
    bid: u32,
    table: &mut RestTable,
) -> Result<bool, NoMemory>
    requires bid { bid < length node.now.bids }
    ensures { IfOk result (λ stuck. IsTrue stuck ↔ IsSomeAnd (slice_get node.now.bids bid) (λ b.
        IsStuck node.now.net (F.rows_of node.now.family node.now.net) node.now.bids node.now.node
        bid b)) }
{
    let prices: [(F::Row, i64); 0] = [];
    let best = best_found(alloc, node, &prices, bid, table)?;
    Ok(offer_of(node, &prices, bid, best).is_none())
}

/// Whether the item is a split, has prices, or is a dead leaf.
fn ends_dead<F: RowFamily>(
    alloc: Global,
    node: &OpenNode<'_, F>,
    item: &Item<F::Row>,
    table: &mut RestTable,
) -> Result<bool, NoMemory>
    requires formed { IsFormedItem F.Row.cmp node.now.net (length node.now.bids) item.now }
    ensures { IfOk result (λ dead. IsTrue dead ↔ EndsDead node.now.net (F.rows_of node.now.family
        node.now.net) node.now.bids node.now.node item.now) }
{
    match item {
        Item::NoWalk { bid } => is_stuck(alloc, node, *bid, table),
        Item::Forced { row } => Ok(node.is_overfull(*row)),
        Item::Split { .. } | Item::Priced { .. } => Ok(true),
    }
}

/// As [`leaves_hold`], from the root on, which the room has.
fn leaves_hold_from<F: RowFamily>(
    alloc: Global,
    room: &mut NodeRoom<F>,
    inst: Instance<'_>,
    rows: &F,
    tree: &[Item<F::Row>],
    table: &mut RestTable,
) -> Result<bool, NoMemory>
    requires room { IsRoom F.Row.cmp inst.net.now (F.rows_of rows.now inst.net.now) inst.bids.now
        room.old }
    requires root { room.old.decisions.items ≡ [] }
    requires whole { IsTree tree.now }
    requires items { All (IsFormedItem F.Row.cmp inst.net.now (length inst.bids.now)) tree.now }
    requires splits { All (λ p. SplitsUndecided p.0 p.1) (places tree.now) }
    ensures { IfOk result (λ hold. IsTrue hold
        ↔ All (λ p. EndsDead inst.entry.net.now (F.rows_of rows.now inst.entry.net.now)
        inst.entry.bids.now p.0 p.1) (places tree.now)) }
{
    'items: for item in tree {
        let node = OpenNode::of(inst, rows, room);
        let dead = ends_dead(alloc, &node, item, table);
        drop(node);
        if !dead? {
            return Ok(false);
        }
        pass(room, inst, rows, item)?;
    }
    Ok(true)
}

/// Whether each leaf without prices is dead. The table is room for searches.
pub(crate) fn leaves_hold<F: RowFamily>(
    alloc: Global,
    inst: Instance<'_>,
    rows: &F,
    tree: &[Item<F::Row>],
    table: &mut RestTable,
) -> Result<bool, NoMemory>
    requires whole { IsTree tree.now }
    requires items { All (IsFormedItem F.Row.cmp inst.net.now (length inst.bids.now)) tree.now }
    requires splits { All (λ p. SplitsUndecided p.0 p.1) (places tree.now) }
    ensures { IfOk result (λ hold. IsTrue hold
        ↔ All (λ p. EndsDead inst.entry.net.now (F.rows_of rows.now inst.entry.net.now)
        inst.entry.bids.now p.0 p.1) (places tree.now)) }
{
    let mut room = root_room(alloc, inst, rows)?;
    let hold = leaves_hold_from(alloc, &mut room, inst, rows, tree, table);
    drop(room);
    hold
}
