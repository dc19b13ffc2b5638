//! Whether each split of a tree is of a leg that is not decided yet.
ghost use Rattle.std.specs.Prelude.{◌≡◌, ◌↔◌, [], All, IsTrue, IfOk, length};
ghost use Rattle.optra_node.specs.Trees.{IsTree, places};
ghost use Rattle.optra_node.specs.Certificates.{IsFormedItem, SplitsUndecided};
ghost use Rattle.optra_open.specs.Opens.{IsRoom};

use optra_network::NoMemory;
use optra_node::Item;
use optra_open::{NodeRoom, OpenNode, pass, root_room};
use optra_walk::{Instance, RowFamily};
use std::alloc::Global;

/// Whether the item is no split, or one of a leg that is not decided yet for its bid.
fn is_fresh<F: RowFamily>(node: &OpenNode<'_, F>, item: &Item<F::Row>) -> bool
    requires { IsFormedItem F.Row.cmp node.now.net (length node.now.bids) item.now }
    ensures { IsTrue result ↔ SplitsUndecided node.now.node item.now }
{
    match item {
        Item::Split { bid, leg } => node.is_undecided(*bid, *leg),
        Item::NoWalk { .. } | Item::Forced { .. } | Item::Priced { .. } => true,
    }
}

/// As [`splits_hold`], from the root on, which the room has.
fn splits_hold_from<F: RowFamily>(
    room: &mut NodeRoom<F>,
    inst: Instance<'_>,
    rows: &F,
    tree: &[Item<F::Row>],
) -> Result<bool, NoMemory>
    requires room { IsRoom F.Row.cmp inst.net.now (F.rows_of rows.now inst.net.now) inst.bids.now
        room.old }
    requires root { room.old.decisions.items ≡ [] }
    requires whole { IsTree tree.now }
    requires items { All (IsFormedItem F.Row.cmp inst.net.now (length inst.bids.now)) tree.now }
    ensures { IfOk result (λ hold. IsTrue hold
        ↔ All (λ p. SplitsUndecided p.0 p.1) (places tree.now)) }
{
    'items: for item in tree {
        let node = OpenNode::of(inst, rows, room);
        let fresh = is_fresh(&node, item);
        drop(node);
        if !fresh {
            return Ok(false);
        }
        pass(room, inst, rows, item)?;
    }
    Ok(true)
}

/// Whether each split is of a leg that is not decided yet for its bid on the way from the root.
pub(crate) fn splits_hold<F: RowFamily>(
    alloc: Global,
    inst: Instance<'_>,
    rows: &F,
    tree: &[Item<F::Row>],
) -> Result<bool, NoMemory>
    requires whole { IsTree tree.now }
    requires items { All (IsFormedItem F.Row.cmp inst.net.now (length inst.bids.now)) tree.now }
    ensures { IfOk result (λ hold. IsTrue hold
        ↔ All (λ p. SplitsUndecided p.0 p.1) (places tree.now)) }
{
    let mut room = root_room(alloc, inst, rows)?;
    let hold = splits_hold_from(&mut room, inst, rows, tree);
    drop(room);
    hold
}
