//! Open nodes, as a stack. A node is not copied: it shares decisions with the node that was taken last.
ghost use Rattle.std.specs.Prelude.{◌≡◌, ◌≤◌, ◌++◌, length, take, OnOk};
ghost use Rattle.std.specs.Option.{option_to_list};

use optra_network::NoMemory;
use optra_node::{Decision, Node, Prices};

/// A node that waits: the first decisions that it shares with the node taken last, what it decides itself, and the prices
/// at which it starts.
#[derive(Drop)]
pub(crate) struct Waiting<R> {
    pub(crate) depth: usize,
    /// `None` at the root.
    pub(crate) decision: Option<Decision>,
    /// `None` at a yes child, which starts where the no child below it starts, and at the root, which starts at zero
    /// prices.
    pub(crate) start: Option<Prices<R>>,
}

/// Goes from the node taken last to a waiting node, by what it shares and what it decides itself.
pub(crate) fn enter(
    node: &mut Node,
    depth: usize,
    decision: Option<Decision>,
) -> Result<(), NoMemory>
    requires { depth ≤ length node.old }
    ensures { OnOk result (node.new ≡ take depth node.old ++ option_to_list decision) }
{
    node.decisions.truncate(depth);
    if let Some(decision) = decision {
        node.decisions.push(decision)?;
    }
    Ok(())
}
