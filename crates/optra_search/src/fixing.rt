//! Legs that a node fixes: the yes legs of a bid.
ghost use Rattle.std.specs.Prelude.{◌≡◌, ◌&&◌};
ghost use Rattle.optra_node.specs.Nodes.{is_yes_for};
ghost use Rattle.optra_search.specs.Splits.{same_leg, is_fixed};

use optra_node::{Decision, Node};
use optra_walk::Leg;

/// Whether two legs are the same.
fn is_same(a: Leg, b: Leg) -> bool
    ensures { result ≡ same_leg a b }
{
    a == b
}

/// Whether the decision makes the leg a yes leg of the bid.
fn fixes(decision: Decision, bid: u32, leg: Leg) -> bool
    ensures { result ≡ (is_yes_for bid decision && same_leg decision.leg leg) }
{
    decision.yes && decision.bid == bid && is_same(decision.leg, leg)
}

/// Whether the leg is a yes leg of the bid.
pub(crate) fn is_fixed(node: &Node, bid: u32, leg: Leg) -> bool
    ensures { result ≡ is_fixed node.now bid leg }
{
    node.decisions.iter().any(|d| fixes(*d, bid, leg))
}
