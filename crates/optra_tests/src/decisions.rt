//! Nodes, by the legs that are decided on one track from A to B.
ghost use Rattle.std.specs.Prelude.{◌≡◌, IfOk, length};
ghost use Rattle.optra_node.specs.Nodes.{IsNode};

use optra_network::{Minute, NoMemory, TrackId};
use optra_node::{Decision, Node, is_formed_leg};
use optra_walk::{Action, Instance, Leg};
use std::process::Abort;

/// The track from A to B.
pub const AB: TrackId = TrackId(0);

/// A leg over the track that departs at a minute.
#[derive(Clone, Copy, Debug)]
pub enum At {
    /// From a stand at A, and it ends at B.
    Halt(Minute),
    /// The train passes A, and it ends at B.
    Pass(Minute),
    /// From a stand at A, and the train passes B.
    Out(Minute),
    /// The train passes A and B.
    Through(Minute),
    /// From a stand at A, and the train halts at B for three minutes.
    Stop(Minute),
}

/// A bid, its leg, and whether its walk must have it.
pub type Decided = (u32, At, bool);

pub fn leg(at: At) -> Leg {
    let (depart, from_halt, action) = match at {
        At::Halt(depart) => (depart, true, Action::Finish),
        At::Pass(depart) => (depart, false, Action::Finish),
        At::Out(depart) => (depart, true, Action::Pass),
        At::Through(depart) => (depart, false, Action::Pass),
        At::Stop(depart) => (depart, true, Action::Halt(3)),
    };
    Leg {
        track: AB,
        depart,
        from_halt,
        action,
    }
}

/// The node with one more decision.
fn with(
    rt: &(impl Abort + AllocGlobal),
    inst: Instance<'_>,
    node: &Node,
    decided: Decided,
) -> Result<Node, NoMemory>
    requires { IsNode inst.net.now (length inst.bids.now) node.now }
    ensures { IfOk result (λ child. IsNode inst.entry.net.now (length inst.entry.bids.now) child) }
{
    let (bid, at, yes) = decided;
    let leg = leg(at);
    assert!(rt; (bid as usize) < inst.bids.len());
    assert!(rt; is_formed_leg(inst.net, leg));
    assert!(rt; node.is_undecided(bid, leg));
    let child = node.child(rt.alloc(), Decision { bid, leg, yes })?;
    Ok(child)
}

/// The node with the decisions.
pub fn node_of(
    rt: &(impl Abort + AllocGlobal),
    inst: Instance<'_>,
    decisions: &[Decided],
) -> Result<Node, NoMemory>
    ensures { IfOk result (λ node. IsNode inst.entry.net.now (length inst.entry.bids.now) node) }
{
    let mut node = Node::root(rt.alloc());
    for decision in decisions {
        node = with(rt, inst, &node, *decision)?;
    }
    Ok(node)
}
