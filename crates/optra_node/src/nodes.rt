//! What a node allows.
ghost use Rattle.std.specs.Prelude.{◌≡◌, ◌<◌, ◌↔◌, ◌++◌, ◌∷◌, [], IsTrue, IfOk, length, ℕ};
ghost use Rattle.optra_node.specs.Nodes.{IsNode, IsFormedLeg, IsFormedDecision, IsUndecided, kind_at, IsOverfull, IsBlocked, IsLeastOrNone};
ghost use Rattle.optra_network.specs.Net.{Net};
ghost use Rattle.optra_node.specs.Spans.{IsLegOk, IsStartOk};

use crate::blocking::{is_blocked, least_overfull};
use crate::loads::kind_at;
use crate::spans::{is_undecided, let_by, start_ok};
use crate::{Decision, Node};
use optra_network::{Minute, Network, NoMemory};
use optra_walk::{Instance, Leg, RowFamily};
use std::alloc::Global;

/// Whether the leg is one that may be decided: its track is one of the network, it departs by minute 2,879, and its dwell
/// is at most 240 minutes. The calls of a node need legs of which this holds.
pub fn is_formed_leg(net: &Network, leg: Leg) -> bool
    ensures { IsTrue result ↔ IsFormedLeg net.now leg }
{
    leg.track.0 < net.track_count() && leg.depart <= 2879 && leg.action.dwell() <= 240
}

impl Node {
    /// The root of the search: the node without decisions.
    pub fn root(alloc: Global) -> Node
        ensures value { result ≡ [] }
        ensures node { (net : Net) (bids : ℕ) → IsNode net bids result }
    {
        Node {
            decisions: Vec::new(alloc),
        }
    }

    /// Whether a walk of the bid may have the leg: each decision for the bid lets it have the leg, and the leg is not
    /// blocked. A no leg is refused itself. A yes leg that departs at a minute refuses each other leg whose span holds
    /// that minute; a span runs from the departure up to, but not including, the next departure, and that of Finish has
    /// no end.
    ///
    /// A timed walk of the bid is allowed at the node exactly where this holds of each of its legs and [`Node::start_ok`]
    /// of its first departure: [`crate::tests_tell_allowed`].
    pub fn leg_ok<F: RowFamily>(&self, inst: Instance<'_>, rows: &F, bid: u32, leg: Leg) -> bool
        requires node { IsNode inst.net.now (length inst.bids.now) self.now }
        requires bid { bid < length inst.bids.now }
        requires leg { IsFormedLeg inst.net.now leg }
        ensures { IsTrue result ↔ IsLegOk inst.entry.net.now (F.rows_of rows.now inst.entry.net.now)
            inst.entry.bids.now self.now bid (kind_at inst.entry.bids.now bid) leg }
    {
        let_by(inst.net, kind_at(inst, bid), &self.decisions, bid, leg)
            && !is_blocked(inst, rows, &self.decisions, bid, leg)
    }

    /// Whether a walk of the bid may start at the minute: no yes leg of the bid departs before it.
    pub fn start_ok(&self, inst: Instance<'_>, bid: u32, minute: Minute) -> bool
        requires node { IsNode inst.net.now (length inst.bids.now) self.now }
        requires bid { bid < length inst.bids.now }
        ensures { IsTrue result ↔ IsStartOk self.now bid minute }
    {
        let _ = inst;
        start_ok(&self.decisions, bid, minute)
    }

    /// Whether the leg of the bid is blocked: it uses a row of which it and the yes legs of the other bids use more than
    /// the capacity. A leg whose track the bid's type may not use is never blocked.
    pub fn blocked<F: RowFamily>(&self, inst: Instance<'_>, rows: &F, bid: u32, leg: Leg) -> bool
        requires node { IsNode inst.net.now (length inst.bids.now) self.now }
        requires bid { bid < length inst.bids.now }
        requires leg { IsFormedLeg inst.net.now leg }
        ensures { IsTrue result ↔ IsBlocked (F.rows_of rows.now inst.entry.net.now)
            inst.entry.bids.now self.now bid (kind_at inst.entry.bids.now bid) leg }
    {
        is_blocked(inst, rows, &self.decisions, bid, leg)
    }

    /// The least row of which the yes legs alone use more than the capacity. `None` exactly where there is no such row.
    pub fn overfull<F: RowFamily>(&self, inst: Instance<'_>, rows: &F) -> Option<F::Row>
        requires { IsNode inst.net.now (length inst.bids.now) self.now }
        ensures { IsLeastOrNone F.Row.cmp (IsOverfull (F.rows_of rows.now inst.entry.net.now)
            inst.entry.bids.now self.now) result }
    {
        least_overfull(inst, rows, &self.decisions)
    }

    /// Whether the leg is not decided yet for the bid.
    pub fn is_undecided(&self, bid: u32, leg: Leg) -> bool
        ensures { IsTrue result ↔ IsUndecided self.now bid leg }
    {
        is_undecided(&self.decisions, bid, leg)
    }

    /// The node with one more decision, of a leg that is not decided yet for its bid. It is a node of the same bids where
    /// this one is, and the decision is of one of them and of a formed leg. `NoMemory` is its only refusal.
    pub fn child(&self, alloc: Global, decision: Decision) -> Result<Node, NoMemory>
        requires { IsUndecided self.now decision.bid decision.leg }
        ensures value { IfOk result (λ child. child ≡ self.now ++ decision ∷ []) }
        ensures node { (net : Net) (bids : ℕ) → IsNode net bids self.now
            → IsFormedDecision net bids decision → IfOk result (IsNode net bids) }
    {
        let mut decisions = Vec::with_capacity(alloc, self.decisions.len() + 1)?;
        decisions.extend_from_slice(&self.decisions)?;
        decisions.push(decision)?;
        Ok(Node { decisions })
    }
}
