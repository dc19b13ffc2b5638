//! Which decisions let a walk have a leg, and a start.
//!
//! The span of a leg runs from its departure up to, but not including, its next departure; the span of Finish has no end.
//! The spans of a walk tile the time from its first departure on, so a walk has a yes leg exactly where it starts no later
//! than that leg departs, and no other leg of it has a span that holds that minute.
ghost use Rattle.std.specs.Prelude.{◌≡◌, ℕ, ◌≤◌, ◌<◌, ◌↔◌, IsTrue, IfSome, All, true};
ghost use Rattle.optra_node.specs.Nodes.{IsUndecided};
ghost use Rattle.optra_node.specs.Spans.{HoldsMinute, Lets, IsLetBy, IsStartOk};

use crate::Decision;
use optra_network::{Minute, Network, TypeId};
use optra_walk::{Leg, next_depart};

/// Whether the minute is before the end, where there is one.
fn is_before(minute: Minute, end: Option<u32>) -> bool
    ensures { IsTrue result ↔ IfSome end (λ next. minute < next) }
{
    match end {
        Some(end) => u32::from(minute) < end,
        None => true,
    }
}

/// Whether the span of the leg holds the minute.
fn holds_minute(net: &Network, kind: TypeId, leg: Leg, minute: Minute) -> bool
    ensures { IsTrue result ↔ HoldsMinute net.now kind leg minute }
{
    leg.depart <= minute && is_before(minute, next_depart(net, kind, leg))
}

/// Whether a decision for the bid lets its walk have the leg.
fn lets(net: &Network, kind: TypeId, decision: Decision, leg: Leg) -> bool
    ensures { IsTrue result ↔ Lets net.now kind decision leg }
{
    if decision.leg == leg {
        decision.yes
    } else {
        !decision.yes || !holds_minute(net, kind, leg, decision.leg.depart)
    }
}

/// Whether the decision is for another bid, or lets the walk have the leg.
fn agrees(net: &Network, kind: TypeId, decision: Decision, bid: u32, leg: Leg) -> bool
    ensures { IsTrue result ↔ (decision.bid ≡ bid → Lets net.now kind decision leg) }
{
    decision.bid != bid || lets(net, kind, decision, leg)
}

/// Whether no decision is of the leg for the bid.
pub fn is_undecided(decisions: &[Decision], bid: u32, leg: Leg) -> bool
    ensures { IsTrue result ↔ IsUndecided decisions.now bid leg }
{
    for decision in decisions {
        if decision.bid == bid && decision.leg == leg {
            return false;
        }
    }
    true
}

/// Whether each decision for the bid lets its walk have the leg.
pub fn let_by(net: &Network, kind: TypeId, decisions: &[Decision], bid: u32, leg: Leg) -> bool
    ensures { IsTrue result ↔ IsLetBy net.now decisions.now bid kind leg }
{
    for decision in decisions {
        if !agrees(net, kind, *decision, bid, leg) {
            return false;
        }
    }
    true
}

/// Whether no yes leg of the bid departs before the minute.
pub fn start_ok(decisions: &[Decision], bid: u32, minute: Minute) -> bool
    ensures { IsTrue result ↔ IsStartOk decisions.now bid minute }
{
    for decision in decisions {
        if decision.bid == bid && decision.yes && decision.leg.depart < minute {
            return false;
        }
    }
    true
}
