//! The decisions of a node, by the bids that they are for.
ghost use Rattle.std.specs.Prelude.{◌≡◌, ◌<◌, ◌↔◌, All, IsTrue, IfOk, map, length, replicate, []};
ghost use Rattle.std.specs.List.{list_any};
ghost use Rattle.optra_node.specs.Nodes.{IsNode, kind_at, has_yes};
ghost use Rattle.optra_node.specs.Spans.{IsLetBy, IsStartOk};
ghost use Rattle.optra_node.specs.OwnDecisions.{decisions_for, AreAt, AreByBid, ArePlacesByBid};

use crate::loads::kind_at;
use crate::spans::{let_by, start_ok};
use crate::{Decision, Node};
use optra_network::{Minute, NoMemory};
use optra_walk::{Instance, Leg, RowFamily};
use std::alloc::Global;
use std::marker::Model;

/// A node of an instance, with the decisions for each bid in a list of their own, and their places in the node in another. It
/// is made once for a node, and answers what a bid's own decisions let its walk have without going over those of the others.
/// What the yes legs of the others leave to it is not asked here.
#[derive(Drop)]
pub struct OwnDecisions<'a, F: RowFamily> {
    inst: Instance<'a>,
    rows: &'a F,
    node: &'a Node,
    own: Vec<Vec<Decision>>,
    places: Vec<Vec<usize>>,
}

impl<'a, F: RowFamily> Model for OwnDecisions<'a, F> {
    ghost use Rattle.std.specs.Prelude.{map, length};
    ghost use Rattle.optra_node.specs.Nodes.{InstanceNode};
    ghost use Rattle.optra_node.specs.OwnDecisions.{AreByBid, ArePlacesByBid};

    ghost Value = { InstanceNode F };

    ghost view = { λ a. record { family = a.rows.now; net = a.inst.net.now; bids = a.inst.bids.now; node = a.node.now } };

    ghost invariant = { λ a. AreByBid (length a.inst.bids.now) a.node.now (map (λ v. v.items) a.own.items)
        × ArePlacesByBid (length a.inst.bids.now) a.node.now a.node.now (map (λ v. v.items) a.places.items) };
}

/// So many empty lists.
fn empty_lists<T: Copy>(alloc: Global, count: usize) -> Result<Vec<Vec<T>>, NoMemory>
    ensures { IfOk result (λ lists. map (λ list. list.items) lists.items ≡ replicate count []) }
{
    let mut lists = Vec::with_capacity(alloc, count)?;
    'lists: for _ in 0..count {
        lists.push(Vec::new(alloc))?;
    }
    Ok(lists)
}

/// For each bid, the decisions for it.
fn by_bid(
    alloc: Global,
    bids: usize,
    decisions: &[Decision],
) -> Result<Vec<Vec<Decision>>, NoMemory>
    requires { All (λ d. d.bid < bids) decisions.now }
    ensures { IfOk result (λ lists. AreByBid bids decisions.now (map (λ list. list.items)
        lists.items)) }
{
    let mut lists = empty_lists(alloc, bids)?;
    for place in 0..decisions.len() {
        let decision = decisions[place];
        lists[decision.bid as usize].push(decision)?;
    }
    Ok(lists)
}

/// For each bid, the places of the decisions for it.
fn places_by_bid(
    alloc: Global,
    bids: usize,
    decisions: &[Decision],
) -> Result<Vec<Vec<usize>>, NoMemory>
    requires { All (λ d. d.bid < bids) decisions.now }
    ensures { IfOk result (λ lists. ArePlacesByBid bids decisions.now decisions.now
        (map (λ list. list.items) lists.items)) }
{
    let mut lists = empty_lists(alloc, bids)?;
    for place in 0..decisions.len() {
        lists[decisions[place].bid as usize].push(place)?;
    }
    Ok(lists)
}

/// Whether one of the decisions is a yes.
fn any_yes(decisions: &[Decision]) -> bool
    ensures { result ≡ list_any (λ d. d.yes) decisions.now }
{
    decisions.iter().any(|d| d.yes)
}

impl<'a, F: RowFamily> OwnDecisions<'a, F> {
    ghost use Rattle.optra_node.specs.Nodes.{instance_node};

    /// The decisions of a node, by bid. `NoMemory` is its only refusal.
    pub fn new(
        alloc: Global,
        inst: Instance<'a>,
        rows: &'a F,
        node: &'a Node,
    ) -> Result<OwnDecisions<'a, F>, NoMemory>
        requires { IsNode inst.net.now (length inst.bids.now) node.now }
        ensures { IfOk result (λ own. own
            ≡ instance_node rows.now inst.entry.net.now inst.entry.bids.now node.now) }
    {
        let own = by_bid(alloc, inst.bids.len(), &node.decisions)?;
        let places = places_by_bid(alloc, inst.bids.len(), &node.decisions)?;
        Ok(OwnDecisions {
            inst,
            rows,
            node,
            own,
            places,
        })
    }

    /// The decisions for a bid, in the node's order.
    pub fn own(&self, bid: u32) -> &[Decision]
        requires { bid < length self.now.bids }
        ensures { result.now ≡ decisions_for self.now.node bid }
    {
        &self.own[bid as usize]
    }

    /// The places of the decisions for a bid, in the node's order.
    pub fn places(&self, bid: u32) -> &[usize]
        requires { bid < length self.now.bids }
        ensures { AreAt self.now.node result.now (decisions_for self.now.node bid) }
    {
        &self.places[bid as usize]
    }

    /// As [`Node::start_ok`] of the node.
    pub fn start_ok(&self, bid: u32, minute: Minute) -> bool
        requires { bid < length self.now.bids }
        ensures { IsTrue result ↔ IsStartOk self.now.node bid minute }
    {
        start_ok(self.own(bid), bid, minute)
    }

    /// Whether each decision for the bid lets its walk have the leg.
    pub fn let_by(&self, bid: u32, leg: Leg) -> bool
        requires { bid < length self.now.bids }
        ensures { IsTrue result ↔ IsLetBy self.now.net self.now.node bid (kind_at self.now.bids bid)
            leg }
    {
        let inst = self.inst;
        let_by(inst.net, kind_at(inst, bid), self.own(bid), bid, leg)
    }

    /// Whether the bid has a yes leg.
    pub fn has_yes(&self, bid: u32) -> bool
        requires { bid < length self.now.bids }
        ensures { result ≡ has_yes self.now.node bid }
    {
        any_yes(self.own(bid))
    }
}
