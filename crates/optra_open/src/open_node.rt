//! The node at hand while a tree is gone through: what it says, and tests by which a search that goes on from what was known
//! before saves work.
ghost use Rattle.std.specs.Prelude.{◌≡◌, ◌-◌, ◌<◌, ◌≤◌, ◌↔◌, [], All, IsTrue, IfOk, IfSome, false, length, slice_get, true};
ghost use Rattle.std.specs.List.{list_any};
ghost use Rattle.optra_network.specs.Net.{IsProper};
ghost use Rattle.optra_node.specs.Nodes.{IsFormedLeg, IsUndecided, IsOverfull, IsBlocked, kind_at, has_yes};
ghost use Rattle.optra_node.specs.Spans.{IsLegOk, IsLetBy};
ghost use Rattle.optra_node.specs.OwnDecisions.{decisions_for};
ghost use Rattle.optra_walk.specs.Families.{IsUsable};
ghost use Rattle.optra_node.specs.Duals.{PriceList, ArePrices, leg_price, capacity_price};
ghost use Rattle.optra_node.specs.Certificates.{AreAscending};
ghost use Rattle.optra_open.specs.Loaded.{AreLatestAt, AreRising, AreLoaded, AreUsed, KeepsOff};
ghost use Rattle.optra_open.specs.NodeWeights.{weights_at};
ghost use Rattle.optra_open.specs.Keyed.{yes_part};
ghost use Rattle.optra_rests.specs.Sizes.{IsLegPrice, IsCapacityPrice};
ghost use Rattle.optra_open.specs.Tests.{may_have_leg, may_start_at};
ghost use Rattle.optra_open.specs.ToCome.{AreKept};
ghost use Rattle.optra_rests.specs.Weights.{AreAlike};

use crate::blocked_legs::is_blocked_beside;
use crate::decision_uses::rows_of_decision;
use crate::leaf_prices::{capacity_price, leg_price};
use crate::loaded::{all_keep_off, keeps_off, loaded_rows};
use crate::node_room::{NodeRoom, depth_after};
use optra_network::{Minute, NoMemory};
use optra_node::{Decision, Item, kind_at, start_ok};
use optra_walk::{Instance, Leg, RowFamily};
use std::alloc::Global;
use std::marker::Model;

/// A node of an instance, as its room has it. From the room it answers what the calls of
/// [`optra_node::Node`] answer.
#[derive(Drop)]
pub struct OpenNode<'a, F: RowFamily> {
    inst: Instance<'a>,
    rows: &'a F,
    room: &'a NodeRoom<F>,
}

impl<'a, F: RowFamily> Model for OpenNode<'a, F> {
    ghost use Rattle.optra_node.specs.Nodes.{InstanceNode};
    ghost use Rattle.optra_open.specs.Opens.{IsRoom};

    ghost Value = { InstanceNode F };

    ghost view = { λ a. record { family = a.rows.now; net = a.inst.net.now; bids = a.inst.bids.now; node = a.room.now.decisions.items } };

    ghost invariant = { λ a. IsRoom F.Row.cmp a.inst.net.now (F.rows_of a.rows.now a.inst.net.now) a.inst.bids.now a.room.now };
}

/// Whether one of the decisions is a yes.
fn any_yes(decisions: &[Decision]) -> bool
    ensures { result ≡ list_any (λ d. d.yes) decisions.now }
{
    decisions.iter().any(|decision| decision.yes)
}

/// Whether there is no decision.
fn has_none(decisions: &[Decision]) -> bool
    ensures { IsTrue result ↔ (decisions.now ≡ []) }
{
    decisions.is_empty()
}

/// What the node says: its decisions, which legs and starts it allows, and what legs cost at prices.
impl<'a, F: RowFamily> OpenNode<'a, F> {
    ghost use Rattle.optra_node.specs.Nodes.{instance_node};
    ghost use Rattle.optra_open.specs.Opens.{IsRoom};

    /// The node that the room has.
    pub fn of(inst: Instance<'a>, rows: &'a F, room: &'a NodeRoom<F>) -> OpenNode<'a, F>
        requires { IsRoom F.Row.cmp inst.net.now (F.rows_of rows.now inst.net.now) inst.bids.now
            room.now }
        ensures { result ≡ instance_node rows.now inst.entry.net.now inst.entry.bids.now
            room.now.decisions.items }
    {
        OpenNode { inst, rows, room }
    }

    /// The instance.
    pub fn inst(&self) -> Instance<'_>
        ensures net { result.net.now ≡ self.now.net }
        ensures bids { result.bids.now ≡ self.now.bids }
    {
        self.inst
    }

    /// A law, and no work: its network is one that a builder finished.
    pub fn laws(&self)
        ensures { IsProper self.now.net }
    {
        let _inst = self.inst;
    }

    /// How many decisions the node has.
    pub fn depth(&self) -> usize
        ensures { result ≡ length self.now.node }
    {
        self.room.decisions.len()
    }

    /// Whether the leg is not decided yet for the bid.
    pub fn is_undecided(&self, bid: u32, leg: Leg) -> bool
        requires { bid < length self.now.bids }
        ensures { IsTrue result ↔ IsUndecided self.now.node bid leg }
    {
        self.room.index.is_undecided(bid, leg)
    }

    /// Whether the bid has a yes leg.
    pub fn has_yes(&self, bid: u32) -> bool
        requires { bid < length self.now.bids }
        ensures { result ≡ has_yes self.now.node bid }
    {
        any_yes(self.yes(bid))
    }

    /// Whether the value is a row of which the yes legs use more than the capacity.
    pub fn is_overfull(&self, row: F::Row) -> bool
        ensures { IsTrue result ↔ IsOverfull (F.rows_of self.now.family self.now.net) self.now.bids
            self.now.node row }
    {
        let net = self.inst.net;
        self.rows.is_row(net, row)
            && u128::from(self.rows.cap(net, row)) < self.room.totals.total(row)
    }

    /// The yes decisions for a bid, in the node's order.
    fn yes(&self, bid: u32) -> &[Decision]
        requires { bid < length self.now.bids }
        ensures { result.now ≡ decisions_for (yes_part self.now.node) bid }
    {
        self.room.index.yes_of(bid)
    }

    /// Whether each decision for the bid lets its walk have the leg.
    fn let_by(&self, bid: u32, leg: Leg) -> bool
        requires { bid < length self.now.bids }
        ensures { IsTrue result ↔ IsLetBy self.now.net self.now.node bid (kind_at self.now.bids bid)
            leg }
    {
        if self.is_left_alone(bid) {
            return true;
        }
        let inst = self.inst;
        self.room
            .index
            .let_by(inst.net, kind_at(inst, bid), bid, leg)
    }

    /// As [`optra_node::Node::blocked`] of the node.
    fn blocked(&self, bid: u32, leg: Leg) -> bool
        requires bid { bid < length self.now.bids }
        requires leg { IsFormedLeg self.now.net leg }
        ensures { IsTrue result ↔ IsBlocked (F.rows_of self.now.family self.now.net) self.now.bids
            self.now.node bid (kind_at self.now.bids bid) leg }
    {
        let inst = self.inst;
        is_blocked_beside(
            inst,
            self.rows,
            &self.room.totals,
            self.yes(bid),
            kind_at(inst, bid),
            leg,
        )
    }

    /// As [`optra_node::Node::leg_ok`] of the node.
    pub fn leg_ok(&self, bid: u32, leg: Leg) -> bool
        requires bid { bid < length self.now.bids }
        requires leg { IsFormedLeg self.now.net leg }
        ensures { IsTrue result ↔ IsLegOk self.now.net (F.rows_of self.now.family self.now.net)
            self.now.bids self.now.node bid (kind_at self.now.bids bid) leg }
    {
        self.let_by(bid, leg) && !self.blocked(bid, leg)
    }

    /// Whether a walk of the bid may have the leg, on a track that its type may use, with the loaded
    /// rows of the node at hand.
    pub fn leg_ok_beside(&self, loaded: &[F::Row], bid: u32, leg: Leg) -> bool
        requires bid { bid < length self.now.bids }
        requires usable { IsUsable self.now.net (kind_at self.now.bids bid) leg }
        requires rising { AreRising F.Row.cmp loaded.now }
        requires all { AreLoaded F.Row.cmp (F.rows_of self.now.family self.now.net) self.now.bids
            self.now.node loaded.now }
        ensures { result ≡ may_have_leg self.now.net (F.rows_of self.now.family self.now.net)
            (F.rows_used self.now.family self.now.net) self.now.bids self.now.node bid
            (kind_at self.now.bids bid) leg }
    {
        if !self.let_by(bid, leg) {
            return false;
        }
        self.keeps_off(loaded, bid, leg) || !self.blocked(bid, leg)
    }

    /// Whether the bid may start at the minute, as a test.
    pub fn may_start(&self, bid: u32, minute: Minute) -> bool
        requires { bid < length self.now.bids }
        ensures { result ≡ may_start_at self.now.node bid minute }
    {
        start_ok(self.yes(bid), bid, minute)
    }

    /// The rows of which the yes legs use something, ascending. `NoMemory` is its only refusal.
    pub fn loaded(&self, alloc: Global) -> Result<Vec<F::Row>, NoMemory>
        ensures rising { IfOk result (λ loaded. AreRising F.Row.cmp loaded.items) }
        ensures all { IfOk result (λ loaded. AreLoaded F.Row.cmp (F.rows_of self.now.family
            self.now.net) self.now.bids self.now.node loaded.items) }
        ensures used { IfOk result (λ loaded. AreUsed (F.rows_of self.now.family self.now.net)
            self.now.bids self.now.node loaded.items) }
    {
        loaded_rows(alloc, &self.room.totals)
    }

    /// What the leg costs a walk of the bid at the prices, on a track that its type may use.
    pub fn leg_price(&self, prices: &[(F::Row, i64)], bid: u32, leg: Leg) -> i128
        requires bid { bid < length self.now.bids }
        requires usable { IsUsable self.now.net (kind_at self.now.bids bid) leg }
        requires ascending { AreAscending F.Row.cmp prices.now }
        requires proper { ArePrices (F.rows_of self.now.family self.now.net) prices.now }
        ensures value { result ≡ leg_price (F.rows_of self.now.family self.now.net) prices.now
            (kind_at self.now.bids bid) leg }
        ensures range { IsLegPrice result }
    {
        let inst = self.inst;
        leg_price(inst, self.rows, prices, kind_at(inst, bid), leg)
    }

    /// The price of all capacity.
    pub fn capacity_price(&self, prices: &[(F::Row, i64)]) -> i128
        requires { ArePrices (F.rows_of self.now.family self.now.net) prices.now }
        ensures value { result ≡ capacity_price (F.rows_of self.now.family self.now.net)
            prices.now }
        ensures range { IsCapacityPrice result }
    {
        capacity_price(self.inst, self.rows, prices)
    }
}

/// What only saves work: tests of what stays as it was before, or is seen at once. No answer of a check rests on one of them
/// being asked.
impl<'a, F: RowFamily> OpenNode<'a, F> {
    /// Whether no decision is for the bid. Then each leg is let it, and none of its decisions is looked for.
    fn is_left_alone(&self, bid: u32) -> bool
        requires { bid < length self.now.bids }
        ensures { IsTrue result ↔ All (λ d. d.bid ≡ bid → ⊥) self.now.node }
    {
        has_none(self.room.index.own_of(bid))
    }

    /// Whether the leg uses none of the rows, and no other row above its capacity. Where the rows are the loaded ones, it is
    /// not blocked then.
    fn keeps_off(&self, loaded: &[F::Row], bid: u32, leg: Leg) -> bool
        requires bid { bid < length self.now.bids }
        requires usable { IsUsable self.now.net (kind_at self.now.bids bid) leg }
        requires rising { AreRising F.Row.cmp loaded.now }
        ensures { IsTrue result ↔ KeepsOff F.Row.cmp (F.rows_of self.now.family self.now.net)
            (kind_at self.now.bids bid) loaded.now leg }
    {
        let inst = self.inst;
        keeps_off(inst.net, self.rows, loaded, kind_at(inst, bid), leg)
    }

    /// Whether each of the legs uses none of the rows, and no other row above its capacity. Where the rows are those of the
    /// last decision, these legs are blocked as they were before it.
    pub fn all_keep_off(&self, listed: &[F::Row], bid: u32, legs: &[Leg]) -> bool
        requires bid { bid < length self.now.bids }
        requires usable { All (IsUsable self.now.net (kind_at self.now.bids bid)) legs.now }
        requires rising { AreRising F.Row.cmp listed.now }
        ensures { IsTrue result ↔ All (KeepsOff F.Row.cmp (F.rows_of self.now.family self.now.net)
            (kind_at self.now.bids bid) listed.now) legs.now }
    {
        let inst = self.inst;
        all_keep_off(inst.net, self.rows, listed, kind_at(inst, bid), legs)
    }

    /// How many first decisions of the node stay when its room passes the item. What was found with these alone holds on.
    pub fn depth_after(&self, item: &Item<F::Row>) -> usize
        ensures within { result ≤ length self.now.node }
        ensures kept { AreKept self.now.node item.now result }
    {
        depth_after(&self.room.decisions, item)
    }

    /// Whether the last decision is for the bid. Where it is for another bid or there is none, what is known of the bid holds
    /// on.
    pub fn is_last_for(&self, bid: u32) -> bool
        ensures { (result ≡ false) ↔ IfSome (slice_get self.now.node (length self.now.node - 1))
            (λ last. last.bid ≡ bid → ⊥) }
    {
        match self.room.decisions.last() {
            Some(last) => last.bid == bid,
            None => false,
        }
    }

    /// The rows that the last decision uses, ascending; none where there is no decision. `NoMemory`
    /// is its only refusal.
    pub fn latest_rows(&self, alloc: Global) -> Result<Vec<F::Row>, NoMemory>
        ensures { IfOk result (λ latest. AreLatestAt F.Row.cmp F.rows_of self.now latest.items) }
    {
        match self.room.decisions.last() {
            Some(last) => rows_of_decision(alloc, self.inst, self.rows, *last),
            None => Ok(Vec::new(alloc)),
        }
    }

    /// Whether it is seen at once that a walk of the bid may have both legs, at one price, or neither. Of others it is never
    /// true. That it isn't true of legs that are alike is left open: a search then asks of each for itself.
    pub fn are_alike(&self, bid: u32, first: Leg, second: Leg) -> bool
        requires bid { bid < length self.now.bids }
        requires first { IsUsable self.now.net (kind_at self.now.bids bid) first }
        requires second { IsUsable self.now.net (kind_at self.now.bids bid) second }
        ensures { result ≡ true → (prices : PriceList F.Row)
            → AreAlike (weights_at F.rows_of F.rows_used self.now bid prices) first second }
    {
        let inst = self.inst;
        let kind = kind_at(inst, bid);
        if !self.rows.use_alike(inst.net, kind, first, second) {
            return false;
        }
        self.let_by(bid, first) == self.let_by(bid, second)
    }
}
