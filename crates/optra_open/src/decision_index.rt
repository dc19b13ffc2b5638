//! The decisions of a node, for look-ups: all decisions and the yes decisions of each bid, and all
//! decisions in buckets by bid, track and minute. A look-up reads one list of each, however many
//! decisions there are.
ghost use Rattle.std.specs.Prelude.{◌≡◌, ℕ, ◌<◌, ◌++◌, ◌∷◌, ◌↔◌, [], List, OnOk, IfOk, IsTrue, map, length, replicate, vec_len, true};
ghost use Rattle.optra_node.specs.declared.Decision.{Decision};
ghost use Rattle.optra_node.specs.Nodes.{IsUndecided};
ghost use Rattle.optra_node.specs.Spans.{IsLetBy};
ghost use Rattle.optra_node.specs.OwnDecisions.{decisions_for};
ghost use Rattle.optra_open.specs.Keyed.{AreKeyed, bucket_of, bucket_in, yes_part};

use optra_network::{Network, NoMemory, TypeId};
use optra_node::{Decision, is_undecided, let_by};
use optra_walk::Leg;
use std::alloc::Global;

/// How many buckets there are.
const BUCKETS: usize = 4096;

/// How far the buckets of one bid lie from those of the next, and those of one track from those of
/// the next.
const BID_STEP: usize = 1009;

const TRACK_STEP: usize = 97;

/// The bucket of a leg that is decided for a bid.
fn bucket_of(bid: u32, leg: Leg) -> usize
    ensures bucket { result ≡ bucket_of bid leg }
    ensures small { result < 4096 }
{
    let (bid, track, depart) = (bid as usize, leg.track.0 as usize, leg.depart as usize);
    (bid * BID_STEP + track * TRACK_STEP + depart) % BUCKETS
}

/// So many empty lists.
fn empty_lists(alloc: Global, count: usize) -> Result<Vec<Vec<Decision>>, NoMemory>
    ensures { IfOk result (λ lists. map (λ list. list.items) lists.items ≡ replicate count []) }
{
    let mut lists = Vec::new(alloc);
    'lists: for _ in 0..count {
        lists.push(Vec::new(alloc))?;
    }
    Ok(lists)
}

/// Puts a decision behind those of a list.
fn add_at(lists: &mut Vec<Vec<Decision>>, place: usize, decision: Decision) -> Result<(), NoMemory>
    requires { place < vec_len lists.old }
    ensures { OnOk result ((key : Decision → ℕ) (count : ℕ) (node : List Decision) → key decision
        ≡ place → AreKeyed key count node (map (λ list. list.items) lists.old.items)
        → AreKeyed key count (node ++ decision ∷ []) (map (λ list. list.items) lists.new.items)) }
{
    lists[place].push(decision)?;
    Ok(())
}

/// Takes the last decision of a list off.
fn drop_at(lists: &mut Vec<Vec<Decision>>, place: usize, decision: Decision)
    requires { place < vec_len lists.old }
    ensures { (key : Decision → ℕ) (count : ℕ) (node : List Decision) → key decision ≡ place
        → AreKeyed key count (node ++ decision ∷ []) (map (λ list. list.items) lists.old.items)
        → AreKeyed key count node (map (λ list. list.items) lists.new.items) }
{
    let _ = decision;
    let _ = lists[place].pop();
}

/// Puts a decision behind the yes decisions of its bid, where it is one.
fn put_yes(lists: &mut Vec<Vec<Decision>>, decision: Decision) -> Result<(), NoMemory>
    requires { decision.bid < vec_len lists.old }
    ensures { OnOk result ((bids : ℕ) (node : List Decision)
        → AreKeyed (λ d. d.bid) bids (yes_part node) (map (λ list. list.items) lists.old.items)
        → AreKeyed (λ d. d.bid) bids (yes_part (node ++ decision ∷ []))
        (map (λ list. list.items) lists.new.items)) }
{
    if decision.yes {
        add_at(lists, decision.bid as usize, decision)
    } else {
        Ok(())
    }
}

/// Takes the last decision off the yes decisions of its bid, where it is one.
fn take_yes(lists: &mut Vec<Vec<Decision>>, decision: Decision)
    requires { decision.bid < vec_len lists.old }
    ensures { (bids : ℕ) (node : List Decision)
        → AreKeyed (λ d. d.bid) bids (yes_part (node ++ decision ∷ [])) (map (λ list. list.items)
        lists.old.items) → AreKeyed (λ d. d.bid) bids (yes_part node) (map (λ list. list.items)
        lists.new.items) }
{
    if decision.yes {
        drop_at(lists, decision.bid as usize, decision);
    }
}

/// The decisions of a node, for look-ups.
#[derive(Drop)]
pub(crate) struct DecisionIndex {
    /// For each bid, the decisions for it.
    own: Vec<Vec<Decision>>,
    /// For each bid, its yes decisions.
    yes: Vec<Vec<Decision>>,
    buckets: Vec<Vec<Decision>>,
}

impl DecisionIndex {
    ghost use Rattle.optra_open.specs.Opens.{IsIndexOf};

    /// The index of the root, which has no decision, for so many bids. `NoMemory` is its only
    /// refusal.
    pub(crate) fn new(alloc: Global, bids: usize) -> Result<DecisionIndex, NoMemory>
        ensures { IfOk result (IsIndexOf bids []) }
    {
        let own = empty_lists(alloc, bids)?;
        let yes = empty_lists(alloc, bids)?;
        let buckets = empty_lists(alloc, BUCKETS)?;
        Ok(DecisionIndex { own, yes, buckets })
    }

    /// Puts one more decision to it. `NoMemory` is its only refusal, and then the index serves no
    /// more.
    pub(crate) fn put(&mut self, decision: Decision) -> Result<(), NoMemory>
        requires own { decision.bid < vec_len self.old.own }
        requires yes { decision.bid < vec_len self.old.yes }
        requires buckets { vec_len self.old.buckets ≡ 4096 }
        ensures { OnOk result ((bids : ℕ) (node : List Decision) → IsIndexOf bids node self.old
            → IsIndexOf bids (node ++ decision ∷ []) self.new) }
    {
        add_at(&mut self.own, decision.bid as usize, decision)?;
        put_yes(&mut self.yes, decision)?;
        let bucket = bucket_of(decision.bid, decision.leg);
        add_at(&mut self.buckets, bucket, decision)
    }

    /// Takes the last decision off.
    pub(crate) fn take_off(&mut self, decision: Decision)
        requires own { decision.bid < vec_len self.old.own }
        requires yes { decision.bid < vec_len self.old.yes }
        requires buckets { vec_len self.old.buckets ≡ 4096 }
        ensures { (bids : ℕ) (node : List Decision) → IsIndexOf bids (node ++ decision
            ∷ []) self.old → IsIndexOf bids node self.new }
    {
        drop_at(&mut self.own, decision.bid as usize, decision);
        take_yes(&mut self.yes, decision);
        let bucket = bucket_of(decision.bid, decision.leg);
        drop_at(&mut self.buckets, bucket, decision);
    }

    /// The decisions for the bid.
    pub(crate) fn own_of(&self, bid: u32) -> &[Decision]
        requires { bid < vec_len self.now.own }
        ensures { (bids : ℕ) (node : List Decision) → IsIndexOf bids node self.now → result.now
            ≡ decisions_for node bid }
    {
        &self.own[bid as usize]
    }

    /// The yes decisions of the bid.
    pub(crate) fn yes_of(&self, bid: u32) -> &[Decision]
        requires { bid < vec_len self.now.yes }
        ensures { (bids : ℕ) (node : List Decision) → IsIndexOf bids node self.now → result.now
            ≡ decisions_for (yes_part node) bid }
    {
        &self.yes[bid as usize]
    }

    /// The bucket in which a decision of the leg for the bid stands.
    fn bucket(&self, bid: u32, leg: Leg) -> &[Decision]
        requires { vec_len self.now.buckets ≡ 4096 }
        ensures { (bids : ℕ) (node : List Decision) → IsIndexOf bids node self.now → result.now
            ≡ bucket_in node bid leg }
    {
        &self.buckets[bucket_of(bid, leg)]
    }

    /// Whether the leg is not decided yet for the bid.
    pub(crate) fn is_undecided(&self, bid: u32, leg: Leg) -> bool
        requires { vec_len self.now.buckets ≡ 4096 }
        ensures { (bids : ℕ) (node : List Decision) → IsIndexOf bids node self.now → IsTrue result
            ↔ IsUndecided node bid leg }
    {
        is_undecided(self.bucket(bid, leg), bid, leg)
    }

    /// Whether each decision for the bid lets its walk have the leg: the yes decisions, and those
    /// of that very leg.
    pub(crate) fn let_by(&self, net: &Network, kind: TypeId, bid: u32, leg: Leg) -> bool
        requires bid { bid < vec_len self.now.yes }
        requires buckets { vec_len self.now.buckets ≡ 4096 }
        ensures { (bids : ℕ) (node : List Decision) → IsIndexOf bids node self.now → IsTrue result
            ↔ IsLetBy net.now node bid kind leg }
    {
        if !let_by(net, kind, self.yes_of(bid), bid, leg) {
            return false;
        }
        let_by(net, kind, self.bucket(bid, leg), bid, leg)
    }
}
