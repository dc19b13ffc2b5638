//! The decisions of a node, with what is kept beside them for look-ups.
ghost use Rattle.std.specs.Prelude.{◌≡◌, ◌<◌, ◌≤◌, ◌++◌, ◌∷◌, [], ℕ, IfOk, OnOk, length, take};
ghost use Rattle.optra_node.specs.Nodes.{IsFormedDecision, IsUndecided};
ghost use Rattle.optra_node.specs.Trees.{children};
ghost use Rattle.optra_node.specs.Certificates.{IsFormedItem, SplitsUndecided};
ghost use Rattle.optra_open.specs.Opens.{IsRoom};
ghost use Rattle.optra_open.specs.ToCome.{to_come, AreKept, IsLastYes, IsNextWay, IsYesAt};

use crate::decision_index::DecisionIndex;
use crate::decision_uses::{add_decision, take_decision};
use optra_network::NoMemory;
use optra_node::{Decision, Item};
use optra_walk::{Instance, RowFamily, Totals};
use std::alloc::Global;

/// The decisions of a node, how much of each row its yes legs use, and an index of the decisions.
/// The last decision can be taken off again and further ones put to it, without a copy.
#[derive(Drop)]
pub struct NodeRoom<F: RowFamily> {
    /// The decisions, from the root on.
    pub decisions: Vec<Decision>,
    pub(crate) totals: Totals<F>,
    pub(crate) index: DecisionIndex,
}

/// The room of the root of an instance. `NoMemory` is its only refusal.
pub fn root_room<F: RowFamily>(
    alloc: Global,
    inst: Instance<'_>,
    rows: &F,
) -> Result<NodeRoom<F>, NoMemory>
    ensures room { IfOk result (IsRoom F.Row.cmp inst.entry.net.now
        (F.rows_of rows.now inst.entry.net.now) inst.entry.bids.now) }
    ensures root { IfOk result (λ room. room.decisions.items ≡ []) }
{
    let _ = rows;
    let index = DecisionIndex::new(alloc, inst.bids.len())?;
    Ok(NodeRoom {
        decisions: Vec::new(alloc),
        totals: Totals::new(alloc),
        index,
    })
}

/// Puts one more decision to it, of a leg that is not decided yet for its bid. `NoMemory` is its
/// only refusal, and then the room serves no more.
fn decide<F: RowFamily>(
    room: &mut NodeRoom<F>,
    inst: Instance<'_>,
    rows: &F,
    decision: Decision,
) -> Result<(), NoMemory>
    requires room { IsRoom F.Row.cmp inst.net.now (F.rows_of rows.now inst.net.now) inst.bids.now
        room.old }
    requires formed { IsFormedDecision inst.net.now (length inst.bids.now) decision }
    requires undecided { IsUndecided room.old.decisions.items decision.bid decision.leg }
    ensures room { OnOk result (IsRoom F.Row.cmp inst.entry.net.now
        (F.rows_of rows.now inst.entry.net.now) inst.entry.bids.now room.new) }
    ensures more { OnOk result (room.new.decisions.items
        ≡ room.old.decisions.items ++ decision ∷ []) }
{
    add_decision(&mut room.totals, inst, rows, decision)?;
    room.index.put(decision)?;
    room.decisions.push(decision)?;
    Ok(())
}

/// Takes the last decision off.
fn undo<F: RowFamily>(room: &mut NodeRoom<F>, inst: Instance<'_>, rows: &F) -> Decision
    requires room { IsRoom F.Row.cmp inst.net.now (F.rows_of rows.now inst.net.now) inst.bids.now
        room.old }
    requires some { 0 < length room.old.decisions.items }
    ensures room { IsRoom F.Row.cmp inst.entry.net.now (F.rows_of rows.now inst.entry.net.now)
        inst.entry.bids.now room.new }
    ensures last { room.old.decisions.items ≡ room.new.decisions.items ++ result ∷ [] }
    ensures formed { IsFormedDecision inst.entry.net.now (length inst.entry.bids.now) result }
    ensures undecided { IsUndecided room.new.decisions.items result.bid result.leg }
{
    let Some(last) = room.decisions.pop() else {
        unreachable!()
    };
    take_decision(&mut room.totals, inst, rows, last);
    room.index.take_off(last);
    last
}

/// Turns to the nearest node that is still to come, or to the root where none is. `NoMemory` is
/// its only refusal.
fn turn<F: RowFamily>(room: &mut NodeRoom<F>, inst: Instance<'_>, rows: &F) -> Result<(), NoMemory>
    requires { IsRoom F.Row.cmp inst.net.now (F.rows_of rows.now inst.net.now) inst.bids.now
        room.old }
    ensures room { OnOk result (IsRoom F.Row.cmp inst.entry.net.now
        (F.rows_of rows.now inst.entry.net.now) inst.entry.bids.now room.new) }
    ensures next { OnOk result (IsNextWay (to_come room.old.decisions.items)
        room.new.decisions.items) }
    ensures kept { OnOk result ((k : ℕ) → IsYesAt room.old.decisions.items k
        → take k room.new.decisions.items ≡ take k room.old.decisions.items) }
{
    'back: while !room.decisions.is_empty() {
        let last = undo(room, inst, rows);
        if last.yes {
            return decide(room, inst, rows, Decision { yes: false, ..last });
        }
    }
    Ok(())
}

/// Turns to the node that is open after an item of this node: below a split the one whose decision
/// is yes, and after a leaf the nearest that is still to come. Where none is, it is the root.
/// `NoMemory` is its only refusal.
pub fn pass<F: RowFamily>(
    room: &mut NodeRoom<F>,
    inst: Instance<'_>,
    rows: &F,
    item: &Item<F::Row>,
) -> Result<(), NoMemory>
    requires room { IsRoom F.Row.cmp inst.net.now (F.rows_of rows.now inst.net.now) inst.bids.now
        room.old }
    requires formed { IsFormedItem F.Row.cmp inst.net.now (length inst.bids.now) item.now }
    requires undecided { SplitsUndecided room.old.decisions.items item.now }
    ensures room { OnOk result (IsRoom F.Row.cmp inst.entry.net.now
        (F.rows_of rows.now inst.entry.net.now) inst.entry.bids.now room.new) }
    ensures next { OnOk result (IsNextWay (children room.old.decisions.items item.now
        ++ to_come room.old.decisions.items) room.new.decisions.items) }
    ensures kept { OnOk result ((k : ℕ) → AreKept room.old.decisions.items item.now k
        → take k room.new.decisions.items ≡ take k room.old.decisions.items) }
{
    match item {
        Item::Split { bid, leg } => {
            let decision = Decision {
                bid: *bid,
                leg: *leg,
                yes: true,
            };
            decide(room, inst, rows, decision)
        }
        Item::NoWalk { .. } | Item::Forced { .. } | Item::Priced { .. } => turn(room, inst, rows),
    }
}

/// The place of the last yes decision, or 0 where none is one.
fn last_yes(decisions: &[Decision]) -> usize
    ensures within { result ≤ length decisions.now }
    ensures last { IsLastYes decisions.now result }
{
    let mut left = decisions.len();
    'back: while left > 0 {
        left -= 1;
        let decision = decisions[left];
        if decision.yes {
            return left;
        }
    }
    0
}

/// How many first decisions of the node stay when the room passes the item.
pub(crate) fn depth_after<R>(decisions: &[Decision], item: &Item<R>) -> usize
    ensures within { result ≤ length decisions.now }
    ensures kept { AreKept decisions.now item.now result }
{
    match item {
        Item::Split { .. } => decisions.len(),
        Item::NoWalk { .. } | Item::Forced { .. } | Item::Priced { .. } => last_yes(decisions),
    }
}
