//! The decisions of the node to which tables were brought, what they use, and the room beside its yes legs.
//!
//! A node shares most of its decisions with the one before it, so that few claims have to be taken out of the room or added.
ghost use Rattle.std.specs.Prelude.{◌≡◌, ◌↔◌, ◌<◌, ◌≤◌, All, IfOk, IsTrue, OnOk, drop, length, slice_get, take, true};
ghost use Rattle.optra_node.specs.Nodes.{IsNode, IsFormedDecision};
ghost use Rattle.optra_prices.specs.Claims.{AreClaims};
ghost use Rattle.optra_prices.specs.Tables.{IsNumbering};
ghost use Rattle.optra_prices.specs.Rooms.{IsDecided};

use crate::claims::{Claim, add_claims, claims_of, take_claims};
use crate::rooms::{Room, empty_room};
use crate::row_numbers::RowNumbers;
use optra_network::NoMemory;
use optra_node::{Decision, Node};
use optra_walk::{Instance, RowFamily};
use std::alloc::Global;

/// The decisions of a node, what each of them uses, and the room beside its yes legs.
#[derive(Drop)]
pub(crate) struct Decided {
    pub(crate) decisions: Vec<Decision>,
    pub(crate) claims: Vec<Claim>,
    pub(crate) room: Room,
}

/// The decisions of a node.
pub(crate) fn decisions_of(node: &Node) -> &[Decision]
    ensures { result.now ≡ node.now }
{
    &node.decisions
}

/// Whether two decisions are the same.
fn is_same(one: Decision, other: Decision) -> bool
    ensures { IsTrue result ↔ (one ≡ other) }
{
    one == other
}

/// How many decisions two nodes share, from the first on.
pub(crate) fn shared_count(old: &[Decision], new: &[Decision]) -> usize
    ensures old { result ≤ length old.now }
    ensures new { result ≤ length new.now }
    ensures shared { take result old.now ≡ take result new.now }
    ensures most { result < length old.now → result < length new.now
        → slice_get old.now result ≡ slice_get new.now result → ⊥ }
{
    let most = old.len().min(new.len());
    for k in 0..most {
        if !is_same(old[k], new[k]) {
            return k;
        }
    }
    most
}

/// Brings the room to a node that shares so many decisions with the one before. The claims are those of its others.
pub(crate) fn move_room<F: RowFamily>(
    decided: &mut Decided,
    inst: Instance<'_>,
    rows: &F,
    numbering: &RowNumbers<F::Row>,
    node: &Node,
    count: usize,
    claims: Vec<Claim>,
) -> Result<(), NoMemory>
    requires decided { IsDecided inst.net.now (F.rows_of rows.now inst.net.now) inst.bids.now
        numbering.now.rows.items decided.old.decisions.items decided.old }
    requires node { IsNode inst.net.now (length inst.bids.now) node.now }
    requires old { count ≤ length decided.old.decisions.items }
    requires new { count ≤ length node.now }
    requires shared { take count decided.old.decisions.items ≡ take count node.now }
    requires claims { AreClaims (F.rows_of rows.now inst.net.now) inst.bids.now
        numbering.now.rows.items (drop count node.now) claims.items }
    ensures { OnOk result (IsDecided inst.entry.net.now (F.rows_of rows.now inst.entry.net.now)
        inst.entry.bids.now numbering.now.rows.items node.now decided.new) }
{
    let _ = inst.net;
    let _ = rows;
    let _ = numbering;
    let mut claims = claims;
    take_claims(&mut decided.room, &decided.claims[count..]);
    decided.decisions.truncate(count);
    decided.claims.truncate(count);
    add_claims(&mut decided.room, &claims)?;
    decided
        .decisions
        .extend_from_slice(&decisions_of(node)[count..])?;
    decided.claims.append(&mut claims)?;
    Ok(())
}

/// Tells anew what the decisions use, and counts the room beside them anew.
pub(crate) fn tell_anew<F: RowFamily>(
    alloc: Global,
    decided: &mut Decided,
    inst: Instance<'_>,
    rows: &F,
    numbering: &RowNumbers<F::Row>,
) -> Result<(), NoMemory>
    requires decisions { All (IsFormedDecision inst.net.now (length inst.bids.now))
        decided.old.decisions.items }
    requires numbering { IsNumbering F.Row.cmp numbering.now.order.items numbering.now.rows.items }
    requires rows { All (λ row. (F.rows_of rows.now inst.net.now).is_row row ≡ true)
        numbering.now.rows.items }
    ensures { OnOk result (IsDecided inst.entry.net.now (F.rows_of rows.now inst.entry.net.now)
        inst.entry.bids.now numbering.now.rows.items decided.old.decisions.items decided.new) }
{
    let claims = claims_of(alloc, inst, rows, numbering, &decided.decisions)?;
    let mut room = empty_room(alloc, inst.net, rows, numbering)?;
    add_claims(&mut room, &claims)?;
    decided.claims = claims;
    decided.room = room;
    Ok(())
}
