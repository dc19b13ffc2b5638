//! Which bids the way from one node to another may change: those of which it takes away or adds a decision, and those that
//! have an arc which touches a row that a yes leg among these decisions uses.
//!
//! The groups that touch such a row are marked as due for a while, so that each of them leads to its bids once.
ghost use Rattle.std.specs.Prelude.{◌≡◌, ◌≤◌, OnOk, drop, length};
ghost use Rattle.optra_prices.specs.Claims.{AreClaims, claim_uses};
ghost use Rattle.optra_prices.specs.Columns.{IsColumns};
ghost use Rattle.optra_prices.specs.Courses.{IsCourse};
ghost use Rattle.optra_prices.specs.Holders.{AreHolders, KeepsTold};
ghost use Rattle.optra_prices.specs.Tellings.{MarksUsed, TellsDue, TellsOwn, TellsMoved};
ghost use Rattle.optra_prices.specs.Terms.{setting};
ghost use Rattle.optra_prices.specs.Uses.{touch_uses};

use crate::arc_tables::ArcTables;
use crate::claims::{Claim, claimed};
use crate::columns::{Columns, mark_row, still};
use crate::decided::decisions_of;
use crate::holders::{tell_bid, tell_holders, tell_none};
use crate::index::Index;
use crate::numbering::BidTable;
use crate::touch_slice::TouchSlice;
use optra_network::NoMemory;
use optra_node::{Decision, Node};
use optra_walk::{Instance, RowFamily};

/// Makes the groups due that touch a touched row.
fn mark_touches(columns: &mut Columns, touches: &TouchSlice<'_>) -> Result<(), NoMemory>
    requires { IsColumns columns.old.groups columns.old }
    ensures columns { OnOk result (IsColumns columns.old.groups columns.new) }
    ensures marks { OnOk result (MarksUsed (touch_uses touches.now) columns.old columns.new) }
{
    for k in 0..touches.len() {
        mark_row(columns, touches.at(k).row)?;
    }
    Ok(())
}

/// Makes the groups due that touch a row which is claimed.
fn mark_claims(columns: &mut Columns, claims: &[Claim]) -> Result<(), NoMemory>
    requires { IsColumns columns.old.groups columns.old }
    ensures columns { OnOk result (IsColumns columns.old.groups columns.new) }
    ensures marks { OnOk result (MarksUsed (claim_uses claims.now) columns.old columns.new) }
{
    for claim in claims {
        mark_touches(columns, &claimed(claim))?;
    }
    Ok(())
}

/// Tells the bids that have a group which is marked. Which others are told is left open, here and below: one more is brought to
/// the node though nothing of it changed, so that it costs time alone.
fn tell_due(columns: &Columns, tables: &[BidTable<'_>], holders: &Index, told: &mut Vec<bool>)
    requires columns { IsColumns columns.now.groups columns.now }
    requires holders { AreHolders tables.now holders.now }
    requires count { length told.old.items ≡ length tables.now }
    ensures keeps { KeepsTold told.old.items told.new.items }
    ensures tells { TellsDue columns.now.marks.items tables.now told.new.items }
{
    let _ = tables;
    for g in &columns.due {
        tell_holders(holders, *g, told);
    }
}

/// Tells the bids of which the decisions are.
fn tell_own(told: &mut Vec<bool>, decisions: &[Decision])
    ensures keeps { KeepsTold told.old.items told.new.items }
    ensures own { TellsOwn decisions.now told.new.items }
{
    for decision in decisions {
        tell_bid(told, decision.bid as usize);
    }
}

/// Tells the bids that the way to a node may change, which shares so many decisions with the one before. The claims are
/// those of its others.
pub(crate) fn tell_moved<F: RowFamily>(
    inst: Instance<'_>,
    rows: &F,
    node: &Node,
    kept: &mut ArcTables<'_, F::Row>,
    count: usize,
    claims: &[Claim],
) -> Result<(), NoMemory>
    requires old { count ≤ length kept.old.decided.decisions.items }
    requires new { count ≤ length node.now }
    requires course { IsCourse F.Row.cmp (setting inst.net.now (F.rows_of rows.now inst.net.now)
        (F.rows_used rows.now inst.net.now) inst.bids.now kept.old.decided.decisions.items)
        kept.old }
    requires claims { AreClaims (F.rows_of rows.now inst.net.now) inst.bids.now
        kept.old.numbering.rows.items (drop count node.now) claims.now }
    ensures course { OnOk result (IsCourse F.Row.cmp (setting inst.entry.net.now
        (F.rows_of rows.now inst.entry.net.now) (F.rows_used rows.now inst.entry.net.now)
        inst.entry.bids.now kept.old.decided.decisions.items) kept.new) }
    ensures numbering { OnOk result (kept.new.numbering ≡ kept.old.numbering) }
    ensures left { OnOk result (TellsMoved (F.rows_of rows.now inst.entry.net.now)
        inst.entry.bids.now (drop count kept.old.decided.decisions.items) kept.new) }
    ensures entered { OnOk result (TellsMoved (F.rows_of rows.now inst.entry.net.now)
        inst.entry.bids.now (drop count node.now) kept.new) }
{
    let _ = inst.net;
    let _ = rows;
    let entered = &decisions_of(node)[count..];
    let left = &kept.decided.decisions[count..];
    mark_claims(&mut kept.columns, &kept.decided.claims[count..])?;
    mark_claims(&mut kept.columns, claims)?;
    tell_none(&mut kept.fallen, kept.tables.len())?;
    tell_due(&kept.columns, &kept.tables, &kept.holders, &mut kept.fallen);
    still(&mut kept.columns);
    tell_own(&mut kept.fallen, left);
    tell_own(&mut kept.fallen, entered);
    Ok(())
}
