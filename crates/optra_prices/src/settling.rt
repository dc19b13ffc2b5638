//! What is known of one bid, brought up to date after prices changed or the node did.
ghost use Rattle.std.specs.Prelude.{◌≡◌, All, IfOk, OnOk, List, ℤ, true, false, slice_index_or};
ghost use Rattle.optra_prices.specs.Columns.{MarksTell, HasNotRisen};
ghost use Rattle.optra_prices.specs.Holders.{HaveNotFallen};
ghost use Rattle.optra_prices.specs.Keepings.{KeepsStanding};
ghost use Rattle.optra_prices.specs.Tables.{AreUpTo, no_arc};
ghost use Rattle.optra_prices.specs.Standings.{Stands, IsCopy, IsSound, groups_on};

use crate::arcs::Arcs;
use crate::columns::{Mark, mark_at};
use crate::group_prices::GroupPrices;
use crate::numbering::{BidTable, Standing};
use crate::searching::search_bid;
use optra_dag::Buffers;
use optra_network::NoMemory;
use std::alloc::Global;

/// What is known of a bid at first.
pub(crate) fn first_standing(
    alloc: Global,
    buffers: &mut Buffers,
    table: &BidTable<'_>,
    grouped: GroupPrices<'_>,
) -> Result<Standing, NoMemory>
    requires grouped { AreUpTo grouped.most grouped.prices.now }
    requires sound { IsSound table.now }
    ensures { IfOk result (Stands table.now grouped.entry.prices.now) }
{
    let mut standing = Standing {
        path: Vec::new(alloc),
        groups: Vec::new(alloc),
        term: 0,
        stuck: false,
    };
    renew(buffers, table, grouped, &mut standing)?;
    Ok(standing)
}

/// A copy of what is known of a bid.
pub(crate) fn copy_standing(alloc: Global, standing: &Standing) -> Result<Standing, NoMemory>
    ensures { IfOk result (IsCopy standing.now) }
{
    let mut path = Vec::with_capacity(alloc, standing.path.len())?;
    path.extend_from_slice(&standing.path)?;
    let mut groups = Vec::with_capacity(alloc, standing.groups.len())?;
    groups.extend_from_slice(&standing.groups)?;
    Ok(Standing {
        path,
        groups,
        term: standing.term,
        stuck: standing.stuck,
    })
}

/// Puts the groups of a path's arcs into the list, in place of what it had.
fn list_groups(groups: &mut Vec<usize>, arcs: &Arcs, path: &[u32]) -> Result<(), NoMemory>
    ensures { OnOk result (groups.new.items ≡ groups_on arcs.now path.now) }
{
    groups.clear();
    for k in path {
        groups.push(group_of(arcs, *k))?;
    }
    Ok(())
}

/// Searches the bid's graph again.
fn renew(
    buffers: &mut Buffers,
    table: &BidTable<'_>,
    grouped: GroupPrices<'_>,
    standing: &mut Standing,
) -> Result<(), NoMemory>
    requires sound { IsSound table.now }
    requires grouped { AreUpTo grouped.most grouped.prices.now }
    ensures { OnOk result (Stands table.now grouped.entry.prices.now standing.new) }
{
    let outcome = search_bid(
        buffers,
        table.graph.dag(),
        &table.arcs,
        table.most,
        grouped,
        table.forced,
        &mut standing.path,
    )?;
    list_groups(&mut standing.groups, &table.arcs, &standing.path)?;
    standing.term = outcome.term;
    standing.stuck = outcome.stuck;
    Ok(())
}

/// As [`renew`], where something has changed; else what is known of the bid stands.
pub(crate) fn renew_where(
    buffers: &mut Buffers,
    table: &BidTable<'_>,
    grouped: GroupPrices<'_>,
    changed: bool,
    standing: &mut Standing,
) -> Result<(), NoMemory>
    requires sound { IsSound table.now }
    requires grouped { AreUpTo grouped.most grouped.prices.now }
    ensures { OnOk result (KeepsStanding changed table.now grouped.entry.prices.now standing.old
        standing.new) }
{
    if !changed {
        return Ok(());
    }
    renew(buffers, table, grouped, standing)
}

/// The group of an arc.
pub(crate) fn group_of(arcs: &Arcs, k: u32) -> usize
    ensures { result ≡ (slice_index_or arcs.now k no_arc).group }
{
    let arcs = arcs.slice();
    if (k as usize) < arcs.len() {
        arcs.group(k as usize)
    } else {
        0
    }
}

/// Whether the price of one of the groups rose.
fn has_risen(marks: &[Mark], groups: &[usize]) -> bool
    ensures still { result ≡ false → All (HasNotRisen marks.now) groups.now }
    ensures rose { result ≡ true → All (HasNotRisen marks.now) groups.now → ⊥ }
{
    groups.iter().any(|g| mark_at(marks, *g) == Mark::Rose)
}

/// Searches the bid's graph again where a price of one of its groups fell, or one of an arc of its reply rose; else what
/// is known of it stands: all other walks are worth what they were, or less.
pub(crate) fn update(
    buffers: &mut Buffers,
    table: &BidTable<'_>,
    grouped: GroupPrices<'_>,
    marks: &[Mark],
    fell: bool,
    standing: &mut Standing,
) -> Result<(), NoMemory>
    requires grouped { AreUpTo grouped.most grouped.prices.now }
    requires sound { IsSound table.now }
    requires before { (old : List ℤ) × Stands table.now old standing.old
        × MarksTell old grouped.prices.now marks.now }
    requires told { fell ≡ false → HaveNotFallen marks.now table.now.arcs }
    ensures { OnOk result (Stands table.now grouped.entry.prices.now standing.new) }
{
    if !fell && !has_risen(marks, &standing.groups) {
        return Ok(());
    }
    renew(buffers, table, grouped, standing)
}
