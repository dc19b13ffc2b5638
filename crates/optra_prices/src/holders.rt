//! Which bids have a group on an arc, so that a price that falls tells at once which bids have to be searched again.
ghost use Rattle.std.specs.Prelude.{◌≡◌, ◌<◌, ◌≤◌, ℕ, true, false, IfOk, OnOk, length, replicate, slice_index, slice_set};
ghost use Rattle.optra_prices.specs.Columns.{IsColumns, mark_at};
ghost use Rattle.optra_prices.specs.Holders.{AreHolders, AreToldTo, HoldsGroup, HoldsArcs, TellsHolders, TellsGroup, TellsFallen};
ghost use Rattle.optra_prices.specs.Indexes.{IsIndex};

use crate::arc_slice::ArcSlice;
use crate::columns::{Columns, Mark, mark_at};
use crate::index::{Index, end_of, inverted, start_of};
use crate::numbering::BidTable;
use crate::numbers::Numbers;
use optra_network::NoMemory;
use std::alloc::Global;

/// So many groups get room at once from the one that is asked for on, since most new groups come in order.
const SPARE: usize = 4_096;

/// The groups of bids, one bid after the other, and for each group the number of the last bid that has it, from 1.
#[derive(Drop)]
pub(crate) struct Held {
    pub(crate) groups: Numbers,
    pub(crate) last: Vec<u32>,
}

/// Makes room for the group with this number.
fn make_room(last: &mut Vec<u32>, group: usize) -> Result<(), NoMemory>
    ensures within { OnOk result (group < length last.new.items) }
    ensures same { OnOk result ((g : ℕ) → slice_index last.new.items g
        ≡ slice_index last.old.items g) }
{
    if group < last.len() {
        return Ok(());
    }
    last.resize(group.saturating_add(SPARE), 0)
}

/// Adds a group to those of the bid with this number, from 1. None is added twice.
#[inline(always)]
fn hold_group(held: &mut Held, group: usize, bid: u32) -> Result<(), NoMemory>
    ensures { OnOk result (HoldsGroup bid group held.old held.new) }
{
    make_room(&mut held.last, group)?;
    if held.last[group] == bid {
        return Ok(());
    }
    held.groups.push(group)?;
    held.last[group] = bid;
    Ok(())
}

/// Adds the groups of arcs to those of the bid with this number, from 1. Nearly all arcs are narrow, so these are read by
/// themselves.
fn hold_arcs(held: &mut Held, bid: u32, arcs: &ArcSlice<'_>) -> Result<(), NoMemory>
    ensures { OnOk result (HoldsArcs bid arcs.now held.old held.new) }
{
    'narrow: for k in 0..arcs.narrow.len() {
        hold_group(held, arcs.narrow[k].group() as usize, bid)?;
    }
    'wide: for k in arcs.narrow.len()..arcs.len() {
        hold_group(held, arcs.group(k), bid)?;
    }
    Ok(())
}

/// The bids that have each group on an arc.
pub(crate) fn find_holders(alloc: Global, tables: &[BidTable<'_>]) -> Result<Index, NoMemory>
    requires few { length tables.now ≤ 1000 }
    ensures { IfOk result (AreHolders tables.now) }
{
    let mut held = Held {
        groups: Numbers::new(alloc),
        last: Vec::new(alloc),
    };
    let mut starts = Numbers::new(alloc);
    starts.push(0)?;
    for number in 0..tables.len() {
        hold_arcs(&mut held, number as u32 + 1, &tables[number].arcs.slice())?;
        starts.push(held.groups.len())?;
    }
    inverted(alloc, &starts, &held.groups)
}

/// Tells a bid.
pub(crate) fn tell_bid(fallen: &mut Vec<bool>, bid: usize)
    ensures { fallen.new.items ≡ slice_set fallen.old.items bid true }
{
    if bid < fallen.len() {
        fallen[bid] = true;
    }
}

/// Tells the bids that have the group.
pub(crate) fn tell_holders(holders: &Index, g: usize, fallen: &mut Vec<bool>)
    requires { IsIndex holders.now }
    ensures { TellsHolders holders.now g fallen.old.items fallen.new.items }
{
    for place in start_of(holders, g)..end_of(holders, g) {
        tell_bid(fallen, holders.items.at(place));
    }
}

/// Tells the bids that have the group, where its price fell.
fn tell_group(marks: &[Mark], holders: &Index, g: usize, fallen: &mut Vec<bool>)
    requires { IsIndex holders.now }
    ensures { TellsGroup marks.now holders.now g fallen.old.items fallen.new.items }
{
    if mark_at(marks, g) == Mark::Fell {
        tell_holders(holders, g, fallen);
    }
}

/// Tells none of so many bids.
pub(crate) fn tell_none(fallen: &mut Vec<bool>, count: usize) -> Result<(), NoMemory>
    ensures { OnOk result (fallen.new.items ≡ replicate count false) }
{
    fallen.clear();
    fallen.resize(count, false)?;
    Ok(())
}

/// Past the first bids that are told, where those before this one are.
fn told_up_to(fallen: &[bool], from: usize) -> usize
    requires { AreToldTo from fallen.now }
    ensures { AreToldTo result fallen.now }
{
    let mut first = from;
    while first < fallen.len() && fallen[first] {
        first += 1;
    }
    first
}

/// Tells the bids that have a group whose price fell. The groups that are marked lead to them, until all bids are told. Which others
/// are told is left open: one more is searched again, to the same reply, so that it costs time alone.
pub(crate) fn tell_fallen(
    columns: &Columns,
    tables: &[BidTable<'_>],
    holders: &Index,
    fallen: &mut Vec<bool>,
) -> Result<(), NoMemory>
    requires columns { IsColumns columns.now.groups columns.now }
    requires holders { AreHolders tables.now holders.now }
    ensures { OnOk result (TellsFallen columns.now.marks.items tables.now fallen.new.items) }
{
    tell_none(fallen, tables.len())?;
    let mut first = 0;
    for g in &columns.due {
        first = told_up_to(fallen, first);
        if first >= tables.len() {
            return Ok(());
        }
        tell_group(&columns.marks, holders, *g, fallen);
    }
    Ok(())
}
