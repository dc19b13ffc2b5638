//! The tables of all bids, and what stands of them.
ghost use Rattle.std.specs.Prelude.{◌≡◌, List, ℤ, All, Contains, IfOk, OnOk, length};
ghost use Rattle.optra_prices.specs.Columns.{MarksTell};
ghost use Rattle.optra_prices.specs.Holders.{TellsFallen};
ghost use Rattle.optra_prices.specs.Keepings.{AreBrought};
ghost use Rattle.optra_prices.specs.Makings.{IsMaking};
ghost use Rattle.optra_prices.specs.Standings.{IsSound, HoldArcs, AllStand, AreCopies, IsMade};
ghost use Rattle.optra_prices.specs.Tables.{AreUpTo};
ghost use Rattle.optra_prices.specs.declared.numbering.BidTable.{BidTable};

use crate::columns::Mark;
use crate::group_prices::GroupPrices;
use crate::making::{Making, finish_making, new_making};
use crate::numbering::{BidTable, Groups, Standing};
use crate::row_numbers::RowNumbers;
use crate::settling::{copy_standing, first_standing, renew_where, update};
use crate::tables::bid_table;
use optra_dag::Buffers;
use optra_graph::Graphs;
use optra_network::NoMemory;
use optra_walk::{CodedRow, Instance, RowFamily};
use std::alloc::Global;

/// A table for each bid, in which each arc may be taken until a node says otherwise.
pub(crate) fn make_tables<'g, F: RowFamily, G: Graphs>(
    alloc: Global,
    inst: Instance<'_>,
    graphs: &'g G,
    rows: &F,
    making: &mut Making<F::Row>,
) -> Result<Vec<BidTable<'g>>, NoMemory>
    requires network { G.network graphs.now ≡ inst.net.now }
    requires held { All (λ bid. Contains (G.held graphs.now) bid.path) inst.bids.now }
    requires making { IsMaking inst.net.now (F.rows_of rows.now inst.net.now)
        (F.rows_used rows.now inst.net.now) making.old }
    ensures making { OnOk result (IsMaking inst.entry.net.now
        (F.rows_of rows.now inst.entry.net.now) (F.rows_used rows.now inst.entry.net.now)
        making.new) }
    ensures tables { IfOk result (λ tables. HoldArcs inst.entry.net.now
        (F.rows_of rows.now inst.entry.net.now) (F.rows_used rows.now inst.entry.net.now)
        inst.entry.bids.now (length inst.entry.bids.now) making.new.named.items making.new.groups
        tables.items) }
{
    let bids = inst.bids;
    let mut tables = Vec::with_capacity(alloc, bids.len())?;
    for number in 0..bids.len() {
        let bid = &bids[number];
        let graph = graphs.graph(bid);
        let table = bid_table(alloc, inst.net, rows, bid, graph, making)?;
        tables.push(table)?;
    }
    Ok(tables)
}

/// Rows by number, groups of touches, and a table for each bid, in which each arc may be taken until a node says otherwise.
#[derive(Drop)]
pub(crate) struct Made<'g, R: CodedRow> {
    pub(crate) numbering: RowNumbers<R>,
    pub(crate) groups: Groups,
    pub(crate) tables: Vec<BidTable<'g>>,
}

/// The tables of all bids, whose groups name rows by number.
pub(crate) fn made_tables<'g, F: RowFamily, G: Graphs>(
    alloc: Global,
    inst: Instance<'_>,
    graphs: &'g G,
    rows: &F,
) -> Result<Made<'g, F::Row>, NoMemory>
    requires network { G.network graphs.now ≡ inst.net.now }
    requires held { All (λ bid. Contains (G.held graphs.now) bid.path) inst.bids.now }
    ensures { IfOk result (IsMade F.Row.cmp inst.entry.net.now
        (F.rows_of rows.now inst.entry.net.now) (F.rows_used rows.now inst.entry.net.now)
        inst.entry.bids.now) }
{
    let mut making = new_making(alloc, inst.net, rows)?;
    let tables = make_tables(alloc, inst, graphs, rows, &mut making)?;
    let numbered = finish_making(alloc, inst.net, rows, making)?;
    Ok(Made {
        numbering: numbered.numbering,
        groups: numbered.groups,
        tables,
    })
}

/// What is known of each bid at first.
pub(crate) fn first_standings(
    alloc: Global,
    buffers: &mut Buffers,
    tables: &[BidTable<'_>],
    grouped: GroupPrices<'_>,
) -> Result<Vec<Standing>, NoMemory>
    requires grouped { AreUpTo grouped.most grouped.prices.now }
    requires sound { All IsSound tables.now }
    ensures { IfOk result (λ standings. AllStand tables.now grouped.entry.prices.now
        standings.items) }
{
    let mut standings = Vec::with_capacity(alloc, tables.len())?;
    for number in 0..tables.len() {
        let standing = first_standing(alloc, buffers, &tables[number], grouped)?;
        standings.push(standing)?;
    }
    Ok(standings)
}

/// A copy of what is known of each bid.
pub(crate) fn copy_standings(
    alloc: Global,
    standings: &[Standing],
) -> Result<Vec<Standing>, NoMemory>
    ensures { IfOk result (λ copies. AreCopies standings.now copies.items) }
{
    let mut copies = Vec::with_capacity(alloc, standings.len())?;
    for standing in standings {
        let copy = copy_standing(alloc, standing)?;
        copies.push(copy)?;
    }
    Ok(copies)
}

/// Brings what is known of each bid up to date, by how the prices of groups have moved and by which bids have one that
/// fell.
pub(crate) fn settle(
    buffers: &mut Buffers,
    tables: &[BidTable<'_>],
    grouped: GroupPrices<'_>,
    marks: &[Mark],
    fallen: &[bool],
    standings: &mut Vec<Standing>,
) -> Result<(), NoMemory>
    requires grouped { AreUpTo grouped.most grouped.prices.now }
    requires sound { All IsSound tables.now }
    requires before { (old : List ℤ) × AllStand tables.now old standings.old.items
        × MarksTell old grouped.prices.now marks.now }
    requires fallen { TellsFallen marks.now tables.now fallen.now }
    ensures { OnOk result (AllStand tables.now grouped.entry.prices.now standings.new.items) }
{
    for number in 0..tables.len() {
        update(
            buffers,
            &tables[number],
            grouped,
            marks,
            fallen[number],
            &mut standings[number],
        )?;
    }
    Ok(())
}

/// Brings what is known of each bid to tables of which some have changed.
pub(crate) fn renew_all(
    buffers: &mut Buffers,
    tables: &[BidTable<'_>],
    grouped: GroupPrices<'_>,
    changed: &[bool],
    standings: &mut Vec<Standing>,
) -> Result<(), NoMemory>
    requires grouped { AreUpTo grouped.most grouped.prices.now }
    requires sound { All IsSound tables.now }
    requires brought { (before : List BidTable) × AreBrought changed.now before tables.now
        × AllStand before grouped.prices.now standings.old.items }
    ensures { OnOk result (AllStand tables.now grouped.entry.prices.now standings.new.items) }
{
    for number in 0..tables.len() {
        renew_where(
            buffers,
            &tables[number],
            grouped,
            changed[number],
            &mut standings[number],
        )?;
    }
    Ok(())
}
