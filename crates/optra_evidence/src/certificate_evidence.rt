//! The evidence that a valid certificate gives each bid.
ghost use Rattle.std.specs.Prelude.{[], IfOk, length};
ghost use Rattle.optra_node.specs.Certificates.{IsFormed, IsValid};
ghost use Rattle.optra_checker.specs.BestOnWay.{AreAllBest};
ghost use Rattle.optra_checker.specs.Bounds.{IsSoundTree};
ghost use Rattle.optra_evidence.specs.Evidence.{IsEvidence};

use crate::figures::Figures;
use crate::hearing::hear_tree;
use optra_cert::Certificate;
use optra_checker::{BestOnWay, find_frees};
use optra_network::NoMemory;
use optra_node::Item;
use optra_open::root_room;
use optra_rests::RestTable;
use optra_walk::{Instance, RowFamily};
use std::alloc::Global;

/// The figures of each bid by the tree's leaves, with the best walks at the root at hand. `NoMemory` is its only refusal.
fn evidence_by<F: RowFamily>(
    alloc: Global,
    inst: Instance<'_>,
    rows: &F,
    tree: &[Item<F::Row>],
    walks: &mut [BestOnWay],
    table: &mut RestTable,
) -> Result<Vec<Figures>, NoMemory>
    requires tree { IsSoundTree F.Row.cmp inst.net.now (F.rows_of rows.now inst.net.now)
        inst.bids.now tree.now }
    requires walks { AreAllBest inst.net.now (F.rows_of rows.now inst.net.now)
        (F.rows_used rows.now inst.net.now) inst.bids.now [] walks.old }
    ensures { IfOk result (λ figures. IsEvidence inst.entry.net.now (F.rows_of rows.now
        inst.entry.net.now) inst.entry.bids.now tree.now figures.items) }
{
    let mut room = root_room(alloc, inst, rows)?;
    let figures = hear_tree(alloc, &mut room, inst, rows, tree, walks, table);
    drop(room);
    figures
}

/// As [`evidence`], in a table that is room for searches.
fn evidence_in<F: RowFamily>(
    alloc: Global,
    inst: Instance<'_>,
    rows: &F,
    tree: &[Item<F::Row>],
    table: &mut RestTable,
) -> Result<Vec<Figures>, NoMemory>
    requires { IsSoundTree F.Row.cmp inst.net.now (F.rows_of rows.now inst.net.now)
        inst.bids.now tree.now }
    ensures { IfOk result (λ figures. IsEvidence inst.entry.net.now (F.rows_of rows.now
        inst.entry.net.now) inst.entry.bids.now tree.now figures.items) }
{
    let mut walks = find_frees(alloc, inst, rows, table)?;
    let figures = evidence_by(alloc, inst, rows, tree, &mut walks, table);
    drop(walks);
    figures
}

/// The two figures of each bid, in the order of the bids, by a valid certificate of the instance.
///
/// It needs a certificate that is formed and valid: [`optra_checker::check`] says whether it is. `NoMemory` is its only refusal.
pub fn evidence<F: RowFamily>(
    alloc: Global,
    inst: Instance<'_>,
    rows: &F,
    cert: &Certificate<F::Row>,
) -> Result<Vec<Figures>, NoMemory>
    requires formed { IsFormed F.Row.cmp inst.net.now (length inst.bids.now) cert.now.choice
        cert.now.tree }
    requires valid { IsValid inst.net.now (F.rows_of rows.now inst.net.now)
        (F.KeepsRule rows.now inst.net.now) inst.bids.now cert.now.revenue cert.now.bound
        cert.now.choice cert.now.tree }
    ensures { IfOk result (λ figures. IsEvidence inst.entry.net.now (F.rows_of rows.now
        inst.entry.net.now) inst.entry.bids.now cert.now.tree figures.items) }
{
    let mut table = RestTable::new(alloc);
    let figures = evidence_in(alloc, inst, rows, cert.items(), &mut table);
    drop(table);
    figures
}
