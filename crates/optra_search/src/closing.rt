//! The end of a search: each node that still waits becomes a leaf with its start prices.
ghost use Rattle.std.specs.Prelude.{◌≡◌, ◌≤◌, ◌++◌, ◌∷◌, [], length, IfOk, OnOk, unwrap_or};
ghost use Rattle.optra_prices.specs.Keepings.{AreKept};
ghost use Rattle.optra_search.specs.Openings.{front, start_below};
ghost use Rattle.optra_search.specs.Reached.{parts_of};
ghost use Rattle.optra_search.specs.Closings.{MayClose, HasClosed};

use crate::searching::{Search, close, start_under};
use crate::settling::{whole_cents, zero_prices};
use crate::waiting::{Waiting, enter};
use optra_network::NoMemory;
use optra_node::Prices;
use optra_prices::ArcTables;
use optra_prices::keeping::{bring_to, dual_over};
use optra_walk::{Instance, RowFamily};
use std::alloc::Global;

/// The prices at which a node starts, copied where they are those of the next one below.
fn own_start<R: Copy>(
    alloc: Global,
    start: Option<Prices<R>>,
    waiting: &[Waiting<R>],
) -> Result<Prices<R>, NoMemory>
    ensures { IfOk result (λ prices. prices ≡ unwrap_or start (start_below (front waiting.now))) }
{
    match start {
        Some(prices) => Ok(prices),
        None => {
            let zero = zero_prices(alloc);
            let below = start_under(waiting, &zero);
            let entries = Vec::from_slice(alloc, &below.entries)?;
            Ok(Prices { entries })
        }
    }
}

/// The node that was on top of the stack becomes a leaf with its start prices. The tables of arcs are brought to it.
fn close_open<F: RowFamily>(
    alloc: Global,
    inst: Instance<'_>,
    rows: &F,
    kept: &mut ArcTables<'_, F::Row>,
    search: Search<F::Row>,
    top: Waiting<F::Row>,
) -> Result<Search<F::Row>, NoMemory>
    requires kept { AreKept F.Row.cmp inst.net.now (F.rows_of rows.now inst.net.now)
        (F.rows_used rows.now inst.net.now) inst.bids.now kept.old }
    requires closing { MayClose F.Row.cmp inst.net.now (F.rows_of rows.now inst.net.now)
        inst.bids.now (record (parts_of search) { waiting = search.waiting.items ++ top ∷ [] }) }
    ensures closing { IfOk result (λ after. MayClose F.Row.cmp inst.entry.net.now
        (F.rows_of rows.now inst.entry.net.now) inst.entry.bids.now (parts_of after)) }
    ensures closed { IfOk result
        (λ after. HasClosed (record (parts_of search) { waiting = search.waiting.items ++ top ∷ [] })
        (parts_of after)) }
    ensures rest { IfOk result (λ after. after.waiting.items ≡ search.waiting.items) }
    ensures kept { OnOk result (AreKept F.Row.cmp inst.entry.net.now
        (F.rows_of rows.now inst.entry.net.now) (F.rows_used rows.now inst.entry.net.now)
        inst.entry.bids.now kept.new) }
{
    let mut search = search;
    let Waiting {
        depth,
        decision,
        start,
    } = top;
    enter(&mut search.node, depth, decision)?;
    bring_to(alloc, inst, rows, &search.node, kept)?;
    let prices = own_start(alloc, start, &search.waiting)?;
    let dual = dual_over(alloc, inst, rows, &search.node, kept, &prices)?;
    let cents = whole_cents(dual.value);
    let after = close(search, prices, cents)?;
    Ok(after)
}

/// Each node that waits becomes a leaf with its start prices, from the top of the stack down, over the same tables of
/// arcs.
pub(crate) fn close_all<F: RowFamily>(
    alloc: Global,
    inst: Instance<'_>,
    rows: &F,
    kept: &mut ArcTables<'_, F::Row>,
    search: Search<F::Row>,
) -> Result<Search<F::Row>, NoMemory>
    requires kept { AreKept F.Row.cmp inst.net.now (F.rows_of rows.now inst.net.now)
        (F.rows_used rows.now inst.net.now) inst.bids.now kept.old }
    requires closing { MayClose F.Row.cmp inst.net.now (F.rows_of rows.now inst.net.now)
        inst.bids.now (parts_of search) }
    ensures closing { IfOk result (λ after. MayClose F.Row.cmp inst.entry.net.now
        (F.rows_of rows.now inst.entry.net.now) inst.entry.bids.now (parts_of after)) }
    ensures closed { IfOk result (λ after. HasClosed (parts_of search) (parts_of after)) }
    ensures none { IfOk result (λ after. after.waiting.items ≡ []) }
{
    let mut search = search;
    'waiting: while let Some(top) = search.waiting.pop() {
        search = close_open(alloc, inst, rows, kept, search, top)?;
    }
    Ok(search)
}
