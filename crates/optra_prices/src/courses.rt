//! Prices under way at a node.
ghost use Rattle.std.specs.Prelude.{◌≡◌, ◌≤◌, [], All, IfOk, OnOk, length};
ghost use Rattle.optra_node.specs.Duals.{ArePrices};
ghost use Rattle.optra_prices.specs.Courses.{prices_at, prices_by, listed_by, valuation_at, zero_valuation, IsCourse, HasMoved, IsPriced, KeepsRows, AreNumbered};
ghost use Rattle.optra_prices.specs.Replies.{IsValuation};
ghost use Rattle.optra_prices.specs.Levels.{IsMove};
ghost use Rattle.optra_prices.specs.Steps.{AreProper, IsStep};
ghost use Rattle.optra_prices.specs.Terms.{setting};

use crate::Priced;
use crate::arc_tables::ArcTables;
use crate::columns::{reprice, still};
use crate::decided::tell_anew;
use crate::group_prices::GroupPrices;
use crate::holders::tell_fallen;
use crate::levels::{move_prices, set_prices, zero_prices};
use crate::listing::{list_prices, number_more, widen};
use crate::loading::{count_uses, forget_paths};
use crate::next_prices::step_length;
use crate::sessions::settle;
use crate::valuing::{assemble, dual_value, entries, put_prices};
use optra_network::NoMemory;
use optra_node::{Node, Prices, prices_by_used_rows, tests_tell_allowed};
use optra_walk::{Instance, RowFamily};
use std::alloc::Global;

/// Gives each listed row a number at no price, where it has none yet.
pub(crate) fn admit<F: RowFamily>(
    alloc: Global,
    inst: Instance<'_>,
    rows: &F,
    node: &Node,
    kept: &mut ArcTables<'_, F::Row>,
    entries: &[(F::Row, i64)],
) -> Result<(), NoMemory>
    requires prices { ArePrices (F.rows_of rows.now inst.net.now) entries.now }
    requires course { IsCourse F.Row.cmp (setting inst.net.now (F.rows_of rows.now inst.net.now)
        (F.rows_used rows.now inst.net.now) inst.bids.now node.now) kept.old }
    ensures course { OnOk result (IsCourse F.Row.cmp (setting inst.entry.net.now
        (F.rows_of rows.now inst.entry.net.now) (F.rows_used rows.now inst.entry.net.now)
        inst.entry.bids.now node.now) kept.new) }
    ensures numbered { OnOk result (AreNumbered kept.new entries.now) }
{
    let _ = node;
    let before = kept.numbering.count();
    number_more(inst.net, rows, &mut kept.numbering, entries)?;
    if kept.numbering.count() == before {
        return Ok(());
    }
    forget_paths(&mut kept.levels, &mut kept.counted);
    widen(&mut kept.levels, inst.net, rows, kept.numbering.rows())?;
    tell_anew(alloc, &mut kept.decided, inst, rows, &kept.numbering)?;
    Ok(())
}

/// Prices anew the groups that are due, searches the bids whose replies may have changed, and values the node.
fn arrive<F: RowFamily>(
    inst: Instance<'_>,
    rows: &F,
    node: &Node,
    kept: &mut ArcTables<'_, F::Row>,
) -> Result<(), NoMemory>
    requires moved { HasMoved F.Row.cmp (setting inst.net.now (F.rows_of rows.now inst.net.now)
        (F.rows_used rows.now inst.net.now) inst.bids.now node.now) kept.old }
    ensures priced { OnOk result (IsPriced F.Row.cmp (setting inst.entry.net.now
        (F.rows_of rows.now inst.entry.net.now) (F.rows_used rows.now inst.entry.net.now)
        inst.entry.bids.now node.now) kept.new) }
    ensures prices { OnOk result (prices_at kept.new ≡ prices_at kept.old) }
    ensures keeps { OnOk result (KeepsRows kept.old kept.new) }
{
    tests_tell_allowed(inst, rows);
    prices_by_used_rows(inst, rows);
    let _ = node;
    reprice(&mut kept.columns, &kept.levels.prices);
    tell_fallen(&kept.columns, &kept.tables, &kept.holders, &mut kept.fallen)?;
    settle(
        &mut kept.buffers,
        &kept.tables,
        GroupPrices {
            prices: &kept.columns.grouped,
            most: kept.columns.highest,
        },
        &kept.columns.marks,
        &kept.fallen,
        &mut kept.standings,
    )?;
    still(&mut kept.columns);
    kept.value = dual_value(kept.levels.capacity, &kept.standings);
    Ok(())
}

/// Goes to zero prices, before the bids are searched again.
fn leave<F: RowFamily>(
    inst: Instance<'_>,
    rows: &F,
    node: &Node,
    kept: &mut ArcTables<'_, F::Row>,
) -> Result<(), NoMemory>
    requires course { IsCourse F.Row.cmp (setting inst.net.now (F.rows_of rows.now inst.net.now)
        (F.rows_used rows.now inst.net.now) inst.bids.now node.now) kept.old }
    ensures moved { OnOk result (HasMoved F.Row.cmp (setting inst.entry.net.now
        (F.rows_of rows.now inst.entry.net.now) (F.rows_used rows.now inst.entry.net.now)
        inst.entry.bids.now node.now) kept.new) }
    ensures zero { OnOk result (kept.new.levels.prices.items
        ≡ prices_by (length kept.old.numbering.rows.items) []) }
    ensures keeps { OnOk result (KeepsRows kept.old kept.new) }
{
    let _ = inst.net;
    let _ = rows;
    let _ = node;
    zero_prices(&mut kept.levels, &mut kept.columns)?;
    Ok(())
}

/// Goes to listed prices, whose rows have numbers.
pub(crate) fn go_to<F: RowFamily>(
    inst: Instance<'_>,
    rows: &F,
    node: &Node,
    kept: &mut ArcTables<'_, F::Row>,
    start: &Prices<F::Row>,
) -> Result<(), NoMemory>
    requires start { AreProper F.Row.cmp (F.rows_of rows.now inst.net.now) start.now }
    requires numbered { AreNumbered kept.old start.now }
    requires course { IsCourse F.Row.cmp (setting inst.net.now (F.rows_of rows.now inst.net.now)
        (F.rows_used rows.now inst.net.now) inst.bids.now node.now) kept.old }
    ensures priced { OnOk result (IsPriced F.Row.cmp (setting inst.entry.net.now
        (F.rows_of rows.now inst.entry.net.now) (F.rows_used rows.now inst.entry.net.now)
        inst.entry.bids.now node.now) kept.new) }
    ensures prices { OnOk result (prices_at kept.new ≡ start.now) }
    ensures keeps { OnOk result (KeepsRows kept.old kept.new) }
{
    leave(inst, rows, node, kept)?;
    put_prices::<F>(
        &kept.numbering,
        &mut kept.levels,
        &mut kept.columns,
        entries(start),
    )?;
    arrive(inst, rows, node, kept)
}

/// Moves the prices by step `k`, from 0, by the replies.
fn step_prices<F: RowFamily>(
    inst: Instance<'_>,
    rows: &F,
    node: &Node,
    kept: &mut ArcTables<'_, F::Row>,
    k: u32,
) -> Result<(), NoMemory>
    requires course { IsCourse F.Row.cmp (setting inst.net.now (F.rows_of rows.now inst.net.now)
        (F.rows_used rows.now inst.net.now) inst.bids.now node.now) kept.old }
    ensures moved { OnOk result (HasMoved F.Row.cmp (setting inst.entry.net.now
        (F.rows_of rows.now inst.entry.net.now) (F.rows_used rows.now inst.entry.net.now)
        inst.entry.bids.now node.now) kept.new) }
    ensures step { OnOk result (IsStep F.Row.cmp (F.rows_of rows.now inst.entry.net.now)
        inst.entry.bids.now (valuation_at (F.rows_of rows.now inst.entry.net.now) kept.old).replies
        k (prices_at kept.old) (prices_at kept.new)) }
    ensures keeps { OnOk result (KeepsRows kept.old kept.new) }
{
    let _ = node;
    count_uses(
        &mut kept.levels,
        &kept.columns.groups,
        &mut kept.counted,
        &kept.standings,
    )?;
    let by = step_length(inst.bids, k);
    move_prices(&mut kept.levels, &mut kept.columns, by)?;
    Ok(())
}

/// Makes step `k`, from 0, by the replies.
pub(crate) fn go_on<F: RowFamily>(
    inst: Instance<'_>,
    rows: &F,
    node: &Node,
    kept: &mut ArcTables<'_, F::Row>,
    k: u32,
) -> Result<(), NoMemory>
    requires priced { IsPriced F.Row.cmp (setting inst.net.now (F.rows_of rows.now inst.net.now)
        (F.rows_used rows.now inst.net.now) inst.bids.now node.now) kept.old }
    ensures priced { OnOk result (IsPriced F.Row.cmp (setting inst.entry.net.now
        (F.rows_of rows.now inst.entry.net.now) (F.rows_used rows.now inst.entry.net.now)
        inst.entry.bids.now node.now) kept.new) }
    ensures step { OnOk result (IsStep F.Row.cmp (F.rows_of rows.now inst.entry.net.now)
        inst.entry.bids.now (valuation_at (F.rows_of rows.now inst.entry.net.now) kept.old).replies
        k (prices_at kept.old) (prices_at kept.new)) }
    ensures keeps { OnOk result (KeepsRows kept.old kept.new) }
{
    step_prices(inst, rows, node, kept, k)?;
    arrive(inst, rows, node, kept)
}

/// Goes back to prices of rows by number.
pub(crate) fn go_back<F: RowFamily>(
    inst: Instance<'_>,
    rows: &F,
    node: &Node,
    kept: &mut ArcTables<'_, F::Row>,
    prices: &[(usize, i64)],
) -> Result<(), NoMemory>
    requires prices { All (IsMove (length kept.old.numbering.rows.items)) prices.now }
    requires course { IsCourse F.Row.cmp (setting inst.net.now (F.rows_of rows.now inst.net.now)
        (F.rows_used rows.now inst.net.now) inst.bids.now node.now) kept.old }
    ensures priced { OnOk result (IsPriced F.Row.cmp (setting inst.entry.net.now
        (F.rows_of rows.now inst.entry.net.now) (F.rows_used rows.now inst.entry.net.now)
        inst.entry.bids.now node.now) kept.new) }
    ensures prices { OnOk result (prices_at kept.new ≡ listed_by kept.old prices.now) }
    ensures keeps { OnOk result (KeepsRows kept.old kept.new) }
{
    leave(inst, rows, node, kept)?;
    set_prices(&mut kept.levels, &mut kept.columns, prices)?;
    arrive(inst, rows, node, kept)
}

/// The prices, and the dual value at them.
pub(crate) fn priced_at<F: RowFamily>(
    alloc: Global,
    inst: Instance<'_>,
    rows: &F,
    node: &Node,
    kept: &ArcTables<'_, F::Row>,
) -> Result<Priced<F::Row>, NoMemory>
    requires priced { IsPriced F.Row.cmp (setting inst.net.now (F.rows_of rows.now inst.net.now)
        (F.rows_used rows.now inst.net.now) inst.bids.now node.now) kept.now }
    ensures prices { IfOk result (λ priced. priced.prices ≡ prices_at kept.now) }
    ensures dual { IfOk result (λ priced. priced.dual
        ≡ valuation_at (F.rows_of rows.now inst.entry.net.now) kept.now) }
{
    let _ = node;
    let _ = rows;
    let entries = list_prices::<F>(alloc, &kept.numbering, &kept.levels)?;
    let dual = assemble(alloc, kept.levels.capacity, &kept.tables, &kept.standings)?;
    Ok(Priced {
        prices: Prices { entries },
        dual,
    })
}

/// The dual value of the node at zero prices.
pub(crate) fn zero_value<F: RowFamily>(
    inst: Instance<'_>,
    rows: &F,
    node: &Node,
    kept: &ArcTables<'_, F::Row>,
) -> i128
    requires course { IsCourse F.Row.cmp (setting inst.net.now (F.rows_of rows.now inst.net.now)
        (F.rows_used rows.now inst.net.now) inst.bids.now node.now) kept.now }
    ensures value { result ≡ (zero_valuation kept.now).value }
    ensures valuation { IsValuation inst.entry.net.now (F.rows_of rows.now inst.entry.net.now)
        inst.entry.bids.now node.now [] (zero_valuation kept.now) }
{
    tests_tell_allowed(inst, rows);
    prices_by_used_rows(inst, rows);
    let _ = node;
    dual_value(0, &kept.zero)
}
