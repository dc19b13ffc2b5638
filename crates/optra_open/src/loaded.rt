//! Rows of which the yes legs of a node use something, and whether legs keep off them.
//!
//! A search asks of many legs, and most of them use no row that is loaded. The rows of a leg come
//! close to one another, so each look-up begins at the place of the last one.
ghost use Rattle.std.specs.Prelude.{◌≡◌, ◌<◌, ◌≤◌, ◌↔◌, false, true, length, slice_index_or, All, IfOk, IsTrue};
ghost use Rattle.optra_walk.specs.Families.{IsUsable, total_of};
ghost use Rattle.optra_open.specs.Loaded.{used_rows, AreRising, ArePast, IsMissing, KeepsOff};

use optra_network::{Network, NoMemory, TypeId};
use optra_walk::{Leg, RowFamily, Totals};
use std::alloc::Global;
use std::cmp::Ordering;
use std::collections::BTreeMap;

/// The rows that have a total above 0, in the map's order.
fn rows_of<R: Copy + Ord>(alloc: Global, sums: &BTreeMap<R, u128>) -> Result<Vec<R>, NoMemory>
    ensures { IfOk result (λ rows. rows.items ≡ used_rows sums.now.entries) }
{
    let rows = sums
        .iter()
        .filter(|entry| *entry.1 > 0)
        .map(|entry| *entry.0)
        .collect(alloc)?;
    Ok(rows)
}

/// The rows of which something is used, ascending. `NoMemory` is its only refusal.
pub(crate) fn loaded_rows<F: RowFamily>(
    alloc: Global,
    totals: &Totals<F>,
) -> Result<Vec<F::Row>, NoMemory>
    ensures rising { IfOk result (λ loaded. AreRising F.Row.cmp loaded.items) }
    ensures all { IfOk result (λ loaded. (row : F.Row) → IsMissing F.Row.cmp loaded.items row
        → total_of F.Row.cmp totals.now.sums row ≡ 0) }
    ensures used { IfOk result (λ loaded. All (λ row. 0 < total_of F.Row.cmp totals.now.sums row)
        loaded.items) }
{
    let _ordered = totals.sums.iter();
    rows_of(alloc, &totals.sums)
}

/// Whether a row is before another.
fn is_before<R: Copy + Ord>(row: R, other: R) -> bool
    ensures { IsTrue result ↔ (R.cmp row other ≡ Ordering.Less) }
{
    row.cmp(&other).is_lt()
}

/// Whether the row that stands at a place of the list is behind this one; so too where none stands
/// there.
fn is_ahead<R: Copy + Ord>(loaded: &[R], place: usize, row: R) -> bool
    requires { place ≤ length loaded.now }
    ensures { IsTrue result → (d : R) → place < length loaded.now
        → R.cmp row (slice_index_or loaded.now place d) ≡ Ordering.Less }
{
    place == loaded.len() || is_before(row, loaded[place])
}

/// Where the row stands in the list, or where it would stand, and whether it is there.
#[derive(Clone, Copy)]
struct Spot {
    place: usize,
    is_there: bool,
}

/// Looks for the row in the list, first at a place up to which all are before it.
fn seek<R: Copy + Ord>(loaded: &[R], near: usize, row: R) -> Spot
    requires rising { AreRising R.cmp loaded.now }
    requires near { near ≤ length loaded.now }
    requires past { ArePast R.cmp loaded.now near row }
    ensures place { result.place ≤ length loaded.now }
    ensures past { result.is_there ≡ false → ArePast R.cmp loaded.now result.place row }
    ensures missing { result.is_there ≡ false → IsMissing R.cmp loaded.now row }
    ensures there { result.is_there ≡ true → IsMissing R.cmp loaded.now row → ⊥ }
{
    if is_ahead(loaded, near, row) {
        return Spot {
            place: near,
            is_there: false,
        };
    }
    match loaded.binary_search(&row) {
        Ok(place) => Spot {
            place,
            is_there: true,
        },
        Err(place) => Spot {
            place,
            is_there: false,
        },
    }
}

/// Whether the leg uses none of the rows, and no other row above its capacity. Its rows ascend, so
/// each is looked for behind the last one.
pub(crate) fn keeps_off<F: RowFamily>(
    net: &Network,
    rows: &F,
    loaded: &[F::Row],
    kind: TypeId,
    leg: Leg,
) -> bool
    requires usable { IsUsable net.now kind leg }
    requires rising { AreRising F.Row.cmp loaded.now }
    ensures { IsTrue result ↔ KeepsOff F.Row.cmp (F.rows_of rows.now net.now) kind loaded.now leg }
{
    let mut near = 0;
    for k in 0..8192 {
        let Some(row) = rows.touched(net, kind, leg, k) else {
            return true;
        };
        let spot = seek(loaded, near, row);
        if spot.is_there || rows.cap(net, row) < rows.leg_use(net, kind, leg, row) {
            return false;
        }
        near = spot.place;
    }
    true
}

/// Whether each leg uses none of the rows, and no other row above its capacity.
pub fn all_keep_off<F: RowFamily>(
    net: &Network,
    rows: &F,
    loaded: &[F::Row],
    kind: TypeId,
    legs: &[Leg],
) -> bool
    requires usable { All (IsUsable net.now kind) legs.now }
    requires rising { AreRising F.Row.cmp loaded.now }
    ensures { IsTrue result ↔ All (KeepsOff F.Row.cmp (F.rows_of rows.now net.now) kind loaded.now)
        legs.now }
{
    'legs: for leg in legs {
        if !keeps_off(net, rows, loaded, kind, *leg) {
            return false;
        }
    }
    true
}
