//! Rows by number.
//!
//! The rows that legs touch get their numbers at once and in ascending order, so that the number of such a row is its place
//! among them. Rows that prices list later get the next numbers, and stand with these in a list of their own.
ghost use Rattle.std.specs.Prelude.{◌≡◌, ◌≤◌, ◌⊎◌, ◌++◌, ◌∷◌, [], None, Some, IfOk, IfSome, OnOk, length, slice_get, take};
ghost use Rattle.std.specs.List.Sorted.{IsStrictlySortedBy};
ghost use Rattle.optra_prices.specs.Rankings.{IsGap, IsNoneOf};
ghost use Rattle.optra_prices.specs.Tables.{AreUp, IsNumbering, number_in};

use optra_network::NoMemory;
use optra_walk::{CodedRow, RowFamily, RowList};
use std::alloc::Global;
use std::cmp::Ordering;
use std::marker::Model;

/// Rows by number.
#[derive(Drop)]
pub(crate) struct RowNumbers<R: CodedRow> {
    rows: RowList<R>,
    /// So many rows from the first on ascend.
    sorted: usize,
    /// The other rows with their numbers, ascending.
    later: Vec<(R, usize)>,
}

impl<R: CodedRow> Model for RowNumbers<R> {
    ghost use Rattle.std.specs.Prelude.{take};
    ghost use Rattle.optra_prices.specs.Numberings.{RowNumbering, AreHalved, order_of};

    ghost Value = { RowNumbering R };

    ghost view = { λ a. record {
      rows = record { items = a.rows.items };
      order = record { items = order_of R.cmp (take a.sorted a.rows.items) a.later.items };
    } };

    ghost invariant = { λ a. AreHalved R.cmp a.rows.items a.sorted a.later.items };
}

impl<R: CodedRow> RowNumbers<R> {
    /// The rows, by number.
    pub(crate) fn rows(&self) -> &RowList<R>
        ensures { result.now.items ≡ self.now.rows.items }
    {
        &self.rows
    }

    /// How many rows have numbers.
    pub(crate) fn count(&self) -> usize
        ensures { result ≡ length self.now.rows.items }
    {
        self.rows.len()
    }
}

/// Rows that ascend, each numbered by its place.
pub(crate) fn numbers_by_place<F: RowFamily>(
    alloc: Global,
    rows: RowList<F::Row>,
) -> RowNumbers<F::Row>
    requires { IsStrictlySortedBy F.Row.cmp rows.items }
    ensures numbering { IsNumbering F.Row.cmp result.order.items result.rows.items }
    ensures rows { result.rows.items ≡ rows.items }
{
    let sorted = rows.len();
    RowNumbers {
        rows,
        sorted,
        later: Vec::new(alloc),
    }
}

/// The place of a row among so many first ones, which ascend.
fn place_of<F: RowFamily>(rows: &RowList<F::Row>, sorted: usize, row: F::Row) -> Option<usize>
    requires within { sorted ≤ length rows.now.items }
    requires ascend { IsStrictlySortedBy F.Row.cmp (take sorted rows.now.items) }
    ensures found { IfSome result (λ k. slice_get (take sorted rows.now.items) k ≡ Some row) }
    ensures missed { result ≡ None → IsNoneOf F.Row.cmp (take sorted rows.now.items) row }
{
    let mut low = 0;
    let mut high = sorted;
    while low < high {
        let middle = low + (high - low) / 2;
        match rows.at(middle).cmp(&row) {
            Ordering::Less => low = middle + 1,
            Ordering::Equal => return Some(middle),
            Ordering::Greater => high = middle,
        }
    }
    None
}

/// The number of the row, where it has one.
pub(crate) fn number_of<F: RowFamily>(numbering: &RowNumbers<F::Row>, row: F::Row) -> Option<usize>
    requires { IsNumbering F.Row.cmp numbering.now.order.items numbering.now.rows.items }
    ensures { result ≡ number_in F.Row.cmp numbering.now.order.items row }
{
    if let Some(place) = place_of::<F>(&numbering.rows, numbering.sorted, row) {
        return Some(place);
    }
    match numbering.later.binary_search_by_key(&row, |entry| entry.0) {
        Ok(place) => Some(numbering.later[place].1),
        Err(_) => None,
    }
}

/// Where the row is put among later ones, which it isn't one of.
fn gap_of<F: RowFamily>(later: &[(F::Row, usize)], row: F::Row) -> usize
    requires up { AreUp F.Row.cmp later.now }
    requires other { number_in F.Row.cmp later.now row ≡ None }
    ensures { IsGap F.Row.cmp later.now row result }
{
    match later.binary_search_by_key(&row, |entry| entry.0) {
        Ok(place) => place,
        Err(place) => place,
    }
}

/// Gives a row that has no number the next one.
fn add_row<F: RowFamily>(numbering: &mut RowNumbers<F::Row>, row: F::Row) -> Result<usize, NoMemory>
    requires numbering { IsNumbering F.Row.cmp numbering.old.order.items numbering.old.rows.items }
    requires other { number_in F.Row.cmp numbering.old.order.items row ≡ None }
    ensures numbering { OnOk result (IsNumbering F.Row.cmp numbering.new.order.items
        numbering.new.rows.items) }
    ensures rows { OnOk result (numbering.new.rows.items ≡ numbering.old.rows.items ++ row ∷ []) }
    ensures number { IfOk result (λ n. n ≡ length numbering.old.rows.items) }
{
    let number = numbering.rows.len();
    let place = gap_of::<F>(&numbering.later, row);
    numbering.rows.push(row)?;
    numbering.later.insert(place, (row, number))?;
    Ok(number)
}

/// The number of the row, which gets the next one where it has none.
pub(crate) fn number<F: RowFamily>(
    numbering: &mut RowNumbers<F::Row>,
    row: F::Row,
) -> Result<usize, NoMemory>
    requires { IsNumbering F.Row.cmp numbering.old.order.items numbering.old.rows.items }
    ensures numbering { OnOk result (IsNumbering F.Row.cmp numbering.new.order.items
        numbering.new.rows.items) }
    ensures grows { OnOk result ((numbering.new.rows.items ≡ numbering.old.rows.items)
        ⊎ (numbering.new.rows.items ≡ numbering.old.rows.items ++ row ∷ [])) }
    ensures same { OnOk result (length numbering.new.rows.items ≡ length numbering.old.rows.items
        → numbering.new ≡ numbering.old) }
    ensures number { IfOk result (λ n. slice_get numbering.new.rows.items n ≡ Some row) }
{
    match number_of::<F>(numbering, row) {
        Some(known) => Ok(known),
        None => add_row::<F>(numbering, row),
    }
}
