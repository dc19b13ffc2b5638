//! The prices of rows by number, of which few are above zero.
//!
//! Rows with a price, or with more uses than capacity, are active. A step moves these alone: the price of any other row is
//! 0 and stays 0. The price of all capacity is kept by difference.
ghost use Rattle.std.specs.Prelude.{◌≡◌, ◌+◌, ◌<◌, ◌≤◌, true, [], ◌∷◌, ◌++◌, pos, ◌+ℤ◌, ◌-ℤ◌, ◌*ℤ◌, All, IfOk, OnOk, length, slice_set, ℕ, replicate, slice_index};
ghost use Rattle.optra_prices.specs.Bounds.{IsCapacityPrice, IsStepLength, IsWholePrice, most_capacity};
ghost use Rattle.optra_prices.specs.Columns.{IsColumns, IsPriceMove, PricesAllButDue};
ghost use Rattle.optra_prices.specs.Levels.{IsLevels, IsMove, AreUnused, KeepsPrices, KeepsUses, Wakes, WakesAbove, Rests, MovesRow, MovesTo, HoldsPrices, moved_by, is_listed, next_at, use_of};
ghost use Rattle.optra_prices.specs.Tables.{IsRowPrice};
ghost use Rattle.optra_prices.specs.Uses.{AddsUses, TakesUses, touch_use};

use crate::columns::{Columns, move_row_groups};
use crate::loads::Loads;
use crate::next_prices::next_price;
use crate::row_prices::RowPrices;
use crate::touch::Touch;
use optra_network::NoMemory;
use std::alloc::Global;

/// The prices, uses and capacities of rows, by number.
#[derive(Drop)]
pub(crate) struct Levels {
    pub(crate) prices: RowPrices,
    /// How much of rows the paths use that were counted last, beside the capacities of rows.
    pub(crate) loads: Loads,
    /// The rows with a price or with more uses than capacity, and maybe others; none twice.
    pub(crate) active: Vec<usize>,
    /// Whether a row is active.
    pub(crate) listed: Vec<bool>,
    /// The price of all capacity.
    pub(crate) capacity: i128,
}

/// A price times a capacity.
fn capacity_product(price: i64, capacity: u32) -> i128
    requires price { IsRowPrice price }
    requires capacity { capacity ≤ most_capacity }
    ensures value { result ≡ price *ℤ pos capacity }
    ensures range { IsCapacityPrice result }
{
    i128::from(price) * i128::from(capacity)
}

/// The price of all capacity after one row's price has changed.
fn capacity_after(total: i128, old: i64, new: i64, capacity: u32) -> i128
    requires old { IsRowPrice old }
    requires new { IsRowPrice new }
    requires capacity { capacity ≤ most_capacity }
    requires total { IsWholePrice total }
    ensures { result ≡ total +ℤ (new *ℤ pos capacity -ℤ old *ℤ pos capacity) }
{
    total + (capacity_product(new, capacity) - capacity_product(old, capacity))
}

/// By how much a price of a row moves.
fn price_move(old: i64, new: i64) -> i64
    requires old { IsRowPrice old }
    requires new { IsRowPrice new }
    ensures value { result ≡ new -ℤ old }
    ensures range { IsPriceMove result }
{
    new - old
}

/// Rows of which nothing is used, at no price.
pub(crate) fn free_levels(alloc: Global, loads: Loads) -> Result<Levels, NoMemory>
    requires unused { (n : ℕ) → slice_index loads.uses n ≡ 0 }
    requires count { length loads.capacities ≡ length loads.uses }
    requires small { All (λ capacity. capacity ≤ most_capacity) loads.capacities }
    ensures levels { IfOk result IsLevels }
    ensures unused { IfOk result AreUnused }
    ensures capacities { IfOk result (λ levels. levels.loads.capacities ≡ loads.capacities) }
    ensures prices { IfOk result (λ levels. levels.prices.items
        ≡ replicate (length loads.uses) (pos 0)) }
{
    let count = loads.len();
    let prices = RowPrices::zeros(alloc, count)?;
    let listed = vec![in alloc; false; count]?;
    Ok(Levels {
        prices,
        loads,
        active: Vec::new(alloc),
        listed,
        capacity: 0,
    })
}

/// Takes the memory for so many rows, and no more.
pub(crate) fn reserve_levels(levels: &mut Levels, count: usize) -> Result<(), NoMemory>
    requires levels { IsLevels levels.old }
    requires unused { AreUnused levels.old }
    ensures levels { OnOk result (IsLevels levels.new) }
    ensures unused { OnOk result (AreUnused levels.new) }
    ensures prices { OnOk result (levels.new.prices.items ≡ levels.old.prices.items) }
    ensures capacities { OnOk result (levels.new.loads.capacities ≡ levels.old.loads.capacities) }
{
    let more = count.saturating_sub(levels.prices.len());
    levels.prices.reserve_exact(more)?;
    levels.loads.reserve_exact(more)?;
    levels.listed.reserve_exact(more)
}

/// Makes room for one more row, at no price and with no use.
pub(crate) fn push_level(levels: &mut Levels, capacity: u32) -> Result<(), NoMemory>
    requires levels { IsLevels levels.old }
    requires unused { AreUnused levels.old }
    requires small { capacity ≤ most_capacity }
    ensures levels { OnOk result (IsLevels levels.new) }
    ensures unused { OnOk result (AreUnused levels.new) }
    ensures prices { OnOk result (levels.new.prices.items ≡ levels.old.prices.items ++ pos 0 ∷ []) }
    ensures capacities { OnOk result (levels.new.loads.capacities ≡ levels.old.loads.capacities
        ++ capacity ∷ []) }
{
    levels.prices.push_zero()?;
    levels.loads.push(capacity)?;
    levels.listed.push(false)?;
    Ok(())
}

/// Makes a row active, before it gets a price or more uses than capacity.
fn wake(levels: &mut Levels, number: usize) -> Result<(), NoMemory>
    requires levels { IsLevels levels.old }
    requires within { number < length levels.old.prices.items }
    ensures levels { OnOk result (IsLevels levels.new) }
    ensures wakes { OnOk result (Wakes number levels.old levels.new) }
{
    if levels.listed[number] {
        return Ok(());
    }
    levels.active.push(number)?;
    levels.listed[number] = true;
    Ok(())
}

/// Makes a row active that is to have more uses than capacity, once so many more are added.
fn wake_above(levels: &mut Levels, number: usize, more: u32) -> Result<(), NoMemory>
    requires levels { IsLevels levels.old }
    requires within { number < length levels.old.prices.items }
    ensures levels { OnOk result (IsLevels levels.new) }
    ensures wakes { OnOk result (WakesAbove number (use_of levels.old number + more) levels.old
        levels.new) }
{
    if !levels.loads.fits(number, more) {
        wake(levels, number)?;
    }
    Ok(())
}

/// Sets the price of a row, moves the prices of the groups that touch it, and makes these groups due.
pub(crate) fn set_price(
    levels: &mut Levels,
    columns: &mut Columns,
    number: usize,
    price: i64,
) -> Result<(), NoMemory>
    requires levels { IsLevels levels.old }
    requires columns { IsColumns columns.old.groups columns.old }
    requires within { number < length levels.old.prices.items }
    requires price { IsRowPrice price }
    requires due { PricesAllButDue levels.old.prices.items columns.old }
    ensures levels { OnOk result (IsLevels levels.new) }
    ensures columns { OnOk result (IsColumns columns.old.groups columns.new) }
    ensures due { OnOk result (PricesAllButDue levels.new.prices.items columns.new) }
    ensures prices { OnOk result (levels.new.prices.items ≡ slice_set levels.old.prices.items number
        price) }
    ensures grouped { OnOk result (columns.new.grouped ≡ columns.old.grouped) }
    ensures rest { OnOk result (KeepsUses levels.old levels.new) }
    ensures active { OnOk result (is_listed levels.old number ≡ true → levels.new.active
        ≡ levels.old.active) }
{
    let old = levels.prices.at(number);
    if old == price {
        return Ok(());
    }
    wake(levels, number)?;
    move_row_groups(columns, &levels.prices, number, price_move(old, price))?;
    levels.capacity = capacity_after(levels.capacity, old, price, levels.loads.capacity(number));
    levels.prices.set(number, price)?;
    Ok(())
}

/// Lets the active row at this place go where it has no price and no more uses than capacity; the last active row then
/// stands in its place. Tells the place at which to go on.
fn rest_row(levels: &mut Levels, k: usize) -> usize
    requires levels { IsLevels levels.old }
    requires within { k < length levels.old.active.items }
    ensures levels { IsLevels levels.new }
    ensures rests { Rests k result levels.old levels.new }
{
    let place = levels.active[k];
    if levels.prices.at(place) != 0 || !levels.loads.is_within(place) {
        return k + 1;
    }
    levels.listed[place] = false;
    levels.active.swap_remove(k);
    k
}

/// Sets the price of the active row at this place, and lets the row go where it is to be active no more. Tells the place
/// at which to go on.
fn move_row(
    levels: &mut Levels,
    columns: &mut Columns,
    k: usize,
    price: i64,
) -> Result<usize, NoMemory>
    requires levels { IsLevels levels.old }
    requires columns { IsColumns columns.old.groups columns.old }
    requires within { k < length levels.old.active.items }
    requires price { IsRowPrice price }
    requires due { PricesAllButDue levels.old.prices.items columns.old }
    ensures levels { OnOk result (IsLevels levels.new) }
    ensures columns { OnOk result (IsColumns columns.old.groups columns.new) }
    ensures due { OnOk result (PricesAllButDue levels.new.prices.items columns.new) }
    ensures grouped { OnOk result (columns.new.grouped ≡ columns.old.grouped) }
    ensures moves { IfOk result (λ next. MovesRow k price next levels.old levels.new) }
{
    let number = levels.active[k];
    set_price(levels, columns, number, price)?;
    Ok(rest_row(levels, k))
}

/// The next price of a row by a step of this length.
fn next_price_at(levels: &Levels, number: usize, by: i64) -> i64
    requires levels { IsLevels levels.now }
    requires by { IsStepLength by }
    requires within { number < length levels.now.prices.items }
    ensures value { result ≡ next_at by levels.now number }
    ensures range { IsRowPrice result }
{
    next_price(
        by,
        levels.prices.at(number),
        levels.loads.used(number),
        levels.loads.capacity(number),
    )
}

/// Puts the active rows in ascending order. Rows that follow each other mostly share groups, so that what is read for one
/// is at hand for the next.
fn sort_active(levels: &mut Levels)
    requires { IsLevels levels.old }
    ensures levels { IsLevels levels.new }
    ensures prices { levels.new.prices ≡ levels.old.prices }
    ensures rest { KeepsUses levels.old levels.new }
{
    levels.active.sort_unstable();
}

/// Gives each active row its next price by a step of this length; the price of each other row stays at 0.
pub(crate) fn move_prices(
    levels: &mut Levels,
    columns: &mut Columns,
    by: i64,
) -> Result<(), NoMemory>
    requires levels { IsLevels levels.old }
    requires columns { IsColumns columns.old.groups columns.old }
    requires by { IsStepLength by }
    requires due { PricesAllButDue levels.old.prices.items columns.old }
    ensures levels { OnOk result (IsLevels levels.new) }
    ensures columns { OnOk result (IsColumns columns.old.groups columns.new) }
    ensures due { OnOk result (PricesAllButDue levels.new.prices.items columns.new) }
    ensures prices { OnOk result (MovesTo (next_at by levels.old) levels.old levels.new) }
    ensures grouped { OnOk result (columns.new.grouped ≡ columns.old.grouped) }
    ensures rest { OnOk result (KeepsUses levels.old levels.new) }
{
    sort_active(levels);
    let mut k = 0;
    'rows: while k < levels.active.len() {
        let price = next_price_at(levels, levels.active[k], by);
        k = move_row(levels, columns, k, price)?;
    }
    Ok(())
}

/// Gives each row price 0.
pub(crate) fn zero_prices(levels: &mut Levels, columns: &mut Columns) -> Result<(), NoMemory>
    requires levels { IsLevels levels.old }
    requires columns { IsColumns columns.old.groups columns.old }
    requires due { PricesAllButDue levels.old.prices.items columns.old }
    ensures levels { OnOk result (IsLevels levels.new) }
    ensures columns { OnOk result (IsColumns columns.old.groups columns.new) }
    ensures due { OnOk result (PricesAllButDue levels.new.prices.items columns.new) }
    ensures prices { OnOk result (MovesTo (λ number. pos 0) levels.old levels.new) }
    ensures grouped { OnOk result (columns.new.grouped ≡ columns.old.grouped) }
    ensures rest { OnOk result (KeepsUses levels.old levels.new) }
{
    let mut k = 0;
    'rows: while k < levels.active.len() {
        k = move_row(levels, columns, k, 0)?;
    }
    Ok(())
}

/// The prices of all rows that are active.
pub(crate) fn copy_prices(moves: &mut Vec<(usize, i64)>, levels: &Levels) -> Result<(), NoMemory>
    requires { IsLevels levels.now }
    ensures { OnOk result (HoldsPrices levels.now moves.new.items) }
{
    moves.clear();
    for k in 0..levels.active.len() {
        let number = levels.active[k];
        moves.push((number, levels.prices.at(number)))?;
    }
    Ok(())
}

/// Sets the prices of rows one after the other.
pub(crate) fn set_prices(
    levels: &mut Levels,
    columns: &mut Columns,
    moves: &[(usize, i64)],
) -> Result<(), NoMemory>
    requires levels { IsLevels levels.old }
    requires columns { IsColumns columns.old.groups columns.old }
    requires moves { All (IsMove (length levels.old.prices.items)) moves.now }
    requires due { PricesAllButDue levels.old.prices.items columns.old }
    ensures levels { OnOk result (IsLevels levels.new) }
    ensures columns { OnOk result (IsColumns columns.old.groups columns.new) }
    ensures due { OnOk result (PricesAllButDue levels.new.prices.items columns.new) }
    ensures prices { OnOk result (levels.new.prices.items
        ≡ moved_by moves.now levels.old.prices.items) }
    ensures grouped { OnOk result (columns.new.grouped ≡ columns.old.grouped) }
    ensures rest { OnOk result (KeepsUses levels.old levels.new) }
{
    for next in moves {
        set_price(levels, columns, next.0, next.1)?;
    }
    Ok(())
}

/// Adds what a touch uses, and makes its row active where there is no room for that.
fn add_any(levels: &mut Levels, touch: Touch) -> Result<(), NoMemory>
    requires { IsLevels levels.old }
    ensures levels { OnOk result (IsLevels levels.new) }
    ensures uses { OnOk result (AddsUses (touch_use touch) levels.old.loads.uses
        levels.new.loads.uses) }
    ensures prices { OnOk result (KeepsPrices levels.old levels.new) }
{
    let place = touch.row;
    if place >= levels.loads.len() {
        return Ok(());
    }
    wake_above(levels, touch.row, touch.uses)?;
    levels.loads.add(place, touch.uses)
}

/// Adds what a touch uses: mostly once a row that has room for it.
pub(crate) fn add_touch(levels: &mut Levels, touch: Touch) -> Result<(), NoMemory>
    requires { IsLevels levels.old }
    ensures levels { OnOk result (IsLevels levels.new) }
    ensures uses { OnOk result (AddsUses (touch_use touch) levels.old.loads.uses
        levels.new.loads.uses) }
    ensures prices { OnOk result (KeepsPrices levels.old levels.new) }
{
    if touch.uses != 1 {
        return add_any(levels, touch);
    }
    if levels.loads.add_once(touch.row) {
        return Ok(());
    }
    add_any(levels, touch)
}

/// Takes away what a touch uses.
pub(crate) fn take_touch(levels: &mut Levels, touch: Touch)
    requires { IsLevels levels.old }
    ensures levels { IsLevels levels.new }
    ensures uses { TakesUses (touch_use touch) levels.old.loads.uses levels.new.loads.uses }
    ensures prices { KeepsPrices levels.old levels.new }
{
    levels.loads.take(touch.row, touch.uses);
}

/// Forgets all uses.
pub(crate) fn forget_uses(levels: &mut Levels)
    requires { IsLevels levels.old }
    ensures levels { IsLevels levels.new }
    ensures unused { AreUnused levels.new }
    ensures prices { KeepsPrices levels.old levels.new }
{
    levels.loads.clear();
}
