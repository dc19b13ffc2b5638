//! The prices of groups of touches, which move with the prices of the rows that they touch.
//!
//! A price of a row that moves moves the prices of its groups, by what each uses of it, and makes these groups due. A due
//! group takes the price that it has now before the bids are searched, and its mark then tells how its price has moved
//! since they were searched last.
ghost use Rattle.std.specs.Prelude.{◌≡◌, ◌⊎◌, ◌<◌, ◌≤◌, ℕ, pos, ◌+ℤ◌, ◌*ℤ◌, [], All, Contains, IfOk, OnOk, length, slice_set};
ghost use Rattle.optra_prices.specs.Columns.{IsColumns, AreListed, AreRunning, IsPriceMove, IsGroupMove, IsMovedPrice, MovesRunning, price_at, KeepsMarks, MarksGroups, MarksRow, MarksMovedRow, MarkTells, MarksTell, AreStill, PricesAllButDue, Reprices, mark_at};
ghost use Rattle.optra_prices.specs.Indexes.{IsIndex, items_at};
ghost use Rattle.optra_prices.specs.declared.columns.Mark.TheVariants.{Still, Due};
ghost use Rattle.optra_prices.specs.Tables.{AreGroups, AreGroupPrices, IsRowPrice};

use crate::amounts::Amounts;
use crate::index::{Index, end_of, start_of};
use crate::numbering::Groups;
use crate::row_prices::RowPrices;
use crate::shares::find_amounts;
use crate::users::find_users;
use optra_network::NoMemory;
use std::alloc::Global;

/// How the price of a group has moved since the bids were searched.
#[derive(Clone, Copy, PartialEq, Eq)]
pub(crate) enum Mark {
    /// Not at all.
    Still,
    /// It may be old.
    Due,
    /// It rose.
    Rose,
    /// It fell.
    Fell,
}

/// Groups of touches with their prices.
#[derive(Drop)]
pub(crate) struct Columns {
    pub(crate) groups: Groups,
    pub(crate) users: Index,
    /// How much each touch uses, in the order of `users`.
    pub(crate) amounts: Amounts,
    /// The prices at which the bids were searched.
    pub(crate) grouped: Vec<i64>,
    /// The prices that the groups have now.
    pub(crate) running: Vec<i64>,
    /// How the prices of the groups have moved.
    pub(crate) marks: Vec<Mark>,
    /// The groups that are marked.
    pub(crate) due: Vec<usize>,
    /// No group has cost more.
    pub(crate) highest: i64,
}

/// The groups at zero prices.
pub(crate) fn new_columns(alloc: Global, groups: Groups) -> Result<Columns, NoMemory>
    requires { AreGroups groups.starts.items groups.touches }
    ensures columns { IfOk result (IsColumns groups) }
    ensures still { IfOk result AreStill }
    ensures zero { IfOk result (λ columns. AreGroupPrices [] groups.starts.items
        groups.touches columns.grouped.items) }
    ensures running { IfOk result (λ columns. AreGroupPrices [] groups.starts.items
        groups.touches columns.running.items) }
{
    let amounts = find_amounts(alloc, &groups)?;
    let users = find_users(alloc, &groups)?;
    let count = groups.starts.len() - 1;
    Ok(Columns {
        groups,
        users,
        amounts,
        grouped: vec![in alloc; 0; count]?,
        running: vec![in alloc; 0; count]?,
        marks: vec![in alloc; Mark::Still; count]?,
        due: Vec::new(alloc),
        highest: 0,
    })
}

/// Lists a group that is marked from now on.
fn list_group(due: &mut Vec<usize>, mark: Mark, g: usize) -> Result<(), NoMemory>
    ensures here { OnOk result (mark ≡ Still → Contains due.new.items g) }
    ensures kept { OnOk result (All (Contains due.new.items) due.old.items) }
{
    if mark == Mark::Still {
        due.push(g)?;
    }
    Ok(())
}

/// Makes a group due.
fn mark_group(marks: &mut Vec<Mark>, due: &mut Vec<usize>, g: usize) -> Result<(), NoMemory>
    requires listed { AreListed marks.old.items due.old.items }
    ensures listed { OnOk result (AreListed marks.new.items due.new.items) }
    ensures keeps { OnOk result (KeepsMarks marks.old.items marks.new.items) }
    ensures here { OnOk result (g < length marks.old.items → mark_at marks.new.items g ≡ Due) }
{
    if g >= marks.len() {
        return Ok(());
    }
    list_group(due, marks[g], g)?;
    marks[g] = Mark::Due;
    Ok(())
}

/// Makes the groups that the index has for a row due.
fn mark_groups(
    marks: &mut Vec<Mark>,
    due: &mut Vec<usize>,
    users: &Index,
    row: usize,
) -> Result<(), NoMemory>
    requires users { IsIndex users.now }
    requires listed { AreListed marks.old.items due.old.items }
    ensures listed { OnOk result (AreListed marks.new.items due.new.items) }
    ensures marks { OnOk result (MarksGroups (items_at users.now row) marks.old.items
        marks.new.items) }
{
    for place in start_of(users, row)..end_of(users, row) {
        mark_group(marks, due, users.items.at(place))?;
    }
    Ok(())
}

/// Makes the groups that touch a row due.
pub(crate) fn mark_row(columns: &mut Columns, row: usize) -> Result<(), NoMemory>
    requires columns { IsColumns columns.old.groups columns.old }
    ensures columns { OnOk result (IsColumns columns.old.groups columns.new) }
    ensures row { OnOk result (MarksRow row columns.old columns.new) }
{
    mark_groups(&mut columns.marks, &mut columns.due, &columns.users, row)?;
    Ok(())
}

/// By how much the price of a group moves.
fn group_move(by: i64, uses: usize) -> i64
    requires by { IsPriceMove by }
    requires few { uses ≤ 8192 }
    ensures value { result ≡ by *ℤ pos uses }
    ensures range { IsGroupMove result }
{
    by * uses as i64
}

/// The price of a group that has moved by so much.
fn moved_price(price: i64, by: i64) -> i64
    requires price { IsMovedPrice price }
    requires by { IsGroupMove by }
    ensures { result ≡ price +ℤ by }
{
    price + by
}

/// Moves the price that a group has now.
fn move_group(running: &mut Vec<i64>, g: usize, by: i64, uses: usize)
    requires by { IsPriceMove by }
    requires few { g < length running.old.items → uses ≤ 8192 }
    requires range { IsMovedPrice (price_at running.old.items g) }
    ensures { running.new.items ≡ slice_set running.old.items g (price_at running.old.items g
        +ℤ by *ℤ pos uses) }
{
    if g < running.len() {
        running[g] = moved_price(running[g], group_move(by, uses));
    }
}

/// Moves the prices that the groups have now, once the price of a row that they touch moves by so much, and makes these
/// groups due.
pub(crate) fn move_row_groups(
    columns: &mut Columns,
    prices: &RowPrices,
    row: usize,
    by: i64,
) -> Result<(), NoMemory>
    requires columns { IsColumns columns.old.groups columns.old }
    requires prices { All IsRowPrice prices.now.items }
    requires running { AreRunning prices.now.items columns.old }
    requires by { IsPriceMove by }
    ensures columns { OnOk result (IsColumns columns.old.groups columns.new) }
    ensures marks { OnOk result (MarksMovedRow row columns.old columns.new) }
    ensures running { OnOk result (MovesRunning row by columns.old columns.new) }
{
    let _ = prices;
    for place in start_of(&columns.users, row)..end_of(&columns.users, row) {
        let g = columns.users.items.at(place);
        mark_group(&mut columns.marks, &mut columns.due, g)?;
        move_group(&mut columns.running, g, by, columns.amounts.at(place));
    }
    Ok(())
}

/// The mark of a group.
pub(crate) fn mark_at(marks: &[Mark], g: usize) -> Mark
    ensures { result ≡ mark_at marks.now g }
{
    marks.get(g).copied().unwrap_or(Mark::Still)
}

/// How a price has moved.
fn mark_of(old: i64, new: i64) -> Mark
    ensures { MarkTells old new result }
{
    if new > old {
        Mark::Rose
    } else if new < old {
        Mark::Fell
    } else {
        Mark::Still
    }
}

/// Prices a group anew where it is due.
fn reprice_group(columns: &mut Columns, prices: &RowPrices, g: usize)
    requires columns { IsColumns columns.old.groups columns.old }
    requires prices { All IsRowPrice prices.now.items }
    requires running { AreRunning prices.now.items columns.old }
    ensures columns { IsColumns columns.old.groups columns.new }
    ensures repriced { Reprices prices.now.items g columns.old columns.new }
{
    if g >= columns.grouped.len() || columns.marks[g] != Mark::Due {
        return;
    }
    let _ = prices;
    let price = columns.running[g];
    columns.marks[g] = mark_of(columns.grouped[g], price);
    columns.grouped[g] = price;
    columns.highest = columns.highest.max(price);
}

/// Prices anew all groups that are due. Their marks then tell how they have moved.
pub(crate) fn reprice(columns: &mut Columns, prices: &RowPrices)
    requires columns { IsColumns columns.old.groups columns.old }
    requires prices { All IsRowPrice prices.now.items }
    requires due { PricesAllButDue prices.now.items columns.old }
    ensures columns { IsColumns columns.old.groups columns.new }
    ensures prices { AreGroupPrices prices.now.items columns.new.groups.starts.items
        columns.new.groups.touches columns.new.grouped.items }
    ensures marks { MarksTell columns.old.grouped.items columns.new.grouped.items
        columns.new.marks.items }
    ensures running { AreRunning prices.now.items columns.new }
{
    for k in 0..columns.due.len() {
        let g = columns.due[k];
        reprice_group(columns, prices, g);
    }
}

/// Takes the mark of a group away.
fn still_group(marks: &mut Vec<Mark>, g: usize)
    ensures { marks.new.items ≡ slice_set marks.old.items g Still }
{
    if g < marks.len() {
        marks[g] = Mark::Still;
    }
}

/// Takes the marks of groups away.
fn still_groups(marks: &mut Vec<Mark>, groups: &[usize])
    ensures count { length marks.new.items ≡ length marks.old.items }
    ensures still { (g : ℕ) → (mark_at marks.new.items g ≡ Still)
        ⊎ ((mark_at marks.new.items g ≡ mark_at marks.old.items g) × (Contains groups.now g → ⊥)) }
{
    for g in groups {
        still_group(marks, *g);
    }
}

/// Takes all marks away, once the bids are searched.
pub(crate) fn still(columns: &mut Columns)
    requires { IsColumns columns.old.groups columns.old }
    ensures columns { IsColumns columns.old.groups columns.new }
    ensures still { AreStill columns.new }
    ensures same { columns.new.grouped ≡ columns.old.grouped }
    ensures running { columns.new.running ≡ columns.old.running }
{
    still_groups(&mut columns.marks, &columns.due);
    columns.due.clear();
}
