//! How much the replies use of rows, by the numbers of rows.
//!
//! What the paths use that were counted last stays from step to step; only a path that is another one now is counted anew.
ghost use Rattle.std.specs.Prelude.{◌≡◌, ◌≤◌, true, ℕ, [], All, IfOk, OnOk, length, replicate, take, ◌<◌, slice_index};
ghost use Rattle.optra_prices.specs.Levels.{IsLevels, AreUnused, KeepsPrices};
ghost use Rattle.optra_prices.specs.Tables.{AreGroups};
ghost use Rattle.optra_prices.specs.Uses.{touch_uses, touches_at, list_uses, rows_use, AreCounted, AddsUses, TakesUses, CountsList, AreEmpty, lists_of, lists_in};

use crate::grouping::group;
use crate::levels::{Levels, add_touch, forget_uses, take_touch};
use crate::numbering::{Groups, Standing};
use crate::path_rows::{PathRows, list_rows, list_spans};
use crate::touch::Touch;
use crate::touch_slice::TouchSlice;
use optra_network::NoMemory;
use std::alloc::Global;

/// What a group touches, which is nothing past the last one.
fn touches_at(groups: &Groups, g: usize) -> TouchSlice<'_>
    requires { AreGroups groups.now.starts.items groups.now.touches }
    ensures { result ≡ touches_at groups.now g }
{
    if g < groups.starts.len().saturating_sub(1) {
        group(groups, g)
    } else {
        groups.touches.range(0, 0)
    }
}

/// Adds what a group uses.
fn add_group(levels: &mut Levels, touches: &TouchSlice<'_>) -> Result<(), NoMemory>
    requires { IsLevels levels.old }
    ensures levels { OnOk result (IsLevels levels.new) }
    ensures uses { OnOk result (AddsUses (touch_uses touches.now) levels.old.loads.uses
        levels.new.loads.uses) }
    ensures prices { OnOk result (KeepsPrices levels.old levels.new) }
{
    for k in 0..touches.len() {
        add_touch(levels, touches.at(k))?;
    }
    Ok(())
}

/// Takes away what a group uses.
fn take_group(levels: &mut Levels, touches: &TouchSlice<'_>)
    requires { IsLevels levels.old }
    ensures levels { IsLevels levels.new }
    ensures uses { TakesUses (touch_uses touches.now) levels.old.loads.uses levels.new.loads.uses }
    ensures prices { KeepsPrices levels.old levels.new }
{
    for k in 0..touches.len() {
        take_touch(levels, touches.at(k));
    }
}

/// Adds what the groups of a path use.
fn add_list(levels: &mut Levels, groups: &Groups, list: &[usize]) -> Result<(), NoMemory>
    requires levels { IsLevels levels.old }
    requires groups { AreGroups groups.now.starts.items groups.now.touches }
    ensures levels { OnOk result (IsLevels levels.new) }
    ensures uses { OnOk result (AddsUses (list_uses groups.now list.now) levels.old.loads.uses
        levels.new.loads.uses) }
    ensures prices { OnOk result (KeepsPrices levels.old levels.new) }
{
    for g in list {
        add_group(levels, &touches_at(groups, *g))?;
    }
    Ok(())
}

/// Takes away what the groups of a path use.
fn take_list(levels: &mut Levels, groups: &Groups, list: &[usize])
    requires levels { IsLevels levels.old }
    requires groups { AreGroups groups.now.starts.items groups.now.touches }
    ensures levels { IsLevels levels.new }
    ensures uses { TakesUses (list_uses groups.now list.now) levels.old.loads.uses
        levels.new.loads.uses }
    ensures prices { KeepsPrices levels.old levels.new }
{
    for g in list {
        take_group(levels, &touches_at(groups, *g));
    }
}

/// Adds one use of each of the rows.
fn add_rows(levels: &mut Levels, rows: &[u32]) -> Result<(), NoMemory>
    requires { IsLevels levels.old }
    ensures levels { OnOk result (IsLevels levels.new) }
    ensures uses { OnOk result (AddsUses (rows_use rows.now) levels.old.loads.uses
        levels.new.loads.uses) }
    ensures prices { OnOk result (KeepsPrices levels.old levels.new) }
{
    for row in rows {
        add_touch(
            levels,
            Touch {
                row: *row as usize,
                uses: 1,
            },
        )?;
    }
    Ok(())
}

/// Takes away one use of each of the rows.
fn take_rows(levels: &mut Levels, rows: &[u32])
    requires { IsLevels levels.old }
    ensures levels { IsLevels levels.new }
    ensures uses { TakesUses (rows_use rows.now) levels.old.loads.uses levels.new.loads.uses }
    ensures prices { KeepsPrices levels.old levels.new }
{
    for row in rows {
        take_touch(
            levels,
            Touch {
                row: *row as usize,
                uses: 1,
            },
        );
    }
}

/// Adds what the groups of a path use: by its rows where these are listed, and group by group where they aren't.
fn add_path(
    levels: &mut Levels,
    groups: &Groups,
    list: &[usize],
    rows: &[u32],
    is_listed: bool,
) -> Result<(), NoMemory>
    requires levels { IsLevels levels.old }
    requires groups { AreGroups groups.now.starts.items groups.now.touches }
    requires rows { is_listed ≡ true → (n : ℕ) → rows_use rows.now n
        ≡ list_uses groups.now list.now n }
    ensures levels { OnOk result (IsLevels levels.new) }
    ensures uses { OnOk result (AddsUses (list_uses groups.now list.now) levels.old.loads.uses
        levels.new.loads.uses) }
    ensures prices { OnOk result (KeepsPrices levels.old levels.new) }
{
    if is_listed {
        add_rows(levels, rows)
    } else {
        add_list(levels, groups, list)
    }
}

/// Takes away what the groups of a path use: by its rows where these are listed, and group by group where they aren't.
fn take_path(levels: &mut Levels, groups: &Groups, list: &[usize], rows: &[u32], is_listed: bool)
    requires levels { IsLevels levels.old }
    requires groups { AreGroups groups.now.starts.items groups.now.touches }
    requires rows { is_listed ≡ true → (n : ℕ) → rows_use rows.now n
        ≡ list_uses groups.now list.now n }
    ensures levels { IsLevels levels.new }
    ensures uses { TakesUses (list_uses groups.now list.now) levels.old.loads.uses
        levels.new.loads.uses }
    ensures prices { KeepsPrices levels.old levels.new }
{
    if is_listed {
        take_rows(levels, rows);
    } else {
        take_list(levels, groups, list);
    }
}

/// What is listed of the groups that are counted no more, and of those that are counted in their place.
#[derive(Drop)]
struct Counting {
    less: PathRows,
    more: PathRows,
}

/// Counts groups in place of others that were counted. All that is to be read is asked for before any use changes: where the
/// touches of all groups stand, then their rows.
fn count_groups(
    levels: &mut Levels,
    groups: &Groups,
    counting: &mut Counting,
    before: &[usize],
    list: &[usize],
) -> Result<(), NoMemory>
    requires levels { IsLevels levels.old }
    requires groups { AreGroups groups.now.starts.items groups.now.touches }
    ensures levels { OnOk result (IsLevels levels.new) }
    ensures uses { OnOk result (CountsList groups.now before.now list.now levels.old.loads.uses
        levels.new.loads.uses) }
    ensures prices { OnOk result (KeepsPrices levels.old levels.new) }
{
    list_spans(&mut counting.less.spans, groups, before)?;
    list_spans(&mut counting.more.spans, groups, list)?;
    let less = list_rows(&mut counting.less.rows, groups, &counting.less.spans)?;
    let more = list_rows(&mut counting.more.rows, groups, &counting.more.spans)?;
    take_path(levels, groups, before, &counting.less.rows, less);
    add_path(levels, groups, list, &counting.more.rows, more)
}

/// How many groups two paths share from their start on.
fn same_start(a: &[usize], b: &[usize]) -> usize
    ensures within { (result ≤ length a.now) × (result ≤ length b.now) }
    ensures same { take result a.now ≡ take result b.now }
    ensures most { result < length a.now → result < length b.now
        → slice_index a.now result ≡ slice_index b.now result → ⊥ }
{
    let most = a.len().min(b.len());
    for k in 0..most {
        if a[k] != b[k] {
            return k;
        }
    }
    most
}

/// Counts the groups of a bid's path in place of those that were counted, from the first one on in which they differ.
fn count_list(
    levels: &mut Levels,
    groups: &Groups,
    counting: &mut Counting,
    counted: &mut Vec<usize>,
    list: &[usize],
) -> Result<(), NoMemory>
    requires levels { IsLevels levels.old }
    requires groups { AreGroups groups.now.starts.items groups.now.touches }
    ensures levels { OnOk result (IsLevels levels.new) }
    ensures list { OnOk result (counted.new.items ≡ list.now) }
    ensures uses { OnOk result (CountsList groups.now counted.old.items list.now
        levels.old.loads.uses levels.new.loads.uses) }
    ensures prices { OnOk result (KeepsPrices levels.old levels.new) }
{
    let same = same_start(counted, list);
    count_groups(levels, groups, counting, &counted[same..], &list[same..])?;
    counted.truncate(same);
    counted.extend_from_slice(&list[same..])?;
    Ok(())
}

/// Counts what the replies of all bids use.
pub(crate) fn count_uses(
    levels: &mut Levels,
    groups: &Groups,
    counted: &mut Vec<Vec<usize>>,
    standings: &[Standing],
) -> Result<(), NoMemory>
    requires levels { IsLevels levels.old }
    requires groups { AreGroups groups.now.starts.items groups.now.touches }
    requires counted { AreCounted groups.now (length standings.now) (lists_in counted.old.items)
        levels.old.loads.uses }
    ensures levels { OnOk result (IsLevels levels.new) }
    ensures counted { OnOk result (AreCounted groups.now (length standings.now)
        (lists_in counted.new.items) levels.new.loads.uses) }
    ensures lists { OnOk result (lists_in counted.new.items ≡ lists_of standings.now) }
    ensures prices { OnOk result (KeepsPrices levels.old levels.new) }
{
    let alloc = *counted.allocator();
    let mut counting = Counting {
        less: PathRows::new(alloc),
        more: PathRows::new(alloc),
    };
    for number in 0..standings.len() {
        let list = &standings[number].groups;
        count_list(levels, groups, &mut counting, &mut counted[number], list)?;
    }
    Ok(())
}

/// Forgets each path that is counted, and what they use.
pub(crate) fn forget_paths(levels: &mut Levels, counted: &mut Vec<Vec<usize>>)
    requires { IsLevels levels.old }
    ensures levels { IsLevels levels.new }
    ensures unused { AreUnused levels.new }
    ensures prices { KeepsPrices levels.old levels.new }
    ensures count { length (lists_in counted.new.items) ≡ length (lists_in counted.old.items) }
    ensures empty { AreEmpty (lists_in counted.new.items) }
{
    for number in 0..counted.len() {
        counted[number].clear();
    }
    forget_uses(levels);
}

/// For each of so many bids a path without a group.
pub(crate) fn no_paths(alloc: Global, count: usize) -> Result<Vec<Vec<usize>>, NoMemory>
    ensures { IfOk result (λ counted. lists_in counted.items ≡ replicate count []) }
{
    let mut counted = Vec::with_capacity(alloc, count)?;
    for _number in 0..count {
        counted.push(Vec::new(alloc))?;
    }
    Ok(counted)
}
