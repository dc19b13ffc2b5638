//! Rows by number and groups of touches while they are made, leg by leg.
//!
//! A leg takes the group of one that entered before, where the family sees at once that both use alike; else it makes a
//! new one. Where such a leg may be found is only guessed: nothing rests on a guess, since it is tried before it is taken.
//! So are the rows of a new group guessed by those of a leg that departs a minute earlier, so that few are named twice.
ghost use Rattle.std.specs.Prelude.{◌≡◌, ◌<◌, true, All, IfSome, IfOk, OnOk};
ghost use Rattle.optra_walk.specs.Families.{IsUsable};
ghost use Rattle.optra_prices.specs.Tables.{AreGroups};
ghost use Rattle.optra_prices.specs.Makings.{IsHead, IsGroupOf, IsMaking, Grows, FindsGroup, IsNumbered};

use crate::grouping::empty_groups;
use crate::numbering::Groups;
use crate::ranking::number_rows;
use crate::row_numbers::RowNumbers;
use crate::touching::push_touches;
use optra_network::{Network, NoMemory, TypeId};
use optra_walk::{Action, CodedRow, Leg, RowFamily, RowList};
use std::alloc::Global;

/// How many guesses are kept.
const PLACES: usize = 524_288;

/// The minutes in which legs depart.
const MINUTES: usize = 2_880;

/// How many train types there may be.
const TYPES: usize = 16;

/// A number that is prime to the count of guesses, so that actions spread.
const SPREAD: usize = 7_919;

/// A leg of a type that has entered, and the group of what it touches.
#[derive(Clone, Copy)]
pub(crate) struct Head {
    pub(crate) kind: TypeId,
    pub(crate) leg: Leg,
    pub(crate) group: usize,
}

/// Rows and groups while they are made, the legs that made groups, and by the places of legs which of these may have
/// entered alike.
#[derive(Drop)]
pub(crate) struct Making<R: CodedRow> {
    /// The row of each touch, by place.
    pub(crate) named: RowList<R>,
    pub(crate) groups: Groups,
    pub(crate) heads: Vec<Head>,
    pub(crate) guesses: Vec<u32>,
    /// The head that served last.
    pub(crate) last: u32,
}

/// Rows by number, and groups of touches that name rows by number.
#[derive(Drop)]
pub(crate) struct Numbered<R: CodedRow> {
    pub(crate) numbering: RowNumbers<R>,
    pub(crate) groups: Groups,
}

/// No row and no leg yet, with room for as many legs as guesses tell.
pub(crate) fn new_making<F: RowFamily>(
    alloc: Global,
    net: &Network,
    rows: &F,
) -> Result<Making<F::Row>, NoMemory>
    ensures { IfOk result (IsMaking net.now (F.rows_of rows.now net.now)
        (F.rows_used rows.now net.now)) }
{
    let _ = net;
    let _ = rows;
    Ok(Making {
        named: RowList::new(alloc),
        groups: empty_groups(alloc)?,
        heads: Vec::with_capacity(alloc, PLACES)?,
        guesses: vec![in alloc; 0; PLACES]?,
        last: 0,
    })
}

/// The place of a leg, by its type, track and departure.
fn place_of(kind: TypeId, leg: Leg) -> usize
    ensures { result < PLACES }
{
    let entry = usize::from(leg.track.0) * TYPES + usize::from(kind.0);
    (entry * MINUTES + usize::from(leg.depart)) % PLACES
}

/// The place of a leg, by its action as well.
fn own_place_of(kind: TypeId, leg: Leg) -> usize {
    let action = match leg.action {
        Action::Pass => 0,
        Action::Finish => 1,
        Action::Halt(dwell) => 2 + 2 * usize::from(dwell),
        Action::Wait(dwell) => 3 + 2 * usize::from(dwell),
    };
    (place_of(kind, leg) + SPREAD * action) % PLACES
}

/// What is guessed at a place.
fn guess_at(guesses: &[u32], place: usize) -> u32 {
    guesses.get(place).copied().unwrap_or(0)
}

/// Puts a guess at a place, in place of what was there.
fn put_guess(guesses: &mut Vec<u32>, place: usize, head: u32) {
    if let Some(old) = guesses.get_mut(place) {
        *old = head;
    }
}

/// The group of a head, where the family sees at once that its leg uses alike. A `None` too many is left open, here and below: the leg
/// gets a group of its own with the same touches, which costs time and memory alone.
fn head_group<F: RowFamily>(
    net: &Network,
    rows: &F,
    making: &Making<F::Row>,
    head: u32,
    kind: TypeId,
    leg: Leg,
) -> Option<usize>
    requires making { IsMaking net.now (F.rows_of rows.now net.now) (F.rows_used rows.now net.now)
        making.now }
    requires usable { IsUsable net.now kind leg }
    ensures { IfSome result (IsGroupOf (F.rows_of rows.now net.now) (F.rows_used rows.now net.now)
        kind leg making.now.named.items making.now.groups) }
{
    let known = making.heads.get(head as usize)?;
    if known.kind == kind && rows.use_alike(net, kind, known.leg, leg) {
        Some(known.group)
    } else {
        None
    }
}

/// A new group with what the leg touches.
fn new_group<F: RowFamily>(
    net: &Network,
    rows: &F,
    named: &mut RowList<F::Row>,
    groups: &mut Groups,
    like: usize,
    kind: TypeId,
    leg: Leg,
) -> Result<usize, NoMemory>
    requires usable { IsUsable net.now kind leg }
    requires rows { All (λ row. (F.rows_of rows.now net.now).is_row row ≡ true) named.old.items }
    requires groups { AreGroups groups.old.starts.items groups.old.touches }
    ensures { IfOk result (FindsGroup (F.rows_of rows.now net.now) (F.rows_used rows.now net.now)
        kind leg named.old.items named.new.items groups.old groups.new) }
{
    let number = groups.starts.len() - 1;
    push_touches(net, rows, named, &mut groups.touches, like, kind, leg)?;
    groups.starts.push(groups.touches.slice().len())?;
    Ok(number)
}

/// The group of a leg that has entered alike, by the guesses.
fn guessed_group<F: RowFamily>(
    net: &Network,
    rows: &F,
    making: &mut Making<F::Row>,
    kind: TypeId,
    leg: Leg,
) -> Option<usize>
    requires making { IsMaking net.now (F.rows_of rows.now net.now) (F.rows_used rows.now net.now)
        making.old }
    requires usable { IsUsable net.now kind leg }
    ensures making { IsMaking net.now (F.rows_of rows.now net.now) (F.rows_used rows.now net.now)
        making.new }
    ensures same { (making.new.named ≡ making.old.named) × (making.new.groups ≡ making.old.groups) }
    ensures found { IfSome result (IsGroupOf (F.rows_of rows.now net.now)
        (F.rows_used rows.now net.now) kind leg making.new.named.items making.new.groups) }
{
    if let Some(group) = head_group(net, rows, making, making.last, kind, leg) {
        return Some(group);
    }
    let next = making.last.saturating_add(1);
    if let Some(group) = head_group(net, rows, making, next, kind, leg) {
        making.last = next;
        return Some(group);
    }
    let guess = guess_at(&making.guesses, place_of(kind, leg));
    if let Some(group) = head_group(net, rows, making, guess, kind, leg) {
        making.last = guess;
        return Some(group);
    }
    let guess = guess_at(&making.guesses, own_place_of(kind, leg));
    let group = head_group(net, rows, making, guess, kind, leg)?;
    making.last = guess;
    Some(group)
}

/// Where the touches of a group begin.
fn start_of(groups: &Groups, group: usize) -> usize {
    groups.starts.at(group)
}

/// Where the second touch is guessed to stand of such a leg that departs a minute earlier. What that one touches from its
/// second minute on, this one mostly touches from its first.
fn minute_later<R: CodedRow>(making: &Making<R>, kind: TypeId, leg: Leg) -> usize {
    let earlier = Leg {
        depart: leg.depart.saturating_sub(1),
        ..leg
    };
    let guess = guess_at(&making.guesses, place_of(kind, earlier));
    match making.heads.get(guess as usize) {
        Some(head) => start_of(&making.groups, head.group).saturating_add(1),
        None => 0,
    }
}

/// Enters a leg with its new group, so that legs that use alike may find it.
fn enter<F: RowFamily>(
    net: &Network,
    rows: &F,
    making: &mut Making<F::Row>,
    head: Head,
) -> Result<(), NoMemory>
    requires making { IsMaking net.now (F.rows_of rows.now net.now) (F.rows_used rows.now net.now)
        making.old }
    requires head { IsHead net.now (F.rows_of rows.now net.now) (F.rows_used rows.now net.now)
        making.old.named.items making.old.groups head }
    ensures making { OnOk result (IsMaking net.now (F.rows_of rows.now net.now)
        (F.rows_used rows.now net.now) making.new) }
    ensures same { OnOk result ((making.new.named ≡ making.old.named)
        × (making.new.groups ≡ making.old.groups)) }
{
    let _ = net;
    let _ = rows;
    let number = u32::try_from(making.heads.len()).unwrap_or(0);
    making.heads.push(head)?;
    making.last = number;
    put_guess(&mut making.guesses, place_of(head.kind, head.leg), number);
    put_guess(
        &mut making.guesses,
        own_place_of(head.kind, head.leg),
        number,
    );
    Ok(())
}

/// The number of a group with what the leg touches.
pub(crate) fn leg_group<F: RowFamily>(
    net: &Network,
    rows: &F,
    making: &mut Making<F::Row>,
    kind: TypeId,
    leg: Leg,
) -> Result<usize, NoMemory>
    requires making { IsMaking net.now (F.rows_of rows.now net.now) (F.rows_used rows.now net.now)
        making.old }
    requires usable { IsUsable net.now kind leg }
    ensures making { OnOk result (IsMaking net.now (F.rows_of rows.now net.now)
        (F.rows_used rows.now net.now) making.new) }
    ensures grows { OnOk result (Grows making.old making.new) }
    ensures found { IfOk result (IsGroupOf (F.rows_of rows.now net.now)
        (F.rows_used rows.now net.now) kind leg making.new.named.items making.new.groups) }
{
    if let Some(group) = guessed_group(net, rows, making, kind, leg) {
        return Ok(group);
    }
    let like = minute_later(making, kind, leg);
    let group = new_group(
        net,
        rows,
        &mut making.named,
        &mut making.groups,
        like,
        kind,
        leg,
    )?;
    enter(net, rows, making, Head { kind, leg, group })?;
    Ok(group)
}

/// Numbers the rows that were named, each once.
pub(crate) fn finish_making<F: RowFamily>(
    alloc: Global,
    net: &Network,
    rows: &F,
    making: Making<F::Row>,
) -> Result<Numbered<F::Row>, NoMemory>
    requires { IsMaking net.now (F.rows_of rows.now net.now) (F.rows_used rows.now net.now) making }
    ensures { IfOk result (IsNumbered F.Row.cmp (F.rows_of rows.now net.now) making.named.items
        making.groups) }
{
    let _ = net;
    let _ = rows;
    let Making {
        named,
        mut groups,
        heads,
        guesses,
        ..
    } = making;
    drop(heads);
    drop(guesses);
    groups.starts.shrink_to_fit();
    groups.touches.shrink_to_fit();
    let numbering = number_rows::<F>(alloc, named, &mut groups.touches)?;
    Ok(Numbered { numbering, groups })
}
