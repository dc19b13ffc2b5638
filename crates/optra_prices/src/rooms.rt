//! How much is used of rows by their numbers, and the room that is left.
ghost use Rattle.std.specs.Prelude.{◌≡◌, ◌+◌, ◌<◌, ◌↔◌, IsTrue, true, All, IfOk, OnOk, length, map, replicate};
ghost use Rattle.optra_prices.specs.Loads.{IsUnused};
ghost use Rattle.optra_prices.specs.Tables.{AreGroups};
ghost use Rattle.optra_prices.specs.Rooms.{IsRoom, HasRoomFor, HasRoomForAll, HasRoomOnHeld, IsNumberWithin, IsTold, IsFreeCopy};
ghost use Rattle.optra_prices.specs.Uses.{touch_use, touch_uses, AddsUses, TakesUses};

use crate::grouping::group;
use crate::loads::Loads;
use crate::numbering::Groups;
use crate::row_numbers::RowNumbers;
use crate::touch::Touch;
use crate::touch_slice::TouchSlice;
use optra_network::{Network, NoMemory};
use optra_walk::{RowFamily, RowList};
use std::alloc::Global;

/// How much is used of rows, by their numbers, and how much there is of them.
#[derive(Drop)]
pub struct Room {
    pub(crate) loads: Loads,
}

/// Rows of which nothing is used, with their capacities.
pub(crate) fn unused<F: RowFamily>(
    alloc: Global,
    net: &Network,
    rows: &F,
    numbered: &RowList<F::Row>,
) -> Result<Loads, NoMemory>
    requires { All (λ row. (F.rows_of rows.now net.now).is_row row ≡ true) numbered.now.items }
    ensures uses { IfOk result (λ loads. loads.uses ≡ replicate (length numbered.now.items) 0) }
    ensures capacities { IfOk result (λ loads. loads.capacities
        ≡ map (F.rows_of rows.now net.now).capacity numbered.now.items) }
{
    let mut loads = Loads::new(alloc);
    loads.reserve_exact(numbered.len())?;
    for number in 0..numbered.len() {
        loads.push(rows.cap(net, numbered.at(number)))?;
    }
    Ok(loads)
}

/// Nothing is used.
pub(crate) fn empty_room<F: RowFamily>(
    alloc: Global,
    net: &Network,
    rows: &F,
    numbering: &RowNumbers<F::Row>,
) -> Result<Room, NoMemory>
    requires { All (λ row. (F.rows_of rows.now net.now).is_row row ≡ true)
        numbering.now.rows.items }
    ensures { IfOk result (IsRoom (F.rows_of rows.now net.now) numbering.now.rows.items
        (λ row. 0)) }
{
    Ok(Room {
        loads: unused(alloc, net, rows, numbering.rows())?,
    })
}

/// The room of rows of these capacities, of which nothing is used.
pub(crate) fn unused_room(alloc: Global, loads: &Loads) -> Result<Room, NoMemory>
    ensures { IfOk result (λ room. IsUnused loads.now room.loads) }
{
    Ok(Room {
        loads: loads.unused(alloc)?,
    })
}

/// As much room, of which nothing is used.
pub(crate) fn free_copy(alloc: Global, room: &Room) -> Result<Room, NoMemory>
    ensures { IfOk result (IsFreeCopy room.now) }
{
    unused_room(alloc, &room.loads)
}

/// Adds what a touch uses.
fn add_touch(room: &mut Room, touch: Touch) -> Result<(), NoMemory>
    ensures uses { OnOk result (AddsUses (touch_use touch) room.old.loads.uses
        room.new.loads.uses) }
    ensures capacities { OnOk result (room.new.loads.capacities ≡ room.old.loads.capacities) }
{
    room.loads.add(touch.row, touch.uses)
}

/// Takes away what a touch uses.
fn take_touch(room: &mut Room, touch: Touch)
    ensures uses { TakesUses (touch_use touch) room.old.loads.uses room.new.loads.uses }
    ensures capacities { room.new.loads.capacities ≡ room.old.loads.capacities }
{
    room.loads.take(touch.row, touch.uses);
}

/// Adds what touches use.
pub(crate) fn add_touches(room: &mut Room, touches: &TouchSlice<'_>) -> Result<(), NoMemory>
    ensures uses { OnOk result (AddsUses (touch_uses touches.now) room.old.loads.uses
        room.new.loads.uses) }
    ensures capacities { OnOk result (room.new.loads.capacities ≡ room.old.loads.capacities) }
{
    for k in 0..touches.len() {
        add_touch(room, touches.at(k))?;
    }
    Ok(())
}

/// Takes away what touches use.
pub(crate) fn take_touches(room: &mut Room, touches: &TouchSlice<'_>)
    ensures uses { TakesUses (touch_uses touches.now) room.old.loads.uses room.new.loads.uses }
    ensures capacities { room.new.loads.capacities ≡ room.old.loads.capacities }
{
    for k in 0..touches.len() {
        take_touch(room, touches.at(k));
    }
}

/// Whether no more is used of the row with this number than there is.
fn is_number_within(room: &Room, number: usize) -> bool
    ensures { IsTrue result ↔ IsNumberWithin room.now number }
{
    room.loads.is_within(number)
}

/// Whether no more is used of the touched rows than there is.
pub(crate) fn are_touches_within(room: &Room, touches: &TouchSlice<'_>) -> bool
    ensures { IsTrue result ↔ All (λ touch. IsNumberWithin room.now touch.row) touches.now }
{
    for k in 0..touches.len() {
        if !is_number_within(room, touches.at(k).row) {
            return false;
        }
    }
    true
}

/// Whether there is room for the touch.
fn has_room_for(room: &Room, touch: Touch) -> bool
    ensures { IsTrue result ↔ HasRoomFor room.now touch }
{
    room.loads.fits(touch.row, touch.uses)
}

/// Whether there is room for each of the touches, one after the other.
fn has_room_for_all(room: &Room, touches: &[Touch]) -> bool
    ensures { IsTrue result ↔ HasRoomForAll room.now touches.now }
{
    for k in 0..touches.len() {
        if !has_room_for(room, touches[k]) {
            return false;
        }
    }
    true
}

/// Whether there is room for each of the touches. Of the narrow ones that is asked at once.
pub(crate) fn has_room(room: &Room, touches: &TouchSlice<'_>) -> bool
    ensures { IsTrue result ↔ HasRoomForAll room.now touches.now }
{
    room.loads.fit_once(touches.narrow) && has_room_for_all(room, touches.wide)
}

/// Whether there is room for one more use of each row, and for each of the touches that use their row more often: then there
/// is room for all of them, and no narrow one is asked for by itself. Where it is not told, each is, which costs time alone.
pub(crate) fn has_room_on_each(room: &Room, touches: &TouchSlice<'_>) -> bool
    ensures { result ≡ true → HasRoomOnHeld room.now touches.now }
{
    room.loads.fit_each() && has_room_for_all(room, touches.wide)
}

/// A group of rows that arcs touch, and whether there is room for it.
#[derive(Clone, Copy)]
pub(crate) struct Told {
    pub(crate) group: usize,
    pub(crate) has_room: bool,
}

/// Whether there is room for a group: what was told last, where that was of the same group, as neighbouring arcs mostly are.
pub(crate) fn tell_group(room: &Room, groups: &Groups, number: usize, last: Told) -> Told
    requires groups { AreGroups groups.now.starts.items groups.now.touches }
    requires within { number + 1 < length groups.now.starts.items }
    requires last { IsTold room.now groups.now last }
    ensures group { result.group ≡ number }
    ensures told { IsTold room.now groups.now result }
{
    if number == last.group {
        return last;
    }
    Told {
        group: number,
        has_room: has_room(room, &group(groups, number)),
    }
}
