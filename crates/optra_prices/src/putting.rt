//! Putting a bid's path into a room, where it fits as a whole.
//!
//! What an arc touches is known by the numbers of rows, so that no row is looked up.
ghost use Rattle.std.specs.Prelude.{◌≡◌, ◌<◌, ◌↔◌, IsTrue, All, OnOk, length};
ghost use Rattle.optra_prices.specs.Rooms.{HasRoomForAll, IsNumberWithin};
ghost use Rattle.optra_prices.specs.Uses.{arc_touches, path_uses, AddsUses, TakesUses, HasGroups};

use crate::grouping::group;
use crate::numbering::{BidTable, Groups};
use crate::rooms::{Room, add_touches, are_touches_within, has_room, take_touches};
use crate::settling::group_of;
use crate::touch_slice::TouchSlice;
use optra_network::NoMemory;

/// What an arc touches.
fn arc_touches<'a>(groups: &'a Groups, table: &BidTable<'_>, k: u32) -> TouchSlice<'a>
    requires { HasGroups groups.now table.now }
    ensures { result ≡ arc_touches groups.now table.now k }
{
    group(groups, group_of(&table.arcs, k))
}

/// Adds what the arcs of a path use.
pub(crate) fn add_arcs(
    room: &mut Room,
    groups: &Groups,
    table: &BidTable<'_>,
    path: &[u32],
) -> Result<(), NoMemory>
    requires { HasGroups groups.now table.now }
    ensures uses { OnOk result (AddsUses (path_uses groups.now table.now path.now)
        room.old.loads.uses room.new.loads.uses) }
    ensures capacities { OnOk result (room.new.loads.capacities ≡ room.old.loads.capacities) }
{
    for k in path {
        add_touches(room, &arc_touches(groups, table, *k))?;
    }
    Ok(())
}

/// Takes away what the arcs of a path use.
pub(crate) fn take_arcs(room: &mut Room, groups: &Groups, table: &BidTable<'_>, path: &[u32])
    requires { HasGroups groups.now table.now }
    ensures uses { TakesUses (path_uses groups.now table.now path.now) room.old.loads.uses
        room.new.loads.uses }
    ensures capacities { room.new.loads.capacities ≡ room.old.loads.capacities }
{
    for k in path {
        take_touches(room, &arc_touches(groups, table, *k));
    }
}

/// Whether no more is used of the rows that the arcs of a path touch than there is.
pub(crate) fn are_arcs_within(
    room: &Room,
    groups: &Groups,
    table: &BidTable<'_>,
    path: &[u32],
) -> bool
    requires { HasGroups groups.now table.now }
    ensures { IsTrue result ↔ All (λ k. All (λ touch. IsNumberWithin room.now touch.row)
        (arc_touches groups.now table.now k)) path.now }
{
    for k in path {
        if !are_touches_within(room, &arc_touches(groups, table, *k)) {
            return false;
        }
    }
    true
}

/// Whether there is room for each arc of a path by itself.
pub(crate) fn has_room_for_each(
    room: &Room,
    groups: &Groups,
    table: &BidTable<'_>,
    path: &[u32],
) -> bool
    requires { HasGroups groups.now table.now }
    ensures { IsTrue result ↔ All (λ k. HasRoomForAll room.now (arc_touches groups.now table.now k))
        path.now }
{
    for k in path {
        if !has_room(room, &arc_touches(groups, table, *k)) {
            return false;
        }
    }
    true
}
