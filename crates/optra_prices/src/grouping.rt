//! Groups of touches, one after the other.
ghost use Rattle.std.specs.Prelude.{◌≡◌, ◌||◌, ◌+◌, ◌<◌, IfOk, length};
ghost use Rattle.optra_prices.specs.Tables.{group_at, AreGroups};

use crate::numbering::Groups;
use crate::numbers::Numbers;
use crate::touch_slice::TouchSlice;
use crate::touches::Touches;
use optra_network::NoMemory;
use std::alloc::Global;

/// The empty group alone.
pub(crate) fn empty_groups(alloc: Global) -> Result<Groups, NoMemory>
    ensures { IfOk result (λ groups. AreGroups groups.starts.items groups.touches) }
{
    let mut starts = Numbers::new(alloc);
    starts.push(0)?;
    starts.push(0)?;
    Ok(Groups {
        starts,
        touches: Touches::new(alloc),
    })
}

/// The touches of a group.
pub(crate) fn group(groups: &Groups, g: usize) -> TouchSlice<'_>
    requires groups { AreGroups groups.now.starts.items groups.now.touches }
    requires within { g + 1 < length groups.now.starts.items }
    ensures { result ≡ group_at groups.now.starts.items groups.now.touches g }
{
    let start = groups.starts.at(g);
    let end = groups.starts.past(g);
    groups.touches.range(start, end)
}

/// Whether one of two holds.
pub(crate) fn either(a: bool, b: bool) -> bool
    ensures { result ≡ (a || b) }
{
    a || b
}
