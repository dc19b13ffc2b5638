//! Which groups touch a row, so that a price that moves tells at once whose prices move with it.
ghost use Rattle.std.specs.Prelude.{IfOk};
ghost use Rattle.optra_prices.specs.Indexes.{IsIndex, IsPlaced};
ghost use Rattle.optra_prices.specs.Tables.{AreGroups};
ghost use Rattle.optra_prices.specs.Users.{FindsUsers, rows_touched};

use crate::index::{Index, inverted};
use crate::numbering::Groups;
use optra_network::NoMemory;
use std::alloc::Global;

/// The groups that touch each row.
pub(crate) fn find_users(alloc: Global, groups: &Groups) -> Result<Index, NoMemory>
    requires { AreGroups groups.now.starts.items groups.now.touches }
    ensures users { IfOk result IsIndex }
    ensures found { IfOk result (FindsUsers groups.now) }
    ensures placed { IfOk result (IsPlaced groups.now.starts.items (rows_touched
        groups.now.touches)) }
{
    inverted(alloc, &groups.starts, &groups.touches.slice())
}
