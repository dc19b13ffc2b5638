//! How much groups use of rows, beside the index of the groups that touch each row, so that a price of a row that moves
//! tells at once by how much the prices of groups move with it.
ghost use Rattle.std.specs.Prelude.{IfOk, OnOk};
ghost use Rattle.optra_prices.specs.Indexes.{IsOpen};
ghost use Rattle.optra_prices.specs.Shares.{ArePutUses};
ghost use Rattle.optra_prices.specs.Users.{rows_touched};

use crate::amounts::Amounts;
use crate::cells::WideCells;
use crate::index::{Index, Opening, open_index, put};
use crate::numbering::Groups;
use crate::touch_slice::TouchSlice;
use optra_network::NoMemory;
use std::alloc::Global;

/// Puts what each touch uses where its group is put.
fn put_uses(index: &mut Opening<WideCells>, touches: &TouchSlice<'_>)
    requires { IsOpen (rows_touched touches.now) 0 index.old }
    ensures { ArePutUses touches.now index.new.items.items }
{
    for place in 0..touches.len() {
        put(index, touches, place, touches.at(place).uses as usize);
    }
}

/// What touches use, where their groups are put.
fn list_uses(alloc: Global, touches: &TouchSlice<'_>) -> Result<Index, NoMemory>
    ensures { IfOk result (λ index. ArePutUses touches.now index.items.items) }
{
    let _count = touches.len();
    let mut opening = open_index(alloc, touches)?;
    put_uses(&mut opening, touches);
    Ok(opening.index(alloc))
}

/// What each touch uses, in the order of the index of the groups that touch each row.
pub(crate) fn find_amounts(alloc: Global, groups: &Groups) -> Result<Amounts, NoMemory>
    ensures { IfOk result (λ amounts. ArePutUses groups.now.touches amounts.items) }
{
    let touches = groups.touches.slice();
    if touches.are_once() {
        return Ok(Amounts::ones(alloc, touches.len()));
    }
    let index = list_uses(alloc, &touches)?;
    Ok(Amounts::of(index.items))
}
