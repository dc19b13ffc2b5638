//! What legs touch, by the places of rows among those that were named.
ghost use Rattle.std.specs.Prelude.{◌≡◌, ◌⊎◌, true, ◌++◌, ◌∷◌, [], All, Contains, Some, IfOk, OnOk, drop, slice_get};
ghost use Rattle.optra_walk.specs.Families.{IsUsable};
ghost use Rattle.optra_prices.specs.Tables.{Extends, AddsTouches};

use crate::touch::Touch;
use crate::touch_slice::TouchSlice;
use crate::touches::Touches;
use optra_network::{Network, NoMemory, TypeId};
use optra_walk::{Leg, RowFamily, RowList};

/// The place of the row among those that were named: where it is guessed, or the next one.
fn name_row<F: RowFamily>(
    named: &mut RowList<F::Row>,
    guess: usize,
    row: F::Row,
) -> Result<usize, NoMemory>
    ensures more { OnOk result ((named.new.items ≡ named.old.items)
        ⊎ (named.new.items ≡ named.old.items ++ row ∷ [])) }
    ensures place { IfOk result (λ n. slice_get named.new.items n ≡ Some row) }
{
    if named.has(guess, row) {
        return Ok(guess);
    }
    let place = named.len();
    named.push(row)?;
    Ok(place)
}

/// The place of the row that a touch names, and 0 where there is none.
fn row_at(touches: &TouchSlice<'_>, at: usize) -> usize {
    if at < touches.len() {
        touches.at(at).row
    } else {
        0
    }
}

/// Adds touches of rows that the leg uses and that were named last, from a place on.
fn touch_named<F: RowFamily>(
    net: &Network,
    rows: &F,
    named: &RowList<F::Row>,
    start: usize,
    touches: &mut Touches,
    kind: TypeId,
    leg: Leg,
) -> Result<(), NoMemory>
    requires usable { IsUsable net.now kind leg }
    requires used { All (Contains (F.rows_used rows.now net.now kind leg))
        (drop start named.now.items) }
    ensures { OnOk result (AddsTouches named.now.items ((F.rows_of rows.now net.now).uses kind leg)
        (drop start named.now.items) touches.old touches.new) }
{
    for place in start..named.len() {
        let uses = rows.touched_use(net, kind, leg, named.at(place));
        touches.push(Touch { row: place, uses })?;
    }
    Ok(())
}

/// Adds what the leg touches. Its first rows are guessed to be those that touches name from a place on, and the others are
/// named at once. Few arcs need it, and what each arc goes through is quicker where it is no part of that.
#[inline(never)]
pub(crate) fn push_touches<F: RowFamily>(
    net: &Network,
    rows: &F,
    named: &mut RowList<F::Row>,
    touches: &mut Touches,
    like: usize,
    kind: TypeId,
    leg: Leg,
) -> Result<(), NoMemory>
    requires usable { IsUsable net.now kind leg }
    requires rows { All (λ row. (F.rows_of rows.now net.now).is_row row ≡ true) named.old.items }
    ensures rows { OnOk result (All (λ row. (F.rows_of rows.now net.now).is_row row ≡ true)
        named.new.items) }
    ensures extends { OnOk result (Extends named.old.items named.new.items) }
    ensures touches { OnOk result (AddsTouches named.new.items ((F.rows_of rows.now net.now).uses
        kind leg) (F.rows_used rows.now net.now kind leg) touches.old touches.new) }
{
    let lasting = rows.lasting_count(net, kind, leg);
    for k in 0..lasting {
        let Some(row) = rows.touched(net, kind, leg, k) else {
            return Ok(());
        };
        let guess = row_at(&touches.slice(), like.saturating_add(k as usize));
        let place = name_row::<F>(named, guess, row)?;
        let uses = rows.touched_use(net, kind, leg, row);
        touches.push(Touch { row: place, uses })?;
    }
    let start = named.len();
    rows.list_touched(net, kind, leg, lasting, named)?;
    touch_named(net, rows, named, start, touches, kind, leg)?;
    Ok(())
}
