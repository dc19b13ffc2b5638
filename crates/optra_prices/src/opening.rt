//! Tables that are at a root at which there is room for each touch, since each of their arcs may be taken.
ghost use Rattle.std.specs.Prelude.{◌↔◌, All, IsTrue};
ghost use Rattle.optra_prices.specs.Allowing.{IsOpen};

use crate::numbering::BidTable;

/// Whether each arc of the table may be taken, and the bid has no yes leg.
fn is_open(table: &BidTable<'_>) -> bool
    ensures { IsTrue result ↔ IsOpen table.now }
{
    table.arcs.slice().are_open() && !table.forced
}

/// Whether each arc of each table may be taken, and no bid has a yes leg, as in tables that were just made. No arc is asked
/// for by itself where it is narrow.
pub(crate) fn are_open(tables: &[BidTable<'_>]) -> bool
    ensures { IsTrue result ↔ All IsOpen tables.now }
{
    for number in 0..tables.len() {
        if !is_open(&tables[number]) {
            return false;
        }
    }
    true
}
