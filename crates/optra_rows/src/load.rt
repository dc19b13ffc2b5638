//! How much of each row the legs so far use.
ghost use Rattle.std.specs.Prelude.{OnOk, OnErr, IsTrue, ◌≡◌, ◌+◌, ◌<◌, ◌≤◌, ◌^◌, ◌↔◌};
ghost use Rattle.optra_walk.specs.Families.{IsUsable, total_of, HasRoom};

use optra_network::{Network, NoMemory, TypeId};
use optra_walk::{Leg, RowFamily, Totals};
use std::alloc::Global;

/// How much legs use of each row of a family, in totals that are kept only of rows that some leg uses. A row that isn't kept
/// has the total 0.
#[derive(Drop)]
pub struct Load<F: RowFamily> {
    /// The totals, each below 2^62.
    pub totals: Totals<F>,
    pub ghost bounded: { (row : F.Row) → total_of F.Row.cmp totals.sums row < 2 ^ 62 },
}

impl<F: RowFamily> Load<F> {
    /// No row is used. It takes no memory, and keeps the allocator.
    pub fn new(alloc: Global) -> Load<F>
        ensures { (row : F.Row) → total_of F.Row.cmp result.totals.sums row ≡ 0 }
    {
        Load {
            totals: Totals::new(alloc),
        }
    }

    /// Adds the uses of a usable leg of the type to the totals. Each new total must be below 2^62. Where memory can't be
    /// had, no total has changed.
    pub fn add(&mut self, net: &Network, rows: &F, kind: TypeId, leg: Leg) -> Result<(), NoMemory>
        requires usable { IsUsable net.now kind leg }
        requires below { (row : F.Row) → total_of F.Row.cmp self.old.totals.sums row
            + (F.rows_of rows.now net.now).uses kind leg row < 2 ^ 62 }
        ensures ok { OnOk result ((row : F.Row) → total_of F.Row.cmp self.new.totals.sums row
            ≡ total_of F.Row.cmp self.old.totals.sums row + (F.rows_of rows.now net.now).uses kind
            leg row) }
        ensures err { OnErr result ((row : F.Row) → total_of F.Row.cmp self.new.totals.sums row
            ≡ total_of F.Row.cmp self.old.totals.sums row) }
    {
        self.totals.add_leg(net, rows, kind, leg)
    }

    /// Takes the uses of a usable leg of the type away from the totals. Each of these totals must be at least the use.
    pub fn take(&mut self, net: &Network, rows: &F, kind: TypeId, leg: Leg)
        requires usable { IsUsable net.now kind leg }
        requires enough { (row : F.Row) → (F.rows_of rows.now net.now).uses kind leg row
            ≤ total_of F.Row.cmp self.old.totals.sums row }
        ensures { (row : F.Row) → total_of F.Row.cmp self.new.totals.sums row
            + (F.rows_of rows.now net.now).uses kind leg row
            ≡ total_of F.Row.cmp self.old.totals.sums row }
    {
        self.totals.take_leg(net, rows, kind, leg);
    }

    /// Whether a usable leg of the type fits: no row that it uses would get above its capacity.
    pub fn fits(&self, net: &Network, rows: &F, kind: TypeId, leg: Leg) -> bool
        requires { IsUsable net.now kind leg }
        ensures { IsTrue result ↔ HasRoom (F.rows_of rows.now net.now) (total_of F.Row.cmp
            self.now.totals.sums) kind leg }
    {
        self.totals.fits(net, rows, kind, leg)
    }
}
