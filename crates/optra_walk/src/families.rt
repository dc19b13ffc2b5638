//! Families of rows. A row is something that legs use up, and it has a capacity. A family states a rule of the railway by
//! rows: legs keep the rule exactly where no row is used above its capacity.
//!
//! This is the packing form of train timetabling: R. Borndörfer and T. Schlechte, "Models for Railway Track
//! Allocation", 2007. Searches, prices and certificates speak of rows alone, so a rule that is stated by a new family
//! needs no change in them.
ghost use Rattle.std.specs.Prelude.{◌≡◌, ℕ, ◌≤◌, ◌↔◌, ◌++◌, List, OnOk, drop, Option, length, slice_get, true, All, Contains};
ghost use Rattle.optra_network.specs.Net.{Net, IsProper, MayUse};
ghost use Rattle.optra_network.specs.declared.TypeId.{TypeId as Kind};
ghost use Rattle.optra_walk.specs.declared.Leg.{Leg as Step};
ghost use Rattle.optra_walk.specs.Families.{IsUsable, Entry, Rows, UseAlike, ListsRows, UsesFew, FitRows};

use crate::Leg;
use crate::coded_row::CodedRow;
use crate::row_list::RowList;
use optra_network::{Network, NoMemory, TypeId};

/// A leg uses at most so many rows.
const MOST_USED: u32 = 8_192;

/// A family of rows: a rule of the railway, stated by how much of which row a leg uses and how much of it there is.
///
/// A leg may be asked of where it is usable by the type: the type may use the leg's track, the leg departs by minute
/// 2,879, and its dwell is at most 240 minutes. The legs of every walk of a bid are usable by the bid's type.
///
/// Each family proves the laws below the calls. Code that is generic over a family rests on them alone.
pub trait RowFamily {
    /// A row. Rows are ordered, and rows that compare as equal are the same.
    type Row: CodedRow;

    /// The rows on a network: which values are rows, the capacity of each, and how much of each a leg of a type uses.
    ghost rows_of: { Self → Net → Rows Self.Row };

    /// The rows that a leg of a type uses, ascending.
    ghost rows_used: { Self → Net → Kind → Step → List Self.Row };

    /// So many rows a leg uses at most, on any network, and so much of them in all.
    ghost most: { Self → ℕ };

    /// The rule on the legs of all trains together, each with its type.
    ghost KeepsRule: { Self → Net → List Entry → Type 0 };

    /// Whether a value is a row of the family on this network. Every value may be asked of.
    fn is_row(&self, net: &Network, row: Self::Row) -> bool
        ensures { result ≡ (rows_of self.now net.now).is_row row };

    /// The capacity of a row, at most 65,535. Only a row of the family may be asked of.
    fn cap(&self, net: &Network, row: Self::Row) -> u32
        requires { (rows_of self.now net.now).is_row row ≡ true }
        ensures { result ≡ (rows_of self.now net.now).capacity row };

    /// How much of a row a usable leg of the type uses, at most 8,192. It is 0 where the value is no row.
    fn leg_use(&self, net: &Network, kind: TypeId, leg: Leg, row: Self::Row) -> u32
        requires { IsUsable net.now kind leg }
        ensures { result ≡ (rows_of self.now net.now).uses kind leg row };

    /// How much of a row a usable leg of the type uses, where it uses the row. Of such a row, as `touched` answers them, a
    /// family may know it without a look at the network.
    fn touched_use(&self, net: &Network, kind: TypeId, leg: Leg, row: Self::Row) -> u32
        requires usable { IsUsable net.now kind leg }
        requires used { Contains (rows_used self.now net.now kind leg) row }
        ensures { result ≡ (rows_of self.now net.now).uses kind leg row }
    {
        self.leg_use(net, kind, leg, row)
    }

    /// The row at place `k`, from 0, of the rows that a usable leg of the type uses, in ascending order, or `None` from
    /// the end on. There are at most 8,192, each use is above zero, and the uses add up to at most 8,192.
    ///
    /// By it a caller goes over the rows that matter to a leg without going over all rows, and without a list:
    /// ask from 0 on until `None`.
    fn touched(&self, net: &Network, kind: TypeId, leg: Leg, k: u32) -> Option<Self::Row>
        requires { IsUsable net.now kind leg }
        ensures { result ≡ slice_get (rows_used self.now net.now kind leg) k };

    /// How many rows a usable leg of the type uses, at most 8,192. From this place on `touched` answers `None`.
    fn used_count(&self, net: &Network, kind: TypeId, leg: Leg) -> u32
        requires { IsUsable net.now kind leg }
        ensures { result ≡ length (rows_used self.now net.now kind leg) };

    /// Adds the rows that a usable leg of the type uses to a list, from place `from` on, in ascending order. They are
    /// those that `touched` answers from there on; a family may know them together at less cost than one by one.
    /// `NoMemory` is its only refusal; the list then may hold a first part of them.
    fn list_touched(
        &self,
        net: &Network,
        kind: TypeId,
        leg: Leg,
        from: u32,
        list: &mut RowList<Self::Row>,
    ) -> Result<(), NoMemory>
        requires { IsUsable net.now kind leg }
        ensures { OnOk result (list.new.items ≡ list.old.items
            ++ drop from (rows_used self.now net.now kind leg)) }
    {
        for k in from..self.used_count(net, kind, leg) {
            let Some(row) = self.touched(net, kind, leg, k) else {
                return Ok(());
            };
            list.push(row)?;
        }
        Ok(())
    }

    /// How many of the rows that a leg of the type uses, from the first on, are worth looking for among those of such a leg
    /// that departs a minute earlier: at most 8,192. It is a guess, and nothing rests on it; a family that can't tell says
    /// all.
    fn lasting_count(&self, net: &Network, kind: TypeId, leg: Leg) -> u32
        ensures { result ≤ 8192 }
    {
        let _ = net;
        let _ = kind;
        let _ = leg;
        MOST_USED
    }

    /// Whether the family sees at once that two usable legs of the type use as much of each row. It is never true of
    /// others; a family that doesn't see it says no, and its users then compare row by row.
    fn use_alike(&self, net: &Network, kind: TypeId, first: Leg, second: Leg) -> bool
        requires first { IsUsable net.now kind first }
        requires second { IsUsable net.now kind second }
        ensures { result ≡ true
            → UseAlike (rows_of self.now net.now) (rows_used self.now net.now) kind first second }
    {
        let _ = net;
        let _ = kind;
        let _ = first;
        let _ = second;
        false
    }

    /// The rows that a usable leg uses are listed ascending and each once; they are rows of the family, at most 8,192,
    /// and the uses add up to at most 8,192.
    ghost lists_rows: { (f : Self) (net : Net) (kind : Kind) (leg : Step) → IsUsable net kind leg
        → ListsRows Self.Row.cmp (rows_of f net).is_row ((rows_of f net).uses kind leg) (rows_used f net kind leg) };

    /// They are at most `most`, and so are the uses added up.
    ghost uses_few: { (f : Self) (net : Net) (kind : Kind) (leg : Step) → IsUsable net kind leg
        → UsesFew (most f) ((rows_of f net).uses kind leg) (rows_used f net kind leg) };

    /// The capacity of a row is at most 65,535.
    ghost capacity_fits: { (f : Self) (net : Net) (row : Self.Row) → IsProper net → (rows_of f net).is_row row ≡ true
        → (rows_of f net).capacity row ≤ 65535 };

    /// A leg whose type may not use its track uses no row.
    ghost unusable_uses_none: { (f : Self) (net : Net) (kind : Kind) (leg : Step) (row : Self.Row) → (MayUse net leg.track kind → ⊥)
        → (rows_of f net).uses kind leg row ≡ 0 };

    /// Usable legs keep the rule exactly where they use no row above its capacity.
    ghost rule_by_rows: { (f : Self) (net : Net) (entries : List Entry) → IsProper net → All (λ e. IsUsable net e.0 e.1) entries
        → KeepsRule f net entries ↔ FitRows (rows_of f net) entries };
}
