//! Whether a choice keeps the rule of a family, by the totals of the rows that its legs use.
ghost use Rattle.std.specs.Prelude.{◌≡◌, ◌+◌, ◌↔◌, [], ◌∷◌, map, All, IfSome, IfOk, OnOk, IsTrue};
ghost use Rattle.optra_walk.specs.Walks.{IsWalk};
ghost use Rattle.optra_walk.specs.Choices.{IsChoice};
ghost use Rattle.optra_walk.specs.Families.{IsUsable, entries_of, load_of, total_of};
ghost use Rattle.optra_checker.specs.Fits.{AreWithin};

use optra_bid::Bid;
use optra_network::{Network, NoMemory, TypeId};
use optra_rests::kind_of;
use optra_walk::{Leg, RowFamily, Totals, Walk};
use std::alloc::Global;

/// Adds what the leg uses, and tells whether the totals stay within the capacities.
fn leg_fits<F: RowFamily>(
    totals: &mut Totals<F>,
    net: &Network,
    rows: &F,
    kind: TypeId,
    leg: Leg,
) -> Result<bool, NoMemory>
    requires usable { IsUsable net.now kind leg }
    requires within { AreWithin (F.rows_of rows.now net.now) (total_of F.Row.cmp totals.old.sums) }
    ensures added { OnOk result ((q : F.Row) → total_of F.Row.cmp totals.new.sums q
        ≡ total_of F.Row.cmp totals.old.sums q + (F.rows_of rows.now net.now).uses kind leg q) }
    ensures within { IfOk result (λ fits. IsTrue fits ↔ AreWithin (F.rows_of rows.now net.now)
        (total_of F.Row.cmp totals.new.sums)) }
{
    net.laws();
    let fits = totals.add_and_test(net, rows, kind, leg)?;
    Ok(fits)
}

/// Adds what the legs use, up to one with which the totals are not within the capacities. Whether
/// there is none such.
fn legs_fit<F: RowFamily>(
    totals: &mut Totals<F>,
    net: &Network,
    rows: &F,
    kind: TypeId,
    legs: &[Leg],
) -> Result<bool, NoMemory>
    requires usable { All (IsUsable net.now kind) legs.now }
    requires within { AreWithin (F.rows_of rows.now net.now) (total_of F.Row.cmp totals.old.sums) }
    ensures added { IfOk result (λ fit. IsTrue fit → (q : F.Row)
        → total_of F.Row.cmp totals.new.sums q ≡ total_of F.Row.cmp totals.old.sums q
        + load_of (F.rows_of rows.now net.now) q (map (λ leg. (kind, leg)) legs.now)) }
    ensures within { IfOk result (λ fit. IsTrue fit ↔ AreWithin (F.rows_of rows.now net.now)
        (λ q. total_of F.Row.cmp totals.old.sums q
        + load_of (F.rows_of rows.now net.now) q (map (λ leg. (kind, leg)) legs.now))) }
{
    'legs: for leg in legs {
        if !leg_fits(totals, net, rows, kind, *leg)? {
            return Ok(false);
        }
    }
    Ok(true)
}

/// The legs of a walk.
fn legs_of(walk: &Walk) -> &[Leg]
    ensures { result.now ≡ walk.now }
{
    &walk.legs
}

/// Adds what the walk of a bid uses, as [`legs_fit`].
fn entry_fits<F: RowFamily>(
    totals: &mut Totals<F>,
    net: &Network,
    rows: &F,
    bid: &Bid,
    entry: &Option<Walk>,
) -> Result<bool, NoMemory>
    requires walk { IfSome entry.now (IsWalk net.now bid.now.path) }
    requires within { AreWithin (F.rows_of rows.now net.now) (total_of F.Row.cmp totals.old.sums) }
    ensures added { IfOk result (λ fits. IsTrue fits → (q : F.Row)
        → total_of F.Row.cmp totals.new.sums q ≡ total_of F.Row.cmp totals.old.sums q
        + load_of (F.rows_of rows.now net.now) q (entries_of (bid.now ∷ []) (entry.now ∷ []))) }
    ensures within { IfOk result (λ fits. IsTrue fits ↔ AreWithin (F.rows_of rows.now net.now)
        (λ q. total_of F.Row.cmp totals.old.sums q
        + load_of (F.rows_of rows.now net.now) q (entries_of (bid.now ∷ []) (entry.now ∷ [])))) }
{
    net.laws();
    match entry {
        Some(walk) => legs_fit(totals, net, rows, kind_of(bid), legs_of(walk)),
        None => Ok(true),
    }
}

/// Whether a choice keeps the rule of the family. `NoMemory` is its only refusal.
pub(crate) fn rule_holds<F: RowFamily>(
    alloc: Global,
    net: &Network,
    rows: &F,
    bids: &[Bid],
    entries: &[Option<Walk>],
) -> Result<bool, NoMemory>
    requires { IsChoice net.now bids.now entries.now }
    ensures { IfOk result (λ holds. IsTrue holds ↔ F.KeepsRule rows.now net.now (entries_of bids.now
        entries.now)) }
{
    net.laws();
    let mut totals = Totals::new(alloc);
    'bids: for (i, bid) in bids.iter().enumerate() {
        if !entry_fits(&mut totals, net, rows, bid, &entries[i])? {
            return Ok(false);
        }
    }
    Ok(true)
}
