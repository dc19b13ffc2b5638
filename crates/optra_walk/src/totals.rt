//! How much of each row legs use together.
ghost use Rattle.std.specs.Prelude.{◌≡◌, ℕ, ◌+◌, ◌<◌, ◌≤◌, ◌^◌, ◌↔◌, IsTrue, IsSome, OnOk, OnErr, IfOk, length, if◌then◌else◌};
ghost use Rattle.std.specs.BTreeMap.{get};
ghost use Rattle.std.specs.Ordering.{is_eq};
ghost use Rattle.optra_walk.specs.Families.{IsUsable, total_of, HasRoom};
ghost use Rattle.optra_walk.specs.Raises.{AreEnough, IsLowered};

use crate::Leg;
use crate::families::RowFamily;
use optra_network::{Network, NoMemory, TypeId};
use std::alloc::Global;
use std::collections::BTreeMap;

/// A leg uses at most so many rows.
const MOST_USED: u32 = 8_192;

/// How much legs use of each row of a family together. A total is kept only of rows of which something is used; each other row
/// has the total 0. Every total is below 2^100, far more than the legs of any list use.
#[derive(Drop)]
pub struct Totals<F: RowFamily> {
    pub sums: BTreeMap<F::Row, u128>,
    pub ghost bounded: { (row : F.Row) → total_of F.Row.cmp sums row < 2 ^ 100 },
}

impl<F: RowFamily> Totals<F> {
    /// No row is used. It takes no memory, and keeps the allocator.
    pub fn new(alloc: Global) -> Totals<F>
        ensures { (row : F.Row) → total_of F.Row.cmp result.sums row ≡ 0 }
    {
        Totals {
            sums: BTreeMap::new(alloc),
        }
    }

    /// The total of a row.
    pub fn total(&self, row: F::Row) -> u128
        ensures { result ≡ total_of F.Row.cmp self.now.sums row }
    {
        self.sums.get(&row).copied().unwrap_or(0)
    }

    /// Adds the uses of a usable leg of the type. After `NoMemory`, its only refusal, no total has changed.
    pub fn add_leg(
        &mut self,
        net: &Network,
        rows: &F,
        kind: TypeId,
        leg: Leg,
    ) -> Result<(), NoMemory>
        requires usable { IsUsable net.now kind leg }
        requires below { (row : F.Row) → total_of F.Row.cmp self.old.sums row
            + (F.rows_of rows.now net.now).uses kind leg row < 2 ^ 100 }
        ensures added { OnOk result ((row : F.Row) → total_of F.Row.cmp self.new.sums row
            ≡ total_of F.Row.cmp self.old.sums row + (F.rows_of rows.now net.now).uses kind leg
            row) }
        ensures kept { OnErr result ((row : F.Row) → total_of F.Row.cmp self.new.sums row
            ≡ total_of F.Row.cmp self.old.sums row) }
    {
        add_uses(&mut self.sums, net, rows, kind, leg)
    }

    /// Adds the uses of a usable leg of the type, and tells whether it fitted: whether no row that it uses got above its
    /// capacity. It looks each row up once. After `NoMemory`, its only refusal, no total has changed.
    pub fn add_and_test(
        &mut self,
        net: &Network,
        rows: &F,
        kind: TypeId,
        leg: Leg,
    ) -> Result<bool, NoMemory>
        requires usable { IsUsable net.now kind leg }
        requires below { (row : F.Row) → total_of F.Row.cmp self.old.sums row
            + (F.rows_of rows.now net.now).uses kind leg row < 2 ^ 100 }
        ensures added { OnOk result ((row : F.Row) → total_of F.Row.cmp self.new.sums row
            ≡ total_of F.Row.cmp self.old.sums row + (F.rows_of rows.now net.now).uses kind leg
            row) }
        ensures kept { OnErr result ((row : F.Row) → total_of F.Row.cmp self.new.sums row
            ≡ total_of F.Row.cmp self.old.sums row) }
        ensures fitted { IfOk result (λ fitted. IsTrue fitted ↔ HasRoom (F.rows_of rows.now
            net.now) (total_of F.Row.cmp self.old.sums) kind leg) }
    {
        add_tested(&mut self.sums, net, rows, kind, leg)
    }

    /// Takes the uses of a usable leg of the type away. Each of these totals must be at least the use. A row of which nothing
    /// is used any more is kept no more.
    pub fn take_leg(&mut self, net: &Network, rows: &F, kind: TypeId, leg: Leg)
        requires usable { IsUsable net.now kind leg }
        requires enough { (row : F.Row) → (F.rows_of rows.now net.now).uses kind leg row
            ≤ total_of F.Row.cmp self.old.sums row }
        ensures { (row : F.Row) → total_of F.Row.cmp self.new.sums row
            + (F.rows_of rows.now net.now).uses kind leg row
            ≡ total_of F.Row.cmp self.old.sums row }
    {
        take_first(&mut self.sums, net, rows, kind, leg, MOST_USED);
    }

    /// Whether a usable leg of the type fits: no row that it uses would get above its capacity.
    pub fn fits(&self, net: &Network, rows: &F, kind: TypeId, leg: Leg) -> bool
        requires { IsUsable net.now kind leg }
        ensures { IsTrue result ↔ HasRoom (F.rows_of rows.now net.now) (total_of F.Row.cmp
            self.now.sums) kind leg }
    {
        for k in 0..8192 {
            let Some(row) = rows.touched(net, kind, leg, k) else {
                return true;
            };
            let sum = self.total(row) + u128::from(rows.touched_use(net, kind, leg, row));
            if sum > u128::from(rows.cap(net, row)) {
                return false;
            }
        }
        true
    }
}

/// Puts another total in place of one that is kept.
fn put<R: Copy + Ord>(sums: &mut BTreeMap<R, u128>, row: R, sum: u128)
    requires { IsSome (get R.cmp sums.old row) }
    ensures { (q : R) → total_of R.cmp sums.new q
        ≡ (if is_eq (R.cmp row q) then sum else total_of R.cmp sums.old q) }
{
    if let Some(total) = sums.get_mut(&row) {
        *total = sum;
    }
}

/// Adds to the total of a row, and tells the new one. Most rows have none before, and are looked up once. After `NoMemory` no
/// total has changed.
fn raise<R: Copy + Ord>(sums: &mut BTreeMap<R, u128>, row: R, by: u32) -> Result<u128, NoMemory>
    requires { total_of R.cmp sums.old row + by < 2 ^ 128 }
    ensures sum { IfOk result (λ sum. sum ≡ total_of R.cmp sums.old row + by) }
    ensures raised { OnOk result ((q : R) → total_of R.cmp sums.new q ≡ total_of R.cmp sums.old q
        + (if is_eq (R.cmp row q) then by else 0)) }
    ensures kept { OnErr result ((q : R) → total_of R.cmp sums.new q ≡ total_of R.cmp sums.old q) }
{
    let by = u128::from(by);
    match sums.insert(row, by)? {
        Some(before) => {
            let sum = before + by;
            put(sums, row, sum);
            Ok(sum)
        }
        None => Ok(by),
    }
}

/// Takes away from the total of a row. Where nothing is left, none is kept.
fn lower<R: Copy + Ord>(sums: &mut BTreeMap<R, u128>, row: R, by: u32)
    requires { by ≤ total_of R.cmp sums.old row }
    ensures { (q : R) → total_of R.cmp sums.new q + (if is_eq (R.cmp row q) then by else 0)
        ≡ total_of R.cmp sums.old q }
{
    let Some(total) = sums.get_mut(&row) else {
        return;
    };
    let left = *total - u128::from(by);
    *total = left;
    if left == 0 {
        sums.remove(&row);
    }
}

/// Takes the uses of the first `count` rows of a leg away, or of all where it has fewer.
fn take_first<F: RowFamily>(
    sums: &mut BTreeMap<F::Row, u128>,
    net: &Network,
    rows: &F,
    kind: TypeId,
    leg: Leg,
    count: u32,
)
    requires usable { IsUsable net.now kind leg }
    requires enough { AreEnough (F.rows_used rows.now net.now kind leg) ((F.rows_of rows.now
        net.now).uses kind leg) (total_of F.Row.cmp sums.old) count }
    ensures { IsLowered F.Row.cmp (F.rows_used rows.now net.now kind leg) ((F.rows_of rows.now
        net.now).uses kind leg) (total_of F.Row.cmp sums.old) (total_of F.Row.cmp sums.new) count }
{
    for k in 0..count {
        let Some(row) = rows.touched(net, kind, leg, k) else {
            return;
        };
        lower(sums, row, rows.touched_use(net, kind, leg, row));
    }
}

/// Adds the uses of a leg. After `NoMemory` those that were added are taken away again.
fn add_uses<F: RowFamily>(
    sums: &mut BTreeMap<F::Row, u128>,
    net: &Network,
    rows: &F,
    kind: TypeId,
    leg: Leg,
) -> Result<(), NoMemory>
    requires usable { IsUsable net.now kind leg }
    requires below { (row : F.Row) → total_of F.Row.cmp sums.old row
        + (F.rows_of rows.now net.now).uses kind leg row < 2 ^ 100 }
    ensures added { OnOk result ((row : F.Row) → total_of F.Row.cmp sums.new row
        ≡ total_of F.Row.cmp sums.old row + (F.rows_of rows.now net.now).uses kind leg row) }
    ensures kept { OnErr result ((row : F.Row) → total_of F.Row.cmp sums.new row
        ≡ total_of F.Row.cmp sums.old row) }
{
    for k in 0..8192 {
        let Some(row) = rows.touched(net, kind, leg, k) else {
            return Ok(());
        };
        let used = rows.touched_use(net, kind, leg, row);
        if let Err(error) = raise(sums, row, used) {
            take_first(sums, net, rows, kind, leg, k);
            return Err(error);
        }
    }
    Ok(())
}

/// Whether all did fit, and the total is within the capacity.
fn still_fit(fit: bool, sum: u128, capacity: u32) -> bool
    ensures { IsTrue result ↔ (IsTrue fit × (sum ≤ capacity)) }
{
    fit && sum <= u128::from(capacity)
}

/// Adds the uses of a leg, and tells whether it fitted. After `NoMemory` those that were added are taken away again.
fn add_tested<F: RowFamily>(
    sums: &mut BTreeMap<F::Row, u128>,
    net: &Network,
    rows: &F,
    kind: TypeId,
    leg: Leg,
) -> Result<bool, NoMemory>
    requires usable { IsUsable net.now kind leg }
    requires below { (row : F.Row) → total_of F.Row.cmp sums.old row
        + (F.rows_of rows.now net.now).uses kind leg row < 2 ^ 100 }
    ensures added { OnOk result ((row : F.Row) → total_of F.Row.cmp sums.new row
        ≡ total_of F.Row.cmp sums.old row + (F.rows_of rows.now net.now).uses kind leg row) }
    ensures kept { OnErr result ((row : F.Row) → total_of F.Row.cmp sums.new row
        ≡ total_of F.Row.cmp sums.old row) }
    ensures fitted { IfOk result (λ fitted. IsTrue fitted ↔ HasRoom (F.rows_of rows.now net.now)
        (total_of F.Row.cmp sums.old) kind leg) }
{
    let mut fitted = true;
    for k in 0..8192 {
        let Some(row) = rows.touched(net, kind, leg, k) else {
            return Ok(fitted);
        };
        let used = rows.touched_use(net, kind, leg, row);
        let sum = match raise(sums, row, used) {
            Ok(sum) => sum,
            Err(error) => {
                take_first(sums, net, rows, kind, leg, k);
                return Err(error);
            }
        };
        fitted = still_fit(fitted, sum, rows.cap(net, row));
    }
    Ok(fitted)
}
