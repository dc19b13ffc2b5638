//! How much is used of rows by number, beside how much there is of them.
ghost use Rattle.std.specs.Prelude.{◌≡◌, ◌↔◌, ◌+◌, ◌-◌, ◌≤◌, ◌++◌, ◌∷◌, [], All, IsTrue, IfOk, IfSome, OnOk, length, slice_index};
ghost use Rattle.optra_prices.specs.Loads.{AddsOnce, FitEach, FitsOnce, IsUnused, SetsUses};

use crate::narrow_loads::NarrowLoads;
use crate::wide_loads::WideLoads;
use optra_network::NoMemory;
use std::alloc::Global;
use std::marker::Model;

/// Uses and capacities of rows: in `narrow` while all are below 2^8, and in `wide` from the first one on that isn't.
#[derive(Drop)]
pub(crate) struct Loads {
    is_narrow: bool,
    narrow: NarrowLoads,
    wide: WideLoads,
}

impl Model for Loads {
    ghost use Rattle.std.specs.Prelude.{cond};
    ghost use Rattle.optra_prices.specs.Loads.{RowLoads};

    ghost Value = { RowLoads };

    ghost view = { λ a. record {
      uses = cond a.is_narrow a.narrow.uses a.wide.uses;
      capacities = cond a.is_narrow a.narrow.capacities a.wide.capacities;
    } };
}

/// The same rows in 32 bits and more.
fn widen(narrow: &NarrowLoads, wide: &mut WideLoads) -> Result<(), NoMemory>
    ensures uses { OnOk result (wide.new.uses ≡ narrow.now.uses) }
    ensures capacities { OnOk result (wide.new.capacities ≡ narrow.now.capacities) }
{
    wide.forget();
    wide.reserve_exact(narrow.len())?;
    for number in 0..narrow.len() {
        wide.push(u32::from(narrow.capacity(number)))?;
        wide.add(number, u32::from(narrow.used(number)))?;
    }
    Ok(())
}

/// A sum, where it fits into 8 bits. Where it is not told, the rows are widened, which costs time and memory alone.
fn narrow_sum(used: u8, more: u32) -> Option<u8>
    ensures { IfSome result (λ sum. sum ≡ used + more) }
{
    let sum = u32::from(used).checked_add(more)?;
    u8::try_from(sum).ok()
}

/// What is left of a number, down to 0.
fn narrow_rest(used: u8, less: u32) -> u8
    ensures { result ≡ used - less }
{
    match u8::try_from(less) {
        Ok(less) => used.saturating_sub(less),
        Err(_) => 0,
    }
}

impl Loads {
    /// No row, which takes no memory.
    pub(crate) fn new(alloc: Global) -> Loads
        ensures uses { result.uses ≡ [] }
        ensures capacities { result.capacities ≡ [] }
    {
        Loads {
            is_narrow: true,
            narrow: NarrowLoads::new(alloc),
            wide: WideLoads::new(alloc),
        }
    }

    /// As many rows of the same capacities, of which nothing is used.
    pub(crate) fn unused(&self, alloc: Global) -> Result<Loads, NoMemory>
        ensures { IfOk result (IsUnused self.now) }
    {
        if self.is_narrow {
            let narrow = self.narrow.unused(alloc)?;
            return Ok(Loads {
                is_narrow: true,
                narrow,
                wide: WideLoads::new(alloc),
            });
        }
        let wide = self.wide.unused(alloc)?;
        Ok(Loads {
            is_narrow: false,
            narrow: NarrowLoads::new(alloc),
            wide,
        })
    }

    /// How many rows there are.
    pub(crate) fn len(&self) -> usize
        ensures { result ≡ length self.now.uses }
    {
        if self.is_narrow {
            self.narrow.len()
        } else {
            self.wide.len()
        }
    }

    /// Takes the memory for so many more rows, and no more.
    pub(crate) fn reserve_exact(&mut self, more: usize) -> Result<(), NoMemory>
        ensures { OnOk result (self.new ≡ self.old) }
    {
        if self.is_narrow {
            self.narrow.reserve_exact(more)
        } else {
            self.wide.reserve_exact(more)
        }
    }

    /// Adds a row, of which nothing is used.
    #[inline(always)]
    pub(crate) fn push(&mut self, capacity: u32) -> Result<(), NoMemory>
        ensures uses { OnOk result (self.new.uses ≡ self.old.uses ++ 0 ∷ []) }
        ensures capacities { OnOk result (self.new.capacities ≡ self.old.capacities
            ++ capacity ∷ []) }
    {
        if !self.is_narrow {
            self.wide.push(capacity)?;
            return Ok(());
        }
        if let Ok(capacity) = u8::try_from(capacity) {
            self.narrow.push(capacity)?;
            return Ok(());
        }
        widen(&self.narrow, &mut self.wide)?;
        self.wide.push(capacity)?;
        self.is_narrow = false;
        Ok(())
    }

    /// Nothing is used of any row.
    pub(crate) fn clear(&mut self)
        ensures { IsUnused self.old self.new }
    {
        if self.is_narrow {
            self.narrow.clear();
        } else {
            self.wide.clear();
        }
    }

    /// Adds to what is used of a row. Where there is none, nothing changes.
    pub(crate) fn add(&mut self, number: usize, by: u32) -> Result<(), NoMemory>
        ensures { OnOk result (SetsUses number (slice_index self.old.uses number + by) self.old
            self.new) }
    {
        if !self.is_narrow {
            self.wide.add(number, by)?;
            return Ok(());
        }
        if let Some(sum) = narrow_sum(self.narrow.used(number), by) {
            self.narrow.set(number, sum);
            return Ok(());
        }
        widen(&self.narrow, &mut self.wide)?;
        self.wide.add(number, by)?;
        self.is_narrow = false;
        Ok(())
    }

    /// Adds one to what is used of a row where it is seen at once that there is room for it, and tells whether it did. Where it did
    /// not, the room is asked for and added to in the long way, so that a `false` too many costs time alone.
    pub(crate) fn add_once(&mut self, number: usize) -> bool
        ensures { AddsOnce number result self.old self.new }
    {
        if !self.is_narrow {
            return false;
        }
        self.narrow.add_once(number)
    }

    /// Whether there is room for one more use of each of the rows.
    pub(crate) fn fit_once(&self, rows: &[u32]) -> bool
        ensures { IsTrue result ↔ All (FitsOnce self.now) rows.now }
    {
        if self.is_narrow {
            return self.narrow.fit_once(rows);
        }
        for k in 0..rows.len() {
            if !self.fits(rows[k] as usize, 1) {
                return false;
            }
        }
        true
    }

    /// Whether there is room for one more use of each row.
    pub(crate) fn fit_each(&self) -> bool
        ensures { IsTrue result ↔ FitEach self.now }
    {
        if self.is_narrow {
            return self.narrow.fit_each();
        }
        for number in 0..self.wide.len() {
            if !self.fits(number, 1) {
                return false;
            }
        }
        true
    }

    /// Takes away from what is used of a row, to 0 at the least. Where there is none, nothing changes.
    pub(crate) fn take(&mut self, number: usize, by: u32)
        ensures { SetsUses number (slice_index self.old.uses number - by) self.old self.new }
    {
        if self.is_narrow {
            let rest = narrow_rest(self.narrow.used(number), by);
            self.narrow.set(number, rest);
        } else {
            self.wide.take(number, by);
        }
    }

    /// How much is used of a row, and 0 where there is none.
    pub(crate) fn used(&self, number: usize) -> u64
        ensures { result ≡ slice_index self.now.uses number }
    {
        if self.is_narrow {
            u64::from(self.narrow.used(number))
        } else {
            self.wide.used(number)
        }
    }

    /// How much there is of a row, and 0 where there is none.
    pub(crate) fn capacity(&self, number: usize) -> u32
        ensures { result ≡ slice_index self.now.capacities number }
    {
        if self.is_narrow {
            u32::from(self.narrow.capacity(number))
        } else {
            self.wide.capacity(number)
        }
    }

    /// Whether no more is used of a row than there is.
    pub(crate) fn is_within(&self, number: usize) -> bool
        ensures { IsTrue result
            ↔ slice_index self.now.uses number ≤ slice_index self.now.capacities number }
    {
        self.used(number) <= u64::from(self.capacity(number))
    }

    /// Whether so much more may be used of a row.
    pub(crate) fn fits(&self, number: usize, more: u32) -> bool
        ensures { IsTrue result
            ↔ slice_index self.now.uses number + more ≤ slice_index self.now.capacities number }
    {
        self.used(number).saturating_add(u64::from(more)) <= u64::from(self.capacity(number))
    }
}
