//! How much is used of rows by number, beside how much there is of them, for rows that 8 bits don't serve.
ghost use Rattle.std.specs.Prelude.{◌≡◌, ◌+◌, ◌-◌, ◌++◌, ◌∷◌, [], IfOk, OnOk, length, replicate, slice_index, slice_index_or, slice_set};
ghost use Rattle.optra_prices.specs.Loads.{IsUnused, SetsUses, capacities_in, uses_in, no_load};

use optra_network::NoMemory;
use std::alloc::{AllocError, Global};
use std::marker::Model;

/// What is used of a row, and how much there is of it.
#[derive(Clone, Copy)]
pub(crate) struct Load {
    pub(crate) used: u64,
    pub(crate) capacity: u32,
}

/// Uses and capacities of rows, side by side.
#[derive(Drop)]
pub(crate) struct WideLoads {
    rows: Vec<Load>,
}

impl Model for WideLoads {
    ghost use Rattle.optra_prices.specs.Loads.{RowLoads, capacities_in, uses_in};

    ghost Value = { RowLoads };

    ghost view = { λ a. record {
      uses = uses_in a.rows.items;
      capacities = capacities_in a.rows.items;
    } };
}

/// What is held of the row with this number, and nothing where there is none.
fn load_at(rows: &[Load], number: usize) -> Load
    ensures { result ≡ slice_index_or rows.now number no_load }
{
    rows.get(number).copied().unwrap_or(Load {
        used: 0,
        capacity: 0,
    })
}

/// Sets what is used of a row, where there is one.
fn set_used(rows: &mut Vec<Load>, number: usize, used: u64)
    ensures uses { uses_in rows.new.items ≡ slice_set (uses_in rows.old.items) number used }
    ensures capacities { capacities_in rows.new.items ≡ capacities_in rows.old.items }
{
    if number >= rows.len() {
        return;
    }
    let capacity = rows[number].capacity;
    rows[number] = Load { used, capacity };
}

/// Nothing is used of any row.
fn clear_uses(rows: &mut Vec<Load>)
    ensures uses { uses_in rows.new.items ≡ replicate (length rows.old.items) 0 }
    ensures capacities { capacities_in rows.new.items ≡ capacities_in rows.old.items }
{
    for number in 0..rows.len() {
        set_used(rows, number, 0);
    }
}

impl WideLoads {
    /// No row, which takes no memory.
    pub(crate) fn new(alloc: Global) -> WideLoads
        ensures uses { result.uses ≡ [] }
        ensures capacities { result.capacities ≡ [] }
    {
        WideLoads {
            rows: Vec::new(alloc),
        }
    }

    /// As many rows of the same capacities, of which nothing is used.
    pub(crate) fn unused(&self, alloc: Global) -> Result<WideLoads, NoMemory>
        ensures { IfOk result (IsUnused self.now) }
    {
        let mut rows = Vec::from_slice(alloc, &self.rows)?;
        clear_uses(&mut rows);
        Ok(WideLoads { rows })
    }

    /// How many rows there are.
    pub(crate) fn len(&self) -> usize
        ensures { result ≡ length self.now.uses }
    {
        self.rows.len()
    }

    /// Takes the memory for so many more rows, and no more.
    pub(crate) fn reserve_exact(&mut self, more: usize) -> Result<(), NoMemory>
        ensures { OnOk result (self.new ≡ self.old) }
    {
        self.rows.reserve_exact(more)
    }

    /// Adds a row, of which nothing is used.
    pub(crate) fn push(&mut self, capacity: u32) -> Result<(), NoMemory>
        ensures uses { OnOk result (self.new.uses ≡ self.old.uses ++ 0 ∷ []) }
        ensures capacities { OnOk result (self.new.capacities ≡ self.old.capacities
            ++ capacity ∷ []) }
    {
        self.rows.push(Load { used: 0, capacity })?;
        Ok(())
    }

    /// Nothing is used of any row.
    pub(crate) fn clear(&mut self)
        ensures { IsUnused self.old self.new }
    {
        clear_uses(&mut self.rows);
    }

    /// Takes all rows away.
    pub(crate) fn forget(&mut self)
        ensures uses { self.new.uses ≡ [] }
        ensures capacities { self.new.capacities ≡ [] }
    {
        self.rows.clear();
    }

    /// Adds to what is used of a row. Where there is none, nothing changes. What it answers where the sum is 2^64 or more is
    /// `NoMemory`: so many uses are those of more legs than memory holds.
    pub(crate) fn add(&mut self, number: usize, by: u32) -> Result<(), NoMemory>
        ensures { OnOk result (SetsUses number (slice_index self.old.uses number + by) self.old
            self.new) }
    {
        let Some(sum) = self.used(number).checked_add(u64::from(by)) else {
            return Err(AllocError);
        };
        set_used(&mut self.rows, number, sum);
        Ok(())
    }

    /// Takes away from what is used of a row, to 0 at the least. Where there is none, nothing changes.
    pub(crate) fn take(&mut self, number: usize, by: u32)
        ensures { SetsUses number (slice_index self.old.uses number - by) self.old self.new }
    {
        let rest = self.used(number).saturating_sub(u64::from(by));
        set_used(&mut self.rows, number, rest);
    }

    /// How much is used of a row, and 0 where there is none.
    pub(crate) fn used(&self, number: usize) -> u64
        ensures { result ≡ slice_index self.now.uses number }
    {
        load_at(&self.rows, number).used
    }

    /// How much there is of a row, and 0 where there is none.
    pub(crate) fn capacity(&self, number: usize) -> u32
        ensures { result ≡ slice_index self.now.capacities number }
    {
        load_at(&self.rows, number).capacity
    }
}
