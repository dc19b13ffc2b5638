//! How much is used of rows by number, beside how much there is of them, in two bytes a row.
ghost use Rattle.std.specs.Prelude.{◌≡◌, ◌↔◌, ◌&&◌, ◌<◌, ◌++◌, ◌∷◌, [], All, IsTrue, IfOk, OnOk, length, replicate, slice_index, slice_index_or, slice_set};
ghost use Rattle.optra_prices.specs.Loads.{AddsOnce, FitEach, FitsOnce, IsUnused, SetsUses, used_in, narrow_capacities_in, no_narrow_load};

use optra_network::NoMemory;
use std::alloc::Global;
use std::marker::Model;

/// What is used of a row, and how much there is of it.
#[derive(Clone, Copy)]
pub(crate) struct NarrowLoad {
    pub(crate) used: u8,
    pub(crate) capacity: u8,
}

/// Uses and capacities of rows, side by side, each below 2^8.
#[derive(Drop)]
pub(crate) struct NarrowLoads {
    rows: Vec<NarrowLoad>,
}

impl Model for NarrowLoads {
    ghost use Rattle.optra_prices.specs.Loads.{RowLoads, used_in, narrow_capacities_in};

    ghost Value = { RowLoads };

    ghost view = { λ a. record {
      uses = used_in a.rows.items;
      capacities = narrow_capacities_in a.rows.items;
    } };
}

/// What is held of the row with this number, and nothing where there is none.
fn load_at(rows: &[NarrowLoad], number: usize) -> NarrowLoad
    ensures { result ≡ slice_index_or rows.now number no_narrow_load }
{
    rows.get(number).copied().unwrap_or(NarrowLoad {
        used: 0,
        capacity: 0,
    })
}

/// Whether there is room for one more use.
fn fits_one(load: NarrowLoad) -> bool
    ensures { IsTrue result ↔ load.used < load.capacity }
{
    load.used < load.capacity
}

/// Whether two hold.
fn both(a: bool, b: bool) -> bool
    ensures { result ≡ (a && b) }
{
    a && b
}

/// Sets what is used of a row, where there is one.
fn set_used(rows: &mut Vec<NarrowLoad>, number: usize, used: u8)
    ensures used { used_in rows.new.items ≡ slice_set (used_in rows.old.items) number used }
    ensures capacities { narrow_capacities_in rows.new.items ≡ narrow_capacities_in rows.old.items }
{
    if number >= rows.len() {
        return;
    }
    let capacity = rows[number].capacity;
    rows[number] = NarrowLoad { used, capacity };
}

/// Nothing is used of any row.
fn clear_used(rows: &mut Vec<NarrowLoad>)
    ensures used { used_in rows.new.items ≡ replicate (length rows.old.items) 0 }
    ensures capacities { narrow_capacities_in rows.new.items ≡ narrow_capacities_in rows.old.items }
{
    for number in 0..rows.len() {
        set_used(rows, number, 0);
    }
}

impl NarrowLoads {
    /// No row, which takes no memory.
    pub(crate) fn new(alloc: Global) -> NarrowLoads
        ensures uses { result.uses ≡ [] }
        ensures capacities { result.capacities ≡ [] }
    {
        NarrowLoads {
            rows: Vec::new(alloc),
        }
    }

    /// As many rows of the same capacities, of which nothing is used.
    pub(crate) fn unused(&self, alloc: Global) -> Result<NarrowLoads, NoMemory>
        ensures { IfOk result (IsUnused self.now) }
    {
        let mut rows = Vec::from_slice(alloc, &self.rows)?;
        clear_used(&mut rows);
        Ok(NarrowLoads { rows })
    }

    /// How many rows there are.
    pub(crate) fn len(&self) -> usize
        ensures uses { result ≡ length self.now.uses }
        ensures capacities { result ≡ length self.now.capacities }
    {
        self.rows.len()
    }

    /// Takes the memory for so many more rows, and no more.
    pub(crate) fn reserve_exact(&mut self, more: usize) -> Result<(), NoMemory>
        ensures { OnOk result (self.new ≡ self.old) }
    {
        self.rows.reserve_exact(more)
    }

    /// Adds a row, of which nothing is used.
    pub(crate) fn push(&mut self, capacity: u8) -> Result<(), NoMemory>
        ensures uses { OnOk result (self.new.uses ≡ self.old.uses ++ 0 ∷ []) }
        ensures capacities { OnOk result (self.new.capacities ≡ self.old.capacities
            ++ capacity ∷ []) }
    {
        self.rows.push(NarrowLoad { used: 0, capacity })?;
        Ok(())
    }

    /// Nothing is used of any row.
    pub(crate) fn clear(&mut self)
        ensures { IsUnused self.old self.new }
    {
        clear_used(&mut self.rows);
    }

    /// Sets what is used of a row. Where there is none, nothing changes.
    pub(crate) fn set(&mut self, number: usize, used: u8)
        ensures { SetsUses number used self.old self.new }
    {
        set_used(&mut self.rows, number, used);
    }

    /// Adds one to what is used of a row where there is room for it, and tells whether there is. Where there is no row, there
    /// is none.
    pub(crate) fn add_once(&mut self, number: usize) -> bool
        ensures tells { IsTrue result ↔ FitsOnce self.old number }
        ensures adds { AddsOnce number result self.old self.new }
    {
        let load = load_at(&self.rows, number);
        if !fits_one(load) {
            return false;
        }
        set_used(&mut self.rows, number, load.used + 1);
        true
    }

    /// Whether there is room for one more use of each of the rows.
    pub(crate) fn fit_once(&self, rows: &[u32]) -> bool
        ensures { IsTrue result ↔ All (FitsOnce self.now) rows.now }
    {
        for k in 0..rows.len() {
            if !fits_one(load_at(&self.rows, rows[k] as usize)) {
                return false;
            }
        }
        true
    }

    /// Whether there is room for one more use of each row. All are asked, since that is quicker than to stop at one.
    pub(crate) fn fit_each(&self) -> bool
        ensures { IsTrue result ↔ FitEach self.now }
    {
        let mut fit = true;
        for number in 0..self.len() {
            fit = both(fit, fits_one(load_at(&self.rows, number)));
        }
        fit
    }

    /// How much is used of a row, and 0 where there is none.
    pub(crate) fn used(&self, number: usize) -> u8
        ensures { result ≡ slice_index self.now.uses number }
    {
        load_at(&self.rows, number).used
    }

    /// How much there is of a row, and 0 where there is none.
    pub(crate) fn capacity(&self, number: usize) -> u8
        ensures { result ≡ slice_index self.now.capacities number }
    {
        load_at(&self.rows, number).capacity
    }
}
