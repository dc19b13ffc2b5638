//! Numbers by place that are set one by one, in as many bits each as all of them need. That the numbers of an index fit is
//! known before it is made, so that nothing is asked of a number while it is set.
ghost use Rattle.std.specs.Prelude.{◌≡◌, ◌<◌, ◌^◌, ℕ, List, IfOk, OnOk, length, replicate, slice_index, slice_set};

use crate::numbers::Numbers;
use optra_network::NoMemory;
use std::alloc::Global;

/// Numbers by place, which are set one by one.
pub(crate) trait Cells: Drop {
    /// The numbers.
    ghost items_of: { Self → List ℕ };

    /// Each number is below it.
    ghost bound: { ℕ };

    /// So many zeros. More than a vector can hold are refused.
    fn zeros(alloc: Global, count: usize) -> Result<Self, NoMemory>
        ensures zeros { IfOk result (λ cells. items_of cells ≡ replicate count 0) }
        ensures few { OnOk result (count < 2 ^ 63) };

    /// How many there are.
    fn len(&self) -> usize
        ensures { result ≡ length (items_of self.now) };

    /// The number at a place.
    fn at(&self, place: usize) -> usize
        requires { place < length (items_of self.now) }
        ensures { result ≡ slice_index (items_of self.now) place };

    /// Puts a number at a place, in place of what was there.
    fn set(&mut self, place: usize, number: usize)
        requires within { place < length (items_of self.old) }
        requires small { number < bound }
        ensures { items_of self.new ≡ slice_set (items_of self.old) place number };

    /// The same numbers, to be kept.
    fn numbers(self, alloc: Global) -> Numbers
        ensures { result.items ≡ items_of self };
}

/// Numbers in 32 bits each.
#[derive(Drop)]
pub(crate) struct NarrowCells {
    items: Vec<u32>,
}

impl Cells for NarrowCells {
    ghost items_of = { λ cells. cells.items.items };

    ghost bound = { 2 ^ 32 };

    fn zeros(alloc: Global, count: usize) -> Result<NarrowCells, NoMemory> {
        let items = vec![in alloc; 0; count]?;
        Ok(NarrowCells { items })
    }

    fn len(&self) -> usize {
        self.items.len()
    }

    fn at(&self, place: usize) -> usize {
        self.items[place] as usize
    }

    fn set(&mut self, place: usize, number: usize) {
        self.items[place] = number as u32;
    }

    fn numbers(self, alloc: Global) -> Numbers {
        Numbers::of_narrow(alloc, self.items)
    }
}

/// Numbers in 64 bits each.
#[derive(Drop)]
pub(crate) struct WideCells {
    items: Vec<usize>,
}

impl Cells for WideCells {
    ghost items_of = { λ cells. cells.items.items };

    ghost bound = { 2 ^ 64 };

    fn zeros(alloc: Global, count: usize) -> Result<WideCells, NoMemory> {
        let items = vec![in alloc; 0; count]?;
        Ok(WideCells { items })
    }

    fn len(&self) -> usize {
        self.items.len()
    }

    fn at(&self, place: usize) -> usize {
        self.items[place]
    }

    fn set(&mut self, place: usize, number: usize) {
        self.items[place] = number;
    }

    fn numbers(self, alloc: Global) -> Numbers {
        Numbers::of_wide(alloc, self.items)
    }
}
