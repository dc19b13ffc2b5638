//! How much touches use, in no memory where each uses its row once, as nearly all do.
ghost use Rattle.std.specs.Prelude.{◌≡◌, replicate, slice_index};

use crate::numbers::Numbers;
use std::alloc::Global;
use std::marker::Model;

/// Numbers: so many ones, and then the others.
#[derive(Drop)]
pub(crate) struct Amounts {
    ones: usize,
    others: Numbers,
}

impl Model for Amounts {
    ghost use Rattle.std.specs.Prelude.{◌++◌, replicate};
    ghost use Rattle.optra_prices.specs.NumberLists.{NumberList};

    ghost Value = { NumberList };

    ghost view = { λ a. record { items = replicate a.ones 1 ++ a.others.items } };
}

impl Amounts {
    /// So many ones.
    pub(crate) fn ones(alloc: Global, count: usize) -> Amounts
        ensures { result.items ≡ replicate count 1 }
    {
        Amounts {
            ones: count,
            others: Numbers::new(alloc),
        }
    }

    /// The numbers.
    pub(crate) fn of(numbers: Numbers) -> Amounts
        ensures { result.items ≡ numbers.items }
    {
        Amounts {
            ones: 0,
            others: numbers,
        }
    }

    /// The number at a place, and 0 past the last one.
    pub(crate) fn at(&self, place: usize) -> usize
        ensures { result ≡ slice_index self.now.items place }
    {
        if place < self.ones {
            1
        } else {
            self.others.at(place - self.ones)
        }
    }
}
