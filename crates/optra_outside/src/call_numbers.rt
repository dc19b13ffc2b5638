//! The numbers of the calls that are to fail.
ghost use Rattle.std.specs.Prelude.{◌≡◌};
ghost use Rattle.std.specs.FinSet as set;

use std::marker::Model;

/// A set of numbers, sorted so that one is found without a look at the others.
#[derive(Drop)]
pub struct CallNumbers {
    sorted: Vec<u64>,
}

impl Model for CallNumbers {
    ghost use Rattle.std.specs.Coded.{coded_ℕ};
    ghost use Rattle.std.specs.FinSet as set;
    ghost use Rattle.std.specs.List.Sorted.{IsSorted};
    ghost use Rattle.std.specs.Ordering.{nat_cmp};
    ghost use Rattle.optra_outside.specs.CallNumbers.{NumberSet};

    ghost Value = { NumberSet };

    ghost coded = { set.code coded_ℕ };

    ghost view = { λ a. set.from_list a.sorted.items };

    ghost invariant = { λ a. IsSorted nat_cmp a.sorted.items };
}

impl CallNumbers {
    pub fn new(numbers: Vec<u64>) -> CallNumbers
        ensures { result ≡ set.from_list numbers.items }
    {
        let mut sorted = numbers;
        sorted.sort_unstable();
        CallNumbers { sorted }
    }

    pub fn contains(&self, number: u64) -> bool
        ensures { result ≡ set.contains self.now number }
    {
        self.sorted.binary_search(&number).is_ok()
    }
}
