//! The arrays that searches lend one another.
ghost use Rattle.std.specs.Prelude.{◌≡◌, []};

use std::alloc::Global;
use std::marker::Model;

/// The arrays of a search, to be lent to one search after another. They are seen as the path found
/// last.
#[derive(Drop)]
pub struct Buffers {
    /// For each node the sum of the first best way on from there to an end.
    pub(crate) sums: Vec<i128>,
    /// For each node the first arc of that way.
    pub(crate) next: Vec<u32>,
    /// The sums of the narrow search.
    pub(crate) narrow: Vec<i64>,
    pub(crate) path: Vec<u32>,
}

impl Model for Buffers {
    ghost use Rattle.std.specs.Prelude.{List, ℕ};

    ghost Value = { List ℕ };

    ghost view = { λ a. a.path.items };
}

impl Buffers {
    /// Empty buffers, which take no memory.
    pub fn new(alloc: Global) -> Buffers
        ensures { result ≡ [] }
    {
        Buffers {
            sums: Vec::new(alloc),
            next: Vec::new(alloc),
            narrow: Vec::new(alloc),
            path: Vec::new(alloc),
        }
    }

    /// The arcs of the path found last.
    pub fn path(&self) -> &[u32]
        ensures { result.now ≡ self.now }
    {
        &self.path
    }
}
