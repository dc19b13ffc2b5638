//! A field of a row.
ghost use Rattle.std.specs.Prelude.{◌≡◌, IfOk, OnOk};

use optra_network::NoMemory;
use std::alloc::Global;
use std::marker::Model;

/// A field of a row. Contracts see it as the list of its bytes.
#[derive(Drop)]
pub struct Cell {
    kept: Vec<u8>,
}

impl Model for Cell {
    ghost use Rattle.std.specs.Prelude.{List, ℕ};

    ghost Value = { List ℕ };

    ghost view = { λ a. a.kept.items };
}

impl Cell {
    /// A field of these bytes.
    pub fn new(alloc: Global, bytes: &[u8]) -> Result<Cell, NoMemory>
        ensures { IfOk result (λ cell. cell ≡ bytes.now) }
    {
        let mut kept = Vec::new(alloc);
        kept.extend_from_slice(bytes)?;
        Ok(Cell { kept })
    }

    /// The bytes.
    pub fn bytes(&self) -> &[u8]
        ensures { result.now ≡ self.now }
    {
        &self.kept
    }

    /// Puts these bytes in place of its own, and keeps the memory.
    pub(crate) fn set(&mut self, bytes: &[u8]) -> Result<(), NoMemory>
        ensures { OnOk result (self.new ≡ bytes.now) }
    {
        self.kept.clear();
        self.kept.extend_from_slice(bytes)?;
        Ok(())
    }
}
