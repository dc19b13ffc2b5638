//! The steps of the places that are reached, made once.
ghost use Rattle.std.specs.Prelude.{◌≡◌, ℕ, ◌+◌, ◌<◌, [], ◌∷◌, OnOk};
ghost use Rattle.optra_graph.specs.StepTables.{IsEmpty, IsGrown, HasRange, place_at, rows_of, steps_at};

use crate::stepping::Step;
use optra_network::NoMemory;
use std::alloc::Global;

/// The steps of some places, in rows, one place after the other.
#[derive(Drop)]
pub struct StepTable {
    pub steps: Vec<Step>,
    /// The place of each row, ascending.
    pub places: Vec<u32>,
    /// Where the steps of each row begin, and at last where all end.
    pub starts: Vec<usize>,
}

impl StepTable {
    /// Takes no memory yet. It is to be cleared before it is filled.
    pub fn new(alloc: Global) -> StepTable {
        StepTable {
            steps: Vec::new(alloc),
            places: Vec::new(alloc),
            starts: Vec::new(alloc),
        }
    }

    /// Takes all rows away, and keeps their memory for others.
    pub fn clear(&mut self) -> Result<(), NoMemory>
        ensures { OnOk result (IsEmpty self.new) }
    {
        self.steps.clear();
        self.places.clear();
        self.starts.clear();
        self.starts.push(0)?;
        Ok(())
    }

    /// Adds the steps of a place that comes after all others.
    pub fn add(&mut self, place: u32, steps: &[Step]) -> Result<(), NoMemory>
        ensures { OnOk result (IsGrown self.old place steps.now self.new) }
    {
        self.steps.extend_from_slice(steps)?;
        self.places.push(place)?;
        self.starts.push(self.steps.len())?;
        Ok(())
    }

    /// How many rows there are.
    pub fn rows(&self) -> usize
        ensures { result ≡ rows_of self.now }
    {
        self.places.len()
    }

    /// The place of a row.
    pub fn place(&self, row: usize) -> u32
        requires { row < rows_of self.now }
        ensures { result ≡ place_at self.now row }
    {
        self.places[row]
    }

    /// The steps of a row.
    pub fn of(&self, row: usize) -> &[Step]
        requires { HasRange self.now row }
        ensures { result.now ≡ steps_at self.now row }
    {
        &self.steps[self.starts[row]..self.starts[row + 1]]
    }
}
