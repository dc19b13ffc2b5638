//! What the making of a graph needs besides the graph.

use crate::step_table::StepTable;
use crate::stepping::Step;
use std::alloc::Global;

/// Buffers for making graphs one after the other, so that not each takes memory of its own. They may
/// hold anything: what a graph reads of them it has written before.
#[derive(Drop)]
pub struct Workspace {
    /// Whether each place is reached, and later whether it is kept.
    pub flags: Vec<bool>,
    /// The numbers of the nodes, by place.
    pub numbers: Vec<u32>,
    /// The steps of one place.
    pub steps: Vec<Step>,
    /// The steps of the places that are reached.
    pub table: StepTable,
}

impl Workspace {
    /// Takes no memory yet.
    pub fn new(alloc: Global) -> Workspace {
        Workspace {
            flags: Vec::new(alloc),
            numbers: Vec::new(alloc),
            steps: Vec::new(alloc),
            table: StepTable::new(alloc),
        }
    }
}
