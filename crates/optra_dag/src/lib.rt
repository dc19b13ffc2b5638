//! Directed graphs whose arcs lead forward, and the first best path through one.
#![tactic(auto)]

use std::alloc::AllocError;

mod arc_slice;
mod arcs;
mod best;
mod buffers;
mod ends;
mod graphs;
mod narrow;
mod narrow_arc;
mod narrow_slice;
mod searching;
mod skipping;
mod spans;

pub use best::best_by;
pub use buffers::Buffers;
pub use graphs::Dag;
pub use narrow::{FAR, NARROW_ROOM, NarrowWeight, is_narrow, narrow_best_in};
pub use searching::{Weight, first_best, first_best_in};
pub use skipping::skip_laws;

/// Memory was refused.
pub type NoMemory = AllocError;

/// An arc from one node to a later one.
#[derive(Clone, Copy, Debug, PartialEq, Eq)]
pub struct Arc {
    /// The node that it leaves.
    pub from: u32,
    /// The node that it leads to.
    pub to: u32,
}
