//! Time-expanded graphs of bids, whose paths are the timed walks of the bid.
#![tactic(auto)]

mod building;
mod columns;
mod deadlines;
mod emitting;
mod graph_map;
mod kept;
mod legs;
mod numbering;
mod packed_leg;
mod passing;
mod reaching;
mod serving;
mod states;
mod step_table;
mod stepping;
mod strip;
mod timegraphs;
mod workspace;

pub use building::{Builds, build};
pub use graph_map::GraphMap;
pub use serving::{FreshGraphs, Graphs};
pub use timegraphs::TimeGraph;
