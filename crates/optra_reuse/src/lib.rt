//! Graphs that are kept: one for each path specification, built once, over any number of plans.
#![tactic(auto)]

mod graph_store;

pub use graph_store::GraphStore;
