//! The tables of a demo: a network of stations in a row and bids over it, drawn from a seed and a size.
#![tactic(auto)]

mod bid_tables;
mod demo_bid;
mod demo_tables;
mod draws;
mod kinds;
mod names;
mod network_tables;

pub use demo_tables::{DemoTables, make};
