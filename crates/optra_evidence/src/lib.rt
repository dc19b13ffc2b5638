//! Evidence for each bid, from a valid certificate alone: what every choice earns at most that serves the bid, and what every
//! choice earns at most that leaves it out.
//!
//! A leaf of the tree whose dual value counts says both of each bid: with the bid served it is the dual value with the bid's best
//! reduced value in place of its term, and with the bid left out it is the dual value without its term. Each choice that keeps the
//! rule is of some leaf, so it earns at most the greatest that a leaf says ([`optra_node::evidence_holds`]).
//!
//! It stands where [`optra_checker`] stands, and takes what bids are offered at a leaf from there: nothing here knows how a choice
//! or prices were found.
#![tactic(auto)]

mod certificate_evidence;
mod figures;
mod hearing;
mod leaf_worths;
mod saying;

pub use certificate_evidence::evidence;
pub use figures::Figures;
