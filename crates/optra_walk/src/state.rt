//! The state of a train between two legs. Definitions speak of it; each search numbers states in its own way.
use optra_network::{Minute, StationId};

/// Where a train is to leave next, when, from a halt or not, and how many stops are done.
#[derive(Clone, Copy)]
pub struct State {
    pub station: StationId,
    pub minute: Minute,
    pub halted: bool,
    pub done: u16,
}
