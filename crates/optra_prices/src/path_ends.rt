//! Where a price path starts, and where it ends at the latest.
use optra_node::Prices;

/// The prices at which a price path starts, and the most steps that it takes.
#[derive(Drop)]
pub struct PathEnds<'a, R> {
    pub start: &'a Prices<R>,
    pub steps: u32,
}
