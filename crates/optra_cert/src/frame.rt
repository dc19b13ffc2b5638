//! What a certificate is read for.

use optra_walk::Instance;

/// What a certificate is read for: bids on a network, a family of rows, and the version that its first record states.
#[derive(Drop)]
pub struct Frame<'a, F> {
    pub inst: Instance<'a>,
    pub rows: &'a F,
    pub version: u8,
}
