//! What is held of a row during a step.

/// The price of a row, and how much of it the replies use.
#[derive(Clone, Copy)]
pub(crate) struct Held {
    pub(crate) price: i64,
    pub(crate) used: u64,
}
