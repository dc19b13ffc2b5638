//! What a leg touches.

/// A row by its number, and how much of it is used.
#[derive(Clone, Copy)]
pub(crate) struct Touch {
    pub(crate) row: usize,
    pub(crate) uses: u32,
}
