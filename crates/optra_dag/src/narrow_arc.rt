//! An arc in four bytes.

/// An arc whose nodes both have numbers below 65,536.
#[derive(Clone, Copy)]
pub(crate) struct NarrowArc {
    pub(crate) from: u16,
    pub(crate) to: u16,
}
