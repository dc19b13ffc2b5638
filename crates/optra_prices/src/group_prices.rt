//! The prices of groups, as a search takes them.

/// Prices of groups, and a number that none of them exceeds. Groups past the end cost nothing, so that the list is empty
/// at zero prices.
#[derive(Clone, Copy)]
pub(crate) struct GroupPrices<'a> {
    pub(crate) prices: &'a [i64],
    pub(crate) most: i64,
}
