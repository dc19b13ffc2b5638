//! Rows of crossings: how far apart trains enter two tracks that cross, or one line in its two directions.
//!
//! [`CrossRows`] states the crossing rule by rows: two uses of different tracks that break their crossing have a row of
//! their own, of capacity 1, and only these two use it. Tables of version 2 are planned and checked by it, beside the rows of
//! headways and of platforms; certificates tell its rows from version 2 on.
#![tactic(auto)]

use optra_network::{Minute, TrackId, TypeId};

mod cross_rows;
mod laws;
mod places;
mod row_codes;
mod texts;

pub use cross_rows::CrossRows;
pub use laws::{cross_kinds_are_apart, cross_rows_are_few};

/// A row of crossings: two uses of different tracks, of types that may use them, that break their crossing. The one on the
/// lesser track is first. Rows are ordered by their fields from left to right. Each has the capacity 1.
#[derive(Clone, Copy, Debug, PartialEq, Eq, PartialOrd, Ord)]
pub struct CRow {
    /// The lesser track.
    pub first_track: TrackId,
    /// The minute of the use of it, 0 to 2,879.
    pub first_at: Minute,
    /// The type that uses it.
    pub first: TypeId,
    /// The greater track.
    pub second_track: TrackId,
    /// The minute of the use of it, 0 to 2,879.
    pub second_at: Minute,
    /// The type that uses it.
    pub second: TypeId,
}
