//! Rows of headways, two families of rows together, and how much of each row is used.
//!
//! [`HeadwayRows`] states the headway rule by rows: uses of tracks are free of conflict exactly where no row is used more
//! than once. [`Both`] joins two families, and [`Load`] keeps totals by which a caller tests whether a leg fits.
#![tactic(auto)]

use optra_network::{Minute, TrackId, TypeId};

mod headways;
mod joining;
mod load;
mod row_codes;

pub use headways::{HeadwayRows, headway_rows_are_few};
pub use joining::{Both, Either};
pub use load::Load;

/// A row of headways. Rows are ordered by variant and then by their fields from left to right. Each has the capacity 1.
#[derive(Clone, Copy, Debug, PartialEq, Eq, PartialOrd, Ord)]
pub enum HRow {
    /// One minute of a track, 0 to 2,998. A train uses it that departs there at the minute, or fewer minutes before it
    /// than the least headway after its type.
    Window {
        /// The track.
        track: TrackId,
        /// The minute.
        minute: Minute,
    },
    /// Two uses of a track, at minutes 0 to 2,879, that are in conflict and share no window minute, the smaller by minute
    /// and then by type first. Only these two use it.
    Pair {
        /// The track.
        track: TrackId,
        /// The minute of the smaller use.
        first_at: Minute,
        /// The type of the smaller use.
        first: TypeId,
        /// The minute of the greater use.
        second_at: Minute,
        /// The type of the greater use.
        second: TypeId,
    },
}
