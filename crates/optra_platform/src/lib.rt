//! Rows of platforms: how many trains may stand in a station at once.
//!
//! [`PlatformRows`] states the halt rule by rows: a station with a limit has a row for each minute of the two days, whose
//! capacity is the limit, and a leg uses the rows of the minutes in which its train stands there. Tables of version 2 are
//! planned and checked by it, beside the rows of headways and of crossings; certificates tell its rows from version 2 on.
#![tactic(auto)]

use optra_network::{Minute, StationId};

mod laws;
mod platform_rows;
mod row_codes;
mod texts;

pub use laws::{platform_kinds_are_apart, platform_rows_are_few};
pub use platform_rows::PlatformRows;

/// A row of platforms: a station with a limit and a minute of the two days. Rows are ordered by station and then by minute.
#[derive(Clone, Copy, Debug, PartialEq, Eq, PartialOrd, Ord)]
pub struct PRow {
    /// The station.
    pub station: StationId,
    /// The minute, 0 to 2,879.
    pub minute: Minute,
}
