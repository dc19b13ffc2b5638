//! The exit statuses.

/// A command did its work, and nothing that it printed has a gap.
pub const OPTIMAL: u8 = 0;

/// A command did its work, and a bound that it printed is above its revenue.
pub const GAP: u8 = 1;

/// A timetable has no fault.
pub const FAULTLESS: u8 = 0;

/// A timetable has a fault.
pub const FAULTY: u8 = 1;

/// A certificate is valid.
pub const VALID: u8 = 0;

/// A certificate can't be read, or isn't valid.
pub const DENIED: u8 = 4;

/// The words are no command form.
pub const USAGE: u8 = 2;

/// A table is refused.
pub const REFUSED: u8 = 3;

/// A file could not be read.
pub const READ: u8 = 5;

/// A file isn't there.
pub const ABSENT: u8 = 6;

/// A file could not be put, or the output failed.
pub const WRITE: u8 = 7;

/// Memory ran out.
pub const MEMORY: u8 = 8;

/// A file is too long.
pub const TOO_LONG: u8 = 9;

/// A journal is refused.
pub const JOURNAL: u8 = 10;

/// A call of the disk failed.
pub const DISK: u8 = 11;
