//! The number that tells a use of a track among those of the track. Families whose rows are told by uses share it.
ghost use Rattle.std.specs.Prelude.{◌≡◌, ◌<◌, ◌^◌};
ghost use Rattle.optra_walk.specs.UseCodes.{has_use_code, use_code, code_kind, code_minute, code_track};

use optra_network::{Minute, TrackId, TypeId};

/// So many tracks may be told.
const TRACKS: u64 = 1_024;

/// So many minutes may be told.
const MINUTES: u64 = 4_096;

/// So many types may be told.
const TYPES: u64 = 16;

/// Whether a use of a track is told by a number: on the first 1,024 tracks, before minute 4,096, of the first 16 types.
pub fn has_use_code(track: TrackId, minute: Minute, kind: TypeId) -> bool
    ensures { result ≡ has_use_code track minute kind }
{
    u64::from(track.0) < TRACKS && (u64::from(minute) < MINUTES && u64::from(kind.0) < TYPES)
}

/// The number of a use of a track among those of the track.
pub fn use_code(minute: Minute, kind: TypeId) -> u64
    ensures value { result ≡ use_code minute kind }
    ensures small { result < 2 ^ 32 }
{
    u64::from(minute) * TYPES + u64::from(kind.0)
}

/// The type of a number of a use. What stands above a use in the number doesn't matter.
pub fn code_kind(code: u64) -> TypeId
    ensures { result ≡ code_kind code }
{
    TypeId((code % TYPES) as u16)
}

/// The minute of a number of a use. What stands above a use in the number doesn't matter.
pub fn code_minute(code: u64) -> Minute
    ensures { result ≡ code_minute code }
{
    (code / TYPES % MINUTES) as u16
}

/// The track of a number of a track. What stands above a track in the number doesn't matter.
pub fn code_track(code: u64) -> TrackId
    ensures { result ≡ code_track code }
{
    TrackId((code % TRACKS) as u16)
}
