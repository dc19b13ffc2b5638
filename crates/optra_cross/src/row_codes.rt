//! The numbers that tell rows of crossings.
ghost use Rattle.std.specs.Prelude.{◌≡◌, ◌<◌, ◌^◌};
ghost use Rattle.optra_cross.specs.Codes.{code_of, row_of, codes, visit_code};

use crate::CRow;
use optra_network::{Minute, TrackId, TypeId};
use optra_walk::{CodedRow, code_kind, code_minute, code_track, has_use_code, use_code};

/// So many numbers tell the uses of one track.
const TRACK_USES: u64 = 65_536;

/// So many numbers tell uses of tracks.
const USES: u64 = 67_108_864;

/// So many numbers tell rows of crossings, by two uses each.
const CODES: u64 = 4_503_599_627_370_496;

/// The number of a use of a track.
fn visit_code(track: TrackId, minute: Minute, kind: TypeId) -> u64
    ensures value { result ≡ visit_code track minute kind }
    ensures small { result < 2 ^ 37 }
{
    u64::from(track.0) * TRACK_USES + use_code(minute, kind)
}

impl CodedRow for CRow {
    ghost use Rattle.optra_cross.specs.Codes.{leads_back, ordered, below, few};
    ghost use Rattle.optra_cross.specs.CrossLemmas.{rows_told_apart};

    ghost code_of = { λ row. code_of row };

    ghost row_of = { λ code. row_of code };

    ghost codes = { codes };

    ghost tells_apart = { rows_told_apart };

    ghost leads_back = { leads_back };

    ghost ordered = { ordered };

    ghost few = { few };

    ghost below = { below };

    fn code(self) -> Option<u64> {
        if !has_use_code(self.first_track, self.first_at, self.first)
            || !has_use_code(self.second_track, self.second_at, self.second)
        {
            return None;
        }
        let first = visit_code(self.first_track, self.first_at, self.first);
        let second = visit_code(self.second_track, self.second_at, self.second);
        Some(first * USES + second)
    }

    fn of_code(code: u64) -> CRow {
        let first = code / USES;
        let second = code % USES;
        CRow {
            first_track: code_track(first / TRACK_USES),
            first_at: code_minute(first),
            first: code_kind(first),
            second_track: code_track(second / TRACK_USES),
            second_at: code_minute(second),
            second: code_kind(second),
        }
    }

    fn codes() -> u64 {
        CODES
    }
}
