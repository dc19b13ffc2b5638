//! The numbers that tell rows of headways.
ghost use Rattle.std.specs.Prelude.{◌≡◌, ◌<◌, ◌^◌};
ghost use Rattle.optra_rows.specs.Codes.{code_of, row_of, codes, window_code, pair_code};

use crate::HRow;
use optra_network::{Minute, TrackId, TypeId};
use optra_walk::{CodedRow, code_kind, code_minute, code_track, has_use_code, use_code};

/// So many numbers tell the windows of a track.
const MINUTES: u64 = 4_096;

/// By so much differ the numbers of two windows side by side: those of windows are about as dense then as those of pairs.
const APART: u64 = 65_536;

/// The numbers of windows are below it, and those of pairs are not.
const WINDOWS: u64 = 274_877_906_944;

/// So many numbers tell rows of headways.
const CODES: u64 = 4_672_924_418_048;

/// The number of a window.
fn window_code(track: TrackId, minute: Minute) -> Option<u64>
    ensures { result ≡ window_code track minute }
{
    if !has_use_code(track, minute, TypeId(0)) {
        return None;
    }
    Some((u64::from(track.0) * MINUTES + u64::from(minute)) * APART)
}

/// The number of a pair by those of its uses.
fn pair_code(track: TrackId, first: u64, second: u64) -> u64
    requires first { first < 2 ^ 32 }
    requires second { second < 2 ^ 32 }
    ensures { result ≡ pair_code track first second }
{
    WINDOWS + (u64::from(track.0) * APART + first) * APART + second
}

impl CodedRow for HRow {
    ghost use Rattle.optra_rows.specs.Codes.{leads_back, ordered, below, few};
    ghost use Rattle.optra_rows.specs.TouchedLemmas.{rows_told_apart};

    ghost code_of = { λ row. code_of row };

    ghost row_of = { λ code. row_of code };

    ghost codes = { codes };

    ghost tells_apart = { rows_told_apart };

    ghost leads_back = { leads_back };

    ghost ordered = { ordered };

    ghost few = { few };

    ghost below = { below };

    fn code(self) -> Option<u64> {
        match self {
            HRow::Window { track, minute } => window_code(track, minute),
            HRow::Pair {
                track,
                first_at,
                first,
                second_at,
                second,
            } => {
                if !has_use_code(track, first_at, first)
                    || !has_use_code(track, second_at, second)
                {
                    return None;
                }
                let first = use_code(first_at, first);
                let second = use_code(second_at, second);
                Some(pair_code(track, first, second))
            }
        }
    }

    fn of_code(code: u64) -> HRow {
        if code < WINDOWS {
            return HRow::Window {
                track: code_track(code / APART / MINUTES),
                minute: (code / APART % MINUTES) as u16,
            };
        }
        let pair = code - WINDOWS;
        let first = pair / APART % APART;
        let second = pair % APART;
        HRow::Pair {
            track: code_track(pair / APART / APART),
            first_at: code_minute(first),
            first: code_kind(first),
            second_at: code_minute(second),
            second: code_kind(second),
        }
    }

    fn codes() -> u64 {
        CODES
    }
}
