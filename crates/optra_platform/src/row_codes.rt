//! The numbers that tell rows of platforms.
ghost use Rattle.optra_platform.specs.Codes.{code_of, row_of, codes};

use crate::PRow;
use optra_network::StationId;
use optra_walk::CodedRow;

/// So many numbers tell the minutes of a station: minutes below it have one each.
const MINUTES: u64 = 4_096;

/// So many stations may be told.
const STATIONS: u64 = 65_536;

/// So many numbers tell rows of platforms.
const CODES: u64 = 268_435_456;

impl CodedRow for PRow {
    ghost use Rattle.optra_platform.specs.Codes.{leads_back, ordered, below, few};
    ghost use Rattle.optra_platform.specs.PlatformLemmas.{rows_told_apart};

    ghost code_of = { λ row. code_of row };

    ghost row_of = { λ code. row_of code };

    ghost codes = { codes };

    ghost tells_apart = { rows_told_apart };

    ghost leads_back = { leads_back };

    ghost ordered = { ordered };

    ghost few = { few };

    ghost below = { below };

    fn code(self) -> Option<u64> {
        let station = u64::from(self.station.0);
        let minute = u64::from(self.minute);
        if station >= STATIONS || minute >= MINUTES {
            return None;
        }
        Some(station * MINUTES + minute)
    }

    fn of_code(code: u64) -> PRow {
        PRow {
            station: StationId((code / MINUTES % STATIONS) as u16),
            minute: (code % MINUTES) as u16,
        }
    }

    fn codes() -> u64 {
        CODES
    }
}
