//! The texts of rows of platforms.
ghost use Rattle.std.specs.Prelude.{◌≡◌, Some, bytes_eq};
ghost use Rattle.optra_cert.specs.RowTexts.{read_by};
ghost use Rattle.optra_platform.specs.PlatformTexts.{halt_kind, platform_texts};

use crate::{PRow, PlatformRows};
use optra_cert::row_fields::{minute_in, push_minute, push_text, station_in};
use optra_cert::{Cell, RowRead, RowText};
use optra_network::{Network, NoMemory};
use std::alloc::Global;

/// A row is told as `halt,<station>,<minute>`, from version 2 on. A minute is 0 to 2,998.
impl RowText for PlatformRows {
    ghost use Rattle.optra_platform.specs.PlatformTextLemmas.{platform_texts_are, platform_rows_fit};

    ghost texts_of = { λ _. platform_texts };

    ghost are_texts = { λ f apart. platform_texts_are };

    ghost rows_fit = { λ f net row p is. platform_rows_fit net p row is };

    fn version(&self) -> u8 {
        2
    }

    fn fields(&self, alloc: Global, net: &Network, row: PRow) -> Result<Vec<Cell>, NoMemory> {
        let mut cells = Vec::new(alloc);
        push_text(alloc, &mut cells, "halt")?;
        push_text(alloc, &mut cells, net.station_name(row.station))?;
        push_minute(alloc, &mut cells, row.minute)?;
        Ok(cells)
    }

    #[tactic(auto, unfolding(optra_cert::specs::RowTexts::read_row))]
    fn read(&self, net: &Network, version: u8, cells: &[Cell]) -> RowRead<PRow> {
        let Some(word) = cells.first() else {
            return RowRead::Kind;
        };
        if version < 2 || !is_halt(word) {
            return RowRead::Kind;
        }
        read_halt(net, &cells[1..])
    }
}

/// Whether the field is the word of rows of platforms.
fn is_halt(word: &Cell) -> bool
    ensures { result ≡ bytes_eq halt_kind.word word.now }
{
    "halt".as_bytes() == word.bytes()
}

/// What the fields behind the word are read as.
fn read_halt(net: &Network, fields: &[Cell]) -> RowRead<PRow>
    ensures { result ≡ read_by platform_texts net.now (Some halt_kind) fields.now }
{
    if fields.len() != 2 {
        return RowRead::Kind;
    }
    let Some(station) = station_in(net, fields[0].bytes()) else {
        return RowRead::Name;
    };
    let Some(minute) = minute_in(fields[1].bytes()) else {
        return RowRead::Number;
    };
    RowRead::Row(PRow { station, minute })
}
