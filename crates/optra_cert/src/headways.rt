//! How the rows of headways are told in fields.
ghost use Rattle.std.specs.Prelude.{◌≡◌, Some};
ghost use Rattle.optra_cert.specs.RowTexts.{read_by};
ghost use Rattle.optra_cert.specs.Headways.{headway_texts, window_kind, pair_kind};

use crate::row_fields::{minute_in, push_minute, push_text, track_in, type_in};
use crate::{Cell, RowRead, RowText};
use optra_network::{Network, NoMemory};
use optra_rows::{HRow, HeadwayRows};
use std::alloc::Global;

impl RowText for HeadwayRows {
    ghost use Rattle.optra_cert.specs.HeadwayLemmas.{headway_texts_are, headway_rows_fit};

    ghost texts_of = { λ _. headway_texts };

    ghost are_texts = { λ f apart. headway_texts_are };

    ghost rows_fit = { λ f net row p is. headway_rows_fit net p row is };

    fn version(&self) -> u8 {
        1
    }

    fn fields(&self, alloc: Global, net: &Network, row: HRow) -> Result<Vec<Cell>, NoMemory> {
        let mut cells = Vec::new(alloc);
        match row {
            HRow::Window { track, minute } => {
                push_text(alloc, &mut cells, "window")?;
                push_text(alloc, &mut cells, net.track_name(track))?;
                push_minute(alloc, &mut cells, minute)?;
            }
            HRow::Pair {
                track,
                first_at,
                first,
                second_at,
                second,
            } => {
                push_text(alloc, &mut cells, "pair")?;
                push_text(alloc, &mut cells, net.track_name(track))?;
                push_text(alloc, &mut cells, net.type_name(first))?;
                push_minute(alloc, &mut cells, first_at)?;
                push_text(alloc, &mut cells, net.type_name(second))?;
                push_minute(alloc, &mut cells, second_at)?;
            }
        }
        Ok(cells)
    }

    #[tactic(auto, unfolding(crate::specs::RowTexts::read_row))]
    fn read(&self, net: &Network, _version: u8, cells: &[Cell]) -> RowRead<HRow> {
        let Some(word) = cells.first() else {
            return RowRead::Kind;
        };
        let fields = &cells[1..];
        match word.bytes() {
            b"window" => read_window(net, fields),
            b"pair" => read_pair(net, fields),
            _ => RowRead::Kind,
        }
    }
}

/// What the fields of a window row are read as.
fn read_window(net: &Network, fields: &[Cell]) -> RowRead<HRow>
    ensures { result ≡ read_by headway_texts net.now (Some window_kind) fields.now }
{
    if fields.len() != 2 {
        return RowRead::Kind;
    }
    let Some(track) = track_in(net, fields[0].bytes()) else {
        return RowRead::Name;
    };
    let Some(minute) = minute_in(fields[1].bytes()) else {
        return RowRead::Number;
    };
    RowRead::Row(HRow::Window { track, minute })
}

/// What the fields of a pair row are read as.
fn read_pair(net: &Network, fields: &[Cell]) -> RowRead<HRow>
    ensures { result ≡ read_by headway_texts net.now (Some pair_kind) fields.now }
{
    if fields.len() != 5 {
        return RowRead::Kind;
    }
    let Some(track) = track_in(net, fields[0].bytes()) else {
        return RowRead::Name;
    };
    let Some(first) = type_in(net, fields[1].bytes()) else {
        return RowRead::Name;
    };
    let Some(first_at) = minute_in(fields[2].bytes()) else {
        return RowRead::Number;
    };
    let Some(second) = type_in(net, fields[3].bytes()) else {
        return RowRead::Name;
    };
    let Some(second_at) = minute_in(fields[4].bytes()) else {
        return RowRead::Number;
    };
    RowRead::Row(HRow::Pair {
        track,
        first_at,
        first,
        second_at,
        second,
    })
}
