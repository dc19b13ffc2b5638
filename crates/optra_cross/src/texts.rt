//! The texts of rows of crossings.
ghost use Rattle.std.specs.Prelude.{◌≡◌, Some, bytes_eq};
ghost use Rattle.optra_cert.specs.RowTexts.{read_by};
ghost use Rattle.optra_cross.specs.CrossTexts.{cross_kind, cross_texts};

use crate::{CRow, CrossRows};
use optra_cert::row_fields::{minute_in, push_minute, push_text, track_in, type_in};
use optra_cert::{Cell, RowRead, RowText};
use optra_network::{Network, NoMemory};
use std::alloc::Global;

/// A row is told as `cross,<first track>,<first minute>,<first type>,<second track>,<second minute>,<second type>`, from
/// version 2 on. A minute is 0 to 2,998.
impl RowText for CrossRows {
    ghost use Rattle.optra_cross.specs.CrossTextLemmas.{cross_texts_are, cross_rows_fit};

    ghost texts_of = { λ _. cross_texts };

    ghost are_texts = { λ f apart. cross_texts_are };

    ghost rows_fit = { λ f net row p is. cross_rows_fit net p row is };

    fn version(&self) -> u8 {
        2
    }

    fn fields(&self, alloc: Global, net: &Network, row: CRow) -> Result<Vec<Cell>, NoMemory> {
        let mut cells = Vec::new(alloc);
        push_text(alloc, &mut cells, "cross")?;
        push_text(alloc, &mut cells, net.track_name(row.first_track))?;
        push_minute(alloc, &mut cells, row.first_at)?;
        push_text(alloc, &mut cells, net.type_name(row.first))?;
        push_text(alloc, &mut cells, net.track_name(row.second_track))?;
        push_minute(alloc, &mut cells, row.second_at)?;
        push_text(alloc, &mut cells, net.type_name(row.second))?;
        Ok(cells)
    }

    #[tactic(auto, unfolding(optra_cert::specs::RowTexts::read_row))]
    fn read(&self, net: &Network, version: u8, cells: &[Cell]) -> RowRead<CRow> {
        let Some(word) = cells.first() else {
            return RowRead::Kind;
        };
        if version < 2 || !is_cross(word) {
            return RowRead::Kind;
        }
        read_cross(net, &cells[1..])
    }
}

/// Whether the field is the word of rows of crossings.
fn is_cross(word: &Cell) -> bool
    ensures { result ≡ bytes_eq cross_kind.word word.now }
{
    "cross".as_bytes() == word.bytes()
}

/// What the fields behind the word are read as.
fn read_cross(net: &Network, fields: &[Cell]) -> RowRead<CRow>
    ensures { result ≡ read_by cross_texts net.now (Some cross_kind) fields.now }
{
    if fields.len() != 6 {
        return RowRead::Kind;
    }
    let Some(first_track) = track_in(net, fields[0].bytes()) else {
        return RowRead::Name;
    };
    let Some(first_at) = minute_in(fields[1].bytes()) else {
        return RowRead::Number;
    };
    let Some(first) = type_in(net, fields[2].bytes()) else {
        return RowRead::Name;
    };
    let Some(second_track) = track_in(net, fields[3].bytes()) else {
        return RowRead::Name;
    };
    let Some(second_at) = minute_in(fields[4].bytes()) else {
        return RowRead::Number;
    };
    let Some(second) = type_in(net, fields[5].bytes()) else {
        return RowRead::Name;
    };
    RowRead::Row(CRow {
        first_track,
        first_at,
        first,
        second_track,
        second_at,
        second,
    })
}
