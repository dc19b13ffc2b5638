//! The row of a family that a record of a certificate tells, in a `forced`, and with its price in a `price`.
ghost use Rattle.std.specs.Prelude.{◌≡◌, ◌<◌, ◌≤◌, ◌+◌, ◌-◌, ◌++◌, ◌∷◌, [], drop, length, take, OnOk};
ghost use Rattle.csv.specs.Records.{fields_of};
ghost use Rattle.optra_cert.specs.Forms.{last_alone};
ghost use Rattle.optra_cert.specs.Frames.{CanRead};
ghost use Rattle.optra_cert.specs.Outcomes.{Gives, row_or_fault};
ghost use Rattle.optra_cert.specs.RowTexts.{read_row};
ghost use Rattle.optra_cert.specs.RecordFields.{amount_told, price_told};

use crate::frame::Frame;
use crate::record_fields::{MOST_AMOUNT, field, number_or};
use crate::refusals::Refusal;
use crate::{Cell, CertCode, RowRead, RowText};
use csv::ByteRecord;
use optra_network::{Cents, NoMemory};
use std::alloc::Global;

/// The most fields that a row of a family has.
const MOST_FIELDS: usize = 32;

/// Puts bytes at a place of cells.
fn put(alloc: Global, cells: &mut Vec<Cell>, i: usize, bytes: &[u8]) -> Result<(), NoMemory>
    requires { i ≤ length cells.old.items }
    ensures put { OnOk result (take (i + 1) cells.new.items ≡ take i cells.old.items ++ bytes.now
        ∷ []) }
    ensures room { OnOk result (i < length cells.new.items) }
{
    if i < cells.len() {
        let cell = &mut cells[i];
        cell.set(bytes)?;
    } else {
        cells.push(Cell::new(alloc, bytes)?)?;
    }
    Ok(())
}

/// Puts so many fields behind the word at the start of cells. Cells that are there are used again.
fn put_fields(
    alloc: Global,
    cells: &mut Vec<Cell>,
    row: &ByteRecord,
    n: usize,
) -> Result<(), NoMemory>
    requires { n ≤ length (fields_of row.now) - 1 }
    ensures put { OnOk result (take n cells.new.items ≡ take n (drop 1 (fields_of row.now))) }
    ensures room { OnOk result (n ≤ length cells.new.items) }
{
    'fields: for i in 0..n {
        put(alloc, cells, i, field(row, i + 1))?;
    }
    Ok(())
}

/// The row that so many fields behind the word tell.
pub fn row_told<F: RowText>(
    alloc: Global,
    frame: &Frame<'_, F>,
    cells: &mut Vec<Cell>,
    row: &ByteRecord,
    n: usize,
) -> Result<F::Row, Refusal>
    requires few { n ≤ length (fields_of row.now) - 1 }
    requires can { CanRead (F.texts_of frame.now.rows.now) frame.now.version }
    ensures { Gives (λ told. told) result (row_or_fault (read_row (F.texts_of frame.now.rows.now)
        frame.now.inst.net.now frame.now.version (take n (drop 1 (fields_of row.now))))) }
{
    // More fields tell no row, so they aren't held once more.
    if n > MOST_FIELDS {
        return Err(Refusal::Fault(CertCode::Record));
    }
    put_fields(alloc, cells, row, n)?;
    match frame.rows.read(frame.inst.net, frame.version, &cells[..n]) {
        RowRead::Row(told) => Ok(told),
        RowRead::Kind => Err(Refusal::Fault(CertCode::Record)),
        RowRead::Name => Err(Refusal::Fault(CertCode::Name)),
        RowRead::Number => Err(Refusal::Fault(CertCode::Number)),
    }
}

/// The amount in a field.
#[tactic(auto, unfolding(crate::specs::RecordFields::amount_told))]
fn amount_in(field: &[u8]) -> Result<Cents, Refusal>
    ensures { Gives (λ n. n) result (amount_told (field.now ∷ [])) }
{
    let n = number_or(field, 0, MOST_AMOUNT)?;
    Ok(n as Cents)
}

/// The amount in the last field behind the word.
fn last_amount(row: &ByteRecord) -> Result<Cents, Refusal>
    ensures { Gives (λ n. n) result (amount_told (last_alone (drop 1 (fields_of row.now)))) }
{
    if row.len() < 2 {
        return Err(Refusal::Fault(CertCode::Record));
    }
    amount_in(field(row, row.len() - 1))
}

/// The row and the price that the fields behind the word tell.
#[tactic(auto, unfolding(crate::specs::RecordFields::price_told))]
pub fn price_told<F: RowText>(
    alloc: Global,
    frame: &Frame<'_, F>,
    cells: &mut Vec<Cell>,
    row: &ByteRecord,
) -> Result<(F::Row, Cents), Refusal>
    requires { CanRead (F.texts_of frame.now.rows.now) frame.now.version }
    ensures { Gives (λ told. told) result (price_told (F.texts_of frame.now.rows.now)
        frame.now.inst.net.now frame.now.version (drop 1 (fields_of row.now))) }
{
    let n = row.len().saturating_sub(2);
    let told = row_told(alloc, frame, cells, row, n)?;
    let amount = last_amount(row)?;
    Ok((told, amount))
}
