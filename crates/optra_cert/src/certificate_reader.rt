//! The reader of certificates: the certificate of a text, or its first fault.
//!
//! A text is first seen to be that of its own records. Then its records are taken one after the other, each cut to the first
//! bytes of its first fields, which tell all that it can. So no part of the text is held twice but for 40 fields of 65
//! bytes, and what is kept is the certificate as far as it goes.
ghost use Rattle.std.specs.Prelude.{◌≡◌, ◌+◌, ◌<◌, ◌≤◌, ◌^◌, drop, length, IfErr, IfOk, IfSome};
ghost use Rattle.csv.specs.Records.{fields_of};
ghost use Rattle.optra_network.specs.Net.{IsFromTo};
ghost use Rattle.optra_cert.specs.CertLaws.{IsAnswer, IsTextOf};
ghost use Rattle.optra_cert.specs.Forms.{version_of, version_told};
ghost use Rattle.optra_cert.specs.Frames.{CanRead};
ghost use Rattle.optra_cert.specs.Outcomes.{Reads};
ghost use Rattle.optra_cert.specs.RowTexts.{AreApart};
ghost use Rattle.optra_cert.specs.Steps.{in_row, read_records, read_rows, read_text, started, step};

use crate::frame::Frame;
use crate::read_parts::{ReadParts, step};
use crate::record_fields::{field, is_word};
use crate::refusals::Refusal;
use crate::row_fields::number_in;
use crate::{Cell, CertCode, CertError, CertFault, Certificate, RowText};
use csv::ByteRecord;
use optra_network::NoMemory;
use optra_records::{CutRecords, is_canonical};
use optra_walk::Instance;
use std::alloc::Global;

/// The row of the first record behind that of the version.
const FIRST_ROW: u64 = 2;

/// The certificate of which bytes are the text, in a version from 1 to that of the family, or their first fault. Each
/// text of a certificate that is writable in such a version is read, and no other bytes are.
///
/// Nothing is guessed: bytes that are almost a text have a fault. No count in the bytes reserves memory before what it
/// counts has come, and no call goes deeper the longer they are.
pub fn read_certificate<F: RowText>(
    alloc: Global,
    inst: Instance<'_>,
    rows: &F,
    bytes: &[u8],
) -> Result<Certificate<F::Row>, CertError>
    requires apart { AreApart (F.texts_of rows.now).kinds }
    ensures ok { IfOk result (IsTextOf F.Row.cmp (F.texts_of rows.now) inst.entry.net.now
        (length inst.entry.bids.now) bytes.now) }
    ensures err { IfErr result (IsAnswer F.Row.cmp (F.texts_of rows.now) inst.entry.net.now
        (length inst.entry.bids.now) bytes.now) }
{
    let most = rows.version();
    read_text(alloc, inst, rows, most, bytes)
}

/// A fault in a row.
fn fault<T>(code: CertCode, row: u64) -> Result<T, CertError>
    ensures { result ≡ Err (CertError.Fault (record { code = code; row = row })) }
{
    Err(CertError::Fault(CertFault { code, row }))
}

/// The certificate of bytes, or their first fault, record by record.
#[tactic(auto, unfolding(crate::specs::Steps::read_text))]
fn read_text<F: RowText>(
    alloc: Global,
    inst: Instance<'_>,
    rows: &F,
    most: u8,
    bytes: &[u8],
) -> Result<Certificate<F::Row>, CertError>
    requires apart { AreApart (F.texts_of rows.now).kinds }
    requires most { most ≡ (F.texts_of rows.now).version }
    ensures { Reads (λ cert. cert) result (read_text F.Row.cmp (F.texts_of rows.now)
        inst.entry.net.now (length inst.entry.bids.now) bytes.now) }
{
    if !is_canonical(bytes) {
        return fault(CertCode::Csv, 0);
    }
    let mut records = CutRecords::of_text(alloc, bytes);
    read_records(alloc, inst, rows, most, &mut records)
}

/// The certificate of records, or their first fault.
#[tactic(auto, unfolding(crate::specs::Steps::read_records))]
fn read_records<F: RowText>(
    alloc: Global,
    inst: Instance<'_>,
    rows: &F,
    most: u8,
    records: &mut CutRecords<'_>,
) -> Result<Certificate<F::Row>, CertError>
    requires apart { AreApart (F.texts_of rows.now).kinds }
    requires most { most ≡ (F.texts_of rows.now).version }
    requires fits { length records.old + 2 < 2 ^ 64 }
    ensures { Reads (λ cert. cert) result (read_records F.Row.cmp (F.texts_of rows.now)
        inst.entry.net.now (length inst.entry.bids.now) records.old) }
{
    let mut row = ByteRecord::new(alloc);
    let Some(version) = read_version(records, &mut row, most)? else {
        return fault(CertCode::Version, 1);
    };
    let frame = Frame {
        inst,
        rows,
        version,
    };
    read_rows(alloc, &frame, records, &mut row)
}

/// The version that the first record states, from 1 to the greatest.
fn read_version(
    records: &mut CutRecords<'_>,
    row: &mut ByteRecord,
    most: u8,
) -> Result<Option<u8>, NoMemory>
    ensures version { IfOk result (λ version. version ≡ version_of most records.old) }
    ensures range { IfOk result (λ version. IfSome version (IsFromTo 1 most)) }
    ensures rest { IfOk result (λ version. IfSome version (λ _. records.new ≡ drop 1 records.old)) }
{
    if !records.next(row)? {
        return Ok(None);
    }
    Ok(version_told(row, most))
}

/// The version that a record states, from 1 to the greatest.
fn version_told(row: &ByteRecord, most: u8) -> Option<u8>
    ensures version { result ≡ version_told most (fields_of row.now) }
    ensures range { IfSome result (IsFromTo 1 most) }
{
    if row.len() != 2 || !is_word(field(row, 0), "optra-certificate") {
        return None;
    }
    let version = number_in(field(row, 1), 1, u64::from(most))?;
    Some(version as u8)
}

/// The certificate of the records behind the first, or their first fault.
fn read_rows<F: RowText>(
    alloc: Global,
    frame: &Frame<'_, F>,
    records: &mut CutRecords<'_>,
    row: &mut ByteRecord,
) -> Result<Certificate<F::Row>, CertError>
    requires few { length frame.now.inst.bids.now ≤ 1000 }
    requires can { CanRead (F.texts_of frame.now.rows.now) frame.now.version }
    requires fits { length records.old + 2 < 2 ^ 64 }
    ensures { Reads (λ cert. cert) result (read_rows F.Row.cmp (F.texts_of frame.now.rows.now)
        frame.now.inst.net.now (length frame.now.inst.bids.now) frame.now.version
        (started (length frame.now.inst.bids.now)) 2 records.old) }
{
    let mut parts = ReadParts::new(alloc, frame.inst.bids.len())?;
    let mut cells = Vec::new(alloc);
    let mut number = FIRST_ROW;
    'rows: while records.next(row)? {
        take_row(alloc, frame, &mut parts, &mut cells, row, number)?;
        number += 1;
    }
    if !parts.is_whole() {
        return fault(CertCode::Order, number);
    }
    Ok(parts.into_certificate())
}

/// Takes the record of a row, or tells its fault.
fn take_row<F: RowText>(
    alloc: Global,
    frame: &Frame<'_, F>,
    parts: &mut ReadParts<F::Row>,
    cells: &mut Vec<Cell>,
    row: &ByteRecord,
    number: u64,
) -> Result<(), CertError>
    requires few { length frame.now.inst.bids.now ≤ 1000 }
    requires can { CanRead (F.texts_of frame.now.rows.now) frame.now.version }
    requires each { length parts.old.walks.choice ≡ length frame.now.inst.bids.now }
    ensures { Reads (λ _. parts.new) result
        (in_row number (step F.Row.cmp (F.texts_of frame.now.rows.now) frame.now.inst.net.now
        (length frame.now.inst.bids.now) frame.now.version parts.old (fields_of row.now))) }
{
    match step(alloc, frame, parts, cells, row) {
        Ok(()) => Ok(()),
        Err(Refusal::Fault(code)) => fault(code, number),
        Err(Refusal::NoMemory) => Err(CertError::NoMemory),
    }
}
