//! The records of a text, one at a time, each cut.

ghost use Rattle.std.specs.Prelude.{◌≡◌, ◌∷◌, ◌++◌, [], option_map, IfOk, OnErr, OnOk};
ghost use Rattle.csv.specs.Machine.{next_record};
ghost use Rattle.csv.specs.Reading.{default_config};
ghost use Rattle.csv.specs.Records.{fields_of, partial_of};
ghost use Rattle.optra_records.specs.Cuts.{cut_read, cut_records, field_behind, fields_behind, fields_with, field_with, state_of};

use crate::steps::{Action, State, ends_at_end, is_end, step};
use csv::ByteRecord;
use std::alloc::{AllocError, Global};
use std::marker::Model;

/// The most bytes that are kept of a field.
const MOST_BYTES: usize = 65;

/// The most fields that are kept of a record.
const MOST_FIELDS: usize = 40;

/// Reads the records of bytes in memory, one at a time into a row that is used again, and keeps of each record the
/// first 65 bytes of the first 40 fields. So it holds no more of the longest record than of any other. Contracts see it
/// as the list of the cut records that are left.
///
/// It is for records whose longer fields, and whose further fields, are a fault whatever they hold.
#[derive(Drop)]
pub struct CutRecords<'a> {
    state: State,
    left: &'a [u8],
    field: Vec<u8>,
}

impl<'a> Model for CutRecords<'a> {
    ghost use Rattle.std.specs.Prelude.{List};
    ghost use Rattle.optra_records.specs.Cuts.{cut_left};
    ghost use Rattle.optra_records.specs.Reading.{Record};

    ghost Value = { List Record };

    ghost view = { λ a. cut_left a.state a.left.now };
}

impl<'a> CutRecords<'a> {
    ghost use Rattle.optra_records.specs.Reading.{ReadsOne};

    /// The records that `csv` reads from a text as it is, with no byte-order mark dropped, each cut.
    pub fn of_text(alloc: Global, bytes: &'a [u8]) -> CutRecords<'a>
        ensures { result ≡ cut_records bytes.now }
    {
        CutRecords {
            state: State::StartRecord,
            left: bytes,
            field: Vec::new(alloc),
        }
    }

    /// Reads the next record into the row, cut, and tells whether there was one. After `false` the reader is done with:
    /// nothing is said of a later call. After want of memory it has no more records.
    pub fn next(&mut self, row: &mut ByteRecord) -> Result<bool, AllocError>
        ensures read { IfOk result (λ found. ReadsOne found self.old self.new (fields_of row.new)) }
        ensures err { OnErr result (self.new ≡ []) }
    {
        row.clear();
        self.field.clear();
        let behind = match read_record(self.state, self.left, &mut self.field, row) {
            Ok(behind) => behind,
            Err(error) => {
                self.state = State::StartRecord;
                self.left = &[];
                return Err(error);
            }
        };
        let Some((state, left)) = behind else {
            return Ok(false);
        };
        self.state = state;
        self.left = left;
        Ok(true)
    }
}

/// Reads a record into an empty row by an empty field, and gives the state and the text behind it, if there is one.
fn read_record<'a>(
    start: State,
    bytes: &'a [u8],
    field: &mut Vec<u8>,
    row: &mut ByteRecord,
) -> Result<Option<(State, &'a [u8])>, AllocError>
    requires row { fields_of row.old ≡ [] }
    requires partial { partial_of row.old ≡ [] }
    requires field { field.old.items ≡ [] }
    ensures { IfOk result (λ read.
        cut_read (next_record default_config (state_of start) [] [] bytes.entry.now)
        ≡ option_map (λ r. (fields_of row.new, state_of r.0, r.1.now)) read) }
{
    let mut state = start;
    'bytes: for i in 0..bytes.len() {
        let (next, action) = step(state, bytes[i]);
        act(action, bytes[i], field, row)?;
        if is_end(action) {
            return Ok(Some((next, &bytes[i + 1..])));
        }
        state = next;
    }
    if !ends_at_end(state) {
        return Ok(None);
    }
    push_field(field, row)?;
    Ok(Some((State::StartRecord, &[])))
}

/// Does what a byte does.
fn act(
    action: Action,
    byte: u8,
    field: &mut Vec<u8>,
    row: &mut ByteRecord,
) -> Result<(), AllocError>
    requires partial { partial_of row.old ≡ [] }
    ensures partial { OnOk result (partial_of row.new ≡ []) }
    ensures field { OnOk result (field.new.items ≡ field_behind action field.old.items byte) }
    ensures fields { OnOk result (fields_of row.new
        ≡ fields_behind action (fields_of row.old) field.old.items) }
{
    match action {
        Action::Skip => Ok(()),
        Action::Copy => push_byte(field, byte),
        Action::EndField | Action::EndRecord => {
            push_field(field, row)?;
            field.clear();
            Ok(())
        }
    }
}

/// Adds a byte to a field, where it has room.
fn push_byte(field: &mut Vec<u8>, byte: u8) -> Result<(), AllocError>
    ensures { OnOk result (field.new.items ≡ field_with field.old.items byte) }
{
    if field.len() < MOST_BYTES {
        field.push(byte)?;
    }
    Ok(())
}

/// Adds a field to a record, where it has room.
fn push_field(field: &[u8], row: &mut ByteRecord) -> Result<(), AllocError>
    requires partial { partial_of row.old ≡ [] }
    ensures partial { OnOk result (partial_of row.new ≡ []) }
    ensures fields { OnOk result (fields_of row.new ≡ fields_with (fields_of row.old) field.now) }
{
    if row.len() < MOST_FIELDS {
        row.push_field(field)?;
    }
    Ok(())
}
