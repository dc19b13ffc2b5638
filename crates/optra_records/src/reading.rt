//! The records of a text, one at a time.

ghost use Rattle.std.specs.Prelude.{◌≡◌, [], false, IfOk, OnErr};
ghost use Rattle.csv.specs.Reading.{default_config, records};
ghost use Rattle.csv.specs.Records.{fields_of};

use crate::marks::{begins_with_mark, skip_mark, want_of_memory};
use csv::{ByteRecord, Reader, ReaderBuilder};
use std::alloc::{AllocError, Global};
use std::marker::Model;

/// Reads the records of bytes in memory, one at a time into a row that is used again: a fault in an early record is
/// found without holding the later ones. Contracts see it as the list of the records that are left.
#[derive(Drop)]
pub struct Records<'a> {
    reader: Reader<&'a [u8]>,
}

impl<'a> Model for Records<'a> {
    ghost use Rattle.std.specs.Prelude.{List};
    ghost use Rattle.optra_records.specs.Reading.{IsSound, Record, records_left};

    ghost Value = { List Record };

    ghost view = { λ a. records_left a.reader };

    ghost invariant = { λ a. IsSound a.reader };
}

impl<'a> Records<'a> {
    ghost use Rattle.optra_records.specs.Reading.{ReadsOne, has_mark, table_records};

    /// The records of a table: a byte-order mark at the start is dropped once, and a table that then begins with
    /// one more has no records.
    #[tactic(auto, unfolding(crate::specs::Reading::table_records))]
    pub fn of_table(alloc: Global, bytes: &'a [u8]) -> Records<'a>
        ensures { result ≡ table_records bytes.now }
    {
        let text = skip_mark(bytes);
        if begins_with_mark(text) {
            return Records::of_text(alloc, &text[..0]);
        }
        Records::of_text(alloc, text)
    }

    /// The records that `csv` reads from a text as it is, which begins with no byte-order mark.
    pub fn of_text(alloc: Global, bytes: &'a [u8]) -> Records<'a>
        requires { has_mark bytes.now ≡ false }
        ensures { result ≡ records default_config bytes.now }
    {
        Records {
            reader: ReaderBuilder::new()
                .has_headers(false)
                .flexible(true)
                .from_reader(alloc, bytes),
        }
    }

    /// Reads the next record into the row, and tells whether there was one. After `false` the reader is done with:
    /// nothing is said of a later call. After want of memory it has no more records.
    pub fn next(&mut self, row: &mut ByteRecord) -> Result<bool, AllocError>
        ensures read { IfOk result (λ found. ReadsOne found self.old self.new (fields_of row.new)) }
        ensures err { OnErr result (self.new ≡ []) }
    {
        let found = match self.reader.read_byte_record(row) {
            Ok(found) => found,
            Err(error) => return Err(want_of_memory(error)),
        };
        Ok(found)
    }
}
