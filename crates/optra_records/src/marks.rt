//! Byte-order marks, and the errors of a reader of bytes in memory.

ghost use Rattle.std.specs.Prelude.{◌≡◌};
ghost use Rattle.csv.specs.Reading.{error_kind};
ghost use Rattle.optra_records.specs.Reading.{IsNoFault, has_mark, without_mark};

use csv::{Error, ErrorKind};
use std::alloc::AllocError;

/// Whether a text begins with a byte-order mark.
pub fn begins_with_mark(bytes: &[u8]) -> bool
    ensures { result ≡ has_mark bytes.now }
{
    match bytes {
        [0xEF, 0xBB, 0xBF, ..] => true,
        _ => false,
    }
}

/// A text without a byte-order mark at its start.
pub fn skip_mark(bytes: &[u8]) -> &[u8]
    ensures { result.now ≡ without_mark bytes.now }
{
    if begins_with_mark(bytes) {
        &bytes[3..]
    } else {
        bytes
    }
}

/// What stands for an error of a flexible reader of bytes in memory: it is none of the form of the text.
pub fn want_of_memory(error: Error) -> AllocError
    requires { IsNoFault (error_kind error) }
{
    match error.into_kind() {
        ErrorKind::OutOfMemory | ErrorKind::Io(_) => AllocError,
        _ => unreachable!(),
    }
}
