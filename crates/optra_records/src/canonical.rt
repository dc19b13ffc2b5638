//! Whether a text is that of its own records.

ghost use Rattle.std.specs.Prelude.{◌≡◌};
ghost use Rattle.optra_records.specs.Canonical.{is_canonical};

use crate::begins_with_mark;
use crate::cells::is_text;
use crate::places::are_written;

/// Whether bytes are the text of their own records, written again: they begin with no byte-order mark, each field is
/// UTF-8, no record is one empty field, and the records that are read from them have these bytes as their text.
///
/// Neither records nor a second text are held: it goes over the bytes and takes no memory.
pub fn is_canonical(bytes: &[u8]) -> bool
    ensures { result ≡ is_canonical bytes.now }
{
    if begins_with_mark(bytes) {
        return false;
    }
    is_text(bytes) && are_written(bytes)
}
