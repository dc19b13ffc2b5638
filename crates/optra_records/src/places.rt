//! Where a text of records stands, byte by byte.

ghost use Rattle.std.specs.Prelude.{◌≡◌};
ghost use Rattle.std.specs.Option.{option_map_or};
ghost use Rattle.optra_records.specs.Canonical.{ended_place, first_place, goes_on, next_place, plain_place};
ghost use Rattle.optra_records.specs.Texts.{is_special};
ghost use Rattle.optra_records.specs.declared.places.Place.TheVariants.{NewRecord};

/// Where a text of records stands.
#[derive(Clone, Copy, Debug, PartialEq, Eq)]
pub enum Place {
    /// Where a record begins, or the text ends.
    NewRecord,
    /// Behind a comma.
    NewField,
    /// In a field without quotes.
    Plain,
    /// In quotes, and whether a byte came that needs them.
    Quoted(bool),
    /// Behind a quote in quotes, which closes them or is doubled, and whether a byte came that needs them.
    Closed(bool),
}

/// Whether bytes go on from the start as a text of records does: fields are quoted only where they need it, each quote
/// in them is doubled, no record is one empty field alone, and each ends in a line feed.
pub fn are_written(bytes: &[u8]) -> bool
    ensures { result ≡ goes_on bytes.now NewRecord }
{
    let mut place = Place::NewRecord;
    'bytes: for b in bytes {
        let Some(next) = next_place(place, *b) else {
            return false;
        };
        place = next;
    }
    matches!(place, Place::NewRecord)
}

/// The place behind a byte, if a text of records can have it there.
fn next_place(place: Place, byte: u8) -> Option<Place>
    ensures { result ≡ next_place place byte }
{
    match place {
        Place::NewRecord if byte == b'\n' => None,
        Place::NewRecord | Place::NewField => first_place(byte),
        Place::Plain => plain_place(byte),
        Place::Quoted(needed) if byte == b'"' => Some(Place::Closed(needed)),
        Place::Quoted(needed) => Some(Place::Quoted(needed || is_special(byte))),
        Place::Closed(_) if byte == b'"' => Some(Place::Quoted(true)),
        Place::Closed(true) => ended_place(byte),
        Place::Closed(false) => None,
    }
}

/// The place behind the first byte of a field.
fn first_place(byte: u8) -> Option<Place>
    ensures { result ≡ first_place byte }
{
    if byte == b'"' {
        Some(Place::Quoted(false))
    } else {
        plain_place(byte)
    }
}

/// The place behind a byte without quotes.
fn plain_place(byte: u8) -> Option<Place>
    ensures { result ≡ plain_place byte }
{
    if is_special(byte) {
        ended_place(byte)
    } else {
        Some(Place::Plain)
    }
}

/// The place behind the byte that ends a field.
fn ended_place(byte: u8) -> Option<Place>
    ensures { result ≡ ended_place byte }
{
    if byte == b',' {
        Some(Place::NewField)
    } else if byte == b'\n' {
        Some(Place::NewRecord)
    } else {
        None
    }
}

/// Whether a field needs quotes for a byte.
fn is_special(byte: u8) -> bool
    ensures { result ≡ is_special byte }
{
    byte == b',' || byte == b'"' || byte == b'\r' || byte == b'\n'
}
