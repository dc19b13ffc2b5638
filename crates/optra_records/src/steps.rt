//! What a reader of records does with each byte, as `csv` does by default.

ghost use Rattle.std.specs.Prelude.{◌≡◌};
ghost use Rattle.csv.specs.Machine as machine;
ghost use Rattle.csv.specs.Reading.{default_config};
ghost use Rattle.optra_records.specs.Cuts.{action_of, state_of};

/// Where a reader stands in a text.
#[derive(Clone, Copy, Debug, PartialEq, Eq)]
pub enum State {
    /// Where a record begins.
    StartRecord,
    /// Where a field begins.
    StartField,
    /// In a field without quotes.
    InField,
    /// In quotes.
    InQuoted,
    /// Behind a quote in quotes.
    AfterQuote,
    /// Behind a carriage return that ended a record.
    AfterCr,
}

/// What a byte does.
#[derive(Clone, Copy, Debug, PartialEq, Eq)]
pub enum Action {
    /// Nothing.
    Skip,
    /// It joins the field at hand.
    Copy,
    /// It ends the field.
    EndField,
    /// It ends the field and the record.
    EndRecord,
}

/// The state behind a byte, and what it does.
pub fn step(state: State, byte: u8) -> (State, Action)
    ensures state { state_of result.0 ≡ (machine.step default_config (state_of state) byte).0 }
    ensures action { action_of result.1 ≡ (machine.step default_config (state_of state) byte).1 }
{
    match state {
        State::StartRecord => start_record(byte),
        State::StartField => start_field(byte),
        State::InField => in_field(byte),
        State::InQuoted if byte == b'"' => (State::AfterQuote, Action::Skip),
        State::InQuoted => (State::InQuoted, Action::Copy),
        State::AfterQuote if byte == b'"' => (State::InQuoted, Action::Copy),
        State::AfterQuote => in_field(byte),
        State::AfterCr if byte == b'\n' => (State::StartRecord, Action::Skip),
        State::AfterCr => start_record(byte),
    }
}

/// The same where a record begins.
fn start_record(byte: u8) -> (State, Action)
    ensures state { state_of result.0 ≡ (machine.start_record default_config byte).0 }
    ensures action { action_of result.1 ≡ (machine.start_record default_config byte).1 }
{
    if byte == b'\r' || byte == b'\n' {
        return (State::StartRecord, Action::Skip);
    }
    start_field(byte)
}

/// The same where a field begins.
fn start_field(byte: u8) -> (State, Action)
    ensures state { state_of result.0 ≡ (machine.start_field default_config byte).0 }
    ensures action { action_of result.1 ≡ (machine.start_field default_config byte).1 }
{
    if byte == b'"' {
        return (State::InQuoted, Action::Skip);
    }
    in_field(byte)
}

/// The same in a field without quotes.
fn in_field(byte: u8) -> (State, Action)
    ensures state { state_of result.0 ≡ (machine.in_field default_config byte).0 }
    ensures action { action_of result.1 ≡ (machine.in_field default_config byte).1 }
{
    if byte == b',' {
        return (State::StartField, Action::EndField);
    }
    if byte == b'\r' {
        return (State::AfterCr, Action::EndRecord);
    }
    if byte == b'\n' {
        return (State::StartRecord, Action::EndRecord);
    }
    (State::InField, Action::Copy)
}

/// Whether the end of the text ends a record.
pub fn ends_at_end(state: State) -> bool
    ensures { result ≡ machine.ends_at_end (state_of state) }
{
    !matches!(state, State::StartRecord | State::AfterCr)
}

/// Whether what a byte does ends the record.
pub fn is_end(action: Action) -> bool
    ensures { result ≡ machine.is_end (action_of action) }
{
    matches!(action, Action::EndRecord)
}
