//! The words that tell how a leg starts and what it does at its head. Certificates, printed plans and timetables share them.
ghost use Rattle.std.specs.Prelude.{◌≡◌, ◌≤◌, bytes_eq};
ghost use Rattle.optra_walk.specs.Words.{start_word, start_of_word, action_of_word, action_told};

use crate::Action;

/// The word of how a leg starts: `halt` where the train stood at the track's tail before, and `pass` where it comes through.
pub fn start_word(from_halt: bool) -> &'static str
    ensures { result.now ≡ start_word from_halt }
{
    if from_halt { "halt" } else { "pass" }
}

/// Whether a leg starts from a halt, by its word. `None` exactly where it is neither `halt` nor `pass`.
pub fn start_of_word(word: &[u8]) -> Option<bool>
    ensures { result ≡ start_of_word word.now }
{
    if is_word(word, "halt") {
        return Some(true);
    }
    if is_word(word, "pass") {
        return Some(false);
    }
    None
}

/// The action of a word, for no minutes yet: [`Action::with_dwell`] gives it those of another field. `None` exactly where it is
/// none of `pass`, `halt`, `wait` and `finish`.
pub fn action_of_word(word: &[u8]) -> Option<Action>
    ensures { result ≡ action_of_word word.now }
{
    if is_word(word, "pass") {
        return Some(Action::Pass);
    }
    if is_word(word, "halt") {
        return Some(Action::Halt(0));
    }
    if is_word(word, "wait") {
        return Some(Action::Wait(0));
    }
    if is_word(word, "finish") {
        return Some(Action::Finish);
    }
    None
}

/// The action that a word and a dwell in minutes tell. `None` exactly where it is no word of an action, where a halt or a
/// wait is longer than 240 minutes, or where a pass or a finish has a dwell other than 0.
pub fn action_told(word: &[u8], dwell: u64) -> Option<Action>
    ensures { result ≡ action_told word.now dwell }
{
    action_of_word(word)?.checked_dwell(dwell)
}

/// Whether a field is a word.
fn is_word(field: &[u8], word: &str) -> bool
    ensures { result ≡ bytes_eq field.now word.now }
{
    field == word.as_bytes()
}
