//! What a command replies to the contents of its files.

use crate::files::FileText;

/// What a command that is not refused puts, prints and ends with.
#[derive(Drop)]
pub struct Answer {
    pub status: u8,
    pub text: Vec<u8>,
    pub puts: Vec<FileText>,
}
