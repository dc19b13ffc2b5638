//! A path among the words of a command.
ghost use Rattle.std.specs.Prelude.{◌≡◌, IfOk};

use std::alloc::{AllocError, Global};
use std::marker::Model;

/// A path as it was given, of 1 to 4,096 bytes. It is made by the reader of words alone. Contracts see it as the list
/// of its bytes.
#[derive(Debug, Drop)]
pub struct PathText {
    kept: String,
}

impl Model for PathText {
    ghost use Rattle.std.specs.Prelude.{List, ℕ, string_bytes};

    ghost Value = { List ℕ };

    ghost view = { λ a. string_bytes a.kept };
}

impl PathText {
    /// The path of this text.
    pub(crate) fn new(alloc: Global, text: &str) -> Result<PathText, AllocError>
        ensures { IfOk result (λ path. path ≡ text.now) }
    {
        let kept = String::from_str(alloc, text)?;
        Ok(PathText { kept })
    }

    /// The path as text. It takes no memory.
    pub fn text(&self) -> &str
        ensures { result.now ≡ self.now }
    {
        self.kept.as_str()
    }
}
