//! The names of a demo: a letter and a number.
ghost use Rattle.std.specs.Prelude.{◌≡◌, ◌++◌, ◌∷◌, [], IfOk, OnOk, string_bytes};
ghost use Rattle.optra_demo.specs.Names.{named};

use optra_records::Fields;
use std::alloc::{AllocError, Global};

/// A letter and a number.
#[tactic(auto, unfolding(crate::specs::Names::named))]
pub fn name(alloc: Global, letter: &str, number: u64) -> Result<String, AllocError>
    ensures { IfOk result (λ name. string_bytes name ≡ named letter.now number) }
{
    format!(in alloc; "{letter}{number}")
}

/// Adds a letter and a number as a field.
pub fn put_name(
    alloc: Global,
    fields: &mut Fields,
    letter: &str,
    number: u64,
) -> Result<(), AllocError>
    ensures { OnOk result (fields.new ≡ fields.old ++ named letter.now number ∷ []) }
{
    let name = name(alloc, letter, number)?;
    fields.text(name.as_str())
}
