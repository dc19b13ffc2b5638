//! Why a record isn't taken.
ghost use Rattle.optra_cert.specs.Outcomes.{Gives};
ghost use Rattle.optra_cert.specs.RecordFields.{or_fault};

use crate::CertCode;
use std::alloc::{AllocError, AllocFailed};

/// A fault of a record, or want of memory.
#[derive(Clone, Copy, Debug, PartialEq, Eq)]
pub enum Refusal {
    /// The record has this fault.
    Fault(CertCode),
    /// Memory couldn't be had.
    NoMemory,
}

impl From<AllocError> for Refusal {
    ghost use Rattle.std.specs.Prelude.{◌≡◌};
    ghost use Rattle.optra_cert.specs.declared.refusals.Refusal.TheVariants.{NoMemory};

    ghost from_gives = { λ _ e. e ≡ NoMemory };

    fn from(_e: AllocError) -> Refusal {
        Refusal::NoMemory
    }
}

impl<T: Drop> From<AllocFailed<T>> for Refusal {
    ghost use Rattle.std.specs.Prelude.{◌≡◌};
    ghost use Rattle.optra_cert.specs.declared.refusals.Refusal.TheVariants.{NoMemory};

    ghost from_gives = { λ _ e. e ≡ NoMemory };

    fn from(_e: AllocFailed<T>) -> Refusal {
        Refusal::NoMemory
    }
}

/// What a field tells, or the fault of its record.
pub fn known<T>(code: CertCode, told: Option<T>) -> Result<T, Refusal>
    ensures { Gives (λ value. value) result (or_fault code told) }
{
    match told {
        Some(value) => Ok(value),
        None => Err(Refusal::Fault(code)),
    }
}
