//! Where a program's files stand.
ghost use Rattle.std.specs.Prelude.{◌≡◌, true, OnOk, OnErr};
ghost use Rattle.std.specs.FinMap.{insert};
ghost use Rattle.optra_outside.specs.declared.shelves.ShelfError.TheVariants.{NoMemory};
ghost use Rattle.optra_outside.specs.Shelf.{ShelfState, GetLeaves, GetCause, Answers, PutLeaves, PutFailed};

use std::alloc::{AllocError, Global};
use thiserror::Error;

/// Why a shelf didn't give or take a file.
#[derive(Clone, Copy, Debug, PartialEq, Eq, Error)]
pub enum ShelfError {
    /// No file has the name.
    #[error("no file has this name")]
    Absent,
    /// The reading or writing failed.
    #[error("the file could not be read or written")]
    Failed,
    /// The file has more bytes than the shelf's limit.
    #[error("the file is too long")]
    TooLong,
    /// There is no memory for the file's bytes.
    #[error("no memory")]
    NoMemory,
}

impl From<AllocError> for ShelfError {
    ghost from_gives = { λ _ e. e ≡ NoMemory };

    fn from(_: AllocError) -> Self {
        ShelfError::NoMemory
    }
}

/// A place of named files: where it tells, a finite map from names to bytes.
///
/// It has a limit in bytes, which never changes, and counts its read faults, write faults, absences
/// and overlong files. No count ever falls, and one that stands at the greatest `u64` is taken as risen.
pub trait Shelf {
    ghost state: { Self → ShelfState };

    /// The bytes that a name holds.
    ///
    /// `Failed`, `Absent` and `TooLong` come only where the count of read faults, absences or overlong
    /// files rose. Where the shelf tells, and the answer is neither `Failed` nor `NoMemory`, it is `Absent`
    /// exactly where no file has the name, and `TooLong` exactly where the file is above the limit. The files
    /// and the write faults stay as they are.
    fn get(&mut self, alloc: Global, name: &str) -> Result<Vec<u8>, ShelfError>
        ensures leaves { GetLeaves (state self.old) (state self.new) }
        ensures cause { GetCause (state self.old) (state self.new) result }
        ensures answer { (state self.old).tells ≡ true
            → Answers (state self.old).files (state self.old).limit name.now result };

    /// Has a name hold these bytes. All other names hold what they held.
    ///
    /// The one refusal is `Failed`, which comes only where the write faults rose. After it that one name may
    /// be absent or hold anything. The other counts stay as they are.
    fn put(&mut self, name: &str, bytes: &[u8]) -> Result<(), ShelfError>
        ensures leaves { PutLeaves (state self.old) (state self.new) }
        ensures ok { OnOk result ((state self.new).tells ≡ true
            → (state self.new).files ≡ insert (state self.old).files name.now bytes.now) }
        ensures failed { OnErr result (PutFailed (state self.old)
            (state self.new) name.now result) };
}
