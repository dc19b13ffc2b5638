//! A disk with one file that a crash may tear.
ghost use Rattle.std.specs.Prelude.{◌≡◌, List, ℕ, ◌+◌, ◌≤◌, length, take, drop, true, IfOk, OnOk, OnErr, IsErrOf};
ghost use Rattle.optra_outside.specs.declared.disks.DiskError.TheVariants.{Failed, NoMemory};
ghost use Rattle.optra_outside.specs.Disk.{Moment, MayLeave, IsSynced, DiskState, Leaves, HasCause, KeepsFile, SameChosen, after_write, after_sync, AfterFailedWrite};

use std::alloc::{AllocError, Global};
use thiserror::Error;

/// A call of a disk failed.
#[derive(Clone, Copy, Debug, PartialEq, Eq, Error)]
#[error("the disk failed")]
pub struct DiskFailed;

/// Why a disk didn't give a file's bytes.
#[derive(Clone, Copy, Debug, PartialEq, Eq, Error)]
pub enum DiskError {
    /// The disk failed.
    #[error("the disk failed")]
    Failed,
    /// There is no memory for the bytes.
    #[error("no memory")]
    NoMemory,
}

impl From<AllocError> for DiskError {
    ghost from_gives = { λ _ e. e ≡ NoMemory };

    fn from(_: AllocError) -> Self {
        DiskError::NoMemory
    }
}

impl From<DiskFailed> for DiskError {
    ghost from_gives = { λ _ e. e ≡ Failed };

    fn from(_: DiskFailed) -> Self {
        DiskError::Failed
    }
}

/// A disk: where it tells, one file, of which it says what a read gives, what a crash now may leave, and what a
/// crash at some moment since a given one might have left.
///
/// It counts its faults. The count never falls, and one that stands at the greatest `u64` is taken as risen.
/// No call changes whether the disk tells.
pub trait Disk {
    ghost state: { Self → DiskState };

    /// Opens or makes the named file, before all other calls. The file's bytes stay.
    fn choose(&mut self, name: &str) -> Result<(), DiskFailed>
        ensures leaves { Leaves (state self.old) (state self.new) }
        ensures cause { OnErr result (HasCause (state self.old) (state self.new)) }
        ensures chosen { OnOk result ((state self.new).chosen ≡ true) }
        ensures name { OnOk result ((state self.old).tells ≡ true → (state self.new).name
            ≡ name.now) }
        ensures same { OnErr result (SameChosen (state self.old) (state self.new)) }
        ensures file { KeepsFile (state self.old) (state self.new) };

    /// The length of what a read gives.
    fn len(&mut self) -> Result<u64, DiskFailed>
        requires { (state self.old).chosen ≡ true }
        ensures leaves { Leaves (state self.old) (state self.new) }
        ensures cause { OnErr result (HasCause (state self.old) (state self.new)) }
        ensures same { SameChosen (state self.old) (state self.new) }
        ensures file { KeepsFile (state self.old) (state self.new) }
        ensures length { (state self.old).tells ≡ true → IfOk result
            (λ n. n ≡ length (state self.old).file.now.bytes) };

    /// The bytes of a range inside the length.
    fn read(&mut self, alloc: Global, at: u64, count: u64) -> Result<Vec<u8>, DiskError>
        requires chosen { (state self.old).chosen ≡ true }
        requires inside { (state self.old).tells ≡ true → at + count ≤ length
            (state self.old).file.now.bytes }
        ensures leaves { Leaves (state self.old) (state self.new) }
        ensures cause { IsErrOf result DiskError.Failed → HasCause (state self.old)
            (state self.new) }
        ensures same { SameChosen (state self.old) (state self.new) }
        ensures file { KeepsFile (state self.old) (state self.new) }
        ensures bytes { (state self.old).tells ≡ true
            → IfOk result (λ bytes. bytes.items ≡ take count (drop at (state self.old).file.now.bytes)) };

    /// Writes over what is there, and past the end, from a place of at most the length.
    fn write_at(&mut self, at: u64, bytes: &[u8]) -> Result<(), DiskFailed>
        requires chosen { (state self.old).chosen ≡ true }
        requires inside { (state self.old).tells ≡ true → at ≤ length
            (state self.old).file.now.bytes }
        ensures leaves { Leaves (state self.old) (state self.new) }
        ensures cause { OnErr result (HasCause (state self.old) (state self.new)) }
        ensures same { SameChosen (state self.old) (state self.new) }
        ensures ok { OnOk result ((state self.old).tells ≡ true
            → (state self.new).file ≡ after_write at bytes.now (state self.old).file) }
        ensures err { OnErr result ((state self.old).tells ≡ true
            → AfterFailedWrite at (length bytes.now) (state self.old).file (state self.new).file) };

    /// After it, a crash leaves what a read gives.
    fn sync(&mut self) -> Result<(), DiskFailed>
        requires { (state self.old).chosen ≡ true }
        ensures leaves { Leaves (state self.old) (state self.new) }
        ensures cause { OnErr result (HasCause (state self.old) (state self.new)) }
        ensures same { SameChosen (state self.old) (state self.new) }
        ensures ok { OnOk result ((state self.old).tells ≡ true
            → (state self.new).file ≡ after_sync (state self.old).file) }
        ensures err { OnErr result (KeepsFile (state self.old) (state self.new)) };
}

/// Two laws of what a crash leaves. What a read gives is always among it; and with nothing written since the last
/// sync that succeeded, nothing else is.
pub fn crash_laws()
    ensures read { (moment : Moment) → MayLeave moment moment.bytes }
    ensures synced { (moment : Moment) (image : List ℕ) → IsSynced moment → MayLeave moment image
        → image ≡ moment.bytes }
{}
