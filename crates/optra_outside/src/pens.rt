//! Where a program writes.
ghost use Rattle.std.specs.Prelude.{◌≡◌, [], IsOk};
ghost use Rattle.optra_outside.specs.Pen.{PenState, Writes};

use thiserror::Error;

/// A write failed.
#[derive(Clone, Copy, Debug, PartialEq, Eq, Error)]
#[error("the writing failed")]
pub struct PenFailed;

/// What bytes are written to, one piece after another: where it tells, the bytes written so far.
///
/// It counts its faults. The count never falls, and one that stands at the greatest `u64` is taken as risen.
pub trait Pen {
    ghost state: { Self → PenState };

    /// Appends a piece. An empty piece is `Ok` and does nothing.
    ///
    /// `PenFailed` comes only where the count of faults rose, and then a first part of the piece was appended.
    fn write(&mut self, bytes: &[u8]) -> Result<(), PenFailed>
        ensures writes { Writes (state self.old) (state self.new) bytes.now result }
        ensures empty { bytes.now ≡ [] → IsOk result × (state self.new ≡ state self.old) };
}
