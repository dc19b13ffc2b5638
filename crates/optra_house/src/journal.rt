//! A journal on a disk: entries behind one another, each with a gate that is opened once the entry is on the disk.
ghost use Rattle.std.specs.Prelude.{◌≡◌, ◌+◌, ◌<◌, ◌≤◌, ◌^◌, ◌++◌, [], ◌∷◌, List, ℕ, length, true, IfOk, OnOk, OnErr, IsErrOf};
ghost use Rattle.std.specs.Int.{to_be_bytes, w32};
ghost use Rattle.optra_outside.specs.declared.disks.DiskError.TheVariants.{Failed};
ghost use Rattle.optra_outside.specs.Disk.{HasCause, Leaves, MayLeave, SameChosen};
ghost use Rattle.optra_house.specs.Entries.{most_bytes};
ghost use Rattle.optra_house.specs.Journal.{HasBeforeOrAfter, HasEntries, IsSettled};
ghost use Rattle.optra_outside.specs.Moments.{LeavesOnly};

use crate::entries::OPEN;
use optra_outside::{Disk, DiskError, DiskFailed};
use std::alloc::{AllocError, Global};

/// The most bytes of a journal.
pub(crate) const MOST_BYTES: u64 = 67_108_864;

/// The place of the first gate, behind the heading.
pub(crate) const FIRST_GATE: u64 = 8;

/// What an entry has beside its payload: its gate, and four bytes of the payload's length.
pub(crate) const ENTRY_BYTES: u64 = 5;

/// Writes the heading and a shut gate over a file that is no longer than these, and all of it is on the disk.
pub(crate) fn write_heading<D: Disk>(disk: &mut D) -> Result<(), DiskFailed>
    requires chosen { (D.state disk.old).chosen ≡ true }
    requires short { (D.state disk.old).tells ≡ true → length (D.state disk.old).file.now.bytes
        ≤ 9 }
    ensures leaves { Leaves (D.state disk.old) (D.state disk.new) }
    ensures same { SameChosen (D.state disk.old) (D.state disk.new) }
    ensures cause { OnErr result (HasCause (D.state disk.old) (D.state disk.new)) }

    // A crash at any moment of the call leaves a file with no entry.
    ensures any_moment { (D.state disk.old).tells ≡ true
        → LeavesOnly (D.state disk.old).file (D.state disk.new).file (HasEntries []) }
    ensures settled { OnOk result ((D.state disk.old).tells ≡ true
        → IsSettled [] 8 (D.state disk.new).file.now) }
{
    disk.write_at(0, &[79, 80, 84, 82, 65, 74, 49, 10, 0])?;
    disk.sync()?;
    Ok(())
}

/// Appends an entry at the shut gate behind the others. After an `Err` the journal is to be opened again.
pub(crate) fn append_entry<D: Disk>(
    alloc: Global,
    disk: &mut D,
    gate: u64,
    payload: &[u8],
) -> Result<(), DiskError>
    requires chosen { (D.state disk.old).chosen ≡ true }
    requires size { gate + 6 + length payload.now ≤ most_bytes }
    requires inside { (D.state disk.old).tells ≡ true → gate < length
        (D.state disk.old).file.now.bytes }

    ensures leaves { Leaves (D.state disk.old) (D.state disk.new) }
    ensures same { SameChosen (D.state disk.old) (D.state disk.new) }
    ensures cause { IsErrOf result DiskError.Failed → HasCause (D.state disk.old)
        (D.state disk.new) }

    // A crash at any moment of the call leaves the entries from before it, with the new one or without.
    ensures any_moment { (D.state disk.old).tells ≡ true → (payloads : List (List ℕ))
        → IsSettled payloads gate (D.state disk.old).file.now
        → LeavesOnly (D.state disk.old).file (D.state disk.new).file
        (HasBeforeOrAfter payloads payload.now) }

    // After `Ok` each crash leaves them with it, and the next entry can be appended.
    ensures acknowledged { OnOk result ((D.state disk.old).tells ≡ true
        → (payloads : List (List ℕ))
        → IsSettled payloads gate (D.state disk.old).file.now
        → (image : List ℕ) → MayLeave (D.state disk.new).file.now image
        → HasEntries (payloads ++ payload.now ∷ []) image) }
    ensures settled { OnOk result ((D.state disk.old).tells ≡ true
        → (payloads : List (List ℕ))
        → IsSettled payloads gate (D.state disk.old).file.now
        → IsSettled (payloads ++ payload.now ∷ []) (gate + 5 + length payload.now)
        (D.state disk.new).file.now) }
{
    let behind = behind_gate(alloc, payload)?;
    disk.write_at(gate + 1, &behind)?;
    disk.sync()?;
    disk.write_at(gate, &[OPEN])?;
    disk.sync()?;
    Ok(())
}

/// What stands behind an entry's gate, and a shut gate behind it.
fn behind_gate(alloc: Global, payload: &[u8]) -> Result<Vec<u8>, AllocError>
    requires { length payload.now < 2 ^ 32 }
    ensures { IfOk result (λ bytes. bytes.items
        ≡ (to_be_bytes w32 (length payload.now) ++ payload.now) ++ 0 ∷ []) }
{
    let mut bytes = Vec::with_capacity(alloc, payload.len() + 5)?;
    bytes.extend_from_slice(&(payload.len() as u32).to_be_bytes())?;
    bytes.extend_from_slice(payload)?;
    bytes.push(0)?;
    Ok(bytes)
}
