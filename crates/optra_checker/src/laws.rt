//! The law of the verdict, as the contract of a call that does nothing else.
ghost use Rattle.optra_checker.specs.VerdictLaws.{OneVerdict};

use optra_walk::{Instance, RowFamily};

/// A law, and no work: a certificate of an instance has one verdict, so two that [`crate::check`] may answer are the same.
pub fn verdict_is_one<F: RowFamily>(inst: Instance<'_>, rows: &F)
    ensures { OneVerdict inst.entry.net.now (F.rows_of rows.entry.now inst.entry.net.now)
        (F.KeepsRule rows.entry.now inst.entry.net.now) inst.entry.bids.now }
{
    let _ = inst;
    let _ = rows;
}
