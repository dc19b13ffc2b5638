//! The laws that lead from a valid certificate to its text, and back.
ghost use Rattle.std.specs.Prelude.{◌≡◌, ◌≤◌, length};
ghost use Rattle.optra_cert.specs.CertLaws.{OneFirstFault, TextHasNoFault, TextTellsCert};
ghost use Rattle.optra_cert.specs.Counts.{AreFewTogether};
ghost use Rattle.optra_cert.specs.Headways.{headway_texts};
ghost use Rattle.optra_cert.specs.RowTexts.{AreApart};
ghost use Rattle.optra_cert.specs.Writables.{ValidIsWritable};

use crate::RowText;
use optra_network::Network;
use optra_rows::{Both, Either};
use optra_walk::{Instance, RowFamily};

/// A valid certificate of an instance can be written, in the family's version.
pub fn valid_is_writable<F: RowText>(inst: Instance<'_>, rows: &F)
    requires { AreApart (F.texts_of rows.now).kinds }
    ensures { ValidIsWritable F.Row.cmp (F.texts_of rows.entry.now) inst.entry.net.now
        (F.rows_of rows.entry.now inst.entry.net.now) (F.KeepsRule rows.entry.now
        inst.entry.net.now) inst.entry.bids.now }
{
    let _ = rows;
}

/// A text is that of one certificate alone: two writable certificates with the same text are equal.
pub fn text_tells_cert<F: RowText>(inst: Instance<'_>, rows: &F)
    requires apart { AreApart (F.texts_of rows.now).kinds }
    ensures { TextTellsCert F.Row.cmp (F.texts_of rows.entry.now) inst.entry.net.now
        (length inst.entry.bids.now) }
{
    let _ = rows.version();
}

/// The text of a writable certificate has no fault, so it is read as that certificate.
pub fn text_has_no_fault<F: RowText>(inst: Instance<'_>, rows: &F)
    requires apart { AreApart (F.texts_of rows.now).kinds }
    ensures { TextHasNoFault F.Row.cmp (F.texts_of rows.entry.now) inst.entry.net.now
        (length inst.entry.bids.now) }
{
    let _ = rows.version();
}

/// Bytes have at most one first fault.
pub fn first_fault_is_one<F: RowText>(inst: Instance<'_>, rows: &F)
    ensures { OneFirstFault F.Row.cmp (F.texts_of rows.entry.now) inst.entry.net.now
        (length inst.entry.bids.now) }
{
    let _ = inst;
    let _ = rows;
}

/// A law, and no work: the kinds of headway rows have different words.
pub fn headway_kinds_are_apart()
    ensures { AreApart headway_texts.kinds }
{}

/// A law, and no work: two families together have fewer rows than the sum of two numbers, where the first has fewer than the
/// one and the second fewer than the other. So rows of three families can be counted where those of each are few.
pub fn both_rows_are_few<A: RowFamily, B: RowFamily>(net: &Network, rows: &Both<A, B>)
    ensures { AreFewTogether A.Row.cmp B.Row.cmp ⟦<Either<A::Row, B::Row> as Ord>⟧.cmp
        (A.rows_of rows.now.first net.now) (B.rows_of rows.now.second net.now) }
{
    let _ = net;
    let _ = rows;
}
