//! The laws by which certificates with rows of crossings can be written.
ghost use Rattle.optra_cert.specs.Counts.{AreFewerThan};
ghost use Rattle.optra_cert.specs.RowTexts.{AreApart};
ghost use Rattle.optra_cross.specs.CrossLemmas.{row_cmp};
ghost use Rattle.optra_cross.specs.CrossTexts.{cross_texts};
ghost use Rattle.optra_cross.specs.Crosses.{cross_rows};
ghost use Rattle.std.specs.Prelude.{◌^◌};

use optra_network::Network;

/// A law, and no work: a network has fewer than 10^16 rows of crossings, so a list of different ones can be counted.
pub fn cross_rows_are_few(net: &Network)
    ensures { AreFewerThan row_cmp (cross_rows net.now) (10 ^ 16) }
{
    net.laws();
}

/// A law, and no work: the kinds of rows of crossings have different words.
pub fn cross_kinds_are_apart()
    ensures { AreApart cross_texts.kinds }
{}
