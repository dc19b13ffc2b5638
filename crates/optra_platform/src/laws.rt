//! The laws by which certificates with rows of platforms can be written.
ghost use Rattle.optra_cert.specs.Counts.{AreFewerThan};
ghost use Rattle.optra_cert.specs.RowTexts.{AreApart};
ghost use Rattle.optra_platform.specs.PlatformLemmas.{row_cmp};
ghost use Rattle.optra_platform.specs.PlatformTexts.{platform_texts};
ghost use Rattle.optra_platform.specs.Platforms.{platform_rows};
ghost use Rattle.std.specs.Prelude.{◌^◌};

use optra_network::Network;

/// A law, and no work: a network has fewer than 10^6 rows of platforms, so a list of different ones can be counted.
pub fn platform_rows_are_few(net: &Network)
    ensures { AreFewerThan row_cmp (platform_rows net.now) (10 ^ 6) }
{
    let _proper = net.station_count();
}

/// A law, and no work: the kinds of rows of platforms have different words.
pub fn platform_kinds_are_apart()
    ensures { AreApart platform_texts.kinds }
{}
