//! The families of rows by which tables are planned and checked: rows of headways in version 1, and rows of headways, of
//! crossings and of platforms in version 2.
ghost use Rattle.std.specs.Prelude.{◌≡◌};
ghost use Rattle.optra_cert.specs.Headways.{headway_texts};
ghost use Rattle.optra_cert.specs.RowTexts.{AreApart};
ghost use Rattle.optra_cert.specs.Writables.{AreFew};
ghost use Rattle.optra_rows.specs.Headways.{headway_rows};
ghost use Rattle.optra_rows.specs.TouchedLemmas.{row_cmp};
ghost use Rattle.optra_verdict.specs.Families.{all_family, any_cmp};

use optra_cert::{both_rows_are_few, headway_kinds_are_apart};
use optra_cross::{CRow, CrossRows, cross_rows_are_few};
use optra_network::Network;
use optra_platform::{PRow, PlatformRows, platform_rows_are_few};
use optra_rows::{Both, Either, HRow, HeadwayRows, headway_rows_are_few};

/// The rows of tables of version 2: those of headways, then those of crossings, then those of platforms.
pub type AllRows = Both<Both<HeadwayRows, CrossRows>, PlatformRows>;

/// The family of all rows, which takes no memory.
pub fn all_rows() -> AllRows {
    Both::new(
        Both::new(HeadwayRows::new(), CrossRows::new()),
        PlatformRows::new(),
    )
}

/// A law, and no work: certificates over headway rows can be written and read.
pub fn headway_rows_are_told(net: &Network)
    ensures apart { AreApart headway_texts.kinds }
    ensures few { AreFew row_cmp (headway_rows net.now) }
{
    headway_rows_are_few(net);
    headway_kinds_are_apart();
}

/// A law, and no work: certificates over all rows can be written and read, and their order is that of the definitions.
pub fn all_rows_are_told(net: &Network)
    ensures apart { AreApart (all_family net.now).texts.kinds }
    ensures few { AreFew ⟦<Either<Either<HRow, CRow>, PRow> as Ord>⟧.cmp (all_family net.now).rows }
    ensures order { ⟦<Either<Either<HRow, CRow>, PRow> as Ord>⟧.cmp ≡ any_cmp }
{
    let rows = all_rows();
    headway_rows_are_few(net);
    cross_rows_are_few(net);
    platform_rows_are_few(net);
    both_rows_are_few(net, &rows.first);
    both_rows_are_few(net, &rows);
}
