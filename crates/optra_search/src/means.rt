//! By what a plan is made.
ghost use Rattle.std.specs.Prelude.{◌<◌, ◌^◌};

use crate::Limits;

/// The graphs in which walks are found, how far the plan goes, and who repairs. That a budget is below 2^64 is said, since
/// it is read behind a reference.
#[derive(Drop)]
pub(crate) struct Means<'a, G, P> {
    pub(crate) graphs: &'a G,
    pub(crate) limits: Limits,
    pub(crate) repairer: &'a P,
    pub(crate) ghost budget: { limits.budget < 2 ^ 64 },
}
