//! What an arc of a bid's graph adds and touches.
ghost use Rattle.std.specs.Prelude.{◌≡◌, true, pos, ◌*ℤ◌};
ghost use Rattle.optra_prices.specs.Bounds.{IsArcCents};

use std::marker::Model;

/// What an arc adds apart from the prices of rows, in whole cents, the group of rows that it touches, and whether it may be
/// taken.
#[derive(Drop)]
pub(crate) struct ArcTerm {
    cents: i64,
    group: usize,
    allowed: bool,
}

impl Model for ArcTerm {
    ghost use Rattle.std.specs.Prelude.{pos, ◌*ℤ◌};
    ghost use Rattle.optra_prices.specs.ArcTerms.{ArcTerm as Arc};
    ghost use Rattle.optra_prices.specs.Bounds.{IsArcCents};

    ghost Value = { Arc };

    ghost view = { λ a. record { value = pos 1000 *ℤ a.cents; group = a.group; allowed = a.allowed } };

    ghost invariant = { λ a. IsArcCents a.cents };
}

impl ArcTerm {
    /// An arc that adds so many cents and touches a group, and that may be taken.
    pub(crate) fn new(cents: i64, group: usize) -> ArcTerm
        requires { IsArcCents cents }
        ensures { result ≡ record { value = pos 1000 *ℤ cents; group = group; allowed = true } }
    {
        ArcTerm {
            cents,
            group,
            allowed: true,
        }
    }

    /// What it adds, in cents.
    pub(crate) fn cents(&self) -> i64
        ensures { pos 1000 *ℤ result ≡ self.now.value }
    {
        self.cents
    }

    /// What it adds, in thousandths of a cent.
    pub(crate) fn value(&self) -> i64
        ensures { result ≡ self.now.value }
    {
        1000 * self.cents
    }

    /// The group that it touches.
    pub(crate) fn group(&self) -> usize
        ensures { result ≡ self.now.group }
    {
        self.group
    }

    /// Whether it may be taken.
    pub(crate) fn allowed(&self) -> bool
        ensures { result ≡ self.now.allowed }
    {
        self.allowed
    }

    /// Says whether it may be taken.
    pub(crate) fn allow(&mut self, allowed: bool)
        ensures { self.new ≡ record self.old { allowed = allowed } }
    {
        self.allowed = allowed;
    }
}
