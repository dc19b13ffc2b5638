//! The two figures of a bid.
ghost use Rattle.std.specs.Prelude.{◌≡◌};
ghost use Rattle.optra_evidence.specs.Figures.{nothing_said, raised};

use optra_rests::greater;

/// What the leaves of a tree say of a bid, in whole cents, rounded down: what a choice that keeps the rule earns at most.
#[derive(Clone, Copy, Debug, PartialEq, Eq)]
pub struct Figures {
    /// With the bid served; `None` where no leaf allows it a walk. Then no choice that keeps the rule serves it.
    pub served: Option<i128>,
    /// With the bid left out; `None` where it has a yes leg at each leaf.
    pub left: Option<i128>,
}

impl Figures {
    /// Those of no leaf.
    pub(crate) fn nothing() -> Figures
        ensures { result ≡ nothing_said }
    {
        Figures {
            served: None,
            left: None,
        }
    }

    /// These, raised to what one more leaf says.
    pub(crate) fn raised(self, said: Figures) -> Figures
        ensures { result ≡ raised self said }
    {
        Figures {
            served: greater(self.served, said.served),
            left: greater(self.left, said.left),
        }
    }
}
