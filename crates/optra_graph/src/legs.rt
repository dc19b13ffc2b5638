//! The legs of a graph in few bytes, since a plan keeps those of all its graphs.
ghost use Rattle.std.specs.Prelude.{◌≡◌, ◌<◌, [], ◌∷◌, ◌++◌, IfOk, OnOk, length, slice_index_or};
ghost use Rattle.optra_walk.specs.Legs.{dwell_of};
ghost use Rattle.optra_graph.specs.Timed.{no_leg};

use crate::packed_leg::PackedLeg;
use optra_network::NoMemory;
use optra_walk::Leg;
use std::alloc::Global;
use std::marker::Model;

/// Legs whose dwells are below 256, in the order in which they were entered.
#[derive(Drop)]
pub(crate) struct Legs {
    packed: Vec<PackedLeg>,
}

impl Model for Legs {
    ghost use Rattle.std.specs.Prelude.{List};
    ghost use Rattle.optra_walk.specs.declared.Leg.{Leg};
    ghost use Rattle.optra_graph.specs.PackedLegs.{legs_of};

    ghost Value = { List Leg };

    ghost view = { λ a. legs_of a.packed.items };
}

impl Legs {
    /// No legs, with room for so many.
    pub(crate) fn with_room(alloc: Global, count: usize) -> Result<Legs, NoMemory>
        ensures { IfOk result (λ legs. legs ≡ []) }
    {
        let packed = Vec::with_capacity(alloc, count)?;
        Ok(Legs { packed })
    }

    /// Adds a leg.
    #[inline(always)]
    pub(crate) fn push(&mut self, leg: Leg) -> Result<(), NoMemory>
        requires { dwell_of leg.action < 256 }
        ensures { OnOk result (self.new ≡ self.old ++ leg ∷ []) }
    {
        self.packed.push(PackedLeg::new(leg))?;
        Ok(())
    }

    /// The leg at a place.
    pub(crate) fn at(&self, k: usize) -> Leg
        requires { k < length self.now }
        ensures { result ≡ slice_index_or self.now k no_leg }
    {
        self.packed[k].leg()
    }
}
