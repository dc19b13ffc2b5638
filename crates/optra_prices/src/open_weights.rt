//! What narrow arcs that may all be taken weigh at prices of groups, lent to a search in 64 bits.
use crate::narrow_arc::NarrowArc;
use optra_dag::NarrowWeight;
use std::marker::Model;

/// Narrow arcs that may all be taken and the prices of the groups that they touch. Each
/// of these has one.
#[derive(Drop)]
pub(crate) struct OpenWeights<'a> {
    pub(crate) arcs: &'a [NarrowArc],
    pub(crate) grouped: &'a [i64],
}

impl<'a> Model for OpenWeights<'a> {
    ghost use Rattle.std.specs.Prelude.{[], length};
    ghost use Rattle.optra_prices.specs.NarrowArcs.{PricedArcs, priced_arcs, terms_of, AreBelow, AreOpen};

    ghost Value = { PricedArcs };

    ghost view = { λ w. priced_arcs (terms_of w.arcs.now []) w.grouped.now };

    ghost invariant = { λ w. AreBelow (length w.grouped.now) w.arcs.now × AreOpen w.arcs.now };
}

impl<'a> NarrowWeight for OpenWeights<'a> {
    ghost use Rattle.std.specs.Prelude.{length};
    ghost use Rattle.optra_prices.specs.Tables.{allows_by, narrow_weight_by};

    ghost asked = { λ w. length w.arcs };

    ghost allows = { λ w k. allows_by w.arcs k };

    ghost weight = { λ w k. narrow_weight_by w.arcs w.grouped k };

    fn of(&self, arc: u32) -> i64 {
        let arc = &self.arcs[arc as usize];
        arc.value().wrapping_sub(self.grouped[arc.mark as usize])
    }

    fn copied(&self) -> OpenWeights<'a> {
        OpenWeights {
            arcs: self.arcs,
            grouped: self.grouped,
        }
    }
}
