//! What narrow arcs weigh at prices of groups, lent to a search in 64 bits.
use crate::narrow_arc::NarrowArc;
use optra_dag::{FAR, NarrowWeight};
use std::marker::Model;

/// Narrow arcs and the prices of the groups that they touch. Each of these has one.
#[derive(Drop)]
pub(crate) struct NarrowWeights<'a> {
    pub(crate) arcs: &'a [NarrowArc],
    pub(crate) grouped: &'a [i64],
}

impl<'a> Model for NarrowWeights<'a> {
    ghost use Rattle.std.specs.Prelude.{[], length};
    ghost use Rattle.optra_prices.specs.NarrowArcs.{PricedArcs, priced_arcs, terms_of, AreBelow};

    ghost Value = { PricedArcs };

    ghost view = { λ w. priced_arcs (terms_of w.arcs.now []) w.grouped.now };

    ghost invariant = { λ w. AreBelow (length w.grouped.now) w.arcs.now };
}

impl<'a> NarrowWeight for NarrowWeights<'a> {
    ghost use Rattle.std.specs.Prelude.{length};
    ghost use Rattle.optra_prices.specs.Tables.{allows_by, narrow_weight_by};

    ghost asked = { λ w. length w.arcs };

    ghost allows = { λ w k. allows_by w.arcs k };

    ghost weight = { λ w k. narrow_weight_by w.arcs w.grouped k };

    fn of(&self, arc: u32) -> i64 {
        let arc = &self.arcs[arc as usize];
        if !arc.allowed() {
            return FAR;
        }
        arc.value().wrapping_sub(self.grouped[arc.group() as usize])
    }

    fn copied(&self) -> NarrowWeights<'a> {
        NarrowWeights {
            arcs: self.arcs,
            grouped: self.grouped,
        }
    }
}
