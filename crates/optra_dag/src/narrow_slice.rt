//! Arcs of which all are narrow, lent to a search.
ghost use Rattle.std.specs.Prelude.{◌≡◌, ◌<◌, length, slice_index_or};
ghost use Rattle.optra_dag.specs.Paths.{no_arc};

use crate::Arc;
use crate::narrow_arc::NarrowArc;
use std::marker::Model;

/// Narrow arcs.
#[derive(Drop)]
pub(crate) struct NarrowSlice<'a> {
    pub(crate) arcs: &'a [NarrowArc],
}

impl<'a> Model for NarrowSlice<'a> {
    ghost use Rattle.std.specs.Prelude.{List, map};
    ghost use Rattle.optra_dag.specs.NarrowArcs.{arc_of};
    ghost use Rattle.optra_dag.specs.declared.Arc.{Arc};

    ghost Value = { List Arc };

    ghost view = { λ a. map arc_of a.arcs.now };
}

impl NarrowSlice<'_> {
    /// How many there are.
    pub(crate) fn len(&self) -> usize
        ensures { result ≡ length self.now }
    {
        self.arcs.len()
    }

    /// The arc with a number.
    pub(crate) fn at(&self, k: usize) -> Arc
        requires { k < length self.now }
        ensures { result ≡ slice_index_or self.now k no_arc }
    {
        let arcs = self.arcs;
        let arc = &arcs[k];
        Arc {
            from: arc.from as u32,
            to: arc.to as u32,
        }
    }
}
