//! The arcs of a graph, lent to be read, so that a search has where they stand at hand.
ghost use Rattle.std.specs.Prelude.{◌≡◌, ◌<◌, IfSome, length, slice_index_or};
ghost use Rattle.optra_dag.specs.Paths.{no_arc};

use crate::Arc;
use crate::narrow_arc::NarrowArc;
use crate::narrow_slice::NarrowSlice;
use std::marker::Model;

/// Arcs: first the narrow ones, and then the others.
#[derive(Drop)]
pub(crate) struct ArcSlice<'a> {
    pub(crate) narrow: &'a [NarrowArc],
    pub(crate) wide: &'a [Arc],
}

impl<'a> Model for ArcSlice<'a> {
    ghost use Rattle.std.specs.Prelude.{List};
    ghost use Rattle.optra_dag.specs.NarrowArcs.{arcs_of};
    ghost use Rattle.optra_dag.specs.declared.Arc.{Arc};

    ghost Value = { List Arc };

    ghost view = { λ a. arcs_of a.narrow.now a.wide.now };
}

impl<'a> ArcSlice<'a> {
    /// How many there are.
    pub(crate) fn len(&self) -> usize
        ensures { result ≡ length self.now }
    {
        self.narrow.len() + self.wide.len()
    }

    /// The arc with a number.
    pub(crate) fn at(&self, k: usize) -> Arc
        requires { k < length self.now }
        ensures { result ≡ slice_index_or self.now k no_arc }
    {
        match self.narrow.get(k) {
            Some(arc) => Arc {
                from: arc.from as u32,
                to: arc.to as u32,
            },
            None => self.wide[k - self.narrow.len()],
        }
    }

    /// The arcs, where all of them are narrow.
    pub(crate) fn all_narrow(&self) -> Option<NarrowSlice<'a>>
        ensures { IfSome result (λ narrow. narrow ≡ self.now) }
    {
        if !self.wide.is_empty() {
            return None;
        }
        Some(NarrowSlice { arcs: self.narrow })
    }
}
