//! The arcs of a graph in four bytes each, since searches read them one after the other.
ghost use Rattle.std.specs.Prelude.{◌≡◌, [], ◌∷◌, ◌++◌, IfSome, OnErr, OnOk, length};
ghost use Rattle.optra_dag.specs.NarrowArcs.{arc_of};

use crate::arc_slice::ArcSlice;
use crate::narrow_arc::NarrowArc;
use crate::{Arc, NoMemory};
use std::alloc::Global;
use std::marker::Model;

/// Arcs in the order in which they were added: first the narrow ones, and then the others, from the first one on with too
/// high a node.
#[derive(Drop)]
pub(crate) struct Arcs {
    narrow: Vec<NarrowArc>,
    wide: Vec<Arc>,
}

impl Model for Arcs {
    ghost use Rattle.std.specs.Prelude.{List};
    ghost use Rattle.optra_dag.specs.NarrowArcs.{arcs_of};
    ghost use Rattle.optra_dag.specs.declared.Arc.{Arc};

    ghost Value = { List Arc };

    ghost view = { λ a. arcs_of a.narrow.items a.wide.items };
}

/// The arc in four bytes, where its nodes fit.
fn narrowed(arc: Arc) -> Option<NarrowArc>
    ensures { IfSome result (λ narrow. arc_of narrow ≡ arc) }
{
    let from = u16::try_from(arc.from).ok()?;
    let to = u16::try_from(arc.to).ok()?;
    Some(NarrowArc { from, to })
}

impl Arcs {
    /// No arcs.
    pub(crate) fn new(alloc: Global) -> Arcs
        ensures { result ≡ [] }
    {
        Arcs {
            narrow: Vec::new(alloc),
            wide: Vec::new(alloc),
        }
    }

    /// Makes room for so many more narrow arcs at once, and no more than that.
    pub(crate) fn reserve_exact(&mut self, count: usize) -> Result<(), NoMemory>
        ensures { self.new ≡ self.old }
    {
        self.narrow.reserve_exact(count)
    }

    /// Adds an arc.
    #[inline(always)]
    pub(crate) fn push(&mut self, arc: Arc) -> Result<(), NoMemory>
        ensures ok { OnOk result (self.new ≡ self.old ++ arc ∷ []) }
        ensures err { OnErr result (self.new ≡ self.old) }
    {
        if !self.wide.is_empty() {
            self.wide.push(arc)?;
            return Ok(());
        }
        match narrowed(arc) {
            Some(narrow) => self.narrow.push(narrow)?,
            None => self.wide.push(arc)?,
        }
        Ok(())
    }

    /// How many there are.
    pub(crate) fn len(&self) -> usize
        ensures { result ≡ length self.now }
    {
        self.narrow.len() + self.wide.len()
    }

    /// The arcs, to be read.
    pub(crate) fn slice(&self) -> ArcSlice<'_>
        ensures { result ≡ self.now }
    {
        ArcSlice {
            narrow: &self.narrow,
            wide: &self.wide,
        }
    }
}
