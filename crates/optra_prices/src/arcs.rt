//! The arcs of a bid's graph with what each adds and touches, in few bytes, since searches read them one after the other.
ghost use Rattle.std.specs.Prelude.{◌≡◌, ◌+◌, ◌^◌, ◌<◌, ◌≤◌, [], ◌∷◌, ◌++◌, true, Some, IfOk, IfSome, OnOk, length, slice_get, slice_index_or, slice_set, pos, ◌*ℤ◌};
ghost use Rattle.optra_prices.specs.NarrowArcs.{closed_one, group_of, term_of, with_mark};
ghost use Rattle.optra_prices.specs.Tables.{Extends, no_arc};

use crate::arc_slice::ArcSlice;
use crate::arc_term::ArcTerm;
use crate::narrow_arc::{CLOSED, NarrowArc};
use optra_network::NoMemory;
use std::alloc::Global;
use std::marker::Model;

/// Arcs in the order in which they were entered: first the narrow ones, and then the others, from the first one on that
/// has too high a group or too great a value.
#[derive(Drop)]
pub(crate) struct Arcs {
    narrow: Vec<NarrowArc>,
    wide: Vec<ArcTerm>,
    /// The narrow arcs touch groups below this one.
    groups: usize,
    /// So many narrow arcs may not be taken.
    closed: usize,
}

impl Model for Arcs {
    ghost use Rattle.std.specs.Prelude.{List};
    ghost use Rattle.optra_prices.specs.ArcTerms.{ArcTerm};
    ghost use Rattle.optra_prices.specs.NarrowArcs.{terms_of, AreListed};

    ghost Value = { List ArcTerm };

    ghost view = { λ a. terms_of a.narrow.items a.wide.items };

    ghost invariant = { λ a. AreListed a.narrow.items a.groups a.closed };
}

/// The arc, where its value and its group fit. A `None` too many costs time and memory alone: arcs from it on are wide ones.
fn narrowed(term: &ArcTerm) -> Option<NarrowArc>
    ensures { IfSome result (λ arc. term_of arc ≡ term.now) }
{
    let cents = i32::try_from(term.cents()).ok()?;
    let group = u32::try_from(term.group()).ok()?;
    if group >= CLOSED {
        return None;
    }
    Some(NarrowArc::new(group, cents, term.allowed()))
}

/// A bound on the groups of arcs, with one more arc.
fn groups_with(groups: usize, group: u32) -> usize
    ensures all { groups ≤ result }
    ensures one { group < result }
{
    groups.max(group as usize + 1)
}

/// How many arcs may not be taken, once the mark of one is another one.
fn closed_after(closed: usize, before: bool, allowed: bool) -> usize
    requires counted { closed_one before ≤ closed }
    requires few { closed < 2 ^ 63 }
    ensures { result + closed_one before ≡ closed + closed_one allowed }
{
    let others = if before { closed } else { closed - 1 };
    if allowed { others } else { others + 1 }
}

impl Arcs {
    /// No arcs, with room for so many.
    pub(crate) fn with_room(alloc: Global, count: usize) -> Result<Arcs, NoMemory>
        ensures { IfOk result (λ arcs. arcs ≡ []) }
    {
        let mut narrow = Vec::new(alloc);
        narrow.reserve_exact(count)?;
        Ok(Arcs {
            narrow,
            wide: Vec::new(alloc),
            groups: 0,
            closed: 0,
        })
    }

    /// Adds an arc.
    #[inline(always)]
    pub(crate) fn push(&mut self, term: ArcTerm) -> Result<(), NoMemory>
        ensures { OnOk result (self.new ≡ self.old ++ term ∷ []) }
    {
        if !self.wide.is_empty() {
            self.wide.push(term)?;
            return Ok(());
        }
        match narrowed(&term) {
            Some(arc) => {
                self.narrow.push(arc)?;
                self.groups = groups_with(self.groups, arc.group());
                self.closed = closed_after(self.closed, true, arc.allowed());
            }
            None => self.wide.push(term)?,
        }
        Ok(())
    }

    /// Says whether an arc may be taken.
    pub(crate) fn allow(&mut self, k: usize, allowed: bool)
        requires { k < length self.old }
        ensures { self.new ≡ slice_set self.old k (with_mark (slice_index_or self.old k no_arc)
            allowed) }
    {
        let count = self.narrow.len();
        if k < count {
            let arc = self.narrow[k];
            self.closed = closed_after(self.closed, arc.allowed(), allowed);
            self.narrow[k] = NarrowArc::new(arc.group(), arc.cents, allowed);
        } else {
            self.wide[k - count].allow(allowed);
        }
    }

    /// The arcs, to be read.
    pub(crate) fn slice(&self) -> ArcSlice<'_>
        ensures { result ≡ self.now }
    {
        ArcSlice {
            narrow: &self.narrow,
            wide: &self.wide,
            groups: self.groups,
            closed: self.closed,
        }
    }
}
