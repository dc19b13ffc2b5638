//! The arcs of a bid's graph, lent to be read.
ghost use Rattle.std.specs.Prelude.{◌≡◌, ◌<◌, ◌↔◌, true, false, IsTrue, length, slice_index_or, IfSome};
ghost use Rattle.optra_prices.specs.NarrowArcs.{AreAllowed, priced_arcs};
ghost use Rattle.optra_prices.specs.Tables.{allows_by, narrow_weight_by, no_arc};

use crate::arc_term::ArcTerm;
use crate::narrow_arc::NarrowArc;
use crate::narrow_weights::NarrowWeights;
use crate::open_weights::OpenWeights;
use optra_dag::FAR;
use std::marker::Model;

/// Arcs: first the narrow ones, and then the others.
#[derive(Drop)]
pub(crate) struct ArcSlice<'a> {
    pub(crate) narrow: &'a [NarrowArc],
    pub(crate) wide: &'a [ArcTerm],
    /// The narrow arcs touch groups below this one.
    pub(crate) groups: usize,
    /// So many narrow arcs may not be taken.
    pub(crate) closed: usize,
}

impl<'a> Model for ArcSlice<'a> {
    ghost use Rattle.std.specs.Prelude.{List};
    ghost use Rattle.optra_prices.specs.ArcTerms.{ArcTerm};
    ghost use Rattle.optra_prices.specs.NarrowArcs.{terms_of, AreListed};

    ghost Value = { List ArcTerm };

    ghost view = { λ a. terms_of a.narrow.now a.wide.now };

    ghost invariant = { λ a. AreListed a.narrow.now a.groups a.closed };
}

/// Whether each of these arcs may be taken.
fn are_allowed(arcs: &[ArcTerm]) -> bool
    ensures { IsTrue result ↔ AreAllowed arcs.now }
{
    for k in 0..arcs.len() {
        if !arcs[k].allowed() {
            return false;
        }
    }
    true
}

impl<'a> ArcSlice<'a> {
    /// The same arcs, lent once more.
    pub(crate) fn copied(&self) -> ArcSlice<'a>
        ensures { result ≡ self.now }
    {
        ArcSlice {
            narrow: self.narrow,
            wide: self.wide,
            groups: self.groups,
            closed: self.closed,
        }
    }

    /// How many there are.
    pub(crate) fn len(&self) -> usize
        ensures { result ≡ length self.now }
    {
        self.narrow.len() + self.wide.len()
    }

    /// What an arc adds.
    pub(crate) fn value(&self, k: usize) -> i64
        requires { k < length self.now }
        ensures { result ≡ (slice_index_or self.now k no_arc).value }
    {
        match self.narrow.get(k) {
            Some(arc) => arc.value(),
            None => self.wide[k - self.narrow.len()].value(),
        }
    }

    /// The group that an arc touches.
    pub(crate) fn group(&self, k: usize) -> usize
        requires { k < length self.now }
        ensures { result ≡ (slice_index_or self.now k no_arc).group }
    {
        match self.narrow.get(k) {
            Some(arc) => arc.group() as usize,
            None => self.wide[k - self.narrow.len()].group(),
        }
    }

    /// Whether an arc may be taken.
    pub(crate) fn allowed(&self, k: usize) -> bool
        requires { k < length self.now }
        ensures { result ≡ allows_by self.now k }
    {
        match self.narrow.get(k) {
            Some(arc) => arc.allowed(),
            None => self.wide[k - self.narrow.len()].allowed(),
        }
    }

    /// Whether each of them may be taken.
    pub(crate) fn are_open(&self) -> bool
        ensures { IsTrue result ↔ AreAllowed self.now }
    {
        self.closed == 0 && are_allowed(self.wide)
    }

    /// As [`ArcSlice::weight`], whether the arc is narrow or not.
    fn any_weight(&self, grouped: &[i64], k: usize) -> i64
        requires { k < length self.now }
        ensures allowed { allows_by self.now k ≡ true
            → result ≡ narrow_weight_by self.now grouped.now k }
        ensures other { allows_by self.now k ≡ false → result ≡ FAR }
    {
        if !self.allowed(k) {
            return FAR;
        }
        let price = grouped.get(self.group(k)).copied().unwrap_or(0);
        self.value(k).wrapping_sub(price)
    }

    /// What an arc weighs at prices of groups, in 64 bits, and [`FAR`] where it may not be taken.
    pub(crate) fn weight(&self, grouped: &[i64], k: usize) -> i64
        requires { k < length self.now }
        ensures allowed { allows_by self.now k ≡ true
            → result ≡ narrow_weight_by self.now grouped.now k }
        ensures other { allows_by self.now k ≡ false → result ≡ FAR }
    {
        let Some(arc) = self.narrow.get(k) else {
            return self.any_weight(grouped, k);
        };
        if !arc.allowed() {
            return FAR;
        }
        let price = grouped.get(arc.group() as usize).copied().unwrap_or(0);
        arc.value().wrapping_sub(price)
    }

    /// The arcs at prices of groups, where all of them are narrow and all groups have a price. A `None` too many is left open, here and
    /// below: a search then asks more of each arc, which costs time alone.
    pub(crate) fn narrow_weights(&self, grouped: &'a [i64]) -> Option<NarrowWeights<'a>>
        ensures { IfSome result (λ weights. weights ≡ priced_arcs self.now grouped.now) }
    {
        if !self.wide.is_empty() || grouped.len() < self.groups {
            return None;
        }
        Some(NarrowWeights {
            arcs: self.narrow,
            grouped,
        })
    }

    /// As [`ArcSlice::narrow_weights`], where all arcs may be taken as well.
    pub(crate) fn open_weights(&self, grouped: &'a [i64]) -> Option<OpenWeights<'a>>
        ensures { IfSome result (λ weights. weights ≡ priced_arcs self.now grouped.now) }
    {
        if !self.wide.is_empty() || grouped.len() < self.groups || self.closed > 0 {
            return None;
        }
        Some(OpenWeights {
            arcs: self.narrow,
            grouped,
        })
    }
}
