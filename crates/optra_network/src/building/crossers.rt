//! The types on other tracks that have a crossing with a type on a track, which `finish` makes in one pass over the rows.
ghost use Rattle.std.specs.Prelude.{◌≡◌, ℕ, ◌+◌, ◌*◌, ◌<◌, length, map, IfOk, MatchOption, IsTrue, slice_get, Some, unwrap_or, is_some};
ghost use Rattle.std.specs.Map.{lookup};
ghost use Rattle.optra_network.specs.Net.{same_quadruple};
ghost use Rattle.optra_network.specs.Crossers.{crossers_at, IsPlaced, IsFree, HoldsCrossers, AreSortedFrom};
ghost use Rattle.optra_network.specs.Tables.{AreRows, HoldsPairs};

use super::Builder;
use crate::dense::{Rows, empty_lists};
use crate::{Crosser, NoMemory, TrackId, TypeId};
use std::alloc::Global;

/// The other side of a crossing, and where the list of its own side stands.
#[derive(Clone, Copy)]
struct Placed {
    place: usize,
    crosser: Crosser,
}

impl Builder {
    /// The crossers by track and type, each list in the order of their tracks.
    pub(super) fn crossers(&self, alloc: Global, rows: &Rows) -> Result<Vec<Vec<Crosser>>, NoMemory>
        requires { AreRows self.now rows.now }
        ensures { IfOk result (λ lists. HoldsCrossers self.now (length self.now.tracks)
            (map (λ list. list.items) lists.items)) }
    {
        let mut lists = self.listed(alloc, rows)?;
        sort_each(&mut lists);
        Ok(lists)
    }

    /// The crossers by track and type, each list in the order of the crossings.
    fn listed(&self, alloc: Global, rows: &Rows) -> Result<Vec<Vec<Crosser>>, NoMemory>
        requires { AreRows self.now rows.now }
        ensures { IfOk result (λ lists. HoldsPairs (crossers_at self.now) (length self.now.tracks)
            (map (λ list. list.items) lists.items)) }
    {
        let mut lists = empty_lists(alloc, self.tracks.len() * 16)?;
        for i in 0..self.crossings.len() {
            if let Some(placed) = self.placed(rows, i) {
                lists[placed.place].push(placed.crosser)?;
            }
        }
        Ok(lists)
    }

    /// The other side of the crossing at a position, or None where its type may not use its track.
    fn placed(&self, rows: &Rows, i: usize) -> Option<Placed>
        requires rows { AreRows self.now rows.now }
        requires within { i < length self.now.crossings }
        ensures { MatchOption result (IsFree self.now i) (IsPlaced self.now i) }
    {
        let (&key, &after) = self.crossings.get_index(i)?;
        let (first_track, second_track, first, second) = key;
        let (track, kind) = (TrackId(second_track), TypeId(second));
        if !rows.may_use(track, kind) {
            return None;
        }
        let turned = (second_track, first_track, second, first);
        let before = self.crossings.get(&turned).copied().unwrap_or(0);
        Some(Placed {
            place: first_track as usize * 16 + first as usize,
            crosser: Crosser {
                track,
                kind,
                before,
                after,
            },
        })
    }
}

/// Sorts each of the lists.
fn sort_each(lists: &mut Vec<Vec<Crosser>>)
    ensures { AreSortedFrom (map (λ list. list.items) lists.old.items) (map (λ list. list.items)
        lists.new.items) }
{
    for place in 0..lists.len() {
        lists[place].sort_unstable();
    }
}
