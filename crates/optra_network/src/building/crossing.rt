//! The two tests of crossings, in one pass over their rows: each is there in its other direction, and none reaches too far.
ghost use Rattle.std.specs.Prelude.{◌≡◌, ◌+◌, ◌-◌, ◌≤◌, ◌↔◌, min, All, IfErr, IfOk, IsTrue, OnOk, MatchOption};
ghost use Rattle.optra_network.specs.Net.{HasBothWays, IsFromTo, IsWithinReach};
ghost use Rattle.optra_network.specs.Refusals.{IsCrossingFault};
ghost use Rattle.optra_network.specs.Crossings.{AreReaches};

use super::Builder;
use crate::{NetFault, NetRefusal, NoMemory};
use std::alloc::Global;

/// So many uses of other tracks may break a crossing with one use of a type on a track.
const MOST_REACH: u16 = 4000;

impl Builder {
    /// Refuses a crossing that isn't there in its other direction, and then too far a reach.
    pub(super) fn whole_crossings(&self, alloc: Global) -> Result<(), NetFault>
        ensures both_ways { OnOk result (HasBothWays self.now) }
        ensures within_reach { OnOk result (IsWithinReach self.now) }
        ensures err { IfErr result (IsCrossingFault self.now) }
    {
        let Some(reaches) = self.reaches(alloc)? else {
            return Err(NetFault::Refused(NetRefusal::OneWayCrossing));
        };
        if !are_within(&reaches) {
            return Err(NetFault::Refused(NetRefusal::Reach));
        }
        Ok(())
    }

    /// The reaches by track and type, each of them cut at one more than the most, or None where a crossing isn't there in
    /// its other direction.
    fn reaches(&self, alloc: Global) -> Result<Option<Vec<u16>>, NoMemory>
        ensures { IfOk result (λ reaches. MatchOption reaches (¬ HasBothWays self.now)
            (λ r. AreReaches self.now r.items)) }
    {
        let mut reaches = Vec::new(alloc);
        reaches.resize(self.tracks.len() * 16, 0)?;
        for i in 0..self.crossings.len() {
            if let Some((&(first_track, second_track, first, second), &minutes)) = self
                .crossings
                .get_index(i)
            {
                let key = (second_track, first_track, second, first);
                let Some(&back) = self.crossings.get(&key) else {
                    return Ok(None);
                };
                let place = first_track as usize * 16 + first as usize;
                reaches[place] = with_span(reaches[place], minutes, back);
            }
        }
        Ok(Some(reaches))
    }
}

/// A reach with the uses that break one more crossing, cut at one more than the most.
fn with_span(reach: u16, minutes: u16, back: u16) -> u16
    requires reach { reach ≤ 4001 }
    requires minutes { IsFromTo 1 120 minutes }
    requires back { IsFromTo 1 120 back }
    ensures { result ≡ min (reach + (minutes + back - 1)) 4001 }
{
    (reach + (minutes + back - 1)).min(MOST_REACH + 1)
}

/// Whether no reach is too far.
fn are_within(reaches: &[u16]) -> bool
    ensures { IsTrue result ↔ All (λ reach. reach ≤ 4000) reaches.now }
{
    reaches.iter().all(|reach| *reach <= MOST_REACH)
}
