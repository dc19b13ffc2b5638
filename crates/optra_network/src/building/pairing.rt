//! The partners of uses in pair rows, which `finish` makes from the types that may use each track.
//!
//! A use has partners only as far away as a headway that exceeds the least headway, so no other minutes are looked at.
ghost use Rattle.std.specs.Prelude.{◌≡◌, ℕ, ◌+◌, ◌*◌, ◌<◌, ◌≤◌, ◌&&◌, nat_le, nat_lt, length, map, IfOk, true};
ghost use Rattle.std.specs.List.{range_with_len};
ghost use Rattle.optra_network.specs.Partners.{is_paired, is_partner, partners_of, partners_at};
ghost use Rattle.optra_network.specs.Tables.{AreRows, HoldsPairs, hmin_at};
ghost use Rattle.optra_network.specs.declared.Partner.{Partner};

use super::Builder;
use crate::dense::{Rows, least_in};
use crate::{NoMemory, Partner, TrackId, TypeId};
use std::alloc::Global;

impl Builder {
    /// The partners by track and type.
    pub(super) fn partners(
        &self,
        alloc: Global,
        rows: &Rows,
        leasts: &[u16],
    ) -> Result<Vec<Vec<Partner>>, NoMemory>
        requires rows { AreRows self.now rows.now }
        requires leasts { HoldsPairs (hmin_at self.now) (length self.now.tracks) leasts.now }
        ensures { IfOk result (λ lists. map (λ list. list.items) lists.items
            ≡ map (partners_at self.now) (range_with_len 0 (length self.now.tracks * 16))) }
    {
        let mut partners = Vec::new(alloc);
        for place in 0..self.tracks.len() * 16 {
            let track = TrackId((place / 16) as u16);
            let kind = TypeId((place % 16) as u16);
            let list = self.partners_of(alloc, rows, leasts, track, kind)?;
            partners.push(list)?;
        }
        Ok(partners)
    }

    /// The partners of a use of the type on the track, by shift and then by type.
    fn partners_of(
        &self,
        alloc: Global,
        rows: &Rows,
        leasts: &[u16],
        track: TrackId,
        kind: TypeId,
    ) -> Result<Vec<Partner>, NoMemory>
        requires rows { AreRows self.now rows.now }
        requires leasts { HoldsPairs (hmin_at self.now) (length self.now.tracks) leasts.now }
        ensures { IfOk result (λ list. list.items ≡ partners_of self.now track kind) }
    {
        let reach = self.reach(rows, leasts, track, kind);
        let mut partners = Vec::new(alloc);
        for place in (120 - reach) * 16..(120 + reach) * 16 {
            let partner = Partner {
                shift: place / 16,
                kind: TypeId(place % 16),
            };
            if self.is_partner(rows, leasts, track, kind, partner) {
                partners.push(partner)?;
            }
        }
        Ok(partners)
    }

    /// So many minutes that each partner departs fewer minutes earlier or later; 0 where there is none.
    fn reach(&self, rows: &Rows, leasts: &[u16], track: TrackId, kind: TypeId) -> u16
        requires rows { AreRows self.now rows.now }
        requires leasts { HoldsPairs (hmin_at self.now) (length self.now.tracks) leasts.now }
        ensures most { result ≤ 120 }
        ensures within { (partner : Partner) → is_partner self.now track kind partner ≡ true
            → (120 < partner.shift + result) × (partner.shift < 120 + result) }
    {
        let mut reach = 0;
        for place in 0..self.types.len() {
            let other = TypeId(place as u16);
            let before = self.reach_between(rows, leasts, track, other, kind);
            let after = self.reach_between(rows, leasts, track, kind, other);
            reach = before.max(after).max(reach);
        }
        reach
    }

    /// The headway of the second type after the first one, where both may use the track and it exceeds the least headway
    /// after the first, and 0 elsewhere.
    fn reach_between(
        &self,
        rows: &Rows,
        leasts: &[u16],
        track: TrackId,
        first: TypeId,
        second: TypeId,
    ) -> u16
        requires rows { AreRows self.now rows.now }
        requires leasts { HoldsPairs (hmin_at self.now) (length self.now.tracks) leasts.now }
        ensures most { result ≤ 120 }
        ensures near { (t u : ℕ) → is_paired self.now track t first u second ≡ true → u < t
            + result }
    {
        if !rows.may_use(track, first) {
            return 0;
        }
        if !rows.may_use(track, second) {
            return 0;
        }
        let headway = rows.headway(track, first, second);
        if headway <= least_in(leasts, track, first) {
            return 0;
        }
        headway
    }

    fn is_partner(
        &self,
        rows: &Rows,
        leasts: &[u16],
        track: TrackId,
        kind: TypeId,
        partner: Partner,
    ) -> bool
        requires rows { AreRows self.now rows.now }
        requires leasts { HoldsPairs (hmin_at self.now) (length self.now.tracks) leasts.now }
        ensures { result ≡ is_partner self.now track kind partner }
    {
        if partner.shift < 120 {
            self.is_paired(rows, leasts, track, partner.kind, kind, 120 - partner.shift)
        } else {
            self.is_paired(rows, leasts, track, kind, partner.kind, partner.shift - 120)
        }
    }

    /// Whether a use of the first type and one of the second type, so many minutes later, are a pair.
    fn is_paired(
        &self,
        rows: &Rows,
        leasts: &[u16],
        track: TrackId,
        first: TypeId,
        second: TypeId,
        later: u16,
    ) -> bool
        requires rows { AreRows self.now rows.now }
        requires leasts { HoldsPairs (hmin_at self.now) (length self.now.tracks) leasts.now }
        ensures { (t u : ℕ) → t + later ≡ u → result ≡ is_paired self.now track t first u second }
    {
        if !rows.may_use(track, first) {
            return false;
        }
        if !rows.may_use(track, second) {
            return false;
        }
        let least = least_in(leasts, track, first);
        is_between(least, rows.headway(track, first, second), later)
    }
}

/// Whether the minutes are at least the first number and less than the second.
fn is_between(least: u16, headway: u16, minutes: u16) -> bool
    ensures { result ≡ (nat_le least minutes && nat_lt minutes headway) }
{
    least <= minutes && minutes < headway
}
