//! The rows of headways, as a family.
ghost use Rattle.std.specs.Prelude.{IsTrue, ◌≡◌, ℕ, ◌+◌, ◌*◌, ◌^◌, ◌<◌, ◌≤◌, ◌↔◌, ◌&&◌, ◌++◌, nat_le, nat_lt, List, length, drop, map, slice_get, unwrap_or, All, OnOk, Option};
ghost use Rattle.std.specs.List.{position_or_len, range_with_len};
ghost use Rattle.std.specs.Option.{option_map};
ghost use Rattle.optra_network.specs.Net.{Net, IsProper, MayUse};
ghost use Rattle.optra_network.specs.Headways.{hmin_or_0};
ghost use Rattle.optra_network.specs.Partners.{is_paired};
ghost use Rattle.optra_bid.specs.declared.bids.Bid.{Bid};
ghost use Rattle.optra_walk.specs.declared.Leg.{Leg as Step};
ghost use Rattle.optra_walk.specs.Choices.{KeepsHeadways, uses_of};
ghost use Rattle.optra_walk.specs.Families.{IsUsable, FitRows, entries_of};
ghost use Rattle.optra_rows.specs.FewRows.{AreFewHeadways};
ghost use Rattle.optra_rows.specs.declared.HRow.TheVariants.{Window};
ghost use Rattle.optra_rows.specs.Headways.{is_row_of, is_used_by, headway_rows, IsFirstOver, IsFirstStarted, IsHeadwayRow, in_day, pair_of, is_started, is_not_over, ShiftsRise, kept};

use crate::HRow;
use optra_network::{Minute, Network, NoMemory, Partner, TrackId, TypeId};
use optra_walk::{Leg, RowFamily, RowList};

/// The family of headway rows. Its rule is that the uses of tracks at every two different places are compatible.
///
/// A window row alone doesn't do where a headway exceeds the least headway after its first type: two uses can be in
/// conflict and share no window minute. Each such two have a row of their own. This is the packing form of Borndörfer and
/// Schlechte, "Models for Railway Track Allocation" (2007).
#[derive(Clone, Copy, Debug, Drop)]
pub struct HeadwayRows;

impl HeadwayRows {
    /// The family of headway rows, which takes no memory.
    pub fn new() -> HeadwayRows
        ensures { (net : Net) (bids : List Bid) (walks : List (Option (List Step))) → IsProper net
            → All (λ e. IsUsable net e.0 e.1) (entries_of bids walks)
            → KeepsHeadways net (uses_of bids walks)
            ↔ FitRows (headway_rows net) (entries_of bids walks) }
    {
        HeadwayRows
    }
}

/// A law, and no work: a network has fewer than 10^13 rows of headways, so a list of different ones can be counted.
pub fn headway_rows_are_few(net: &Network)
    ensures { AreFewHeadways net.now }
{
    net.laws();
}

impl RowFamily for HeadwayRows {
    ghost use Rattle.std.proofs.Common.{lit≤};
    ghost use Rattle.optra_rows.specs.TouchedLemmas.{headway_rows_listed, few_headways, unusable_none};
    ghost use Rattle.optra_rows.specs.RuleLemmas.{headways_by_rows};
    ghost use Rattle.optra_rows.specs.Headways.{most_rows, touched_rows, KeepsHeadwayRule};

    type Row = HRow;

    ghost rows_of = { λ _ net. headway_rows net };

    ghost rows_used = { λ _ net kind leg. touched_rows net leg.track kind leg.depart };

    ghost most = { λ _. most_rows };

    ghost KeepsRule = { λ _ net entries. KeepsHeadwayRule net entries };

    ghost lists_rows = { λ f net kind leg u. headway_rows_listed net leg.track kind leg.depart u.proper u.may_use u.depart };

    ghost uses_few = { λ f net kind leg u. few_headways net leg.track kind leg.depart u.proper u.may_use u.depart };

    ghost capacity_fits = { λ f net row p is. lit≤ tt };

    ghost unusable_uses_none = { λ f net kind leg row may_not. unusable_none net leg.track kind leg.depart row may_not };

    ghost rule_by_rows = { λ f net entries p all. headways_by_rows net entries p all };

    /// Whether the value is a row: a minute of a track, or two uses that are a pair.
    fn is_row(&self, net: &Network, row: HRow) -> bool
        ensures row { result ≡ (headway_rows net.now).is_row row }
        ensures rule { IsTrue result ↔ IsHeadwayRow net.now row }
    {
        net.laws();
        is_row(net, row)
    }

    fn cap(&self, _net: &Network, _row: HRow) -> u32 {
        1
    }

    fn leg_use(&self, net: &Network, kind: TypeId, leg: Leg, row: HRow) -> u32 {
        if is_row(net, row) && is_used(net, leg.track, kind, leg.depart, row) {
            1
        } else {
            0
        }
    }

    /// A leg uses each of its rows once.
    fn touched_use(&self, _net: &Network, _kind: TypeId, _leg: Leg, _row: HRow) -> u32 {
        1
    }

    #[inline(always)]
    fn touched(&self, net: &Network, kind: TypeId, leg: Leg, k: u32) -> Option<HRow> {
        let least = u32::from(least_of(net, leg.track, kind));
        if k < least {
            return Some(HRow::Window {
                track: leg.track,
                minute: leg.depart + k as u16,
            });
        }
        let partners = net.partners(leg.track, kind);
        pair_at(partners, leg.track, kind, leg.depart, k - least)
    }

    fn used_count(&self, net: &Network, kind: TypeId, leg: Leg) -> u32 {
        let least = u32::from(least_of(net, leg.track, kind));
        least + pair_count(net.partners(leg.track, kind), leg.depart)
    }

    /// What the track and the type tell is looked up once for all rows.
    #[inline(always)]
    fn list_touched(
        &self,
        net: &Network,
        kind: TypeId,
        leg: Leg,
        from: u32,
        list: &mut RowList<HRow>,
    ) -> Result<(), NoMemory> {
        let least = u32::from(least_of(net, leg.track, kind));
        push_windows(list, leg, from, least)?;
        let partners = net.partners(leg.track, kind);
        push_pairs(list, partners, kind, leg, from.saturating_sub(least))?;
        Ok(())
    }

    /// The windows without the last one. A pair names the minute of the leg, so a leg of another minute has other pairs.
    #[inline(always)]
    fn lasting_count(&self, net: &Network, kind: TypeId, leg: Leg) -> u32 {
        u32::from(least_of(net, leg.track, kind)).saturating_sub(1)
    }

    /// Legs of a type use the same where they enter the same track at the same minute.
    #[inline(always)]
    fn use_alike(&self, _net: &Network, _kind: TypeId, first: Leg, second: Leg) -> bool {
        first.track == second.track && first.depart == second.depart
    }
}

/// Adds the windows of a leg from one place up to another.
fn push_windows(list: &mut RowList<HRow>, leg: Leg, from: u32, least: u32) -> Result<(), NoMemory>
    requires depart { leg.depart ≤ 2879 }
    requires least { least ≤ 120 }
    ensures { OnOk result (list.new.items ≡ list.old.items
        ++ drop from (map (λ minute. Window leg.track minute) (range_with_len leg.depart least))) }
{
    for k in from..least {
        list.push(HRow::Window {
            track: leg.track,
            minute: leg.depart + k as u16,
        })?;
    }
    Ok(())
}

/// Adds the rows of a leg and its partners in the day, from one of these on.
fn push_pairs(
    list: &mut RowList<HRow>,
    partners: &[Partner],
    kind: TypeId,
    leg: Leg,
    from: u32,
) -> Result<(), NoMemory>
    requires time { leg.depart ≤ 2879 }
    requires order { ShiftsRise partners.now }
    ensures { OnOk result (list.new.items ≡ list.old.items
        ++ drop from (map (pair_of leg.track kind leg.depart) (in_day leg.depart partners.now))) }
{
    let first = first_started(partners, leg.depart);
    for k in first + from as usize..first_over(partners, leg.depart) {
        list.push(pair_of(leg.track, kind, leg.depart, partners[k]))?;
    }
    Ok(())
}

/// How many of the partners have their minutes in the day.
fn pair_count(partners: &[Partner], time: Minute) -> u32
    requires time { time ≤ 2879 }
    requires order { ShiftsRise partners.now }
    requires few { length partners.now ≤ 3824 }
    ensures count { result ≡ length (in_day time partners.now) }
    ensures few { result ≤ 3824 }
{
    first_over(partners, time).saturating_sub(first_started(partners, time)) as u32
}

/// The place of the first partner whose minute is after the day.
fn first_over(partners: &[Partner], time: Minute) -> usize
    requires time { time ≤ 2879 }
    requires order { ShiftsRise partners.now }
    ensures { IsFirstOver time partners.now result }
{
    partners.partition_point(|partner| u32::from(time) + u32::from(partner.shift) <= 2999)
}

/// The row of the k-th partner in the day.
fn pair_at(partners: &[Partner], track: TrackId, kind: TypeId, time: Minute, k: u32) -> Option<HRow>
    requires time { time ≤ 2879 }
    requires order { ShiftsRise partners.now }
    ensures { result ≡ option_map (pair_of track kind time) (kept (is_not_over time)
        (slice_get partners.now (position_or_len (is_started time) partners.now + k))) }
{
    let start = first_started(partners, time);
    let partner = partners.get(start + k as usize)?;
    if u32::from(time) + u32::from(partner.shift) <= 2999 {
        Some(pair_of(track, kind, time, *partner))
    } else {
        None
    }
}

/// The row of a use and a partner.
fn pair_of(track: TrackId, kind: TypeId, time: Minute, partner: Partner) -> HRow
    requires time { time ≤ 2879 }
    requires shift { time + partner.shift ≤ 2999 }
    ensures { result ≡ pair_of track kind time partner }
{
    let at = (time + partner.shift).saturating_sub(120);
    if partner.shift < 120 {
        HRow::Pair {
            track,
            first_at: at,
            first: partner.kind,
            second_at: time,
            second: kind,
        }
    } else {
        HRow::Pair {
            track,
            first_at: time,
            first: kind,
            second_at: at,
            second: partner.kind,
        }
    }
}

/// The place of the first partner whose minute is not before the day. From minute 120 on none is before it.
fn first_started(partners: &[Partner], time: Minute) -> usize
    requires time { time ≤ 2879 }
    requires order { ShiftsRise partners.now }
    ensures place { result ≡ position_or_len (is_started time) partners.now }
    ensures within { result ≤ length partners.now }
    ensures parts { IsFirstStarted time partners.now result }
{
    if time >= 120 {
        return 0;
    }
    partners.partition_point(|partner| u32::from(time) + u32::from(partner.shift) < 120)
}

fn is_row(net: &Network, row: HRow) -> bool
    ensures { result ≡ is_row_of net.now row }
{
    match row {
        HRow::Window { track, minute } => track.0 < net.track_count() && minute <= 2998,
        HRow::Pair {
            track,
            first_at,
            first,
            second_at,
            second,
        } => is_pair(net, track, first_at, first, second_at, second) && second_at <= 2879,
    }
}

/// The least headway after a type, and 0 where it may not use the track.
fn least_of(net: &Network, track: TrackId, kind: TypeId) -> u16
    ensures least { result ≡ hmin_or_0 net.now track kind }
    ensures most { result ≤ 120 }
    ensures proper { IsProper net.now }
{
    net.laws();
    net.hmin(track, kind).unwrap_or(0)
}

fn is_pair(
    net: &Network,
    track: TrackId,
    first_at: Minute,
    first: TypeId,
    second_at: Minute,
    second: TypeId,
) -> bool
    ensures { result ≡ is_paired net.now track first_at first second_at second }
{
    if net.run(track, first, false, false).is_none() {
        return false;
    }
    if net.run(track, second, false, false).is_none() {
        return false;
    }
    let headway = net.headway(track, first, second).unwrap_or(0);
    is_apart(least_of(net, track, first), headway, first_at, second_at)
}

/// Whether the second minute is at least the first number of minutes after the first one, and less than the second
/// number.
fn is_apart(least: u16, headway: u16, first_at: Minute, second_at: Minute) -> bool
    ensures { result ≡ (nat_le (first_at + least) second_at && nat_lt second_at (first_at
        + headway)) }
{
    let (first_at, second_at) = (u32::from(first_at), u32::from(second_at));
    first_at + u32::from(least) <= second_at && second_at < first_at + u32::from(headway)
}

fn is_used(net: &Network, track: TrackId, kind: TypeId, time: Minute, row: HRow) -> bool
    ensures { result ≡ is_used_by net.now track kind time row }
{
    match row {
        HRow::Window {
            track: other,
            minute,
        } => {
            track == other
                && time <= minute
                && u32::from(minute) < u32::from(time) + u32::from(least_of(net, track, kind))
        }
        HRow::Pair {
            track: other,
            first_at,
            first,
            second_at,
            second,
        } => {
            track == other
                && ((kind == first && time == first_at) || (kind == second && time == second_at))
        }
    }
}
