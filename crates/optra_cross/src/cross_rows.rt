//! The rows of crossings, as a family.
ghost use Rattle.std.specs.Prelude.{◌≡◌, ℕ, ◌+◌, ◌<◌, ◌≤◌, ◌↔◌, ◌&&◌, List, All, IsTrue, is_some, nat_lt, slice_get};
ghost use Rattle.std.specs.Option.{option_map};
ghost use Rattle.optra_network.specs.Net.{Net, IsProper};
ghost use Rattle.optra_walk.specs.Families.{Entry, IsUsable};
ghost use Rattle.optra_walk.specs.Legs.{use_of};
ghost use Rattle.optra_cross.specs.Crosses.{AreBothRules, IsCrossRow, are_near, is_one_of, is_possible, is_row_of, is_use, minutes_between, first_use, second_use};
ghost use Rattle.optra_cross.specs.Places.{row_from, row_with, use_at};

use crate::CRow;
use crate::places::{DAYS_END, TRACK_PLACES, TYPES, place_at, total};
use optra_network::{Network, TrackId, TrackUse, TypeId};
use optra_walk::{Leg, RowFamily};

/// The family of crossing rows. Its rule is that every two uses of different tracks keep their crossing, and that no use
/// which lies in a row stands at two places: such a use alone fills its rows twice.
///
/// With the headway rule the second part holds by itself, since every headway is at least a minute. So the two families
/// together state exactly the headway rule and the crossing rule.
#[derive(Clone, Copy, Debug, Drop)]
pub struct CrossRows;

impl CrossRows {
    /// The family of crossing rows, which takes no memory. Legs keep the headways and the crossings exactly where they use
    /// no row of headways and no row of crossings more than once.
    pub fn new() -> CrossRows
        ensures { (net : Net) (entries : List Entry) → IsProper net
            → All (λ e. IsUsable net e.0 e.1) entries → AreBothRules net entries }
    {
        CrossRows
    }
}

impl RowFamily for CrossRows {
    ghost use Rattle.std.proofs.Common.{lit≤};
    ghost use Rattle.optra_cross.specs.Crosses.{KeepsCrossRule, cross_rows, most_rows};
    ghost use Rattle.optra_cross.specs.Places.{touched_rows};
    ghost use Rattle.optra_cross.specs.CrossLemmas.{rows_listed, few_crossings, unusable_none, crossings_by_rows};

    type Row = CRow;

    ghost rows_of = { λ _ net. cross_rows net };

    ghost rows_used = { λ _ net kind leg. touched_rows net (use_of kind leg) };

    ghost most = { λ _. most_rows };

    ghost KeepsRule = { λ _ net entries. KeepsCrossRule net entries };

    ghost lists_rows = { λ f net kind leg u. rows_listed net (use_of kind leg) u.proper u.may_use u.depart };

    ghost uses_few = { λ f net kind leg u. few_crossings net (use_of kind leg) u.proper u.may_use u.depart };

    ghost capacity_fits = { λ f net row p is. lit≤ tt };

    ghost unusable_uses_none = { λ f net kind leg row may_not. unusable_none net (use_of kind leg) row may_not };

    ghost rule_by_rows = { λ f net entries p all. crossings_by_rows net entries p all };

    /// Whether the value is a row: two uses that break their crossing, the one on the lesser track first.
    fn is_row(&self, net: &Network, row: CRow) -> bool
        ensures row { result ≡ (cross_rows net.now).is_row row }
        ensures rule { IsTrue result ↔ IsCrossRow net.now row }
    {
        net.laws();
        is_row(net, row)
    }

    fn cap(&self, _net: &Network, _row: CRow) -> u32 {
        1
    }

    fn leg_use(&self, net: &Network, kind: TypeId, leg: Leg, row: CRow) -> u32 {
        if is_row(net, row) && is_one_of(use_of(kind, leg), row) {
            1
        } else {
            0
        }
    }

    fn touched(&self, net: &Network, kind: TypeId, leg: Leg, k: u32) -> Option<CRow> {
        let crossers = net.crossers(leg.track, kind);
        let place = place_at(crossers, leg.depart, k)?;
        Some(row_with(use_of(kind, leg), use_at(place)))
    }

    fn used_count(&self, net: &Network, kind: TypeId, leg: Leg) -> u32 {
        total(net.crossers(leg.track, kind), leg.depart)
    }

    /// Legs of a type use the same where they enter the same track at the same minute.
    fn use_alike(&self, _net: &Network, _kind: TypeId, first: Leg, second: Leg) -> bool {
        first.track == second.track && first.depart == second.depart
    }
}

/// The use of a leg.
fn use_of(kind: TypeId, leg: Leg) -> TrackUse
    ensures { result ≡ use_of kind leg }
{
    TrackUse {
        track: leg.track,
        kind,
        time: leg.depart,
    }
}

/// The use at a place.
fn use_at(place: u32) -> TrackUse
    requires { place < 46080000 }
    ensures { result ≡ use_at place }
{
    TrackUse {
        track: TrackId((place / TRACK_PLACES) as u16),
        kind: TypeId((place % TYPES) as u16),
        time: (place % TRACK_PLACES / TYPES) as u16,
    }
}

/// The row of a use and another one.
fn row_with(own: TrackUse, other: TrackUse) -> CRow
    ensures { result ≡ row_with own other }
{
    if other.track.0 < own.track.0 {
        row_from(other, own)
    } else {
        row_from(own, other)
    }
}

fn row_from(first: TrackUse, second: TrackUse) -> CRow
    ensures { result ≡ row_from first second }
{
    CRow {
        first_track: first.track,
        first_at: first.time,
        first: first.kind,
        second_track: second.track,
        second_at: second.time,
        second: second.kind,
    }
}

fn first_use(row: CRow) -> TrackUse
    ensures { result ≡ first_use row }
{
    TrackUse {
        track: row.first_track,
        kind: row.first,
        time: row.first_at,
    }
}

fn second_use(row: CRow) -> TrackUse
    ensures { result ≡ second_use row }
{
    TrackUse {
        track: row.second_track,
        kind: row.second,
        time: row.second_at,
    }
}

fn is_row(net: &Network, row: CRow) -> bool
    ensures { result ≡ is_row_of net.now row }
{
    let (first, second) = (first_use(row), second_use(row));
    row.first_track.0 < row.second_track.0
        && is_possible(net, first)
        && is_possible(net, second)
        && are_near(net, first, second)
}

/// Whether the use's type may use its track, and it is of the two days.
fn is_possible(net: &Network, one: TrackUse) -> bool
    ensures { result ≡ is_possible net.now one }
{
    net.run(one.track, one.kind, false, false).is_some() && u32::from(one.time) < DAYS_END
}

/// Whether two uses break their crossing.
fn are_near(net: &Network, first: TrackUse, second: TrackUse) -> bool
    ensures { result ≡ are_near net.now first second }
{
    comes_early(second, first, minutes_between(net, first, second))
        && comes_early(first, second, minutes_between(net, second, first))
}

/// Whether a use comes less than so many minutes after another one.
fn comes_early(one: TrackUse, other: TrackUse, minutes: u16) -> bool
    ensures { result ≡ nat_lt one.time (other.time + minutes) }
{
    u32::from(one.time) < u32::from(other.time) + u32::from(minutes)
}

/// The minutes of a crossing, and 0 where there is none.
fn minutes_between(net: &Network, first: TrackUse, second: TrackUse) -> u16
    ensures { result ≡ minutes_between net.now first second }
{
    net.crossing(first.track, second.track, first.kind, second.kind)
        .unwrap_or(0)
}

/// Whether the use is one of the two of a row.
fn is_one_of(one: TrackUse, row: CRow) -> bool
    ensures { result ≡ is_one_of one row }
{
    is_use(one, first_use(row)) || is_use(one, second_use(row))
}

fn is_use(one: TrackUse, other: TrackUse) -> bool
    ensures { result ≡ is_use one other }
{
    one.track.0 == other.track.0 && one.kind.0 == other.kind.0 && one.time == other.time
}
