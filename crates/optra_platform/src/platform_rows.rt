//! The rows of platforms, as a family.
ghost use Rattle.std.specs.Prelude.{List, ◌≡◌, ◌+◌, ◌-◌, ◌↔◌, min, nat_eq, nat_le, nat_lt, false, slice_get, IsTrue, true};
ghost use Rattle.std.specs.Option.{option_map_or};
ghost use Rattle.optra_network.specs.Net.{Net, halt_max_of};
ghost use Rattle.optra_walk.specs.Families.{Entry, FitRows};
ghost use Rattle.optra_walk.specs.Rules.{KeepsHalts, head_of, is_standing, stands_at};
ghost use Rattle.optra_platform.specs.Platforms.{IsPlatformRow, count_between, is_free, is_row_of, platform_rows, rows_between};

use crate::PRow;
use optra_network::{Minute, Network, StationId, TrackId, TypeId};
use optra_walk::{Action, Leg, RowFamily, arrival, next_depart};

/// Every minute of the two days is below it.
const DAYS_END: u32 = 2880;

/// The family of platform rows. Its rule is that at each station with a limit at most so many trains stand in each minute of
/// the two days.
#[derive(Clone, Copy, Debug, Drop)]
pub struct PlatformRows;

impl PlatformRows {
    /// The family of platform rows, which takes no memory.
    pub fn new() -> PlatformRows
        ensures { (net : Net) (entries : List Entry) → KeepsHalts net entries
            ↔ FitRows (platform_rows net) entries }
    {
        PlatformRows
    }
}

impl RowFamily for PlatformRows {
    ghost use Rattle.optra_platform.specs.Platforms.{most_rows, standing_rows};
    ghost use Rattle.optra_platform.specs.PlatformLemmas.{standing_rows_listed, few_halts, capacity_low, unusable_none, halts_by_rows};

    type Row = PRow;

    ghost rows_of = { λ _ net. platform_rows net };

    ghost rows_used = { λ _ net kind leg. standing_rows net kind leg };

    ghost most = { λ _. most_rows };

    ghost KeepsRule = { λ _ net entries. KeepsHalts net entries };

    ghost lists_rows = { λ f net kind leg u. standing_rows_listed net kind leg u.proper u };

    ghost uses_few = { λ f net kind leg u. few_halts net kind leg u };

    ghost capacity_fits = { λ f net row p is. capacity_low net row p };

    ghost unusable_uses_none = { λ f net kind leg row may_not. unusable_none net kind leg row may_not };

    ghost rule_by_rows = { λ f net entries p all. halts_by_rows net entries };

    /// Whether the value is a row: a station with a limit, and a minute of the two days.
    fn is_row(&self, net: &Network, row: PRow) -> bool
        ensures row { result ≡ (platform_rows net.now).is_row row }
        ensures rule { IsTrue result ↔ IsPlatformRow net.now row }
    {
        is_row(net, row)
    }

    fn cap(&self, net: &Network, row: PRow) -> u32 {
        u32::from(net.halt_max(row.station))
    }

    fn leg_use(&self, net: &Network, kind: TypeId, leg: Leg, row: PRow) -> u32 {
        if is_row(net, row) && stands(net, kind, leg, row) {
            1
        } else {
            0
        }
    }

    fn touched(&self, net: &Network, kind: TypeId, leg: Leg, k: u32) -> Option<PRow> {
        let station = head(net, leg.track)?;
        let from = arrival(net, kind, leg)?;
        let until = next_depart(net, kind, leg)?;
        if net.halt_max(station) == 0 {
            return None;
        }
        row_between(station, from, until, k)
    }

    fn used_count(&self, net: &Network, kind: TypeId, leg: Leg) -> u32 {
        let Some(station) = head(net, leg.track) else {
            return 0;
        };
        if net.halt_max(station) > 0 {
            count_between(arrival(net, kind, leg), next_depart(net, kind, leg))
        } else {
            0
        }
    }

    /// Legs that use no row whatever their times are use alike.
    fn use_alike(&self, net: &Network, _kind: TypeId, first: Leg, second: Leg) -> bool {
        is_free(net, first) && is_free(net, second)
    }
}

/// Whether the leg stands nowhere, or at a station without a limit.
fn is_free(net: &Network, leg: Leg) -> bool
    ensures { result ≡ is_free net.now leg }
{
    !is_standing(leg.action) || has_no_limit(net, head(net, leg.track))
}

fn has_no_limit(net: &Network, head: Option<StationId>) -> bool
    ensures { result ≡ option_map_or (λ s. nat_eq (halt_max_of net.now s) 0) head true }
{
    match head {
        Some(station) => net.halt_max(station) == 0,
        None => true,
    }
}

fn is_row(net: &Network, row: PRow) -> bool
    ensures { result ≡ is_row_of net.now row }
{
    net.halt_max(row.station) > 0 && row.minute <= 2879
}

/// The station that a track leads to, if it is there.
fn head(net: &Network, track: TrackId) -> Option<StationId>
    ensures { result ≡ head_of net.now track }
{
    if track.0 < net.track_count() {
        Some(net.head(track))
    } else {
        None
    }
}

/// Whether the leg stands at the row's station in the row's minute.
fn stands(net: &Network, kind: TypeId, leg: Leg, row: PRow) -> bool
    ensures { result ≡ stands_at net.now kind leg row.station row.minute }
{
    is_standing(leg.action)
        && is_at(head(net, leg.track), row.station)
        && is_reached(arrival(net, kind, leg), row.minute)
        && is_before(row.minute, next_depart(net, kind, leg))
}

/// Whether the train halts or waits.
fn is_standing(action: Action) -> bool
    ensures { result ≡ is_standing action }
{
    matches!(action, Action::Halt(_) | Action::Wait(_))
}

fn is_at(head: Option<StationId>, station: StationId) -> bool
    ensures { result ≡ option_map_or (λ s. nat_eq s.0 station.0) head false }
{
    match head {
        Some(head) => head.0 == station.0,
        None => false,
    }
}

fn is_reached(arrival: Option<u32>, minute: Minute) -> bool
    ensures { result ≡ option_map_or (λ a. nat_le a minute) arrival false }
{
    match arrival {
        Some(arrival) => arrival <= u32::from(minute),
        None => false,
    }
}

fn is_before(minute: Minute, departure: Option<u32>) -> bool
    ensures { result ≡ option_map_or (λ d. nat_lt minute d) departure false }
{
    match departure {
        Some(departure) => u32::from(minute) < departure,
        None => false,
    }
}

/// How many minutes of the two days there are from an arrival up to a departure, and 0 where one of them is missing.
fn count_between(arrival: Option<u32>, departure: Option<u32>) -> u32
    ensures { result ≡ count_between arrival departure }
{
    let (Some(from), Some(until)) = (arrival, departure) else {
        return 0;
    };
    until.min(DAYS_END).saturating_sub(from)
}

/// The k-th of the rows of the minutes from one up to another, as far as they are in the two days.
fn row_between(station: StationId, from: u32, until: u32, k: u32) -> Option<PRow>
    ensures { result ≡ slice_get (rows_between station from until) k }
{
    if k >= until.min(DAYS_END).saturating_sub(from) {
        return None;
    }
    Some(PRow {
        station,
        minute: (from + k) as Minute,
    })
}
