//! The minutes in which more trains stand in a station than may.

ghost use Rattle.std.specs.Prelude.{◌≡◌, ◌≤◌, ◌<◌, length, IfOk, MatchOption, OnOk};
ghost use Rattle.optra_network.specs.Net.{IsProper};
ghost use Rattle.optra_audit.specs.Listings.{AddsExactly, ListsExactly};
ghost use Rattle.optra_audit.specs.Overs.{IsOver, over_key};
ghost use Rattle.optra_audit.specs.Stays.{IsOverIn, IsOverOf, IsStationOver, stays_at};

use crate::Over;
use crate::minute_counts::{MINUTES, counts_of};
use crate::stays::{Stay, stays_at, stays_of};
use crate::trains::Trains;
use optra_bid::Bid;
use optra_network::{Minute, Network, NoMemory, StationId};
use std::alloc::Global;

/// The overs of all trains, by station and minute.
pub fn overs_of(
    alloc: Global,
    net: &Network,
    bids: &[Bid],
    trains: &Trains,
) -> Result<Vec<Over>, NoMemory>
    requires proper { IsProper net.now }
    requires trains { length trains.now ≡ length bids.now }
    ensures { IfOk result (λ overs. ListsExactly over_key (IsOver net.now bids.now trains.now)
        overs.items) }
{
    let stays = stays_of(alloc, net, bids, trains)?;
    let mut overs = Vec::new(alloc);
    'stations: for station in 0..net.station_count() {
        add_station(alloc, net, &stays, StationId(station), &mut overs)?;
    }
    Ok(overs)
}

/// Adds the overs of a station.
fn add_station(
    alloc: Global,
    net: &Network,
    stays: &[Stay],
    station: StationId,
    overs: &mut Vec<Over>,
) -> Result<(), NoMemory>
    requires { length stays.now ≤ 8000000 }
    ensures { OnOk result (AddsExactly over_key (IsOverOf net.now stays.now station)
        overs.old.items overs.new.items) }
{
    let limit = net.halt_max(station);
    if limit == 0 {
        return Ok(());
    }
    let own = stays_at(alloc, stays, station)?;
    add_minutes(alloc, &own, station, limit, overs)?;
    Ok(())
}

/// Adds the overs of a station, of which these are the stays.
fn add_minutes(
    alloc: Global,
    own: &[Stay],
    station: StationId,
    limit: u16,
    overs: &mut Vec<Over>,
) -> Result<(), NoMemory>
    requires { length own.now ≤ 8000000 }
    ensures { OnOk result (AddsExactly over_key (IsStationOver own.now station limit)
        overs.old.items overs.new.items) }
{
    let counts = counts_of(alloc, own)?;
    'minutes: for minute in 0..MINUTES as Minute {
        let standing = counts[usize::from(minute)];
        if let Some(over) = over_in(standing, station, limit, minute) {
            overs.push(over)?;
        }
    }
    Ok(())
}

/// The over of a minute in which so many stand, where they are more than the limit.
fn over_in(standing: u32, station: StationId, limit: u16, minute: Minute) -> Option<Over>
    ensures { MatchOption result (standing ≤ limit) (IsOverIn standing station limit minute) }
{
    if standing <= u32::from(limit) {
        return None;
    }
    Some(Over {
        station,
        minute,
        standing,
    })
}
