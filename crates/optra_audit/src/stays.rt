//! Where and when trains stand at stations that have a limit.

ghost use Rattle.std.specs.Prelude.{◌≡◌, ◌+◌, ◌≤◌, ◌++◌, length, map, IfOk, OnOk};
ghost use Rattle.std.specs.Option.{option_and_then};
ghost use Rattle.optra_walk.specs.Rules.{head_of, is_standing};
ghost use Rattle.optra_audit.specs.Overs.{legs_in};
ghost use Rattle.optra_audit.specs.Stays.{limited, stay_of, stays_at, stays_of};

use crate::trains::Trains;
use optra_bid::Bid;
use optra_network::{Network, NoMemory, StationId, TrackId, TypeId};
use optra_walk::{Action, Leg, arrival, next_depart};
use std::alloc::Global;

/// A train stands at a station from a minute up to, but not including, another one.
#[derive(Clone, Copy)]
pub struct Stay {
    pub station: StationId,
    pub from: u32,
    pub until: u32,
}

/// The stays of all trains at stations that have a limit.
pub fn stays_of(
    alloc: Global,
    net: &Network,
    bids: &[Bid],
    trains: &Trains,
) -> Result<Vec<Stay>, NoMemory>
    requires { length trains.now ≡ length bids.now }
    ensures stays { IfOk result (λ stays. stays.items
        ≡ stays_of net.now (legs_in bids.now trains.now)) }
    ensures few { IfOk result (λ stays. length stays.items ≤ 8000000) }
{
    let mut stays = Vec::new(alloc);
    'bids: for i in 0..trains.len() {
        let path = &bids[i].path;
        add_train(net, path.kind, trains.legs(i), &mut stays)?;
    }
    Ok(stays)
}

/// Adds the stays of a train.
fn add_train(
    net: &Network,
    kind: TypeId,
    legs: &[Leg],
    stays: &mut Vec<Stay>,
) -> Result<(), NoMemory>
    ensures stays { OnOk result (stays.new.items ≡ stays.old.items
        ++ stays_of net.now (map (λ leg. (kind, leg)) legs.now)) }
    ensures few { OnOk result (length stays.new.items ≤ length stays.old.items + length legs.now) }
{
    'legs: for leg in legs {
        if let Some(stay) = stay_of(net, kind, *leg) {
            stays.push(stay)?;
        }
    }
    Ok(())
}

/// The stay of a leg at the head of its track, where it halts or waits there and the station has a limit.
fn stay_of(net: &Network, kind: TypeId, leg: Leg) -> Option<Stay>
    ensures { result ≡ stay_of net.now kind leg }
{
    if !is_standing(leg.action) {
        return None;
    }
    let station = limited_head(net, leg.track)?;
    let from = arrival(net, kind, leg)?;
    let until = next_depart(net, kind, leg)?;
    Some(Stay {
        station,
        from,
        until,
    })
}

/// Whether the train halts or waits.
fn is_standing(action: Action) -> bool
    ensures { result ≡ is_standing action }
{
    matches!(action, Action::Halt(_) | Action::Wait(_))
}

/// The station that a track leads to, where it has a limit.
fn limited_head(net: &Network, track: TrackId) -> Option<StationId>
    ensures { result ≡ option_and_then (limited net.now) (head_of net.now track) }
{
    if track.0 >= net.track_count() {
        return None;
    }
    let station = net.head(track);
    if net.halt_max(station) > 0 {
        Some(station)
    } else {
        None
    }
}

/// The stays at a station.
pub fn stays_at(alloc: Global, stays: &[Stay], station: StationId) -> Result<Vec<Stay>, NoMemory>
    ensures { IfOk result (λ own. own.items ≡ stays_at station stays.now) }
{
    let own = stays.iter().filter(|stay| stay.station.0 == station.0);
    own.copied().collect(alloc)
}
