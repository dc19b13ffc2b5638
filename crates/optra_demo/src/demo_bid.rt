//! A bid of a demo.
ghost use Rattle.std.specs.Prelude.{◌≡◌, ◌+◌, ◌-◌, ◌*◌, ◌<◌, ◌≤◌, ◌==◌, map, All, IfOk};
ghost use Rattle.std.specs.List.{range_with_len};
ghost use Rattle.optra_demo.specs.Bids.{bid_from, bids_from};
ghost use Rattle.optra_demo.specs.Draws.{after};
ghost use Rattle.optra_demo.specs.Ranges.{IsInRange};

use crate::draws::Draws;
use crate::kinds::{Kind, kind_at};
use std::alloc::{AllocError, Global};

/// What the draws make of a bid. Stations are counted from 1, segments from 0.
#[derive(Clone, Copy, Debug, PartialEq, Eq)]
pub struct DemoBid {
    /// The number of the bid, from 1.
    pub number: u32,
    /// The number of the bidder, 1 to 5.
    pub bidder: u32,
    pub kind: Kind,
    /// Whether it goes towards the first station.
    pub is_back: bool,
    /// Over how many segments it goes, at least 2.
    pub tracks: u32,
    /// How many segments lie before those, seen from the first station.
    pub offset: u32,
    /// The ideal minute of departure, 30 to 209.
    pub depart: u32,
    /// In cents.
    pub base: u32,
}

/// The bid that the next seven draws make between so many stations.
#[tactic(auto, unfolding(crate::specs::Bids::bid_from, crate::specs::Draws::after))]
fn draw_bid(draws: &mut Draws, stations: u32, number: u32) -> DemoBid
    requires some { 4 ≤ stations }
    requires few { stations ≤ 36 }
    ensures bid { result ≡ bid_from stations number draws.old }
    ensures range { IsInRange stations result }
    ensures state { draws.new ≡ after draws.old 7 }
{
    let bidder = 1 + draws.draw(5);
    let kind = kind_at(draws.draw(3));
    let is_back = draws.draw(2) == 1;
    let tracks = 2 + draws.draw(stations - 2);
    let offset = draws.draw(stations - tracks);
    let depart = 30 + draws.draw(180);
    let base = 2_000 + 500 * tracks + draws.draw(2_000);
    DemoBid {
        number,
        bidder,
        kind,
        is_back,
        tracks,
        offset,
        depart,
        base,
    }
}

/// So many bids between so many stations, by the next draws.
pub fn draw_bids(
    alloc: Global,
    draws: &mut Draws,
    stations: u32,
    count: u32,
) -> Result<Vec<DemoBid>, AllocError>
    requires some { 4 ≤ stations }
    requires few { stations ≤ 36 }
    requires count { count ≤ 180 }
    ensures bids { IfOk result (λ bids. bids.items ≡ bids_from stations draws.old count) }
    ensures range { IfOk result (λ bids. All (IsInRange stations) bids.items) }
{
    let mut bids = Vec::new(alloc);
    'bids: for k in 0..count {
        bids.push(draw_bid(draws, stations, k + 1))?;
    }
    Ok(bids)
}
