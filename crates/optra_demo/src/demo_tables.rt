//! The tables of a demo.
ghost use Rattle.std.specs.Prelude.{◌≡◌, ◌+◌, ◌≤◌, length, All, IfOk};
ghost use Rattle.optra_demo.specs.Demos.{AreDemo, AreTables};
ghost use Rattle.optra_demo.specs.Ranges.{IsInRange, IsSegment};

use crate::bid_tables::{bids_text, stops_text};
use crate::demo_bid::{DemoBid, draw_bids};
use crate::draws::Draws;
use crate::network_tables::{
    draw_segments, headways_text, running_text, stations_text, tracks_text, types_text,
};
use std::alloc::{AllocError, Global};

/// The stations of a demo of size 1.
const STATIONS: u32 = 4;
/// The bids of a demo of size 1.
const BIDS: u32 = 20;

/// The bytes of seven tables.
#[derive(Drop)]
pub struct DemoTables {
    pub stations: Vec<u8>,
    pub tracks: Vec<u8>,
    pub types: Vec<u8>,
    pub running: Vec<u8>,
    pub headways: Vec<u8>,
    pub bids: Vec<u8>,
    pub stops: Vec<u8>,
}

/// The tables of the demo of a seed and a size from 1 to 9: 4 stations and 20 bids for each step of the size. The same seed
/// and size make the same bytes.
pub fn make(alloc: Global, seed: u32, size: u8) -> Result<DemoTables, AllocError>
    requires least { 1 ≤ size }
    requires most { size ≤ 9 }
    ensures { IfOk result (λ tables. AreDemo seed size tables) }
{
    let stations = STATIONS * u32::from(size);
    let segments = stations - 1;
    let mut draws = Draws::of_seed(seed);
    let minutes = draw_segments(alloc, &mut draws, segments)?;
    let bids = draw_bids(alloc, &mut draws, stations, BIDS * u32::from(size))?;
    tables_of(alloc, stations, &minutes, &bids)
}

/// The tables of so many stations, of segments of these minutes and of these bids.
fn tables_of(
    alloc: Global,
    stations: u32,
    minutes: &[u32],
    bids: &[DemoBid],
) -> Result<DemoTables, AllocError>
    requires few { stations ≤ 36 }
    requires segments { stations ≡ length minutes.now + 1 }
    requires range { All IsSegment minutes.now }
    requires bids { All (IsInRange stations) bids.now }
    ensures { IfOk result (λ tables. AreTables stations minutes.now bids.now tables) }
{
    let segments = minutes.len() as u64;
    let stations = stations_text(alloc, u64::from(stations))?;
    let tracks = tracks_text(alloc, segments)?;
    let types = types_text(alloc)?;
    let running = running_text(alloc, minutes)?;
    let headways = headways_text(alloc, segments)?;
    let stops = stops_text(alloc, bids)?;
    let bids = bids_text(alloc, minutes, bids)?;
    Ok(DemoTables {
        stations,
        tracks,
        types,
        running,
        headways,
        bids,
        stops,
    })
}
