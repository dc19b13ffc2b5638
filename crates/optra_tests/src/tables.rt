//! The version of tables, and bids as they are written, read again and copied.
ghost use Rattle.std.specs.Prelude.{map};
ghost use Rattle.optra_network.specs.Names.{AllDiffer};
ghost use Rattle.optra_bid.specs.Instances.{IsInstance};

use crate::instances::{Check, PLAIN, Rows, check_read, same};
use optra_bid::Bid;
use optra_network::{Network, NoMemory};
use optra_tables::{ReadError, bids_text, read_bids, stops_text, version};
use optra_walk::Instance;
use std::alloc::Global;
use std::process::Abort;
use std::test::Fail;

/// A station whose name stands in quotes.
static QUOTED: Rows = Rows {
    stations: "A\nB\n\"C, \"\"x\"\"\"\n",
    ..PLAIN
};

/// Tables of stations, and their version.
static VERSIONS: [(&str, u8); 5] = [
    ("station\nA\n", 1),
    ("station,halt_max\nA,0\n", 2),
    ("\u{FEFF}\r\n\"station\",halt_max", 2),
    ("station,halt_max,x\nA,0,0\n", 1),
    ("", 1),
];

#[test]
fn the_header_of_the_stations_tells_the_version(rt: HostRuntime) -> Result<(), Fail> {
    for (stations, want) in &VERSIONS {
        let version = version(rt.alloc(), stations.as_bytes())?;
        assert_eq!(rt; version, *want, "{stations}");
    }
    Ok(())
}

/// The tables of two bids and three stops: as they are handed in, and as they are written.
static BIDS: [&str; 2] = [
    "\u{FEFF}bid,bidder,type,origin,destination,depart_from,depart_ideal,depart_to,arrive_from,arrive_ideal,arrive_to,base,early_depart,late_depart,early_arrive,late_arrive,travel,wait,wait_max\r\n\"b\"\"1\",\"ann\",ic,A,\"C, \"\"x\"\"\",00,02,0010,0,12,60,1000,10,20,0,1,2,1000000,7\r\n\r\nb2,b b,ic,B,A,0,0,2879,0,0,2879,1000000000,0,0,0,0,0,0,0",
    "bid,bidder,type,origin,destination,depart_from,depart_ideal,depart_to,arrive_from,arrive_ideal,arrive_to,base,early_depart,late_depart,early_arrive,late_arrive,travel,wait,wait_max\n\"b\"\"1\",ann,ic,A,\"C, \"\"x\"\"\",0,2,10,0,12,60,1000,10,20,0,1,2,1000000,7\nb2,b b,ic,B,A,0,0,2879,0,0,2879,1000000000,0,0,0,0,0,0,0\n",
];

static STOPS: [&str; 2] = [
    "bid,station,min_dwell,max_dwell,arrive_from,arrive_to\nb2,A,0,30,005,6\n\"b\"\"1\",B,1,3,0,2879\n\"b2\",\"C, \"\"x\"\"\",240,240,0,1",
    "bid,station,min_dwell,max_dwell,arrive_from,arrive_to\n\"b\"\"1\",B,1,3,0,2879\nb2,A,0,30,5,6\nb2,\"C, \"\"x\"\"\",240,240,0,1\n",
];

/// The two tables of bids.
fn tables_of(alloc: Global, net: &Network, bids: &[Bid]) -> Result<[Vec<u8>; 2], NoMemory>
    requires instance { IsInstance net.now bids.now }
    requires differ { AllDiffer (map (λ bid. bid.name) bids.now) }
{
    let bids_bytes = bids_text(alloc, net, bids)?;
    let stops_bytes = stops_text(alloc, net, bids)?;
    Ok([bids_bytes, stops_bytes])
}

/// The bids of two tables on a network, written again.
fn written(
    alloc: Global,
    net: &Network,
    bids: &str,
    stops: &str,
) -> Result<[Vec<u8>; 2], ReadError> {
    let bids = read_bids(alloc, net, bids.as_bytes(), stops.as_bytes())?;
    match tables_of(alloc, net, &bids) {
        Ok(tables) => Ok(tables),
        Err(_) => Err(ReadError::NoMemory),
    }
}

struct WrittenAgain;

impl Check for WrittenAgain {
    fn check<R: Abort + AllocGlobal>(&self, rt: &R, inst: Instance<'_>) -> Result<(), Fail> {
        for (bids, stops) in BIDS.iter().zip(&STOPS) {
            let [bids_bytes, stops_bytes] = written(rt.alloc(), inst.net, bids, stops)?;
            same(rt, &bids_bytes.as_slice(), &BIDS[1].as_bytes());
            same(rt, &stops_bytes.as_slice(), &STOPS[1].as_bytes());
        }
        Ok(())
    }
}

#[test]
fn bids_are_written_and_read_again(rt: HostRuntime) -> Result<(), Fail> {
    check_read(&rt, &QUOTED, &WrittenAgain)
}

/// Each bid's copy is equal, and has its path alone.
fn check_copies(rt: &impl Abort, alloc: Global, bids: &[Bid]) -> Result<(), NoMemory> {
    for (place, bid) in bids.iter().enumerate() {
        let copy = bid.copied(alloc)?;
        same(rt, &copy.name.text(), &bid.name.text());
        same(rt, &copy.bidder.text(), &bid.bidder.text());
        same(rt, &copy.money, &bid.money);
        for (other_place, other) in bids.iter().enumerate() {
            same(rt, &copy.same_path(other), &(place == other_place));
        }
        let name = bid.name.copied(alloc)?;
        same(rt, &name.text(), &bid.name.text());
    }
    Ok(())
}

/// The bids of the written tables.
fn bids_on(alloc: Global, net: &Network) -> Result<Vec<Bid>, ReadError> {
    read_bids(alloc, net, BIDS[1].as_bytes(), STOPS[1].as_bytes())
}

struct Copied;

impl Check for Copied {
    fn check<R: Abort + AllocGlobal>(&self, rt: &R, inst: Instance<'_>) -> Result<(), Fail> {
        let bids = bids_on(rt.alloc(), inst.net)?;
        check_copies(rt, rt.alloc(), &bids)?;
        Ok(())
    }
}

#[test]
fn a_copy_is_equal_and_paths_are_compared_whole(rt: HostRuntime) -> Result<(), Fail> {
    check_read(&rt, &QUOTED, &Copied)
}
