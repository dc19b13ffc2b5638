//! The small networks and their bids, read from the rows of their tables.
ghost use Rattle.std.specs.Prelude.{◌≡◌, is_some, nat_eq, true, IfOk};
ghost use Rattle.optra_bid.specs.Instances.{IsInstance};
ghost use Rattle.optra_walk.specs.Choices.{IsChoice};

use optra_bid::Bid;
use optra_network::Network;
use optra_tables::{NetFiles, ReadError, read_bids, read_network, version};
use optra_walk::{Instance, Walk, follows};
use std::alloc::{AllocError, Global};
use std::fmt::Debug;
use std::process::Abort;
use std::test::Fail;

/// The rows of the tables, without their headers.
#[derive(Clone, Copy)]
pub struct Rows {
    pub stations: &'static str,
    pub tracks: &'static str,
    pub types: &'static str,
    pub running: &'static str,
    pub headways: &'static str,
    /// They are there in tables of version 2, whose stations have a limit each.
    pub crossings: Option<&'static str>,
    pub bids: &'static str,
    pub stops: &'static str,
}

/// A track from A to B, which trains of one type pass in 10 minutes, and need 14 with a stop at both ends; the next one enters
/// it 5 minutes later. There are no bids.
pub const PLAIN: Rows = Rows {
    stations: "A\nB\n",
    tracks: "ab,A,B\n",
    types: "ic\n",
    running: "ab,ic,10,11,12,14\n",
    headways: "ab,ic,ic,5\n",
    crossings: None,
    bids: "",
    stops: "",
};

/// Three trains, every two of which are in conflict and share no window minute.
pub static PAIRS: Rows = Rows {
    types: "x\ny\nz\n",
    running: "ab,x,10,10,10,10\nab,y,10,10,10,10\nab,z,10,10,10,10\n",
    headways: "ab,x,x,1\nab,x,y,4\nab,x,z,7\nab,y,x,1\nab,y,y,1\nab,y,z,4\nab,z,x,1\nab,z,y,1\nab,z,z,1\n",
    bids: "x1,ann,x,A,B,0,0,0,0,10,60,1000,0,0,0,0,0,0,0\ny1,bob,y,A,B,3,3,3,0,13,60,1000,0,0,0,0,0,0,0\nz1,cat,z,A,B,6,6,6,0,16,60,1000,0,0,0,0,0,0,0\n",
    ..PLAIN
};

/// A table: a header and the rows under it.
fn table(alloc: Global, header: &str, rows: &str) -> Result<String, AllocError> {
    let mut text = String::from_str(alloc, header)?;
    text.push_str("\n")?;
    text.push_str(rows)?;
    Ok(text)
}

/// The header of the stations, which tells the version.
fn stations_header(rows: &Rows) -> &'static str {
    match rows.crossings {
        Some(_) => "station,halt_max",
        None => "station",
    }
}

/// The crossings of tables of a version.
fn crossings_in(version: u8, crossings: &str) -> Option<&[u8]>
    ensures { is_some result ≡ nat_eq version 2 }
{
    if version == 2 {
        Some(crossings.as_bytes())
    } else {
        None
    }
}

/// The network that the tables mean.
fn network(alloc: Global, rows: &Rows) -> Result<Network, ReadError> {
    let stations = table(alloc, stations_header(rows), rows.stations)?;
    let tracks = table(alloc, "track,from,to", rows.tracks)?;
    let types = table(alloc, "type", rows.types)?;
    let running = table(
        alloc,
        "track,type,pass_pass,pass_halt,halt_pass,halt_halt",
        rows.running,
    )?;
    let headways = table(alloc, "track,first,second,minutes", rows.headways)?;
    let crossings = table(
        alloc,
        "first_track,second_track,first,second,minutes",
        rows.crossings.unwrap_or(""),
    )?;
    let version = version(alloc, stations.as_bytes())?;
    let crossings = crossings_in(version, &crossings);
    let files = NetFiles {
        stations: stations.as_bytes(),
        tracks: tracks.as_bytes(),
        types: types.as_bytes(),
        running: running.as_bytes(),
        headways: headways.as_bytes(),
        crossings,
    };
    read_network(alloc, &files)
}

/// The bids that the tables mean on a network.
fn bids(alloc: Global, net: &Network, rows: &Rows) -> Result<Vec<Bid>, ReadError>
    ensures { IfOk result (λ bids. IsInstance net.now bids.items) }
{
    let header =
        "bid,bidder,type,origin,destination,depart_from,depart_ideal,depart_to,arrive_from,arrive_ideal,arrive_to,base,early_depart,late_depart,early_arrive,late_arrive,travel,wait,wait_max";
    let bids = table(alloc, header, rows.bids)?;
    let header = "bid,station,min_dwell,max_dwell,arrive_from,arrive_to";
    let stops = table(alloc, header, rows.stops)?;
    read_bids(alloc, net, bids.as_bytes(), stops.as_bytes())
}

/// A value is as it has to be. A call costs a proof a third of what an assertion that is written out costs.
pub fn same<T: PartialEq + Debug>(rt: &impl Abort, found: &T, want: &T) {
    assert_eq!(rt; *found, *want);
}

/// What is asked of a network and its bids.
///
/// A function at whose end a network goes is dear to prove, and the dearer the more it does. So one function owns each
/// that is read, lends it to a check, and hands it to `drop`.
pub trait Check {
    fn check<R: Abort + AllocGlobal>(&self, rt: &R, inst: Instance<'_>) -> Result<(), Fail>;
}

/// Checks a network and the bids that the tables mean on it.
fn check_bids<C: Check>(
    rt: &(impl Abort + AllocGlobal),
    net: &Network,
    rows: &Rows,
    check: &C,
) -> Result<(), Fail> {
    let bids = bids(rt.alloc(), net, rows)?;
    check.check(rt, Instance::new(net, &bids))
}

/// Checks what the tables mean.
pub fn check_read<C: Check>(
    rt: &(impl Abort + AllocGlobal),
    rows: &Rows,
    check: &C,
) -> Result<(), Fail> {
    let net = network(rt.alloc(), rows)?;
    let checked = check_bids(rt, &net, rows, check);
    drop(net);
    checked
}

/// Whether there is an entry for each bid, and each that is there is a walk of its bid.
pub fn are_walks(net: &Network, bids: &[Bid], walks: &[Option<Walk>]) -> bool
    ensures { result ≡ true → IsChoice net.now bids.now walks.now }
{
    let Some((bid, other_bids)) = bids.split_first() else {
        return walks.is_empty();
    };
    let Some((walk, other_walks)) = walks.split_first() else {
        return false;
    };
    if let Some(walk) = walk
        && !follows(net, bid, &walk.legs)
    {
        return false;
    }
    are_walks(net, other_bids, other_walks)
}
