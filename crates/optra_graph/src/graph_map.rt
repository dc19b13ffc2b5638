//! Graphs that are found by the content of path specifications.
ghost use Rattle.std.specs.Prelude.{◌≡◌, ◌⊎◌, ◌+◌, ◌<◌, ◌≤◌, ◌↔◌, [], ◌∷◌, ◌++◌, length, map, slice_get, option_map, None, Some, All, Contains, MatchOption, IfOk, OnOk, OnErr, IsOk, IsTrue};
ghost use Rattle.std.specs.Map.{lookup};
ghost use Rattle.std.specs.Str.{bytes_eq};
ghost use Rattle.arrayvec.specs.ArrayVec.{array_vec_len};
ghost use Rattle.indexmap.specs.IndexMap.{spare};
ghost use Rattle.optra_bid.specs.Specs.{IsPathOn};
ghost use Rattle.optra_graph.specs.Keys.{numbers_of, own_numbers, stop_numbers};
ghost use Rattle.optra_graph.specs.Served.{path_of, Grows, IsAdded, IsKept};
ghost use Rattle.optra_graph.specs.GraphMaps.{AreKeyed, kept_in, place_of};

use crate::building::{Builds, build_in};
use crate::timegraphs::TimeGraph;
use crate::workspace::Workspace;
use arrayvec::ArrayVec;
use indexmap::IndexMap;
use optra_bid::{Bid, PathSpec, Stop};
use optra_network::{Network, NoMemory};
use std::alloc::Global;
use std::marker::Model;

/// The most numbers of a path specification: ten of its own, and five of each of eight stops.
const MOST_NUMBERS: usize = 50;

/// The numbers of a path specification.
type Numbers = ArrayVec<u16, MOST_NUMBERS>;

/// A path specification and its graph.
#[derive(Drop)]
pub(crate) struct Entry {
    path: PathSpec,
    graph: TimeGraph,
}

/// Graphs in the order in which they were added, one for each path specification. Each is found by the numbers of its
/// path specification, by hash.
#[derive(Drop)]
pub struct GraphMap {
    entries: IndexMap<Vec<u16>, Entry>,
}

impl Model for GraphMap {
    ghost use Rattle.std.specs.Prelude.{List};
    ghost use Rattle.optra_graph.specs.Served.{Kept};
    ghost use Rattle.optra_graph.specs.GraphMaps.{AreKeyed, kept_in};

    ghost Value = { List Kept };

    ghost view = { λ a. kept_in a.entries.entries };

    ghost invariant = { λ a. AreKeyed a.entries.entries };
}

impl GraphMap {
    /// Holds nothing yet, and takes no memory.
    pub fn new(alloc: Global) -> GraphMap
        ensures { result ≡ [] }
    {
        GraphMap {
            entries: IndexMap::new(alloc),
        }
    }

    /// Whether the graph of the bid's path specification is held.
    pub fn holds(&self, bid: &Bid) -> bool
        ensures { IsTrue result ↔ Contains (map path_of self.now) bid.now.path }
    {
        place_in(&self.entries, bid, &numbers(bid)).is_some()
    }

    /// The graph of the bid's path specification, where it is held.
    pub fn graph(&self, bid: &Bid) -> Option<&TimeGraph>
        ensures { MatchOption result (¬ Contains (map path_of self.now) bid.now.path)
            (λ graph. Contains self.now (record { path = bid.now.path; graph = graph.now })) }
    {
        match place_in(&self.entries, bid, &numbers(bid)) {
            Some(place) => Some(self.at(place)),
            None => None,
        }
    }

    /// The graph at a place, from 0.
    pub fn at(&self, place: usize) -> &TimeGraph
        requires { place < length self.now }
        ensures { option_map (λ kept. kept.graph) (slice_get self.now place) ≡ Some result.now }
    {
        let (_, entry) = self.entries.get_index(place).unwrap();
        &entry.graph
    }

    /// Sees to it that the graph of the bid's path specification is held, and answers its place. It is built, and counted, where
    /// it isn't held. The path specification is copied and room is made for it before its graph is built, so nothing has
    /// changed after `NoMemory`. Where it is held, no memory is taken. The bid's type and stations must be positions of the
    /// network.
    pub fn keep(
        &mut self,
        alloc: Global,
        net: &Network,
        bid: &Bid,
        builds: &mut Builds,
    ) -> Result<usize, NoMemory>
        requires { IsPathOn net.now bid.now.path }
        ensures kept { IfOk result (λ place. IsKept net.now bid.now.path self.old builds.old
            self.new builds.new) }
        ensures place { IfOk result (λ place. option_map path_of (slice_get self.new place)
            ≡ Some bid.now.path) }
        ensures err { OnErr result ((self.new ≡ self.old) × (builds.new ≡ builds.old)) }
        ensures held { Contains (map path_of self.old) bid.now.path → IsOk result }
    {
        let mut workspace = Workspace::new(alloc);
        self.keep_in(alloc, net, bid, builds, &mut workspace)
    }

    /// Sees to it that the graph is held, as `keep` does. It is built in buffers that may hold anything.
    fn keep_in(
        &mut self,
        alloc: Global,
        net: &Network,
        bid: &Bid,
        builds: &mut Builds,
        workspace: &mut Workspace,
    ) -> Result<usize, NoMemory>
        requires { IsPathOn net.now bid.now.path }
        ensures kept { IfOk result (λ place. IsKept net.now bid.now.path self.old builds.old
            self.new builds.new) }
        ensures place { IfOk result (λ place. option_map path_of (slice_get self.new place)
            ≡ Some bid.now.path) }
        ensures err { OnErr result ((self.new ≡ self.old) × (builds.new ≡ builds.old)) }
        ensures held { Contains (map path_of self.old) bid.now.path → IsOk result }
    {
        let numbers = numbers(bid);
        match place_in(&self.entries, bid, &numbers) {
            Some(place) => Ok(place),
            None => self.add(alloc, net, bid, &numbers, builds, workspace),
        }
    }

    /// Builds the graph of a path specification that isn't held, which has these numbers.
    fn add(
        &mut self,
        alloc: Global,
        net: &Network,
        bid: &Bid,
        numbers: &Numbers,
        builds: &mut Builds,
        workspace: &mut Workspace,
    ) -> Result<usize, NoMemory>
        requires path { IsPathOn net.now bid.now.path }
        requires numbers { numbers.now.items ≡ numbers_of bid.now.path }
        requires absent { place_of bid.now.path (map path_of self.old) ≡ None }
        ensures added { IfOk result (λ place. IsAdded net.now bid.now.path self.old builds.old
            self.new builds.new) }
        ensures place { IfOk result (λ place. option_map path_of (slice_get self.new place)
            ≡ Some bid.now.path) }
        ensures err { OnErr result ((self.new ≡ self.old) × (builds.new ≡ builds.old)) }
    {
        let key = Vec::from_slice(alloc, numbers.as_slice())?;
        let path = copied(alloc, &bid.path)?;
        self.entries.reserve(1)?;
        let graph = build_in(alloc, net, bid, builds, workspace)?;
        let place = self.entries.len();
        put(&mut self.entries, key, Entry { path, graph });
        Ok(place)
    }

    /// Sees to it that the path specification of each bid is held, as `keep` does. After `NoMemory` some of them may be held.
    pub fn keep_all(
        &mut self,
        alloc: Global,
        net: &Network,
        bids: &[Bid],
        builds: &mut Builds,
    ) -> Result<(), NoMemory>
        requires { All (λ bid. IsPathOn net.now bid.path) bids.now }
        ensures held { OnOk result (All (λ bid. Contains (map path_of self.new) bid.path)
            bids.now) }
        ensures others { All (λ path. Contains (map path_of self.old) path
            ⊎ Contains (map (λ bid. bid.path) bids.now) path) (map path_of self.new) }
        ensures grows { Grows net.now self.old builds.old self.new builds.new }
    {
        let mut workspace = Workspace::new(alloc);
        for bid in bids {
            self.keep_in(alloc, net, bid, builds, &mut workspace)?;
        }
        Ok(())
    }
}

/// The place of the bid's path specification, which has these numbers.
fn place_in(entries: &IndexMap<Vec<u16>, Entry>, bid: &Bid, numbers: &Numbers) -> Option<usize>
    requires keyed { AreKeyed entries.now.entries }
    requires numbers { numbers.now.items ≡ numbers_of bid.now.path }
    ensures { result ≡ place_of bid.now.path (map path_of (kept_in entries.now.entries)) }
{
    entries.get_index_of(numbers.as_slice())
}

/// Puts an entry behind the others, under a key that none has. There is room for it.
fn put(entries: &mut IndexMap<Vec<u16>, Entry>, key: Vec<u16>, entry: Entry)
    requires room { 0 < spare entries.old }
    requires new { lookup (λ k. bytes_eq key.items k.items) entries.old.entries ≡ None }
    ensures { entries.new.entries ≡ entries.old.entries ++ (key, entry) ∷ [] }
{
    let _ = entries.insert(key, entry).unwrap();
}

/// The numbers of the bid's path specification: its own, and then those of each stop.
fn numbers(bid: &Bid) -> Numbers
    ensures { result.items ≡ numbers_of bid.now.path }
{
    let path = &bid.path;
    let mut numbers = own_numbers(path);
    for stop in &path.stops {
        add_stop(&mut numbers, *stop);
    }
    numbers
}

/// The numbers of a path specification without its stops.
fn own_numbers(path: &PathSpec) -> Numbers
    ensures numbers { result.items ≡ own_numbers path.now }
    ensures count { array_vec_len result ≡ 10 }
{
    let mut numbers = ArrayVec::new();
    let ends = [
        path.kind.0,
        path.origin.0,
        path.destination.0,
        path.wait_max,
    ];
    let windows = [
        path.depart.from,
        path.depart.ideal,
        path.depart.to,
        path.arrive.from,
        path.arrive.ideal,
        path.arrive.to,
    ];
    numbers.try_extend_from_slice(&ends).unwrap();
    numbers.try_extend_from_slice(&windows).unwrap();
    numbers
}

/// Adds the numbers of a stop.
fn add_stop(numbers: &mut Numbers, stop: Stop)
    requires { array_vec_len numbers.old + 5 ≤ MOST_NUMBERS }
    ensures numbers { numbers.new.items ≡ numbers.old.items ++ stop_numbers stop }
    ensures count { array_vec_len numbers.new ≡ array_vec_len numbers.old + 5 }
{
    let more = [
        stop.station.0,
        stop.min_dwell,
        stop.max_dwell,
        stop.arrive.from,
        stop.arrive.to,
    ];
    numbers.try_extend_from_slice(&more).unwrap();
}

/// An equal path specification in memory of its own.
fn copied(alloc: Global, path: &PathSpec) -> Result<PathSpec, NoMemory>
    ensures { IfOk result (λ copy. copy ≡ path.now) }
{
    let mut stops = Vec::new(alloc);
    stops.extend_from_slice(&path.stops)?;
    Ok(PathSpec {
        kind: path.kind,
        origin: path.origin,
        destination: path.destination,
        depart: path.depart,
        arrive: path.arrive,
        wait_max: path.wait_max,
        stops,
    })
}
