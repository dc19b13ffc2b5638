//! Graphs of bids: their arcs counted by hand, and their first walks.
ghost use Rattle.std.specs.Prelude.{◌≡◌, All};
ghost use Rattle.optra_bid.specs.Specs.{IsPathOn};

use crate::instances::{Check, PLAIN, Rows, check_read, same};
use optra_bid::Bid;
use optra_dag::{Weight, first_best};
use optra_graph::{Builds, FreshGraphs, Graphs, TimeGraph, build};
use optra_network::{Minute, NoMemory};
use optra_reuse::GraphStore;
use optra_walk::{Instance, Walk, follows};
use std::alloc::Global;
use std::process::Abort;
use std::test::Fail;

/// Two tracks from A to B, one from there to C, and one back to A. The slow type may use neither the second track from A to B
/// nor the one back.
static BIDS: Rows = Rows {
    stations: "A\nB\nC\n",
    tracks: "ab,A,B\nab2,A,B\nbc,B,C\nba,B,A\n",
    types: "fast\nslow\n",
    running: "ab,fast,1,2,2,3\nab2,fast,1,2,2,3\nbc,fast,1,2,2,3\nba,fast,1,2,2,3\nab,slow,2,4,3,6\nbc,slow,2,4,3,6\n",
    headways: "ab,fast,fast,1\nab2,fast,fast,1\nbc,fast,fast,1\nba,fast,fast,1\nab,slow,slow,1\nab,slow,fast,1\nab,fast,slow,1\nbc,slow,slow,1\nbc,slow,fast,1\nbc,fast,slow,1\n",
    crossings: None,
    bids: "straight,ann,fast,A,B,0,0,0,3,3,5,0,0,0,0,0,0,0,0\ntoo-early,ann,fast,A,B,0,0,0,0,0,2,0,0,0,0,0,0,0,0\ntoo-slow,ann,slow,A,B,0,0,0,0,0,5,0,0,0,0,0,0,0,0\nslow,ann,slow,A,B,0,0,1,0,0,6,0,0,0,0,0,0,0,0\nlate,ann,fast,A,B,0,0,9,4,4,6,0,0,0,0,0,0,0,0\nwaits,ann,slow,A,C,1,1,2,0,0,15,0,0,0,0,0,0,0,2\nhalts,ann,fast,A,C,0,0,1,0,0,9,0,0,0,0,0,0,0,0\nb-then-a,ann,fast,A,C,0,0,0,0,0,11,0,0,0,0,0,0,0,0\na-then-b,ann,fast,A,C,0,0,0,0,0,11,0,0,0,0,0,0,0,0\n",
    stops: "halts,B,1,2,3,5\nb-then-a,B,0,1,0,99\nb-then-a,A,0,2,0,6\na-then-b,A,0,2,0,6\na-then-b,B,0,1,0,99\n",
};

/// Of each bid the arcs of its graph, and when its first walk departs.
///
/// Straight to B, at 3, or back over A, at 5. Too early for any walk, on two tracks and on one. The slow type may use but one
/// track there, and none back. Straight from 1 to 3, and back over A from 0 and 1: later departures are of no use. Passing B,
/// or waiting there. With a halt at B: at once, after B and A were passed, or before. Halts at B and then at A, and the other
/// way round.
static GRAPHS: [(u32, Option<Minute>); 9] = [
    (8, Some(0)),
    (0, None),
    (0, None),
    (2, Some(0)),
    (20, Some(0)),
    (11, Some(1)),
    (22, Some(0)),
    (11, Some(0)),
    (13, Some(0)),
];

/// Every arc is allowed, and adds nothing.
#[derive(Clone, Copy)]
struct Free;

impl Weight for Free {
    ghost use Rattle.std.specs.Prelude.{true, pos};

    ghost asked = { λ _. 4294967296 };

    ghost allows = { λ _ _. true };

    ghost weight = { λ _ _. pos 0 };

    fn allowed(&self, _arc: u32) -> bool {
        true
    }

    fn of(&self, _arc: u32) -> i128 {
        0
    }
}

/// The walk of the first path.
fn first_walk(alloc: Global, graph: &TimeGraph) -> Result<Option<Walk>, NoMemory> {
    let dag = graph.dag();
    let _arcs = dag.arcs();
    let Some((_, path)) = first_best(alloc, dag, &Free)? else {
        return Ok(None);
    };
    Ok(Some(graph.walk_of(alloc, &path)?))
}

fn check(
    rt: &(impl Abort + AllocGlobal),
    inst: Instance<'_>,
    bid: &Bid,
    graph: &TimeGraph,
    want: (u32, Option<Minute>),
) -> Result<(), NoMemory> {
    let (arcs, departure) = want;
    same(rt, &graph.dag().arcs(), &arcs);
    match first_walk(rt.alloc(), graph)? {
        Some(walk) => {
            assert!(rt; follows(inst.net, bid, &walk.legs));
            same(rt, &walk.legs.first().map(|leg| leg.depart), &departure);
        }
        None => same(rt, &departure, &None),
    }
    Ok(())
}

/// Each bid has a graph of its own.
fn check_built(rt: &(impl Abort + AllocGlobal), inst: Instance<'_>) -> Result<(), NoMemory>
    requires { All (λ bid. IsPathOn inst.net.now bid.path) inst.bids.now }
{
    let mut builds = Builds::new();
    for (bid, want) in inst.bids.iter().zip(&GRAPHS) {
        let graph = build(rt.alloc(), inst.net, bid, &mut builds)?;
        check(rt, inst, bid, &graph, *want)?;
    }
    same(rt, &builds.count(), &9);
    Ok(())
}

/// Graphs that are served are those of the bids.
fn check_served<G: Graphs>(
    rt: &(impl Abort + AllocGlobal),
    inst: Instance<'_>,
    graphs: &mut G,
) -> Result<(), NoMemory>
    requires { All (λ bid. IsPathOn (G.network graphs.old) bid.path) inst.bids.now }
{
    graphs.prepare(rt.alloc(), inst.bids)?;
    let mut place = 0;
    for bid in inst.bids {
        assert!(rt; place < GRAPHS.len());
        check(rt, inst, bid, graphs.graph(bid), GRAPHS[place])?;
        place += 1;
    }
    Ok(())
}

/// Graphs that are served are built once each.
fn check_fresh(rt: &(impl Abort + AllocGlobal), inst: Instance<'_>) -> Result<(), NoMemory>
    requires { All (λ bid. IsPathOn inst.net.now bid.path) inst.bids.now }
{
    let mut graphs = FreshGraphs::new(inst.net);
    check_served(rt, inst, &mut graphs)?;
    same(rt, &graphs.builds(), &9);
    Ok(())
}

/// A store that holds nothing builds the graph of the first bid.
fn check_store(rt: &impl Abort, store: &mut GraphStore<'_>, bid: &Bid) -> Result<(), NoMemory>
    requires { IsPathOn store.old.network bid.now.path }
{
    assert!(rt; !store.holds(bid));
    let arcs = store.graph_for(bid)?.dag().arcs();
    same(rt, &arcs, &GRAPHS[0].0);
    assert!(rt; store.holds(bid));
    same(rt, &store.builds(), &1);
    Ok(())
}

/// A store builds the graph of a bid when it is asked for, and keeps it.
fn check_asked(rt: &(impl Abort + AllocGlobal), inst: Instance<'_>) -> Result<(), NoMemory>
    requires { All (λ bid. IsPathOn inst.net.now bid.path) inst.bids.now }
{
    let Some(bid) = inst.bids.first() else {
        return Ok(());
    };
    let mut store = GraphStore::new(rt.alloc(), inst.net)?;
    let checked = check_store(rt, &mut store, bid);
    drop(store);
    checked
}

/// The graphs that a store serves are built once each.
fn check_stored(
    rt: &(impl Abort + AllocGlobal),
    inst: Instance<'_>,
    store: &mut GraphStore<'_>,
) -> Result<(), NoMemory>
    requires { All (λ bid. IsPathOn store.old.network bid.path) inst.bids.now }
{
    check_served(rt, inst, store)?;
    same(rt, &store.builds(), &9);
    Ok(())
}

/// A store builds each graph once and keeps it.
fn check_kept(rt: &(impl Abort + AllocGlobal), inst: Instance<'_>) -> Result<(), NoMemory>
    requires { All (λ bid. IsPathOn inst.net.now bid.path) inst.bids.now }
{
    let mut store = GraphStore::new(rt.alloc(), inst.net)?;
    let checked = check_stored(rt, inst, &mut store);
    drop(store);
    checked
}

struct Counted;

impl Check for Counted {
    fn check<R: Abort + AllocGlobal>(&self, rt: &R, inst: Instance<'_>) -> Result<(), Fail> {
        check_built(rt, inst)?;
        check_fresh(rt, inst)?;
        check_kept(rt, inst)?;
        check_asked(rt, inst)?;
        Ok(())
    }
}

#[test]
fn graphs_have_the_arcs_that_were_counted_by_hand(rt: HostRuntime) -> Result<(), Fail> {
    check_read(&rt, &BIDS, &Counted)
}
