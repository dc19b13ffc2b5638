//! Dual values, price steps and the price path at two bids for one track, worked by hand. A train uses the five minutes from
//! its departure on, so both bids of one minute pay five times the price of a minute, and only one of them can run.
ghost use Rattle.std.specs.Prelude.{◌≡◌, [], IfOk, All, Contains, length};
ghost use Rattle.optra_node.specs.Nodes.{IsNode};
ghost use Rattle.optra_prices.specs.Keepings.{AreKept};
ghost use Rattle.optra_prices.specs.Steps.{AreProper};
ghost use Rattle.optra_rows.specs.Headways.{headway_rows};
ghost use Rattle.optra_rows.specs.TouchedLemmas.{row_cmp};

use crate::decisions::At::Halt;
use crate::decisions::{AB, Decided, node_of};
use crate::instances::{Check, PLAIN, Rows, check_read};
use optra_graph::{FreshGraphs, Graphs};
use optra_network::{Cents, Minute, NoMemory};
use optra_node::{Node, Prices};
use optra_prices::deads::dead;
use optra_prices::duals::dual;
use optra_prices::keeping::{bring_to, dual_over, keep_arcs};
use optra_prices::overfull::overfull_rows;
use optra_prices::{ArcTables, Dead, Dual, price_path, step};
use optra_rows::{HRow, HeadwayRows};
use optra_walk::{Instance, RowFamily, Walk};
use std::alloc::Global;
use std::process::Abort;
use std::test::Fail;

/// Two bids for minute 0 alone.
static ONE_MINUTE: Rows = Rows {
    bids: "b1,ann,ic,A,B,0,0,0,14,14,14,1000,0,0,0,0,0,0,0\nb2,ann,ic,A,B,0,0,0,14,14,14,1000,0,0,0,0,0,0,0\n",
    ..PLAIN
};

/// Two bids for minute 0 or 1, which are worth as much.
static TWO_MINUTES: Rows = Rows {
    bids: "b1,ann,ic,A,B,0,0,1,14,14,15,1000,0,0,0,0,0,0,0\nb2,ann,ic,A,B,0,0,1,14,14,15,1000,0,0,0,0,0,0,0\n",
    ..PLAIN
};

/// Two bids whose walk is worth 400 cents less than nothing.
static AT_A_LOSS: Rows = Rows {
    bids: "b1,ann,ic,A,B,0,0,0,14,14,14,1000,0,0,0,0,100,0,0\nb2,ann,ic,A,B,0,0,0,14,14,14,1000,0,0,0,0,100,0,0\n",
    ..PLAIN
};

/// Decisions, why a node with them is dead, and what its dual value is at zero prices: the value, the departures of the
/// replies and the terms.
struct Case {
    decisions: &'static [Decided],
    dead: Option<Dead<HRow>>,
    value: i128,
    departures: [Option<Minute>; 2],
    terms: [i128; 2],
}

const MINUTE_0: HRow = HRow::Window {
    track: AB,
    minute: 0,
};

static ONE_MINUTE_CASES: [Case; 6] = [
    Case {
        decisions: &[],
        dead: None,
        value: 2_000_000,
        departures: [Some(0), Some(0)],
        terms: [1_000_000, 1_000_000],
    },
    // The rows of the yes leg are full, so the other bid's leg is blocked.
    Case {
        decisions: &[(0, Halt(0), true)],
        dead: None,
        value: 1_000_000,
        departures: [Some(0), None],
        terms: [1_000_000, 0],
    },
    Case {
        decisions: &[(0, Halt(0), false), (1, Halt(0), false)],
        dead: None,
        value: 0,
        departures: [None, None],
        terms: [0, 0],
    },
    // A yes leg that no walk has.
    Case {
        decisions: &[(0, Halt(0), false), (0, Halt(1), true)],
        dead: Some(Dead::NoWalk { bid: 0 }),
        value: 0,
        departures: [None, None],
        terms: [0, 0],
    },
    Case {
        decisions: &[(1, Halt(1), true)],
        dead: Some(Dead::NoWalk { bid: 1 }),
        value: 0,
        departures: [None, None],
        terms: [0, 0],
    },
    Case {
        decisions: &[(0, Halt(0), true), (1, Halt(0), true)],
        dead: Some(Dead::Forced { row: MINUTE_0 }),
        value: 0,
        departures: [None, None],
        terms: [0, 0],
    },
];

static TWO_MINUTES_CASES: [Case; 2] = [
    Case {
        decisions: &[],
        dead: None,
        value: 2_000_000,
        departures: [Some(0), Some(0)],
        terms: [1_000_000, 1_000_000],
    },
    Case {
        decisions: &[(1, Halt(0), false)],
        dead: None,
        value: 2_000_000,
        departures: [Some(0), Some(1)],
        terms: [1_000_000, 1_000_000],
    },
];

static AT_A_LOSS_CASES: [Case; 2] = [
    Case {
        decisions: &[],
        dead: None,
        value: 0,
        departures: [None, None],
        terms: [0, 0],
    },
    Case {
        decisions: &[(1, Halt(0), true)],
        dead: None,
        value: -400_000,
        departures: [None, Some(0)],
        terms: [0, -400_000],
    },
];

/// The departure of a reply.
fn departure(reply: Option<&Option<Walk>>) -> Option<Minute> {
    let walk = reply?.as_ref()?;
    walk.legs.first().map(|leg| leg.depart)
}

fn check_departures(rt: &impl Abort, replies: &[Option<Walk>], want: &[Option<Minute>]) {
    assert_eq!(rt; replies.len(), want.len());
    for (k, minute) in want.iter().enumerate() {
        assert_eq!(rt; departure(replies.get(k)), *minute);
    }
}

/// No price at all.
fn no_prices(alloc: Global) -> Prices<HRow>
    ensures { result ≡ [] }
{
    Prices {
        entries: Vec::new(alloc),
    }
}

fn check_dual(rt: &impl Abort, found: &Dual, case: &Case) {
    assert_eq!(rt; found.value, case.value);
    assert_eq!(rt; found.terms.as_slice(), case.terms.as_slice());
    check_departures(rt, &found.replies, &case.departures);
}

/// What becomes of a node.
fn check_node<G: Graphs>(
    rt: &(impl Abort + AllocGlobal),
    inst: Instance<'_>,
    graphs: &G,
    node: &Node,
    case: &Case,
) -> Result<(), NoMemory>
    requires node { IsNode inst.net.now (length inst.bids.now) node.now }
    requires network { G.network graphs.now ≡ inst.net.now }
    requires held { All (λ bid. Contains (G.held graphs.now) bid.path) inst.bids.now }
{
    let alloc = rt.alloc();
    let rows = HeadwayRows::new();
    let reason = dead(alloc, inst, graphs, &rows, node)?;
    assert_eq!(rt; reason, case.dead);
    let found = dual(alloc, inst, graphs, &rows, node, &no_prices(alloc))?;
    check_dual(rt, &found, case);
    Ok(())
}

fn check_case<G: Graphs>(
    rt: &(impl Abort + AllocGlobal),
    inst: Instance<'_>,
    graphs: &G,
    case: &Case,
) -> Result<(), NoMemory>
    requires network { G.network graphs.now ≡ inst.net.now }
    requires held { All (λ bid. Contains (G.held graphs.now) bid.path) inst.bids.now }
{
    let node = node_of(rt, inst, case.decisions)?;
    check_node(rt, inst, graphs, &node, case)
}

fn check_all<G: Graphs>(
    rt: &(impl Abort + AllocGlobal),
    inst: Instance<'_>,
    graphs: &G,
    cases: &[Case],
) -> Result<(), NoMemory>
    requires network { G.network graphs.now ≡ inst.net.now }
    requires held { All (λ bid. Contains (G.held graphs.now) bid.path) inst.bids.now }
{
    for case in cases {
        check_case(rt, inst, graphs, case)?;
    }
    Ok(())
}

fn check_on_graphs(
    rt: &(impl Abort + AllocGlobal),
    inst: Instance<'_>,
    cases: &[Case],
) -> Result<(), NoMemory> {
    let mut graphs = FreshGraphs::new(inst.net);
    graphs.prepare(rt.alloc(), inst.bids)?;
    check_all(rt, inst, &graphs, cases)?;
    Ok(())
}

/// Dual values at nodes.
#[derive(Clone, Copy)]
struct Cases(&'static [Case]);

impl Check for Cases {
    fn check<R: Abort + AllocGlobal>(&self, rt: &R, inst: Instance<'_>) -> Result<(), Fail> {
        check_on_graphs(rt, inst, self.0)?;
        Ok(())
    }
}

#[test]
fn a_node_has_a_dual_value_or_is_dead(rt: HostRuntime) -> Result<(), Fail> {
    check_read(&rt, &ONE_MINUTE, &Cases(&ONE_MINUTE_CASES))?;
    check_read(&rt, &TWO_MINUTES, &Cases(&TWO_MINUTES_CASES))?;
    check_read(&rt, &AT_A_LOSS, &Cases(&AT_A_LOSS_CASES))
}

/// The price of each minute after steps 0 to 14 from zero prices: up while both bids reply, and down while none does.
static STEP_PRICES: [i64; 15] = [
    250000, 125000, 208333, 145833, 195833, 237499, 201785, 170535, 198312, 223312, 200585, 179752,
    198982, 216839, 200173,
];

/// The prices after a step by the replies at the prices before it.
fn stepped<G: Graphs>(
    alloc: Global,
    inst: Instance<'_>,
    graphs: &G,
    node: &Node,
    prices: &Prices<HRow>,
    k: u32,
) -> Result<Prices<HRow>, NoMemory>
    requires node { IsNode inst.net.now (length inst.bids.now) node.now }
    requires network { G.network graphs.now ≡ inst.net.now }
    requires held { All (λ bid. Contains (G.held graphs.now) bid.path) inst.bids.now }
    requires prices { AreProper row_cmp (headway_rows inst.net.now) prices.now }
    ensures { IfOk result (λ next. AreProper row_cmp (headway_rows inst.entry.net.now) next) }
{
    let rows = HeadwayRows::new();
    let before = dual(alloc, inst, graphs, &rows, node, prices)?;
    let next = step(alloc, inst, &rows, prices, &before.replies, k)?;
    Ok(next)
}

/// Whether the prices are those of the minutes 0 to 4 at one price.
fn check_prices(rt: &impl Abort, prices: &Prices<HRow>, want: i64) {
    assert_eq!(rt; prices.entries.len(), 5);
    for (minute, (row, price)) in prices.entries.iter().enumerate() {
        let minute = minute as u16;
        assert!(rt; *row == HRow::Window { track: AB, minute }, "at {minute}");
        assert_eq!(rt; *price, want, "at {minute}");
    }
}

/// After the last step either bid costs more than it brings.
fn check_last<G: Graphs>(
    rt: &(impl Abort + AllocGlobal),
    inst: Instance<'_>,
    graphs: &G,
    node: &Node,
    prices: &Prices<HRow>,
) -> Result<(), NoMemory>
    requires node { IsNode inst.net.now (length inst.bids.now) node.now }
    requires network { G.network graphs.now ≡ inst.net.now }
    requires held { All (λ bid. Contains (G.held graphs.now) bid.path) inst.bids.now }
    requires prices { AreProper row_cmp (headway_rows inst.net.now) prices.now }
{
    let last = dual(rt.alloc(), inst, graphs, &HeadwayRows::new(), node, prices)?;
    assert_eq!(rt; last.value, 5 * 200173);
    check_departures(rt, &last.replies, &[None, None]);
    Ok(())
}

fn check_steps<G: Graphs>(
    rt: &(impl Abort + AllocGlobal),
    inst: Instance<'_>,
    graphs: &G,
) -> Result<(), NoMemory>
    requires network { G.network graphs.now ≡ inst.net.now }
    requires held { All (λ bid. Contains (G.held graphs.now) bid.path) inst.bids.now }
{
    let alloc = rt.alloc();
    let root = Node::root(alloc);
    let mut prices = no_prices(alloc);
    for k in 0..15 {
        prices = stepped(alloc, inst, graphs, &root, &prices, k)?;
        check_prices(rt, &prices, STEP_PRICES[k as usize]);
    }
    check_last(rt, inst, graphs, &root, &prices)
}

/// The price path of at most 15 steps from zero prices, whose last prices are too high for either bid.
fn check_result<G: Graphs>(
    rt: &(impl Abort + AllocGlobal),
    inst: Instance<'_>,
    graphs: &G,
    incumbent: Cents,
    want: i64,
) -> Result<(), NoMemory>
    requires network { G.network graphs.now ≡ inst.net.now }
    requires held { All (λ bid. Contains (G.held graphs.now) bid.path) inst.bids.now }
{
    let alloc = rt.alloc();
    let rows = HeadwayRows::new();
    let root = Node::root(alloc);
    let zero = no_prices(alloc);
    let found = price_path(alloc, inst, graphs, &rows, &root, &zero, 15, incumbent)?;
    check_prices(rt, &found.prices, want);
    assert_eq!(rt; found.dual.value, 5 * i128::from(want));
    Ok(())
}

/// The steps one by one; and the path, which goes on to the last step, or ends after the first one.
fn check_path<G: Graphs>(
    rt: &(impl Abort + AllocGlobal),
    inst: Instance<'_>,
    graphs: &G,
) -> Result<(), NoMemory>
    requires network { G.network graphs.now ≡ inst.net.now }
    requires held { All (λ bid. Contains (G.held graphs.now) bid.path) inst.bids.now }
{
    check_steps(rt, inst, graphs)?;
    check_result(rt, inst, graphs, 0, 200173)?;
    check_result(rt, inst, graphs, 1250, 250000)?;
    Ok(())
}

fn check_path_on_graphs(
    rt: &(impl Abort + AllocGlobal),
    inst: Instance<'_>,
) -> Result<(), NoMemory> {
    let mut graphs = FreshGraphs::new(inst.net);
    graphs.prepare(rt.alloc(), inst.bids)?;
    check_path(rt, inst, &graphs)?;
    Ok(())
}

struct Path;

impl Check for Path {
    fn check<R: Abort + AllocGlobal>(&self, rt: &R, inst: Instance<'_>) -> Result<(), Fail> {
        check_path_on_graphs(rt, inst)?;
        Ok(())
    }
}

#[test]
fn prices_rise_and_fall_by_the_replies(rt: HostRuntime) -> Result<(), Fail> {
    check_read(&rt, &ONE_MINUTE, &Path)
}

/// The rows that the replies at these prices overfill, by tables that are brought to the node.
fn overfilled_at<F: RowFamily>(
    alloc: Global,
    inst: Instance<'_>,
    rows: &F,
    node: &Node,
    prices: &Prices<F::Row>,
    kept: &mut ArcTables<'_, F::Row>,
) -> Result<Vec<F::Row>, NoMemory>
    requires node { IsNode inst.net.now (length inst.bids.now) node.now }
    requires prices { AreProper F.Row.cmp (F.rows_of rows.now inst.net.now) prices.now }
    requires kept { AreKept F.Row.cmp inst.net.now (F.rows_of rows.now inst.net.now)
        (F.rows_used rows.now inst.net.now) inst.bids.now kept.old }
{
    bring_to(alloc, inst, rows, node, kept)?;
    let dual = dual_over(alloc, inst, rows, node, kept, prices)?;
    drop(dual);
    overfull_rows(alloc, inst, rows, node, kept)
}

/// The rows that the replies at no prices overfill at the root, ascending.
fn overfilled<G: Graphs>(
    alloc: Global,
    inst: Instance<'_>,
    graphs: &G,
) -> Result<Vec<HRow>, NoMemory>
    requires network { G.network graphs.now ≡ inst.net.now }
    requires held { All (λ bid. Contains (G.held graphs.now) bid.path) inst.bids.now }
{
    let rows = HeadwayRows::new();
    let root = Node::root(alloc);
    let zero = no_prices(alloc);
    let mut kept = keep_arcs(alloc, inst, graphs, &rows)?;
    let listed = overfilled_at(alloc, inst, &rows, &root, &zero, &mut kept);
    drop(kept);
    let mut listed = listed?;
    listed.sort_unstable();
    Ok(listed)
}

/// They overfill so many minutes from 0 on, and no other row.
fn check_overfull<G: Graphs>(
    rt: &(impl Abort + AllocGlobal),
    inst: Instance<'_>,
    graphs: &G,
    minutes: Minute,
) -> Result<(), NoMemory>
    requires network { G.network graphs.now ≡ inst.net.now }
    requires held { All (λ bid. Contains (G.held graphs.now) bid.path) inst.bids.now }
{
    let listed = overfilled(rt.alloc(), inst, graphs)?;
    assert_eq!(rt; listed.len(), usize::from(minutes));
    for (row, minute) in listed.iter().zip(0..minutes) {
        assert!(rt; *row == HRow::Window { track: AB, minute }, "at {minute}");
    }
    Ok(())
}

fn check_overfull_on_graphs(
    rt: &(impl Abort + AllocGlobal),
    inst: Instance<'_>,
    minutes: Minute,
) -> Result<(), NoMemory> {
    let mut graphs = FreshGraphs::new(inst.net);
    graphs.prepare(rt.alloc(), inst.bids)?;
    check_overfull(rt, inst, &graphs, minutes)?;
    Ok(())
}

/// So many minutes are overfilled.
struct Overfull(Minute);

impl Check for Overfull {
    fn check<R: Abort + AllocGlobal>(&self, rt: &R, inst: Instance<'_>) -> Result<(), Fail> {
        check_overfull_on_graphs(rt, inst, self.0)?;
        Ok(())
    }
}

#[test]
fn replies_for_one_minute_overfill_its_five_rows(rt: HostRuntime) -> Result<(), Fail> {
    check_read(&rt, &ONE_MINUTE, &Overfull(5))?;
    check_read(&rt, &AT_A_LOSS, &Overfull(0))
}
