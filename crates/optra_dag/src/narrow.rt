//! The first path of greatest weight in 64 bits: the best sum of each node, by the arcs from the
//! last one to the first, and then the path by these sums.
ghost use Rattle.std.specs.Prelude.{◌≡◌, ◌≢◌, ℕ, Bool, true, false, ◌*◌, ◌<◌, ◌≤◌, ◌↔◌, ◌≤ℤ◌, pos, length, slice_index_or, slice_set, IfOk, OnOk, IfSome, IfNone, IsTrue, ℤ, List};
ghost use Rattle.optra_dag.specs.Paths.{IsPath, IsFirstBest, IsForward};
ghost use Rattle.optra_dag.specs.WaySums.{open_graph, plain_graph};
ghost use Rattle.optra_dag.specs.Spans.{StandsIn};
ghost use Rattle.optra_dag.specs.NarrowSums.{IsWithin, arc_value, sum_by, CanBeSummed, IsFirstBy, empty_sum, AreEmptySums, IsNarrow, HasSums, IsFirstWay, IsOver, LeaveNoEnd};

use crate::arc_slice::ArcSlice;
use crate::buffers::Buffers;
use crate::ends::Ends;
use crate::graphs::Dag;
use crate::narrow_slice::NarrowSlice;
use crate::spans::Span;
use crate::{Arc, NoMemory};

/// The value of an arc that no path may take, far below all sums.
pub const FAR: i64 = -4611686018427387904;

/// The most that the bound of the weights times the count of nodes may be for a narrow search:
/// 2^60.
pub const NARROW_ROOM: u64 = 1152921504606846976;

/// Half of [`FAR`]. No path has so low a sum.
const LEAST: i64 = -2305843009213693952;

/// Which arcs a path may take, and what each adds, in 64 bits. The answers depend on the arc alone
/// while the value is lent.
pub trait NarrowWeight: Drop {
    /// It may be asked about the arcs below this number.
    ghost asked: { Self → ℕ };

    ghost allows: { Self → ℕ → Bool };

    ghost weight: { Self → ℕ → ℤ };

    /// What the arc adds to the sum of a path; [`FAR`] where no path may take it.
    fn of(&self, arc: u32) -> i64
        requires { arc < asked self.now }
        ensures allowed { allows self.now arc ≡ true → result ≡ weight self.now arc }
        ensures other { allows self.now arc ≡ false → result ≡ FAR };

    /// The same value once more. A search holds one of its own, so that nothing which it writes can be
    /// a part of it.
    fn copied(&self) -> Self
        ensures { result ≡ self.now };
}

/// Whether [`narrow_best_in`] may go over the graph where each allowed arc weighs from `-most` to
/// `most`.
pub fn is_narrow(dag: &Dag, most: u64) -> bool
    ensures { IsTrue result ↔ (most * length dag.now.ends ≤ NARROW_ROOM) }
{
    match most.checked_mul(dag.ends.len() as u64) {
        Some(all) => all <= NARROW_ROOM,
        None => false,
    }
}

/// Like [`first_best_in`](crate::first_best_in), in 64 bits and several times as fast: `Some` with
/// the weight where there is a path, which the buffers then hold, and `None` exactly where there is
/// none. Each allowed arc weighs from `-most` to `most`, and `most` times the count of nodes is at
/// most [`NARROW_ROOM`], as [`is_narrow`] tells. After `NoMemory` the buffers may hold any path;
/// the next search empties them as well.
pub fn narrow_best_in<W: NarrowWeight>(
    buffers: &mut Buffers,
    dag: &Dag,
    weight: &W,
    most: u64,
) -> Result<Option<i64>, NoMemory>
    requires asked { length dag.now.arcs ≤ W.asked weight.now }
    requires weights { (k : ℕ) → k < length dag.now.arcs → W.allows weight.now k ≡ true
        → IsWithin most (W.weight weight.now k) }
    requires room { most * length dag.now.ends ≤ NARROW_ROOM }
    ensures best { IfOk result (λ answer. IfSome answer (λ sum.
        IsFirstBest dag.now (W.allows weight.now) (W.weight weight.now) sum buffers.new)) }
    ensures none { IfOk result (λ answer. IfNone answer
        ((path : List ℕ) → IsPath dag.now (W.allows weight.now) path → ⊥)) }
{
    let sums = &mut buffers.narrow;
    let path = &mut buffers.path;
    let arcs = dag.arcs.slice();
    let ends = dag.ends();
    let starts = &dag.starts;
    start(sums, &ends)?;
    search(sums, path, &arcs, &ends, starts, weight, most)
}

/// The search, from the sums of the empty ways on.
fn search<W: NarrowWeight>(
    sums: &mut [i64],
    path: &mut Vec<u32>,
    arcs: &ArcSlice<'_>,
    ends: &Ends<'_>,
    starts: &[u32],
    weight: &W,
    most: u64,
) -> Result<Option<i64>, NoMemory>
    requires asked { length arcs.now ≤ W.asked weight.now }
    requires narrow { IsNarrow arcs.now ends.now starts.now
        (W.allows weight.now) (W.weight weight.now) most }
    requires long { length sums.old ≡ length ends.now }
    requires empty { AreEmptySums ends.now sums.old (length ends.now) }
    ensures best { IfOk result (λ answer. IfSome answer (λ sum.
        IsFirstBest (plain_graph arcs.now ends.now)
        (W.allows weight.now) (W.weight weight.now) sum path.new.items)) }
    ensures none { IfOk result (λ answer. IfNone answer
        ((path : List ℕ) → IsPath (plain_graph arcs.now ends.now) (W.allows weight.now) path → ⊥)) }
{
    sweep(sums, arcs, ends, starts, weight, most);
    let sum = sums[0];
    if sum < LEAST {
        return Ok(None);
    }
    trace(path, sums, arcs, ends, starts, weight, most)?;
    Ok(Some(sum))
}

/// Whether the node is an end; the path from node 0 may not be empty.
fn ends_at(ends: &Ends<'_>, node: usize) -> bool
    requires { node < length ends.now }
    ensures { result ≡ slice_index_or (slice_set ends.now 0 false) node false }
{
    node != 0 && ends.flags[node]
}

/// The sum of the empty way.
fn empty_sum(end: bool) -> i64
    ensures { result ≡ empty_sum end }
{
    if end { 0 } else { FAR }
}

/// The sums of the empty ways. What the array held before is not read.
fn start(sums: &mut Vec<i64>, ends: &Ends<'_>) -> Result<(), NoMemory>
    ensures long { OnOk result (length sums.new.items ≡ length ends.now) }
    ensures empty { OnOk result (AreEmptySums ends.now sums.new.items (length ends.now)) }
{
    let count = ends.flags.len();
    sums.clear();
    sums.resize(count, FAR)?;
    'nodes: for node in ends.first as usize..count {
        sums[node] = empty_sum(ends_at(ends, node));
    }
    Ok(())
}

/// Whether all arcs leave nodes that are no ends.
fn lead_from_no_end(arcs: &NarrowSlice<'_>, ends: &Ends<'_>) -> bool
    requires { IsForward (plain_graph arcs.now ends.now) }
    ensures { IsTrue result → LeaveNoEnd arcs.now ends.now }
{
    let count = arcs.len();
    count == 0 || arcs.at(count - 1).from < ends.first
}

/// The arcs, where all of them are narrow and leave nodes that are no ends. A `None` too many costs time alone: the sums of the nodes
/// are then read at each arc.
fn inner_arcs<'a>(arcs: &ArcSlice<'a>, ends: &Ends<'_>) -> Option<NarrowSlice<'a>>
    requires { IsForward (plain_graph arcs.now ends.now) }
    ensures same { IfSome result (λ inner. inner ≡ arcs.now) }
    ensures inner { IfSome result (λ inner. LeaveNoEnd inner ends.now) }
{
    let narrow = arcs.all_narrow()?;
    if !lead_from_no_end(&narrow, ends) {
        return None;
    }
    Some(narrow)
}

/// The sums of all nodes, by the arcs from the last one to the first: an arc that leads to a node stands before all arcs
/// that leave it, so that the sum there is whole by then.
fn sweep_any<W: NarrowWeight>(
    sums: &mut [i64],
    arcs: &ArcSlice<'_>,
    ends: &Ends<'_>,
    starts: &[u32],
    weight: &W,
    most: u64,
)
    requires asked { length arcs.now ≤ W.asked weight.now }
    requires narrow { IsNarrow arcs.now ends.now starts.now
        (W.allows weight.now) (W.weight weight.now) most }
    requires long { length sums.old ≡ length ends.now }
    requires empty { AreEmptySums ends.now sums.old (length ends.now) }
    ensures long { length sums.new ≡ length ends.now }
    ensures summed { HasSums arcs.now ends.now
        (W.allows weight.now) (W.weight weight.now) most sums.new 0 }
{
    let _ends = ends;
    let _starts = starts;
    let _most = most;
    let mut left = arcs.len();
    'arcs: while left > 0 {
        left -= 1;
        let Arc { from, to } = arcs.at(left);
        let sum = weight.of(left as u32) + sums[to as usize];
        sums[from as usize] = sums[from as usize].max(sum);
    }
}

/// The sum of the node that an arc leaves before the arc, where the sum of the last arc's node is at hand: no arc of another
/// node was gone through yet.
fn sum_before(best: i64, node: u32, from: u32) -> i64
    ensures same { from ≡ node → result ≡ best }
    ensures other { from ≢ node → result ≡ FAR }
{
    if from == node { best } else { FAR }
}

/// As [`sweep_any`], where no arc leaves an end: the sum of a node is kept at hand while its arcs are gone through. Searches
/// spend their time in its loop, which has all registers to itself where it is no part of its caller.
#[inline(never)]
fn sweep_inner<W: NarrowWeight>(
    sums: &mut [i64],
    arcs: &NarrowSlice<'_>,
    ends: &Ends<'_>,
    starts: &[u32],
    weight: &W,
    most: u64,
)
    requires asked { length arcs.now ≤ W.asked weight.now }
    requires narrow { IsNarrow arcs.now ends.now starts.now
        (W.allows weight.now) (W.weight weight.now) most }
    requires inner { LeaveNoEnd arcs.now ends.now }
    requires long { length sums.old ≡ length ends.now }
    requires empty { AreEmptySums ends.now sums.old (length ends.now) }
    ensures long { length sums.new ≡ length ends.now }
    ensures summed { HasSums arcs.now ends.now
        (W.allows weight.now) (W.weight weight.now) most sums.new 0 }
{
    let _ends = ends;
    let _starts = starts;
    let _most = most;
    let held = weight.copied();
    let mut left = arcs.len() as u32;
    let mut node = 0;
    let mut best = sums[0];
    'arcs: while left > 0 {
        left -= 1;
        let Arc { from, to } = arcs.at(left as usize);
        let sum = held.of(left) + sums[to as usize];
        best = sum_before(best, node, from).max(sum);
        node = from;
        sums[from as usize] = best;
    }
}

/// The sums of all nodes, by the arcs from the last one to the first: an arc that leads to a node stands before all arcs
/// that leave it, so that the sum there is whole by then.
fn sweep<W: NarrowWeight>(
    sums: &mut [i64],
    arcs: &ArcSlice<'_>,
    ends: &Ends<'_>,
    starts: &[u32],
    weight: &W,
    most: u64,
)
    requires asked { length arcs.now ≤ W.asked weight.now }
    requires narrow { IsNarrow arcs.now ends.now starts.now
        (W.allows weight.now) (W.weight weight.now) most }
    requires long { length sums.old ≡ length ends.now }
    requires empty { AreEmptySums ends.now sums.old (length ends.now) }
    ensures long { length sums.new ≡ length ends.now }
    ensures summed { HasSums arcs.now ends.now
        (W.allows weight.now) (W.weight weight.now) most sums.new 0 }
{
    match inner_arcs(arcs, ends) {
        Some(inner) => sweep_inner(sums, &inner, ends, starts, weight, most),
        None => sweep_any(sums, arcs, ends, starts, weight, most),
    }
}

/// The path from node 0 by the sums: at each node by its first arc that gives the node's sum.
fn trace<W: NarrowWeight>(
    path: &mut Vec<u32>,
    sums: &[i64],
    arcs: &ArcSlice<'_>,
    ends: &Ends<'_>,
    starts: &[u32],
    weight: &W,
    most: u64,
) -> Result<(), NoMemory>
    requires asked { length arcs.now ≤ W.asked weight.now }
    requires narrow { IsNarrow arcs.now ends.now starts.now
        (W.allows weight.now) (W.weight weight.now) most }
    requires long { length sums.now ≡ length ends.now }
    requires summed { HasSums arcs.now ends.now
        (W.allows weight.now) (W.weight weight.now) most sums.now 0 }
    requires reached { LEAST ≤ℤ slice_index_or sums.now 0 (pos 0) }
    ensures { OnOk result (IsFirstWay (open_graph arcs.now ends.now)
        (W.allows weight.now) (W.weight weight.now)
        0 (slice_index_or sums.now 0 (pos 0)) path.new.items) }
{
    let _most = most;
    path.clear();
    let mut node: u32 = 0;
    'nodes: while !is_over(ends, sums, node as usize) {
        let sum = sums[node as usize];
        let span = Span::of(starts, arcs.len() as u32, node);
        let number = first_arc_by(sums, arcs, span, weight, sum);
        path.push(number)?;
        node = arcs.at(number as usize).to;
    }
    Ok(())
}

/// Whether the path ends at the node: the empty way is as good as any, and comes before all others.
fn is_over(ends: &Ends<'_>, sums: &[i64], node: usize) -> bool
    requires end { node < length ends.now }
    requires sum { node < length sums.now }
    ensures { IsTrue result ↔ IsOver ends.now sums.now node }
{
    sums[node] == 0 && ends_at(ends, node)
}

/// The first arc of the span that gives the sum; one does.
fn first_arc_by<W: NarrowWeight>(
    sums: &[i64],
    arcs: &ArcSlice<'_>,
    span: Span,
    weight: &W,
    sum: i64,
) -> u32
    requires asked { length arcs.now ≤ W.asked weight.now }
    requires sums { (k : ℕ) → StandsIn span k → CanBeSummed arcs.now
        (arc_value (W.allows weight.now) (W.weight weight.now)) sums.now k }
    requires one { (k : ℕ) × StandsIn span k × (sum_by arcs.now
        (arc_value (W.allows weight.now) (W.weight weight.now)) sums.now k ≡ sum) }
    ensures { IsFirstBy (sum_by arcs.now
        (arc_value (W.allows weight.now) (W.weight weight.now)) sums.now) span sum result }
{
    let mut k = span.start;
    'arcs: while weight.of(k) + sums[arcs.at(k as usize).to as usize] != sum {
        k += 1;
    }
    k
}
