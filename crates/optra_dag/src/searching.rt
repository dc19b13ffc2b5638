//! The first path of greatest weight: one pass over the arcs from last to first, and one walk along the answer.
ghost use Rattle.std.specs.Prelude.{◌≡◌, ℕ, Bool, true, [], ◌+◌, ◌-◌, ◌<◌, ◌≤◌, ◌^◌, length, IfOk, OnOk, IfSome, IfNone, OnSome, ℤ, ◌≤ℤ◌, List, ◌⊎◌, ◌<ℤ◌, ◌≢◌, ◌↔◌, IsTrue, map, replicate};
ghost use Rattle.optra_dag.specs.Paths.{IsPath, IsFirstBest, IsForward, IsWeight};
ghost use Rattle.optra_dag.specs.WaySums.{open_graph, plain_graph, first_sum, first_sums, AreDone, Traces, LeadForward};

use crate::arc_slice::ArcSlice;
use crate::buffers::Buffers;
use crate::graphs::Dag;
use crate::{Arc, NoMemory};
use std::alloc::Global;

/// Which arcs a path may take, and what each adds. The answers depend on the arc alone while the value is lent.
pub trait Weight {
    /// It may be asked about the arcs below this number.
    ghost asked: { Self → ℕ };

    ghost allows: { Self → ℕ → Bool };

    ghost weight: { Self → ℕ → ℤ };

    /// Whether a path may take the arc.
    fn allowed(&self, arc: u32) -> bool
        requires { arc < asked self.now }
        ensures { result ≡ allows self.now arc };

    /// What the arc adds to the sum of a path.
    fn of(&self, arc: u32) -> i128
        requires { arc < asked self.now }
        ensures { result ≡ weight self.now arc };
}

/// The sum at a node from which no end is reached.
const NO_WAY: i128 = i128::MIN;

/// The next arc at a node where the path ends.
const STOP: u32 = u32::MAX;

/// Of the nonempty paths of allowed arcs from node 0 to an end, the first one in the lexicographic order of arc
/// numbers among those of greatest weight, with its weight. `None` comes exactly where there is no such path.
/// The weights must be from -2^60 to 2^60.
pub fn first_best<W: Weight>(
    alloc: Global,
    dag: &Dag,
    weight: &W,
) -> Result<Option<(i128, Vec<u32>)>, NoMemory>
    requires asked { length dag.now.arcs ≤ W.asked weight.now }
    requires weights { (k : ℕ) → k < length dag.now.arcs → IsWeight (W.weight weight.now k) }
    ensures best { IfOk result (λ answer. IfSome answer (λ best. IsFirstBest dag.now
        (W.allows weight.now) (W.weight weight.now) best.0 best.1.items)) }
    ensures none { IfOk result (λ answer. IfNone answer ((path : List ℕ) → IsPath dag.now
        (W.allows weight.now) path → ⊥)) }
{
    let mut buffers = Buffers::new(alloc);
    let Some(sum) = first_best_in(&mut buffers, dag, weight)? else {
        return Ok(None);
    };
    let Buffers { path, .. } = buffers;
    Ok(Some((sum, path)))
}

/// The same over lent buffers, for callers that search many times: `Some` with the weight where there is a path,
/// which the buffers then hold. They are emptied first, and grow where the graph needs more than they had. After
/// `NoMemory` they may hold any path; the next search empties them as well.
pub fn first_best_in<W: Weight>(
    buffers: &mut Buffers,
    dag: &Dag,
    weight: &W,
) -> Result<Option<i128>, NoMemory>
    requires asked { length dag.now.arcs ≤ W.asked weight.now }
    requires weights { (k : ℕ) → k < length dag.now.arcs → IsWeight (W.weight weight.now k) }
    ensures best { IfOk result (λ answer. IfSome answer (λ sum. IsFirstBest dag.now
        (W.allows weight.now) (W.weight weight.now) sum buffers.new)) }
    ensures none { IfOk result (λ answer. IfNone answer ((path : List ℕ) → IsPath dag.now
        (W.allows weight.now) path → ⊥)) }
{
    let arcs = dag.arcs.slice();
    let ends = &dag.ends;
    search(
        &mut buffers.sums,
        &mut buffers.next,
        &mut buffers.path,
        &arcs,
        ends,
        weight,
    )
}

fn search<W: Weight>(
    sums: &mut Vec<i128>,
    next: &mut Vec<u32>,
    path: &mut Vec<u32>,
    arcs: &ArcSlice<'_>,
    ends: &[bool],
    weight: &W,
) -> Result<Option<i128>, NoMemory>
    requires forward { IsForward (plain_graph arcs.now ends.now) }
    requires asked { length arcs.now ≤ W.asked weight.now }
    requires weights { (k : ℕ) → k < length arcs.now → IsWeight (W.weight weight.now k) }
    ensures best { IfOk result (λ answer. IfSome answer (λ sum. IsFirstBest
        (plain_graph arcs.now ends.now) (W.allows weight.now)
        (W.weight weight.now) sum path.new.items)) }
    ensures none { IfOk result (λ answer. IfNone answer ((path : List ℕ) → IsPath
        (plain_graph arcs.now ends.now) (W.allows weight.now) path → ⊥)) }
{
    start_sums(sums, ends)?;
    start_next(next, ends.len())?;
    find_ways(sums, next, arcs, ends, weight);
    let sum = sums[0];
    if sum == NO_WAY {
        return Ok(None);
    }
    path_by(path, arcs, next)?;
    Ok(Some(sum))
}

fn first_sum(end: bool) -> i128
    ensures { result ≡ first_sum end }
{
    if end { 0 } else { NO_WAY }
}

fn end_sums(sums: &mut Vec<i128>, ends: &[bool]) -> Result<(), NoMemory>
    ensures { OnOk result (sums.new.items ≡ map first_sum ends.now) }
{
    sums.clear();
    sums.reserve(ends.len())?;
    for end in ends {
        sums.push(first_sum(*end))?;
    }
    Ok(())
}

/// The sums of the empty ways: 0 at an end, but the path from node 0 may not be empty.
fn start_sums(sums: &mut Vec<i128>, ends: &[bool]) -> Result<(), NoMemory>
    requires { 0 < length ends.now }
    ensures { OnOk result (sums.new.items ≡ first_sums ends.now) }
{
    end_sums(sums, ends)?;
    sums[0] = NO_WAY;
    Ok(())
}

/// No arcs on yet, for so many nodes.
fn start_next(next: &mut Vec<u32>, nodes: usize) -> Result<(), NoMemory>
    ensures { OnOk result (next.new.items ≡ replicate nodes STOP) }
{
    next.clear();
    next.resize(nodes, STOP)
}

/// Whether an arc that gives the sum goes before what its node has: one that does as well goes before
/// another arc, but not before the empty way.
fn wins(sum: i128, old: i128, next: u32) -> bool
    ensures { IsTrue result ↔ ((old <ℤ sum) ⊎ ((sum ≡ old) × (next ≢ STOP))) }
{
    sum > old || (sum == old && next != STOP)
}

/// Goes over the arcs from last to first, each time with the first best ways by the arcs from there on.
fn find_ways<W: Weight>(
    sums: &mut Vec<i128>,
    next: &mut Vec<u32>,
    arcs: &ArcSlice<'_>,
    ends: &[bool],
    weight: &W,
)
    requires forward { IsForward (plain_graph arcs.now ends.now) }
    requires asked { length arcs.now ≤ W.asked weight.now }
    requires weights { (k : ℕ) → k < length arcs.now → IsWeight (W.weight weight.now k) }
    requires sums { sums.old.items ≡ first_sums ends.now }
    requires next { next.old.items ≡ replicate (length ends.now) STOP }
    ensures sums { length sums.new.items ≡ length ends.now }
    ensures next { length next.new.items ≡ length ends.now }
    ensures done { AreDone (open_graph arcs.now ends.now) (W.allows weight.now)
        (W.weight weight.now) STOP NO_WAY next.new.items sums.new.items 0 }
{
    let mut left = arcs.len();
    while left > 0 {
        left -= 1;
        let number = left as u32;
        let Arc { from, to } = arcs.at(left);
        let rest = sums[to as usize];
        if rest == NO_WAY || !weight.allowed(number) {
            continue;
        }
        let sum = weight.of(number) + rest;
        if wins(sum, sums[from as usize], next[from as usize]) {
            sums[from as usize] = sum;
            next[from as usize] = number;
        }
    }
}

/// The path from node 0 by the next arcs.
fn path_by(path: &mut Vec<u32>, arcs: &ArcSlice<'_>, next: &[u32]) -> Result<(), NoMemory>
    requires some { 0 < length next.now }
    requires forward { LeadForward arcs.now (length next.now) }
    requires few { length arcs.now ≤ STOP }
    requires traced { (path : List ℕ) × Traces arcs.now STOP next.now 0 path }
    ensures { OnOk result (Traces arcs.now STOP next.now 0 path.new.items) }
{
    path.clear();
    let mut node: u32 = 0;
    while next[node as usize] != STOP {
        let number = next[node as usize];
        path.push(number)?;
        node = arcs.at(number as usize).to;
    }
    Ok(())
}
