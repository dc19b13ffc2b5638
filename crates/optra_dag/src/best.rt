//! The first path of greatest weight, by the search that is fastest for the weights.
ghost use Rattle.std.specs.Prelude.{◌≡◌, ◌<◌, ◌≤◌, ℕ, true, List, length, IfOk, IfSome, IfNone};
ghost use Rattle.optra_dag.specs.Agreeing.{AgreeBelow};
ghost use Rattle.optra_dag.specs.NarrowSums.{IsWithin};
ghost use Rattle.optra_dag.specs.Paths.{IsFirstBest, IsPath, IsWeight};

use crate::NoMemory;
use crate::buffers::Buffers;
use crate::graphs::Dag;
use crate::narrow::{NarrowWeight, is_narrow, narrow_best_in};
use crate::searching::{Weight, first_best_in};

/// Like [`first_best_in`], in 64 bits where these hold all sums, by the same arcs and weights in 64 bits. No allowed arc weighs more
/// than `most` in size.
pub fn best_by<W: Weight, N: NarrowWeight>(
    buffers: &mut Buffers,
    dag: &Dag,
    weight: &W,
    narrow: &N,
    most: u64,
) -> Result<Option<i128>, NoMemory>
    requires asked { length dag.now.arcs ≤ W.asked weight.now }
    requires narrow_asked { length dag.now.arcs ≤ N.asked narrow.now }
    requires weights { (k : ℕ) → k < length dag.now.arcs → IsWeight (W.weight weight.now k) }
    requires most { (k : ℕ) → k < length dag.now.arcs → W.allows weight.now k ≡ true
        → IsWithin most (W.weight weight.now k) }
    requires same { AgreeBelow (length dag.now.arcs) (W.allows weight.now) (W.weight weight.now)
        (N.allows narrow.now) (N.weight narrow.now) }
    ensures best { IfOk result (λ answer. IfSome answer (λ sum. IsFirstBest dag.now
        (W.allows weight.now) (W.weight weight.now) sum buffers.new)) }
    ensures none { IfOk result (λ answer. IfNone answer ((path : List ℕ) → IsPath dag.now
        (W.allows weight.now) path → ⊥)) }
{
    if !is_narrow(dag, most) {
        return first_best_in(buffers, dag, weight);
    }
    let Some(sum) = narrow_best_in(buffers, dag, narrow, most)? else {
        return Ok(None);
    };
    Ok(Some(i128::from(sum)))
}
