//! The walk that is worth most of those that may be taken.
ghost use Rattle.std.specs.Prelude.{◌≡◌, length, All, IfOk, MatchBool, pos, ◌<ℤ◌, ◌≤ℤ◌};
ghost use Rattle.optra_prices.specs.Arcs.{IsArcValue};
ghost use Rattle.optra_repair.specs.Parts.{IsWorthPath};

use optra_dag::{Buffers, FAR, NarrowWeight, Weight, best_by};
use optra_graph::TimeGraph;
use optra_network::NoMemory;
use optra_prices::parts::ArcPart;

/// The parts of a graph's arcs, by number.
#[derive(Clone, Copy)]
struct Parts<'a> {
    parts: &'a [ArcPart],
}

impl Weight for Parts<'_> {
    ghost use Rattle.std.specs.Prelude.{length};
    ghost use Rattle.optra_repair.specs.Parts.{allows_at, weight_at};

    ghost asked = { λ w. length w.parts.now };

    ghost allows = { λ w k. allows_at w.parts.now k };

    ghost weight = { λ w k. weight_at w.parts.now k };

    fn allowed(&self, arc: u32) -> bool {
        self.parts[arc as usize].allowed
    }

    fn of(&self, arc: u32) -> i128 {
        i128::from(self.parts[arc as usize].value)
    }
}

impl<'a> NarrowWeight for Parts<'a> {
    ghost use Rattle.std.specs.Prelude.{length};
    ghost use Rattle.optra_repair.specs.Parts.{allows_at, weight_at};

    ghost asked = { λ w. length w.parts.now };

    ghost allows = { λ w k. allows_at w.parts.now k };

    ghost weight = { λ w k. weight_at w.parts.now k };

    fn of(&self, arc: u32) -> i64 {
        let part = self.parts[arc as usize];
        if part.allowed { part.value } else { FAR }
    }

    fn copied(&self) -> Parts<'a> {
        *self
    }
}

/// What no part exceeds in size.
const MOST: u64 = 1_000_000_000_000_000;

/// Whether a path is worth more than 0.
fn is_worth(sum: i128) -> bool
    ensures { MatchBool result (pos 0 <ℤ sum) (sum ≤ℤ pos 0) }
{
    sum > 0
}

/// Finds the first best path of arcs that may be taken, and tells whether it is worth more than 0; it is then in the
/// buffers. Where it isn't, no path is.
pub(crate) fn worth_path(
    buffers: &mut Buffers,
    graph: &TimeGraph,
    parts: &[ArcPart],
) -> Result<bool, NoMemory>
    requires count { length parts.now ≡ length graph.now.dag.arcs }
    requires range { All (λ part. IsArcValue part.value) parts.now }
    ensures { IfOk result (λ worth. IsWorthPath graph.now parts.now worth buffers.new) }
{
    let weights = Parts { parts };
    let narrow = weights.copied();
    let Some(sum) = best_by(buffers, graph.dag(), &weights, &narrow, MOST)? else {
        return Ok(false);
    };
    Ok(is_worth(sum))
}
