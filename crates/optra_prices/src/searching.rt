//! The search of one bid's graph at prices of groups.
ghost use Rattle.std.specs.Prelude.{◌≡◌, ◌⊎◌, ◌≤◌, ℕ, true, false, List, length, All, IfOk, IfSome, IfNone, MatchBool, pos, neg_ℤ, ◌+ℤ◌, ◌<ℤ◌, ◌≤ℤ◌};
ghost use Rattle.optra_bid.specs.Specs.{IsBetween};
ghost use Rattle.optra_dag.specs.Paths.{IsPath, IsFirstBest};
ghost use Rattle.optra_prices.specs.Arcs.{IsFound};
ghost use Rattle.optra_prices.specs.Standings.{IsMost};
ghost use Rattle.optra_prices.specs.Tables.{allows_by, weight_by, AreUpTo, AreWeighedTo, IsGroupPrice};

use crate::arc_slice::ArcSlice;
use crate::arcs::Arcs;
use crate::group_prices::GroupPrices;
use optra_dag::{Buffers, Dag, NarrowWeight, Weight, best_by};
use optra_network::NoMemory;

/// The arcs, and the prices of the groups that they touch.
#[derive(Drop)]
pub(crate) struct Weights<'a> {
    arcs: ArcSlice<'a>,
    grouped: &'a [i64],
}

impl Weight for Weights<'_> {
    ghost use Rattle.std.specs.Prelude.{length};
    ghost use Rattle.optra_prices.specs.Tables.{allows_by, weight_by};

    ghost asked = { λ w. length w.arcs };

    ghost allows = { λ w k. allows_by w.arcs k };

    ghost weight = { λ w k. weight_by w.arcs w.grouped.now k };

    fn allowed(&self, arc: u32) -> bool {
        self.arcs.allowed(arc as usize)
    }

    fn of(&self, arc: u32) -> i128 {
        let k = arc as usize;
        let price = self.grouped.get(self.arcs.group(k)).copied().unwrap_or(0);
        i128::from(self.arcs.value(k)) - i128::from(price)
    }
}

impl<'a> NarrowWeight for Weights<'a> {
    ghost use Rattle.std.specs.Prelude.{length};
    ghost use Rattle.optra_prices.specs.Tables.{allows_by, narrow_weight_by};

    ghost asked = { λ w. length w.arcs };

    ghost allows = { λ w k. allows_by w.arcs k };

    ghost weight = { λ w k. narrow_weight_by w.arcs w.grouped.now k };

    fn of(&self, arc: u32) -> i64 {
        self.arcs.weight(self.grouped, arc as usize)
    }

    fn copied(&self) -> Weights<'a> {
        Weights {
            arcs: self.arcs.copied(),
            grouped: self.grouped,
        }
    }
}

/// The term of a bid, and whether it is stuck.
#[derive(Clone, Copy)]
pub(crate) struct Outcome {
    pub(crate) term: i128,
    pub(crate) stuck: bool,
}

/// Whether a path is taken: the bid is forced to have a walk, or the path is worth something.
fn is_worth(forced: bool, sum: i128) -> bool
    ensures { MatchBool result ((forced ≡ true) ⊎ (pos 0 <ℤ sum)) ((forced ≡ false)
        × (sum ≤ℤ pos 0)) }
{
    forced || sum > 0
}

/// The most that an arc can weigh in size, by the values of arcs and the prices of groups.
fn most_of(values: i64, prices: i64) -> u64
    requires values { IsMost values }
    requires prices { IsGroupPrice prices }
    ensures { pos result ≡ values +ℤ prices }
{
    (values + prices) as u64
}

/// The first best path: by the narrow arcs alone where no others are, and with no look at whether they may be taken where all may.
fn best_in(
    buffers: &mut Buffers,
    dag: &Dag,
    weights: &Weights<'_>,
    most: u64,
) -> Result<Option<i128>, NoMemory>
    requires count { length dag.now.arcs ≡ length weights.now.arcs }
    requires weighed { AreWeighedTo most weights.now.arcs weights.now.grouped.now }
    ensures best { IfOk result (λ answer. IfSome answer (λ sum. IsFirstBest dag.now
        (allows_by weights.now.arcs) (weight_by weights.now.arcs weights.now.grouped.now)
        sum buffers.new)) }
    ensures none { IfOk result (λ answer. IfNone answer ((path : List ℕ)
        → IsPath dag.now (allows_by weights.now.arcs) path → ⊥)) }
{
    if let Some(open) = weights.arcs.open_weights(weights.grouped) {
        return best_by(buffers, dag, weights, &open, most);
    }
    match weights.arcs.narrow_weights(weights.grouped) {
        Some(narrow) => best_by(buffers, dag, weights, &narrow, most),
        None => best_by(buffers, dag, weights, &weights.copied(), most),
    }
}

/// Searches the graph for the first best path, and leaves it in `path`. The path is empty where no allowed path ends,
/// and where the bid isn't forced to have a walk and none is worth anything. No value of an arc exceeds `most` in size.
pub(crate) fn search_bid(
    buffers: &mut Buffers,
    dag: &Dag,
    arcs: &Arcs,
    most: i64,
    grouped: GroupPrices<'_>,
    forced: bool,
    path: &mut Vec<u32>,
) -> Result<Outcome, NoMemory>
    requires count { length dag.now.arcs ≡ length arcs.now }
    requires most { IsMost most }
    requires values { All (λ arc. IsBetween (neg_ℤ most) most arc.value) arcs.now }
    requires grouped { AreUpTo grouped.most grouped.prices.now }
    ensures { IfOk result (λ outcome. IsFound dag.now (allows_by arcs.now)
        (weight_by arcs.now grouped.entry.prices.now) forced path.new.items outcome.term
        outcome.stuck) }
{
    path.clear();
    let weights = Weights {
        arcs: arcs.slice(),
        grouped: grouped.prices,
    };
    let Some(sum) = best_in(buffers, dag, &weights, most_of(most, grouped.most))? else {
        return Ok(Outcome {
            term: 0,
            stuck: forced,
        });
    };
    if !is_worth(forced, sum) {
        return Ok(Outcome {
            term: 0,
            stuck: false,
        });
    }
    path.extend_from_slice(buffers.path())?;
    Ok(Outcome {
        term: sum,
        stuck: false,
    })
}
