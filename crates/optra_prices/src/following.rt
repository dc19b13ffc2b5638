//! The moves along a price path, and the best candidate so far.
ghost use Rattle.std.specs.Prelude.{◌≡◌, ◌≤◌, ◌↔◌, ◌∷◌, [], IsTrue, ◌≤ℤ◌, IfOk, OnOk, length};
ghost use Rattle.optra_node.specs.Duals.{whole_cents};
ghost use Rattle.optra_prices.specs.Courses.{candidate_at, zero_candidate, replies_at, IsCourse, AreNumbered};
ghost use Rattle.optra_prices.specs.Following.{KeepsLess, IsFollowing, IsFollowed};
ghost use Rattle.optra_prices.specs.Levels.{IsLevels};
ghost use Rattle.optra_prices.specs.Paths.{IsPathResult};
ghost use Rattle.optra_prices.specs.Steps.{AreProper};
ghost use Rattle.optra_prices.specs.Terms.{setting};

use crate::Priced;
use crate::arc_tables::ArcTables;
use crate::courses::{go_back, go_on, go_to, priced_at, zero_value};
use crate::levels::copy_prices;
use crate::path_ends::PathEnds;
use optra_network::{Cents, NoMemory};
use optra_node::Node;
use optra_walk::{CodedRow, Instance, RowFamily};
use std::alloc::Global;

/// The best candidate so far: its prices above zero by the rows' numbers, and its dual value.
#[derive(Drop)]
pub(crate) struct Best {
    pub(crate) prices: Vec<(usize, i64)>,
    pub(crate) value: i128,
}

/// Keeps the candidate where its dual value is less than that of each one before it.
fn keep_less<R: CodedRow>(best: &mut Best, kept: &ArcTables<'_, R>) -> Result<(), NoMemory>
    requires { IsLevels kept.now.levels }
    ensures { OnOk result (KeepsLess kept.now best.old best.new) }
{
    if kept.value < best.value {
        best.value = kept.value;
        copy_prices(&mut best.prices, &kept.levels)?;
    }
    Ok(())
}

/// Whether a dual value in whole cents, rounded down, is at most the incumbent.
fn is_low(value: i128, incumbent: Cents) -> bool
    ensures { IsTrue result ↔ (whole_cents value ≤ℤ incumbent) }
{
    value.div_euclid(1000) <= i128::from(incumbent)
}

/// Follows the path from the start prices on to its last candidate, by the steps, and keeps the best.
fn go_steps<F: RowFamily>(
    inst: Instance<'_>,
    rows: &F,
    node: &Node,
    kept: &mut ArcTables<'_, F::Row>,
    best: &mut Best,
    ends: &PathEnds<'_, F::Row>,
    incumbent: Cents,
) -> Result<(), NoMemory>
    requires following { IsFollowing F.Row.cmp (setting inst.net.now
        (F.rows_of rows.now inst.net.now) (F.rows_used rows.now inst.net.now) inst.bids.now
        node.now) ends.now.start.now ends.now.steps incumbent kept.old best.old
        (zero_candidate kept.old ∷ candidate_at (F.rows_of rows.now inst.net.now) kept.old ∷ []) }
    ensures { OnOk result (IsFollowed F.Row.cmp (setting inst.entry.net.now
        (F.rows_of rows.now inst.entry.net.now) (F.rows_used rows.now inst.entry.net.now)
        inst.entry.bids.now node.now) ends.now.start.now ends.now.steps incumbent kept.new best.new) }
{
    'steps: for k in 0..ends.steps {
        if is_low(kept.value, incumbent) {
            return Ok(());
        }
        go_on(inst, rows, node, kept, k)?;
        keep_less(best, kept)?;
    }
    Ok(())
}

/// Follows the path from its first candidate, the zero prices, to its last one, and gives the best.
fn follow<F: RowFamily>(
    alloc: Global,
    inst: Instance<'_>,
    rows: &F,
    node: &Node,
    kept: &mut ArcTables<'_, F::Row>,
    ends: &PathEnds<'_, F::Row>,
    incumbent: Cents,
) -> Result<Best, NoMemory>
    requires start { AreProper F.Row.cmp (F.rows_of rows.now inst.net.now) ends.now.start.now }
    requires numbered { AreNumbered kept.old ends.now.start.now }
    requires course { IsCourse F.Row.cmp (setting inst.net.now (F.rows_of rows.now inst.net.now)
        (F.rows_used rows.now inst.net.now) inst.bids.now node.now) kept.old }
    ensures { IfOk result (IsFollowed F.Row.cmp (setting inst.entry.net.now
        (F.rows_of rows.now inst.entry.net.now) (F.rows_used rows.now inst.entry.net.now)
        inst.entry.bids.now node.now) ends.now.start.now ends.now.steps incumbent kept.new) }
{
    let mut best = Best {
        prices: Vec::new(alloc),
        value: zero_value(inst, rows, node, kept),
    };
    if is_low(best.value, incumbent) {
        return Ok(best);
    }
    go_to(inst, rows, node, kept, ends.start)?;
    keep_less(&mut best, kept)?;
    go_steps(inst, rows, node, kept, &mut best, ends, incumbent)?;
    Ok(best)
}

/// Goes along the node's price path, and comes back to its result.
pub(crate) fn go_along<F: RowFamily>(
    alloc: Global,
    inst: Instance<'_>,
    rows: &F,
    node: &Node,
    kept: &mut ArcTables<'_, F::Row>,
    ends: &PathEnds<'_, F::Row>,
    incumbent: Cents,
) -> Result<Priced<F::Row>, NoMemory>
    requires start { AreProper F.Row.cmp (F.rows_of rows.now inst.net.now) ends.now.start.now }
    requires numbered { AreNumbered kept.old ends.now.start.now }
    requires course { IsCourse F.Row.cmp (setting inst.net.now (F.rows_of rows.now inst.net.now)
        (F.rows_used rows.now inst.net.now) inst.bids.now node.now) kept.old }
    ensures course { OnOk result (IsCourse F.Row.cmp (setting inst.entry.net.now
        (F.rows_of rows.now inst.entry.net.now) (F.rows_used rows.now inst.entry.net.now)
        inst.entry.bids.now node.now) kept.new) }
    ensures path { IfOk result (λ priced. IsPathResult F.Row.cmp inst.entry.net.now
        (F.rows_of rows.now inst.entry.net.now) inst.entry.bids.now node.now ends.now.start.now
        ends.now.steps incumbent priced) }
    ensures replies { IfOk result (λ priced. priced.dual.replies ≡ replies_at kept.new) }
{
    let best = follow(alloc, inst, rows, node, kept, ends, incumbent)?;
    go_back(inst, rows, node, kept, &best.prices)?;
    priced_at(alloc, inst, rows, node, kept)
}
