//! The rows that the groups of a path touch, listed at once.
//!
//! Counting waits for memory: for where the touches of a group stand, then for these, then for what is used of their rows. So
//! each is read for all groups of a path before the next one is, and many waits run side by side.
ghost use Rattle.std.specs.Prelude.{◌≡◌, true, ℕ, All, IfOk, OnOk};
ghost use Rattle.std.specs.List.{slice_range};
ghost use Rattle.optra_prices.specs.Tables.{AreGroups};
ghost use Rattle.optra_prices.specs.Uses.{IsSpan, list_uses, rows_use, spans_use, touches_at};

use crate::numbering::Groups;
use optra_network::NoMemory;
use std::alloc::Global;

/// What is listed of a path on the way to its rows. It is lent to one path after the other.
#[derive(Drop)]
pub(crate) struct PathRows {
    /// From where up to where the touches of each group stand.
    pub(crate) spans: Vec<(usize, usize)>,
    /// The rows of all these touches.
    pub(crate) rows: Vec<u32>,
}

impl PathRows {
    /// Nothing is listed, which takes no memory.
    pub(crate) fn new(alloc: Global) -> PathRows {
        PathRows {
            spans: Vec::new(alloc),
            rows: Vec::new(alloc),
        }
    }
}

/// From where up to where the touches of a group stand. Past the last group there are none.
fn span_at(groups: &Groups, g: usize) -> (usize, usize)
    requires { AreGroups groups.now.starts.items groups.now.touches }
    ensures span { IsSpan groups.now.touches result }
    ensures touches { slice_range groups.now.touches result.0 result.1 ≡ touches_at groups.now g }
{
    let end = groups.starts.past(g);
    let start = groups.starts.at(g).min(end);
    (start, end)
}

/// Lists where the touches of the groups of a path stand.
pub(crate) fn list_spans(
    spans: &mut Vec<(usize, usize)>,
    groups: &Groups,
    list: &[usize],
) -> Result<(), NoMemory>
    requires { AreGroups groups.now.starts.items groups.now.touches }
    ensures spans { OnOk result (All (IsSpan groups.now.touches) spans.new.items) }
    ensures uses { OnOk result ((n : ℕ) → spans_use groups.now.touches spans.new.items n
        ≡ list_uses groups.now list.now n) }
{
    spans.clear();
    for g in list {
        spans.push(span_at(groups, *g))?;
    }
    Ok(())
}

/// Lists the rows of the touches, where each of these uses its row once, and tells whether they do.
pub(crate) fn list_rows(
    rows: &mut Vec<u32>,
    groups: &Groups,
    spans: &[(usize, usize)],
) -> Result<bool, NoMemory>
    requires { All (IsSpan groups.now.touches) spans.now }
    ensures { IfOk result (λ listed. listed ≡ true → (n : ℕ) → rows_use rows.new.items n
        ≡ spans_use groups.now.touches spans.now n) }
{
    rows.clear();
    for span in spans {
        let touches = groups.touches.range(span.0, span.1);
        let Some(more) = touches.narrow_rows() else {
            return Ok(false);
        };
        rows.extend_from_slice(more)?;
    }
    Ok(true)
}
