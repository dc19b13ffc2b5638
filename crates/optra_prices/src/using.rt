//! How much the replies use of each row.
ghost use Rattle.std.specs.Prelude.{◌≡◌, ℕ, ℤ, true, pos, All, IfOk, OnOk, IfSome, Option, map};
ghost use Rattle.std.specs.Ordering.{eq_by_cmp};
ghost use Rattle.optra_walk.specs.Walks.{IsWalk};
ghost use Rattle.optra_walk.specs.Choices.{IsChoice};
ghost use Rattle.optra_walk.specs.Families.{IsUsable, load_of, entries_of};
ghost use Rattle.optra_node.specs.Duals.{price_of};
ghost use Rattle.optra_prices.specs.Steps.{AreProper};
ghost use Rattle.optra_prices.specs.Holdings.{Holds, Adds, Bumps, entries_one};

use crate::holding::Held;
use crate::tables::kind_of;
use optra_bid::Bid;
use optra_network::{Network, NoMemory, TypeId};
use optra_walk::{Instance, Leg, RowFamily, Walk};
use std::alloc::Global;
use std::collections::BTreeMap;

/// Adds uses of a row. More than 2^64 - 1 uses are held as that many, which give the same next price.
fn bump<F: RowFamily>(
    held: &mut BTreeMap<F::Row, Held>,
    row: F::Row,
    uses: u32,
) -> Result<(), NoMemory>
    ensures { OnOk result (Bumps F.Row.cmp row uses held.old held.new) }
{
    let next = match held.get(&row) {
        Some(before) => Held {
            price: before.price,
            used: before.used.saturating_add(u64::from(uses)),
        },
        None => Held {
            price: 0,
            used: u64::from(uses),
        },
    };
    held.insert(row, next)?;
    Ok(())
}

/// Adds what a leg uses.
fn add_leg<F: RowFamily>(
    net: &Network,
    rows: &F,
    held: &mut BTreeMap<F::Row, Held>,
    kind: TypeId,
    leg: Leg,
) -> Result<(), NoMemory>
    requires { IsUsable net.now kind leg }
    ensures { OnOk result (Adds F.Row.cmp (F.rows_of rows.now net.now).is_row
        ((F.rows_of rows.now net.now).uses kind leg) held.old held.new) }
{
    for k in 0..8192 {
        let Some(row) = rows.touched(net, kind, leg, k) else {
            return Ok(());
        };
        let uses = rows.leg_use(net, kind, leg, row);
        bump::<F>(held, row, uses)?;
    }
    Ok(())
}

/// Adds what legs use.
fn add_legs<F: RowFamily>(
    net: &Network,
    rows: &F,
    held: &mut BTreeMap<F::Row, Held>,
    kind: TypeId,
    legs: &[Leg],
) -> Result<(), NoMemory>
    requires { All (IsUsable net.now kind) legs.now }
    ensures { OnOk result (Adds F.Row.cmp (F.rows_of rows.now net.now).is_row
        (λ row. load_of (F.rows_of rows.now net.now) row (map (λ leg. (kind, leg)) legs.now))
        held.old held.new) }
{
    for number in 0..legs.len() {
        add_leg(net, rows, held, kind, legs[number])?;
    }
    Ok(())
}

/// The legs of a walk.
fn legs_of(walk: &Walk) -> &[Leg]
    ensures { result.now ≡ walk.now }
{
    &walk.legs
}

/// Adds what a reply uses.
fn add_reply<F: RowFamily>(
    net: &Network,
    rows: &F,
    held: &mut BTreeMap<F::Row, Held>,
    bid: &Bid,
    reply: &Option<Walk>,
) -> Result<(), NoMemory>
    requires { IfSome reply.now (IsWalk net.now bid.now.path) }
    ensures { OnOk result (Adds F.Row.cmp (F.rows_of rows.now net.now).is_row
        (λ row. load_of (F.rows_of rows.now net.now) row (entries_one bid.now reply.now)) held.old
        held.new) }
{
    net.laws();
    let Some(walk) = reply else {
        return Ok(());
    };
    add_legs(net, rows, held, kind_of(bid), legs_of(walk))?;
    Ok(())
}

/// Adds what all replies use.
pub(crate) fn add_replies<F: RowFamily>(
    inst: Instance<'_>,
    rows: &F,
    held: &mut BTreeMap<F::Row, Held>,
    replies: &[Option<Walk>],
) -> Result<(), NoMemory>
    requires { IsChoice inst.net.now inst.bids.now replies.now }
    ensures { OnOk result (Adds F.Row.cmp (F.rows_of rows.now inst.entry.net.now).is_row
        (λ row. load_of (F.rows_of rows.now inst.entry.net.now) row (entries_of inst.entry.bids.now
        replies.now)) held.old held.new) }
{
    let bids = inst.bids;
    for number in 0..bids.len().min(replies.len()) {
        add_reply(inst.net, rows, held, &bids[number], &replies[number])?;
    }
    Ok(())
}

/// The prices, with no uses yet.
pub(crate) fn priced_rows<F: RowFamily>(
    alloc: Global,
    net: &Network,
    rows: &F,
    entries: &[(F::Row, i64)],
) -> Result<BTreeMap<F::Row, Held>, NoMemory>
    requires { AreProper F.Row.cmp (F.rows_of rows.now net.now) entries.now }
    ensures { IfOk result (Holds F.Row.cmp (F.rows_of rows.now net.now).is_row
        (price_of (eq_by_cmp F.Row.cmp) entries.now) (λ row. 0)) }
{
    let _ = net;
    let _ = rows;
    let mut held = BTreeMap::new(alloc);
    for entry in entries {
        held.insert(
            entry.0,
            Held {
                price: entry.1,
                used: 0,
            },
        )?;
    }
    Ok(held)
}
