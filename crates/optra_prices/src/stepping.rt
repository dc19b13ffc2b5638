//! Price steps.
ghost use Rattle.std.specs.Prelude.{◌≡◌, ◌++◌, ◌∷◌, [], true, cond, All, IfOk, OnOk};
ghost use Rattle.std.specs.Int.{is_positive};
ghost use Rattle.optra_walk.specs.Choices.{IsChoice};
ghost use Rattle.optra_prices.specs.Bounds.{IsStepLength};
ghost use Rattle.optra_prices.specs.Steps.{AreProper, IsStep};
ghost use Rattle.optra_prices.specs.Holdings.{stepped, next_held};

use crate::holding::Held;
use crate::next_prices::{next_price, step_length};
use crate::using::{add_replies, priced_rows};
use crate::valuing::entries;
use optra_network::{Network, NoMemory};
use optra_node::Prices;
use optra_walk::{Instance, RowFamily, Walk};
use std::alloc::Global;
use std::collections::BTreeMap;

/// Adds a price above zero to a list.
pub(crate) fn push_price<R: Copy>(
    out: &mut Vec<(R, i64)>,
    row: R,
    price: i64,
) -> Result<(), NoMemory>
    ensures { OnOk result (out.new.items ≡ out.old.items ++ cond (is_positive price) ((row, price)
        ∷ []) []) }
{
    if price > 0 {
        out.push((row, price))?;
    }
    Ok(())
}

/// The prices after a step, of the rows whose price is above zero.
fn made_prices<F: RowFamily>(
    alloc: Global,
    net: &Network,
    rows: &F,
    length: i64,
    held: &BTreeMap<F::Row, Held>,
) -> Result<Prices<F::Row>, NoMemory>
    requires length { IsStepLength length }
    requires rows { All (λ e. (F.rows_of rows.now net.now).is_row e.0 ≡ true) held.now.entries }
    ensures { IfOk result (λ prices. prices ≡ stepped (next_held (F.rows_of rows.now net.now)
        length) held.now.entries) }
{
    let mut out = Vec::new(alloc);
    for (row, item) in held {
        let capacity = rows.cap(net, *row);
        let price = next_price(length, item.price, item.used, capacity);
        push_price(&mut out, *row, price)?;
    }
    Ok(Prices { entries: out })
}

/// The prices after step `k`, from 0. Each row's price changes by the length of the step times how much more the replies
/// use of the row than its capacity, and is then brought into 0 to 2,000,000,000,000. The length is
/// `max(1, (S * 1000) div (4 * (k + 1)))`, where `S` is the greatest base of the bids in cents, and 0 without bids.
///
/// It needs proper prices and gives proper prices. There is one reply for each bid, and each reply that is there is a
/// walk of its bid. `NoMemory` is its only refusal.
pub fn step<F: RowFamily>(
    alloc: Global,
    inst: Instance<'_>,
    rows: &F,
    prices: &Prices<F::Row>,
    replies: &[Option<Walk>],
    k: u32,
) -> Result<Prices<F::Row>, NoMemory>
    requires prices { AreProper F.Row.cmp (F.rows_of rows.now inst.net.now) prices.now }
    requires replies { IsChoice inst.net.now inst.bids.now replies.now }
    ensures { IfOk result (IsStep F.Row.cmp (F.rows_of rows.now inst.entry.net.now)
        inst.entry.bids.now replies.now k prices.now) }
{
    let entries = entries(prices);
    let mut held = priced_rows(alloc, inst.net, rows, entries)?;
    add_replies(inst, rows, &mut held, replies)?;
    let _count = held.len();
    let length = step_length(inst.bids, k);
    made_prices(alloc, inst.net, rows, length, &held)
}
