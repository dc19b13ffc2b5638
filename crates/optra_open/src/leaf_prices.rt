//! The prices of a leaf, looked up by row.
ghost use Rattle.std.specs.Prelude.{◌≡◌, ◌↔◌, [], pos, ◌*ℤ◌, All, IsTrue};
ghost use Rattle.std.specs.Ordering.{eq_by_cmp};
ghost use Rattle.optra_walk.specs.Families.{IsUsable};
ghost use Rattle.optra_node.specs.Duals.{ArePrices, price_of, leg_price, capacity_price};
ghost use Rattle.optra_node.specs.Certificates.{AreAscending};
ghost use Rattle.optra_rests.specs.Sizes.{IsRowPrice, IsLegPrice, IsCapacityPrice};

use optra_network::TypeId;
use optra_node::prices_by_used_rows;
use optra_walk::{Instance, Leg, RowFamily};

/// The price of a row, 0 where it is not listed, by a search in prices whose rows ascend.
fn price_at<R: Copy + Ord>(prices: &[(R, i64)], row: R) -> i64
    requires ascending { AreAscending R.cmp prices.now }
    requires small { All (λ entry. IsRowPrice entry.1) prices.now }
    ensures value { result ≡ price_of (eq_by_cmp R.cmp) prices.now row }
    ensures range { IsRowPrice result }
{
    match prices.binary_search_by_key(&row, |entry| entry.0) {
        Ok(place) => prices[place].1,
        Err(_) => 0,
    }
}

/// A price times how much is used, or how much there is.
fn times(price: i64, count: u32) -> i128
    requires { IsRowPrice price }
    ensures { result ≡ price *ℤ pos count }
{
    i128::from(price) * i128::from(count)
}

/// What the rows that a leg touches come to, price times use.
fn used_price<F: RowFamily>(
    inst: Instance<'_>,
    rows: &F,
    prices: &[(F::Row, i64)],
    kind: TypeId,
    leg: Leg,
) -> i128
    requires usable { IsUsable inst.net.now kind leg }
    requires ascending { AreAscending F.Row.cmp prices.now }
    requires prices { ArePrices (F.rows_of rows.now inst.net.now) prices.now }
    ensures value { result ≡ leg_price (F.rows_of rows.now inst.entry.net.now) prices.now kind leg }
    ensures range { IsLegPrice result }
{
    prices_by_used_rows(inst, rows);
    let mut total: i128 = 0;
    for k in 0..8192 {
        let Some(row) = rows.touched(inst.net, kind, leg, k) else {
            return total;
        };
        let price = price_at(prices, row);
        total += times(price, rows.leg_use(inst.net, kind, leg, row));
    }
    total
}

/// Whether no row has a price.
pub fn is_empty<R>(prices: &[(R, i64)]) -> bool
    ensures { IsTrue result ↔ (prices.now ≡ []) }
{
    prices.is_empty()
}

/// The price of a leg that the type may use: over the rows that it touches, price times use. Where
/// no row has a price, none is touched.
pub(crate) fn leg_price<F: RowFamily>(
    inst: Instance<'_>,
    rows: &F,
    prices: &[(F::Row, i64)],
    kind: TypeId,
    leg: Leg,
) -> i128
    requires usable { IsUsable inst.net.now kind leg }
    requires ascending { AreAscending F.Row.cmp prices.now }
    requires prices { ArePrices (F.rows_of rows.now inst.net.now) prices.now }
    ensures value { result ≡ leg_price (F.rows_of rows.now inst.entry.net.now) prices.now kind leg }
    ensures range { IsLegPrice result }
{
    if is_empty(prices) {
        return 0;
    }
    used_price(inst, rows, prices, kind, leg)
}

/// The price of all capacity: over the listed rows, price times capacity.
pub(crate) fn capacity_price<F: RowFamily>(
    inst: Instance<'_>,
    rows: &F,
    prices: &[(F::Row, i64)],
) -> i128
    requires { ArePrices (F.rows_of rows.now inst.net.now) prices.now }
    ensures value { result ≡ capacity_price (F.rows_of rows.now inst.entry.net.now) prices.now }
    ensures range { IsCapacityPrice result }
{
    let mut total: i128 = 0;
    'entries: for entry in prices {
        total += times(entry.1, rows.cap(inst.net, entry.0));
    }
    total
}
