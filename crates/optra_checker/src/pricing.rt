//! Whether the prices of a tree are ones that may be listed.
ghost use Rattle.std.specs.Prelude.{◌≡◌, ◌↔◌, All, IsTrue};
ghost use Rattle.optra_node.specs.Duals.{IsPrice, ArePrices};
ghost use Rattle.optra_node.specs.Certificates.{HasPrices};

use optra_network::Network;
use optra_node::{Item, Prices};
use optra_walk::RowFamily;

/// The greatest price, in thousandths of a cent.
const GREATEST_PRICE: i64 = 2_000_000_000_000;

/// Whether the price is one that may be listed, of a row.
fn is_price<F: RowFamily>(net: &Network, rows: &F, entry: (F::Row, i64)) -> bool
    ensures { IsTrue result ↔ IsPrice (F.rows_of rows.now net.now) entry }
{
    rows.is_row(net, entry.0) && 1 <= entry.1 && entry.1 <= GREATEST_PRICE
}

/// Whether each listed price is one that may be listed.
fn are_prices<F: RowFamily>(net: &Network, rows: &F, prices: &Prices<F::Row>) -> bool
    ensures { IsTrue result ↔ ArePrices (F.rows_of rows.now net.now) prices.now }
{
    let listed = prices.entries.as_slice();
    'entries: for entry in listed {
        if !is_price(net, rows, *entry) {
            return false;
        }
    }
    true
}

/// Whether the item has no prices, or ones that may be listed.
fn has_prices<F: RowFamily>(net: &Network, rows: &F, item: &Item<F::Row>) -> bool
    ensures { IsTrue result ↔ HasPrices (F.rows_of rows.now net.now) item.now }
{
    match item {
        Item::Priced { prices } => are_prices(net, rows, prices),
        Item::Split { .. } | Item::NoWalk { .. } | Item::Forced { .. } => true,
    }
}

/// Whether each listed price of a tree is one that may be listed.
pub(crate) fn prices_hold<F: RowFamily>(net: &Network, rows: &F, tree: &[Item<F::Row>]) -> bool
    ensures { IsTrue result ↔ All (HasPrices (F.rows_of rows.now net.now)) tree.now }
{
    'items: for item in tree {
        if !has_prices(net, rows, item) {
            return false;
        }
    }
    true
}
