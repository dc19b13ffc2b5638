//! What is determined, each as the contract of a call that does nothing else.
ghost use Rattle.std.specs.Prelude.{◌≡◌};
ghost use Rattle.optra_prices.specs.Laws.{OnePriceList, OneValuation, OnePathResult};

use optra_walk::{Instance, RowFamily};

/// Two lists of proper prices that give each row the same price are one list. A node has one dual value at prices, with
/// one list of terms and one list of replies. A price path has one result, so it is a function of the instance, the
/// family, the node, the start prices, the number of steps and the incumbent.
pub fn price_laws<F: RowFamily>(inst: Instance<'_>, rows: &F)
    ensures one_price_list { OnePriceList F.Row.cmp (F.rows_of rows.now inst.entry.net.now) }
    ensures one_valuation { OneValuation {R = F.Row} inst.entry.net.now
        (F.rows_of rows.now inst.entry.net.now) inst.entry.bids.now }
    ensures one_result { OnePathResult F.Row.cmp inst.entry.net.now
        (F.rows_of rows.now inst.entry.net.now) inst.entry.bids.now }
{
    let _ = inst;
    let _ = rows;
}
