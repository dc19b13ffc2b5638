//! How far a price step goes, and where it leads the price of a row.
ghost use Rattle.std.specs.Prelude.{◌≡◌, ◌+◌, ◌-◌, ◌*◌, ◌^◌, min, pos, unsigned_abs, ◌*ℤ◌};
ghost use Rattle.std.specs.Int.{int_max, int_div_euclid};
ghost use Rattle.optra_prices.specs.Bounds.{IsBase, IsStepLength};
ghost use Rattle.optra_prices.specs.Steps.{greatest_base, step_length, price_within, next_price};
ghost use Rattle.optra_prices.specs.Tables.{IsRowPrice};

use optra_bid::Bid;

/// The greatest price, in thousandths of a cent.
const MOST_PRICE: i64 = 2_000_000_000_000;

/// The greater of two numbers of cents.
fn greater(most: i64, base: i64) -> i64
    requires most { IsBase most }
    requires base { IsBase base }
    ensures value { result ≡ int_max most base }
    ensures range { IsBase result }
{
    most.max(base)
}

/// The base of a bid.
fn base_of(bid: &Bid) -> i64
    ensures value { result ≡ bid.now.money.base }
    ensures range { IsBase result }
{
    let money = bid.money;
    money.base
}

/// The greatest base of the bids, and 0 without bids.
fn greatest_base(bids: &[Bid]) -> i64
    ensures value { result ≡ greatest_base bids.now }
    ensures range { IsBase result }
{
    let mut most: i64 = 0;
    for bid in bids {
        most = greater(most, base_of(bid));
    }
    most
}

/// A part of the greatest base in thousandths of a cent, and at least 1.
fn length_by(most: i64, k: u32) -> i64
    requires { IsBase most }
    ensures { result ≡ int_max (pos 1) (int_div_euclid (most *ℤ pos 1000) (pos (4 * (k + 1)))) }
{
    let parts = 4 * (i64::from(k) + 1);
    let length = (most * 1000).div_euclid(parts);
    1.max(length)
}

/// The length of step `k`, from 0, in thousandths of a cent.
pub(crate) fn step_length(bids: &[Bid], k: u32) -> i64
    ensures value { result ≡ step_length bids.now k }
    ensures range { IsStepLength result }
{
    let most = greatest_base(bids);
    length_by(most, k)
}

/// A price within 0 to 2,000,000,000,000.
fn price_within(price: i64) -> i64
    ensures value { result ≡ price_within price }
    ensures range { IsRowPrice result }
{
    price.max(0).min(MOST_PRICE)
}

/// How far a step of this length moves a price for so many uses: exact, or more than any price moves within its bounds.
fn way(length: i64, uses: u64) -> u64
    requires { IsStepLength length }
    ensures { result ≡ min (unsigned_abs length * uses) (2 ^ 64 - 1) }
{
    length.unsigned_abs().saturating_mul(uses)
}

/// The next price of a row. What saturates is past a bound of prices, so that the price ends at that bound either way.
pub(crate) fn next_price(length: i64, price: i64, used: u64, capacity: u32) -> i64
    requires { IsStepLength length }
    ensures value { result ≡ next_price length price used capacity }
    ensures range { IsRowPrice result }
{
    let room = u64::from(capacity);
    if used > room {
        price_within(price.saturating_add_unsigned(way(length, used - room)))
    } else {
        price_within(price.saturating_sub_unsigned(way(length, room - used)))
    }
}
