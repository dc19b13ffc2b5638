//! Prices of rows by number, in 32 bits each while all of them fit.
ghost use Rattle.std.specs.Prelude.{◌≡◌, ◌<◌, [], ◌∷◌, ◌++◌, pos, IfOk, IfSome, OnOk, length, replicate, slice_index_or, slice_set};
ghost use Rattle.optra_prices.specs.RowPrices.{prices_of};

use optra_network::NoMemory;
use std::alloc::Global;
use std::marker::Model;

/// Prices, which stand in `narrow` while each fits into 32 bits, and in `wide` from the first one on that doesn't.
#[derive(Drop)]
pub(crate) struct RowPrices {
    is_narrow: bool,
    narrow: Vec<u32>,
    wide: Vec<i64>,
}

impl Model for RowPrices {
    ghost use Rattle.std.specs.Prelude.{ℤ, cond};
    ghost use Rattle.optra_walk.specs.RowLists.{Listed};
    ghost use Rattle.optra_prices.specs.RowPrices.{prices_of};

    ghost Value = { Listed ℤ };

    ghost view = { λ a. record { items = cond a.is_narrow (prices_of a.narrow.items) a.wide.items } };
}

/// The same prices in 64 bits.
fn widen(narrow: &[u32], wide: &mut Vec<i64>) -> Result<(), NoMemory>
    ensures { OnOk result (wide.new.items ≡ prices_of narrow.now) }
{
    wide.clear();
    wide.reserve_exact(narrow.len())?;
    for price in narrow {
        wide.push(i64::from(*price))?;
    }
    Ok(())
}

/// A price in 32 bits, where it fits. A `None` too many costs time and memory alone.
fn narrowed(price: i64) -> Option<u32>
    ensures { IfSome result (λ narrow. pos narrow ≡ price) }
{
    u32::try_from(price).ok()
}

impl RowPrices {
    /// So many prices of 0.
    pub(crate) fn zeros(alloc: Global, count: usize) -> Result<RowPrices, NoMemory>
        ensures { IfOk result (λ prices. prices.items ≡ replicate count (pos 0)) }
    {
        let narrow = vec![in alloc; 0; count]?;
        Ok(RowPrices {
            is_narrow: true,
            narrow,
            wide: Vec::new(alloc),
        })
    }

    /// How many there are.
    pub(crate) fn len(&self) -> usize
        ensures { result ≡ length self.now.items }
    {
        if self.is_narrow {
            self.narrow.len()
        } else {
            self.wide.len()
        }
    }

    /// Takes the memory for so many more prices, and no more.
    pub(crate) fn reserve_exact(&mut self, more: usize) -> Result<(), NoMemory>
        ensures { OnOk result (self.new ≡ self.old) }
    {
        if self.is_narrow {
            self.narrow.reserve_exact(more)
        } else {
            self.wide.reserve_exact(more)
        }
    }

    /// Adds the price of one more row, which is 0.
    pub(crate) fn push_zero(&mut self) -> Result<(), NoMemory>
        ensures { OnOk result (self.new.items ≡ self.old.items ++ pos 0 ∷ []) }
    {
        if self.is_narrow {
            self.narrow.push(0)?;
        } else {
            self.wide.push(0)?;
        }
        Ok(())
    }

    /// The price of the row with this number.
    pub(crate) fn at(&self, number: usize) -> i64
        requires { number < length self.now.items }
        ensures { result ≡ slice_index_or self.now.items number (pos 0) }
    {
        if self.is_narrow {
            i64::from(self.narrow[number])
        } else {
            self.wide[number]
        }
    }

    /// Sets the price of the row with this number.
    pub(crate) fn set(&mut self, number: usize, price: i64) -> Result<(), NoMemory>
        requires { number < length self.old.items }
        ensures { OnOk result (self.new.items ≡ slice_set self.old.items number price) }
    {
        if !self.is_narrow {
            self.wide[number] = price;
            return Ok(());
        }
        if let Some(narrow) = narrowed(price) {
            self.narrow[number] = narrow;
            return Ok(());
        }
        widen(&self.narrow, &mut self.wide)?;
        self.wide[number] = price;
        self.is_narrow = false;
        Ok(())
    }
}
