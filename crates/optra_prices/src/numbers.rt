//! Lists of numbers, in 32 bits each while all of them fit.
ghost use Rattle.std.specs.Prelude.{◌≡◌, ◌<◌, ◌^◌, ◌+◌, ◌-◌, [], ◌∷◌, ◌++◌, IfOk, IfSome, OnOk, length, replicate, slice_index, slice_set};

use optra_network::NoMemory;
use std::alloc::Global;
use std::marker::Model;

/// Numbers, which stand in `narrow` while each fits into 32 bits, and in `wide` from the first one on that doesn't.
#[derive(Drop)]
pub(crate) struct Numbers {
    is_narrow: bool,
    narrow: Vec<u32>,
    wide: Vec<usize>,
}

impl Model for Numbers {
    ghost use Rattle.std.specs.Prelude.{cond};
    ghost use Rattle.optra_prices.specs.NumberLists.{NumberList};

    ghost Value = { NumberList };

    ghost view = { λ a. record { items = cond a.is_narrow a.narrow.items a.wide.items } };
}

/// The same numbers, in as many bits as any has.
fn widen(narrow: &[u32], wide: &mut Vec<usize>) -> Result<(), NoMemory>
    ensures { OnOk result (wide.new.items ≡ narrow.now) }
{
    wide.clear();
    wide.reserve(narrow.len())?;
    for number in narrow {
        wide.push(*number as usize)?;
    }
    Ok(())
}

/// The number at a place in 32 bits, and 0 past the last one.
fn narrow_at(narrow: &[u32], place: usize) -> usize
    ensures { result ≡ slice_index narrow.now place }
{
    narrow.get(place).copied().unwrap_or(0) as usize
}

/// The number at a place, and 0 past the last one.
fn wide_at(wide: &[usize], place: usize) -> usize
    ensures { result ≡ slice_index wide.now place }
{
    wide.get(place).copied().unwrap_or(0)
}

impl Numbers {
    /// No numbers.
    pub(crate) fn new(alloc: Global) -> Numbers
        ensures { result.items ≡ [] }
    {
        Numbers {
            is_narrow: true,
            narrow: Vec::new(alloc),
            wide: Vec::new(alloc),
        }
    }

    /// No numbers, with room for so many in 32 bits each.
    pub(crate) fn with_room(alloc: Global, count: usize) -> Result<Numbers, NoMemory>
        ensures { IfOk result (λ numbers. numbers.items ≡ []) }
    {
        Ok(Numbers {
            is_narrow: true,
            narrow: Vec::with_capacity(alloc, count)?,
            wide: Vec::new(alloc),
        })
    }

    /// So many zeros. More than a vector can hold are refused.
    pub(crate) fn zeros(alloc: Global, count: usize) -> Result<Numbers, NoMemory>
        ensures zeros { IfOk result (λ numbers. numbers.items ≡ replicate count 0) }
        ensures few { OnOk result (count < 2 ^ 63) }
    {
        let narrow = vec![in alloc; 0; count]?;
        Ok(Numbers {
            is_narrow: true,
            narrow,
            wide: Vec::new(alloc),
        })
    }

    /// The same numbers, which fit into 32 bits each.
    pub(crate) fn of_narrow(alloc: Global, narrow: Vec<u32>) -> Numbers
        ensures { result.items ≡ narrow.items }
    {
        Numbers {
            is_narrow: true,
            narrow,
            wide: Vec::new(alloc),
        }
    }

    /// The same numbers.
    pub(crate) fn of_wide(alloc: Global, wide: Vec<usize>) -> Numbers
        ensures { result.items ≡ wide.items }
    {
        Numbers {
            is_narrow: false,
            narrow: Vec::new(alloc),
            wide,
        }
    }

    /// How many there are.
    pub(crate) fn len(&self) -> usize
        ensures { result ≡ length self.now.items }
    {
        if self.is_narrow {
            self.narrow.len()
        } else {
            self.wide.len()
        }
    }

    /// Adds a number.
    #[inline(always)]
    pub(crate) fn push(&mut self, number: usize) -> Result<(), NoMemory>
        ensures { OnOk result (self.new.items ≡ self.old.items ++ number ∷ []) }
    {
        if !self.is_narrow {
            self.wide.push(number)?;
            return Ok(());
        }
        if let Ok(narrow) = u32::try_from(number) {
            self.narrow.push(narrow)?;
            return Ok(());
        }
        widen(&self.narrow, &mut self.wide)?;
        self.wide.push(number)?;
        self.is_narrow = false;
        Ok(())
    }

    /// Puts a number at a place, in place of what was there.
    pub(crate) fn set(&mut self, place: usize, number: usize) -> Result<(), NoMemory>
        requires { place < length self.old.items }
        ensures { OnOk result (self.new.items ≡ slice_set self.old.items place number) }
    {
        if !self.is_narrow {
            self.wide[place] = number;
            return Ok(());
        }
        if let Ok(narrow) = u32::try_from(number) {
            self.narrow[place] = narrow;
            return Ok(());
        }
        widen(&self.narrow, &mut self.wide)?;
        self.wide[place] = number;
        self.is_narrow = false;
        Ok(())
    }

    /// Lets go the room for more numbers.
    pub(crate) fn shrink_to_fit(&mut self)
        ensures { self.new ≡ self.old }
    {
        self.narrow.shrink_to_fit();
        self.wide.shrink_to_fit();
    }

    /// The numbers in 32 bits each, where all are held so. A `None` too many costs time and memory alone.
    pub(crate) fn narrow(&self) -> Option<&[u32]>
        ensures { IfSome result (λ numbers. numbers.now ≡ self.now.items) }
    {
        if self.is_narrow {
            Some(&self.narrow)
        } else {
            None
        }
    }

    /// The number at a place, and 0 past the last one.
    pub(crate) fn at(&self, place: usize) -> usize
        ensures { result ≡ slice_index self.now.items place }
    {
        if self.is_narrow {
            narrow_at(&self.narrow, place)
        } else {
            wide_at(&self.wide, place)
        }
    }

    /// The number at the place past this one, and 0 past the last one.
    pub(crate) fn past(&self, place: usize) -> usize
        ensures { result ≡ slice_index self.now.items (place + 1) }
    {
        let next = place.saturating_add(1);
        if self.is_narrow {
            narrow_at(&self.narrow, next)
        } else {
            wide_at(&self.wide, next)
        }
    }
}
