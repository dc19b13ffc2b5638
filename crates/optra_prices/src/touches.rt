//! Touches in four bytes each, since nearly all of them use their row once, and counting uses waits for memory.
ghost use Rattle.std.specs.Prelude.{◌≡◌, ◌≤◌, ◌<◌, [], ◌∷◌, ◌++◌, IfOk, IfSome, OnOk, length, map, slice_index};
ghost use Rattle.std.specs.List.{slice_range};
ghost use Rattle.optra_prices.specs.NarrowTouches.{touch_of};
ghost use Rattle.optra_prices.specs.Rankings.{renumbered};

use crate::touch::Touch;
use crate::touch_slice::TouchSlice;
use optra_network::NoMemory;
use std::alloc::Global;
use std::marker::Model;

/// Touches in the order in which they were entered: first the narrow ones, which use their row once, and then the others,
/// from the first one on that uses it otherwise or has too high a row.
#[derive(Drop)]
pub(crate) struct Touches {
    narrow: Vec<u32>,
    wide: Vec<Touch>,
}

impl Model for Touches {
    ghost use Rattle.std.specs.Prelude.{List};
    ghost use Rattle.optra_prices.specs.NarrowTouches.{touches_of};
    ghost use Rattle.optra_prices.specs.declared.touch.Touch.{Touch};

    ghost Value = { List Touch };

    ghost view = { λ a. touches_of a.narrow.items a.wide.items };
}

/// The row of a touch that uses it once, where it fits. A `None` too many costs memory alone.
fn narrowed(touch: Touch) -> Option<u32>
    ensures { IfSome result (λ row. touch ≡ touch_of row) }
{
    if touch.uses == 1 {
        u32::try_from(touch.row).ok()
    } else {
        None
    }
}

/// Each row by the number that stands at its place.
fn renumber_rows(rows: &mut [u32], numbers: &[u32])
    ensures { rows.new ≡ map (slice_index numbers.now) rows.old }
{
    for k in 0..rows.len() {
        rows[k] = number_at(numbers, rows[k] as usize);
    }
}

/// Each touch by the number that stands at the place of its row.
fn renumber_each(touches: &mut [Touch], numbers: &[u32])
    ensures { touches.new ≡ map (renumbered numbers.now) touches.old }
{
    for k in 0..touches.len() {
        touches[k].row = number_at(numbers, touches[k].row) as usize;
    }
}

/// The number at a place, and 0 past the last one.
fn number_at(numbers: &[u32], place: usize) -> u32
    ensures { result ≡ slice_index numbers.now place }
{
    numbers.get(place).copied().unwrap_or(0)
}

impl Touches {
    /// No touches.
    pub(crate) fn new(alloc: Global) -> Touches
        ensures { result ≡ [] }
    {
        Touches {
            narrow: Vec::new(alloc),
            wide: Vec::new(alloc),
        }
    }

    /// No touches, with room for so many.
    pub(crate) fn with_room(alloc: Global, count: usize) -> Result<Touches, NoMemory>
        ensures { IfOk result (λ touches. touches ≡ []) }
    {
        let mut narrow = Vec::new(alloc);
        narrow.reserve_exact(count)?;
        Ok(Touches {
            narrow,
            wide: Vec::new(alloc),
        })
    }

    /// Adds a touch.
    #[inline(always)]
    pub(crate) fn push(&mut self, touch: Touch) -> Result<(), NoMemory>
        ensures { OnOk result (self.new ≡ self.old ++ touch ∷ []) }
    {
        if !self.wide.is_empty() {
            self.wide.push(touch)?;
            return Ok(());
        }
        match narrowed(touch) {
            Some(row) => self.narrow.push(row)?,
            None => self.wide.push(touch)?,
        }
        Ok(())
    }

    /// Names rows by the numbers that stand at their places. No memory is taken.
    pub(crate) fn renumber(&mut self, numbers: &[u32])
        ensures { self.new ≡ map (renumbered numbers.now) self.old }
    {
        renumber_rows(&mut self.narrow, numbers);
        renumber_each(&mut self.wide, numbers);
    }

    /// Lets go the room for more touches.
    pub(crate) fn shrink_to_fit(&mut self)
        ensures { self.new ≡ self.old }
    {
        self.narrow.shrink_to_fit();
        self.wide.shrink_to_fit();
    }

    /// The touches, to be read.
    pub(crate) fn slice(&self) -> TouchSlice<'_>
        ensures { result ≡ self.now }
    {
        TouchSlice {
            narrow: &self.narrow,
            wide: &self.wide,
        }
    }

    /// Those from one place up to another, to be read.
    pub(crate) fn range(&self, start: usize, end: usize) -> TouchSlice<'_>
        requires ordered { start ≤ end }
        requires within { end ≤ length self.now }
        ensures { result ≡ slice_range self.now start end }
    {
        let count = self.narrow.len();
        TouchSlice {
            narrow: &self.narrow[start.min(count)..end.min(count)],
            wide: &self.wide[start.saturating_sub(count)..end.saturating_sub(count)],
        }
    }
}
