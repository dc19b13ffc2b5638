//! Touches, lent to be read.
ghost use Rattle.std.specs.Prelude.{◌≡◌, ◌<◌, true, All, IfSome, length, map, slice_index_or};
ghost use Rattle.optra_prices.specs.NarrowTouches.{no_touch, touch_of};

use crate::touch::Touch;
use std::marker::Model;

/// Touches: first the narrow ones, which use their row once, and then the others.
#[derive(Drop)]
pub(crate) struct TouchSlice<'a> {
    pub(crate) narrow: &'a [u32],
    pub(crate) wide: &'a [Touch],
}

impl<'a> Model for TouchSlice<'a> {
    ghost use Rattle.std.specs.Prelude.{List};
    ghost use Rattle.optra_prices.specs.NarrowTouches.{touches_of};
    ghost use Rattle.optra_prices.specs.declared.touch.Touch.{Touch};

    ghost Value = { List Touch };

    ghost view = { λ a. touches_of a.narrow.now a.wide.now };
}

impl TouchSlice<'_> {
    /// How many there are.
    pub(crate) fn len(&self) -> usize
        ensures { result ≡ length self.now }
    {
        self.narrow.len() + self.wide.len()
    }

    /// Whether it is known that each uses its row once. Where it is not, what each uses is read, which costs time alone.
    pub(crate) fn are_once(&self) -> bool
        ensures { result ≡ true → All (λ touch. touch.uses ≡ 1) self.now }
    {
        self.wide.is_empty()
    }

    /// The rows, where it is known that each touch uses its row once. Without them the touches are read, which costs time alone.
    pub(crate) fn narrow_rows(&self) -> Option<&[u32]>
        ensures { IfSome result (λ rows. map touch_of rows.now ≡ self.now) }
    {
        if self.wide.is_empty() {
            Some(self.narrow)
        } else {
            None
        }
    }

    /// The touch at a place.
    pub(crate) fn at(&self, k: usize) -> Touch
        requires { k < length self.now }
        ensures { result ≡ slice_index_or self.now k no_touch }
    {
        match self.narrow.get(k) {
            Some(row) => Touch {
                row: *row as usize,
                uses: 1,
            },
            None => self.wide[k - self.narrow.len()],
        }
    }
}
