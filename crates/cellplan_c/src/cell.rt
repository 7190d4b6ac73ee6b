//! A cell, as C holds it.

ghost use Rattle.std.specs.Prelude.{◌≡◌, None, Some, is_some, MatchOption};

use crate::inner::Inner;
use crate::raw_box::RawBox;
use crate::slot::Slot;
use std::alloc::Global;
use std::mem::replace;

/// A cell, or none yet: all bytes zero are a cell with none. It isn't dropped: what it holds is freed by a call.
#[repr(C)]
pub struct Cell {
    full: bool,
    pub slot: Slot,
    ghost agrees: { is_some slot.held ≡ full },
}

impl Cell {
    /// A cell with none.
    pub fn empty() -> Cell
        ensures { result.slot.held ≡ None }
    {
        Cell {
            full: false,
            slot: Slot::empty(),
        }
    }

    /// Takes out what the cell holds.
    pub fn take(&mut self, alloc: Global) -> Option<Box<Inner>>
        ensures lent { MatchOption result (self.old.slot.held ≡ None)
            (λ inner. self.old.slot.held ≡ Some inner.value) }
        ensures emptied { self.new.slot.held ≡ None }
    {
        let Cell { full, slot } = replace(self, Cell::empty());
        if full {
            Some(slot.into_raw_box(alloc).up())
        } else {
            slot.discard();
            None
        }
    }

    /// Puts a controller into the cell, which holds none.
    pub fn put(&mut self, inner: Box<Inner>)
        requires { self.old.slot.held ≡ None }
        ensures { self.new.slot.held ≡ Some inner.value }
    {
        let Cell { full: _, slot } = replace(
            self,
            Cell {
                full: true,
                slot: Slot::of_raw_box(RawBox::down(inner)),
            },
        );
        slot.discard();
    }
}
