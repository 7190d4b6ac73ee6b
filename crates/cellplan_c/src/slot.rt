//! What C holds of a controller: where its box lies, if there is one.

ghost use Rattle.std.specs.Prelude.{◌≡◌, None, Some, IsSome};
ghost use Rattle.cellplan_c.specs.Held.{Held, held_coded};
ghost use Rattle.cellplan_c.specs.Slot.{slot_owns};

use crate::inner::Inner;
use crate::raw_box::RawBox;
use std::alloc::Global;
use std::marker::Model;

/// What lies at the pointer, which C never reads.
pub struct Block {
    inner: u8,
}

/// The pointer to a controller's box, or null. It can't be dropped, since that would lose the box.
#[repr(C)]
pub struct Slot {
    at: *mut Block,
    pub ghost held: { Held } by { held_coded },
}

impl Model for Slot {
    ghost also_owns = { λ s. slot_owns s.at s.held };
}

impl Slot {
    /// Null, with no box.
    pub fn empty() -> Slot
        ensures { result.held ≡ None }
    {
        Slot {
            at: std::ptr::null_mut(),
        }
    }

    /// Keeps where the box lies, and not its allocator: there is only one heap.
    pub fn of_raw_box(raw_box: RawBox<Inner, Global>) -> Slot
        ensures { result.held ≡ Some raw_box.value }
    {
        let RawBox { place, from: _ } = raw_box;
        Slot {
            at: place as *mut Block,
        }
    }

    /// The box that lies there, which leaves the slot.
    pub fn into_raw_box(self, from: Global) -> RawBox<Inner, Global>
        requires { IsSome self.held }
        ensures { self.held ≡ Some result.value }
    {
        let Slot { at } = self;
        RawBox {
            place: at as *mut Inner,
            from,
        }
    }

    /// Lets go of a slot with no box.
    pub fn discard(self)
        requires { self.held ≡ None }
    {
        let Slot { at: _ } = self;
    }
}
