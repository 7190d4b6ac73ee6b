//! A box that is held by its address: what is left of it is where it lies, and the right to take it up again.

ghost use Rattle.std.specs.Prelude.{◌≡◌};
ghost use Rattle.std_alloc.specs.Box.Ownership.{box_owns};

use std::alloc::Allocator;
use std::marker::Model;

/// Where the value of a box lies, with the allocator that frees it.
pub struct RawBox<T, A: Allocator> {
    pub place: *mut T,
    pub from: A,
    pub ghost value: { T },
}

impl<T, A: Allocator> Model for RawBox<T, A> {
    ghost also_owns = { λ raw_box. box_owns (A.dealloc_token raw_box.from) T.row raw_box.place raw_box.value };
}

impl<T: Drop, A: Allocator> RawBox<T, A> {
    /// Lays the box down.
    pub fn down(held: Box<T, A>) -> RawBox<T, A>
        ensures { result.value ≡ held.value }
    {
        let (place, from) = Box::into_raw_with_allocator(held);
        RawBox { place, from }
    }

    /// Takes the box up again.
    pub fn up(self) -> Box<T, A>
        ensures { result.value ≡ self.value }
    {
        let RawBox { place, from } = self;
        unsafe { Box::from_raw(from, place) }
    }
}
