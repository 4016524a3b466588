//! A box taken apart.

ghost use Rattle.std.specs.Prelude.{◌≡◌};
ghost use Rattle.std.specs.Box.Ownership.{box_owns};

use std::alloc::Allocator;
use std::marker::Model;

/// The address of what a box has, with the box's allocator: it owns what the box owned, and must become a box again.
pub(crate) struct Loose<T, A: Allocator> {
    pub(crate) at: *mut T,
    pub(crate) alloc: A,
    pub(crate) ghost inside: { T },
}

impl<T, A: Allocator> Model for Loose<T, A> {
    ghost also_owns = { λ loose. box_owns (A.dealloc_token loose.alloc) T.row loose.at loose.inside };
}

impl<T, A: Allocator> Loose<T, A> {
    pub(crate) fn of(boxed: Box<T, A>) -> Loose<T, A>
    where
        T: Drop,
        ensures { result.inside ≡ boxed.value }
    {
        let (at, alloc) = Box::into_raw_with_allocator(boxed);
        Loose { at, alloc }
    }

    pub(crate) fn into_box(self) -> Box<T, A>
        ensures { result.value ≡ self.inside }
    {
        let Loose { at, alloc } = self;
        unsafe { Box::from_raw(alloc, at) }
    }
}
