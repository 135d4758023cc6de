//! A box taken apart: its block by the block's address, and its allocator. The library for C keeps
//! the address alone.

ghost use Rattle.std.specs.Prelude.{◌≡◌};
ghost use Rattle.std.specs.Box.Ownership.{box_owns};

use std::alloc::Allocator;
use std::marker::Model;

/// Owns a value in a block of an allocator, as a box does. Dropped, it frees nothing.
pub struct Block<T, A: Allocator> {
    /// Where the block is.
    pub at: *mut T,
    /// The allocator that the block came from.
    pub alloc: A,
    pub ghost value: { T },
}

impl<T, A: Allocator> Model for Block<T, A> {
    ghost also_owns = { λ b. box_owns (A.dealloc_token b.alloc) T.row b.at b.value };
}

impl<T: Drop, A: Allocator> Block<T, A> {
    /// Takes a box apart.
    pub fn of(boxed: Box<T, A>) -> Block<T, A>
        ensures { result.value ≡ boxed.value }
    {
        let (at, alloc) = Box::into_raw_with_allocator(boxed);
        Block { at, alloc }
    }

    /// Makes the box again.
    pub fn into_box(self) -> Box<T, A>
        ensures { result.value ≡ self.value }
    {
        let Block { at, alloc } = self;
        unsafe { Box::from_raw(alloc, at) }
    }
}
