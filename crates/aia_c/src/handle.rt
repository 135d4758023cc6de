ghost use Rattle.std.specs.Prelude.{◌≡◌, Option, Some, None, MatchOption};
ghost use Rattle.aia_replay.specs.Stands.{EngineState};
ghost use Rattle.aia_c.specs.Ownership.{handle_owns, held_coded};

use crate::block::Block;
use aia_replay::Engine;
use std::alloc::Global;
use std::marker::Model;
use std::mem;
use std::ptr::null_mut;

/// What C keeps of an engine: one pointer, null where the handle is closed. C sees it as a
/// `struct aia *`, and calls take a `struct aia **`.
#[repr(C)]
#[derive(Drop)]
pub struct Handle {
    at: *mut u8,
    pub ghost engine: { Option EngineState } by { held_coded },
}

impl Model for Handle {
    ghost also_owns = { λ h. handle_owns h.at h.engine };
}

impl Handle {
    /// Makes a closed handle.
    pub fn closed() -> Handle
        ensures { result.engine ≡ None }
    {
        Handle { at: null_mut() }
    }

    /// Keeps the block of an engine by its address.
    fn of(block: Block<Engine, Global>) -> Handle
        ensures { result.engine ≡ Some block.value }
    {
        let Block { at, alloc: _ } = block;
        Handle { at: at as *mut u8 }
    }

    /// Gives the block of the engine, `None` where the handle is closed.
    fn into_block(self, alloc: Global) -> Option<Block<Engine, Global>>
        ensures { MatchOption result (self.engine ≡ None) (λ b. self.engine ≡ Some b.value) }
    {
        let Handle { at } = self;
        if at.is_null() {
            None
        } else {
            Some(Block {
                at: at as *mut Engine,
                alloc,
            })
        }
    }

    /// Puts an engine into the handle, which is closed, so it is open.
    pub fn put(&mut self, engine: Box<Engine>)
        requires { self.old.engine ≡ None }
        ensures { self.new.engine ≡ Some engine.value }
    {
        *self = Handle::of(Block::of(engine));
    }

    /// Takes the engine out, and leaves the handle closed; `None` where it is closed already.
    pub fn take(&mut self, alloc: Global) -> Option<Box<Engine>>
        ensures taken { MatchOption result (self.old.engine ≡ None)
            (λ engine. self.old.engine ≡ Some engine.value) }
        ensures closed { self.new.engine ≡ None }
    {
        match mem::replace(self, Handle::closed()).into_block(alloc) {
            Some(block) => Some(block.into_box()),
            None => None,
        }
    }
}

// A closed handle is plain data, and an open one the engine's only owner.
unsafe impl Send for Handle {}
