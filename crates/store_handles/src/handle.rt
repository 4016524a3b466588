//! The handle.

ghost use Rattle.std.specs.Prelude.{◌≡◌, ◌↔◌, Option, Some, None, IsSome, IsTrue};
ghost use Rattle.std.specs.Option.{option_map};
ghost use Rattle.store_handles.specs.Handles.{handle_owns, held_coded};
ghost use Rattle.store_handles.specs.declared.held.Held.{Held};

use crate::held::Held;
use crate::loose::Loose;
use std::alloc::Global;
use std::marker::Model;
use std::mem::replace;

/// What stands at a handle's address, for C.
#[repr(C)]
pub struct Unseen {
    _byte: u8,
}

/// What C holds: the address of what it owns, or null where it holds nothing.
#[derive(Drop)]
#[repr(C)]
pub struct Handle {
    at: *mut Unseen,
    alloc: Global,
    pub ghost held: { Option Held } by { held_coded },
}

impl Model for Handle {
    ghost also_owns = { λ h. handle_owns h.alloc h.at h.held };
}

impl Handle {
    /// One that holds nothing.
    pub fn empty(alloc: Global) -> Handle
        ensures { result.held ≡ None }
    {
        let at = std::ptr::null_mut();
        Handle { at, alloc }
    }

    /// One that holds what is in a box.
    pub fn of(boxed: Box<Held>) -> Handle
        ensures { result.held ≡ Some boxed.value }
    {
        Handle::of_loose(Loose::of(boxed))
    }

    /// Whether it holds nothing.
    pub fn is_empty(&mut self) -> bool
        ensures empty { IsTrue result ↔ (self.old.held ≡ None) }
        ensures same { self.new.held ≡ self.old.held }
    {
        self.at.is_null()
    }

    /// Takes out what it holds, if it does.
    pub fn take(&mut self, alloc: Global) -> Option<Box<Held>>
        ensures taken { option_map (λ boxed. boxed.value) result ≡ self.old.held }
        ensures left { self.new.held ≡ None }
    {
        if self.is_empty() {
            return None;
        }
        let full = replace(self, Handle::empty(alloc));
        Some(full.into_loose().into_box())
    }

    /// Puts what it is to hold into a handle that holds nothing.
    pub fn put(&mut self, boxed: Box<Held>)
        requires { self.old.held ≡ None }
        ensures { self.new.held ≡ Some boxed.value }
    {
        *self = Handle::of(boxed);
    }

    fn of_loose(loose: Loose<Held, Global>) -> Handle
        ensures { result.held ≡ Some loose.inside }
    {
        let Loose { at, alloc } = loose;
        let at = at as *mut Unseen;
        Handle { at, alloc }
    }

    fn into_loose(self) -> Loose<Held, Global>
        requires { IsSome self.held }
        ensures { self.held ≡ Some result.inside }
    {
        let Handle { at, alloc } = self;
        let at = at as *mut Held;
        Loose { at, alloc }
    }
}

// The address is the handle's alone, and what lies there may be sent.
unsafe impl Send for Handle {}

/// A handle may go to another thread, with what it holds. It does nothing.
pub fn law_handle_is_sent(handle: &Handle, held: &Held) {
    may_be_sent(handle);
    may_be_sent(held);
}

fn may_be_sent<T: Send>(_it: &T) {}
