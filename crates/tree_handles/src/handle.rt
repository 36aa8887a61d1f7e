//! What a program that isn't Rattle holds: nothing, or the pointer to a caller on the heap.
ghost use Rattle.std.specs.Prelude.{◌≡◌, IfOk, Some, None};
ghost use Rattle.std.specs.Option.{MatchOption};
ghost use Rattle.std.specs.declared.option.Option.{Option};
ghost use Rattle.tree_handles.specs.declared.any_caller.AnyCaller.{AnyCaller};
ghost use Rattle.tree_handles.specs.Ownership.{handle_owns, held_coded};

use crate::any_caller::AnyCaller;
use crate::parts::Parts;
use std::alloc::{AllocError, Global};
use std::marker::Model;
use std::mem::replace;
use std::ptr::null_mut;

/// Null, or a caller on the heap that this handle alone leads to.
#[repr(C)]
pub struct Handle {
    at: *mut u8,
    alloc: Global,
    pub ghost held: { Option AnyCaller } by { held_coded },
}

impl Model for Handle {
    ghost also_owns = { λ h. handle_owns h.alloc h.at h.held };
}

impl Handle {
    fn closed(alloc: Global) -> Handle
        ensures { result.held ≡ None }
    {
        Handle {
            at: null_mut(),
            alloc,
        }
    }

    fn of_parts(parts: Parts<AnyCaller, Global>) -> Handle
        ensures { result.held ≡ Some parts.value }
    {
        let Parts { ptr, alloc } = parts;
        Handle {
            at: ptr.cast::<u8>(),
            alloc,
        }
    }

    fn into_parts(self) -> Option<Parts<AnyCaller, Global>>
        ensures { MatchOption result (self.held ≡ None) (λ parts. self.held ≡ Some parts.value) }
    {
        let Handle { at, alloc } = self;
        if at.is_null() {
            None
        } else {
            Some(Parts {
                ptr: at.cast::<AnyCaller>(),
                alloc,
            })
        }
    }

    pub(crate) fn of(caller: Box<AnyCaller>) -> Handle
        ensures { result.held ≡ Some caller.value }
    {
        Handle::of_parts(Parts::of(caller))
    }

    pub(crate) fn new(alloc: Global, caller: AnyCaller) -> Result<Handle, AllocError>
        ensures { IfOk result (λ handle. handle.held ≡ Some caller) }
    {
        Ok(Handle::of(Box::new(alloc, caller)?))
    }

    /// Takes the caller out, and leaves nothing.
    pub(crate) fn take(&mut self, alloc: Global) -> Option<Box<AnyCaller>>
        ensures left { self.new.held ≡ None }
        ensures taken { MatchOption result (self.old.held ≡ None) (λ caller. self.old.held ≡ Some caller.value) }
    {
        match replace(self, Handle::closed(alloc)).into_parts() {
            None => None,
            Some(parts) => Some(parts.into_box()),
        }
    }
}

impl Drop for Handle {
    fn drop(self) {
        match self.into_parts() {
            None => (),
            Some(parts) => drop(parts.into_box()),
        }
    }
}

unsafe impl Send for Handle {}
