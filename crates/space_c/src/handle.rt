//! A handle as C has it: a pointer whose type names nothing that is behind it, and a flag that says whether there is
//! anything. Only C makes a closed handle, by writing zeros; a call opens it and puts back what it took out. A reader
//! may rely on the flag: a handle whose flag is set owns the box of an owner of a space with one caller.
ghost use Rattle.std.specs.Prelude.{◌≡◌, Some, None, Option, true, false};
ghost use Rattle.c_handles.specs.Handles.{IsOpen, behind_coded, flag_of, handle_owns};
ghost use Rattle.space_c.specs.Behind.{Behind};
ghost use Rattle.space_c.specs.contracts.state.State.{the_row};

use crate::state::State;
use c_handles::Parts;
use std::alloc::Global;
use std::marker::Model;

/// The pointer of a handle, and what it owns behind it.
#[repr(C)]
pub struct Pointer {
    at: *mut u8,
    alloc: Global,
    pub ghost behind: { Option Behind } by { behind_coded the_row },
}

impl Model for Pointer {
    ghost also_owns = { λ h. handle_owns the_row h.alloc h.at h.behind };
}

impl Pointer {
    fn of_parts(parts: Parts<State, Global>) -> Pointer
        ensures { result.behind ≡ Some parts.value }
    {
        let Parts { ptr, alloc } = parts;
        Pointer {
            at: ptr as *mut u8,
            alloc,
        }
    }

    fn into_parts(self) -> Parts<State, Global>
        requires { IsOpen self.behind }
        ensures { self.behind ≡ Some result.value }
    {
        let Pointer { at, alloc } = self;
        Parts {
            ptr: at as *mut State,
            alloc,
        }
    }

    /// Lets a closed pointer go. It owns nothing.
    fn forget(self)
        requires { self.behind ≡ None }
    {
        let Pointer { at: _, alloc: _ } = self;
    }
}

unsafe impl Send for Pointer {}

/// A handle: open, with a caller behind it, or closed.
#[repr(C)]
pub struct GzSpace {
    pub(crate) pointer: Pointer,
    /// 1 where the handle is open, 0 where it is closed. It is a whole word, so that a copy has no bytes between.
    opened: u64,
    ghost flagged: { opened ≡ flag_of pointer.behind },
}

impl GzSpace {
    /// Whether the handle is open.
    pub(crate) fn is_open(&self) -> bool
        ensures open { result ≡ true → IsOpen self.now.pointer.behind }
        ensures closed { result ≡ false → self.now.pointer.behind ≡ None }
    {
        self.opened == 1
    }

    /// An open handle over a box.
    pub(crate) fn over(b: Box<State, Global>) -> GzSpace
        ensures { result.pointer.behind ≡ Some b.value }
    {
        GzSpace {
            pointer: Pointer::of_parts(Parts::of(b)),
            opened: 1,
        }
    }

    /// The box that an open handle is over.
    pub(crate) fn into_box(self) -> Box<State, Global>
        requires { IsOpen self.pointer.behind }
        ensures { self.pointer.behind ≡ Some result.value }
    {
        let GzSpace { pointer, opened: _ } = self;
        pointer.into_parts().into_box()
    }

    /// Lets a closed handle go. It owns nothing.
    pub(crate) fn forget(self)
        requires { self.pointer.behind ≡ None }
    {
        let GzSpace { pointer, opened: _ } = self;
        pointer.forget();
    }
}

fn sends<T: Send>() {}

/// That a handle may go from one thread to another. It does nothing.
pub fn is_send_and_sync() {
    sends::<GzSpace>();
}
