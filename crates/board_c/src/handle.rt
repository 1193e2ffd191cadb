//! A handle that C keeps: two words, of which C reads nothing.

ghost use Rattle.std.specs.Prelude.{◌≡◌, true, false, None, IsSomeAnd, Option};
ghost use Rattle.std_alloc.specs.Box.Ownership.{box_owns};
ghost use Rattle.machine.specs.Machines.{MachineState};
ghost use Rattle.board_c.specs.Owned.{owned_if};
ghost use Rattle.board_c.specs.contracts.opened.Opened.{the_row as opened_row};

use crate::boxed::RawBox;
use crate::opened::Opened;
use std::alloc::{Allocator, Global};
use std::marker::Model;

/// A handle that C keeps: a board on the heap where it is open. Zeros are a closed one.
#[repr(C)]
pub struct Handle {
    at: *mut u8,
    full: bool,
    alloc: Global,
    ghost held: { Option MachineState },
}

impl Model for Handle {
    ghost also_owns = { λ h.
        owned_if h.full (box_owns (⟦<Global as Allocator>⟧.dealloc_token h.alloc) opened_row h.at h.held) };
}

// What a handle owns says the same to every thread, so it may move between threads.
unsafe impl Send for Handle {}

impl Handle {
    /// A closed handle.
    fn empty(alloc: Global) -> Handle
        ensures empty { result.full ≡ false }
    {
        Handle {
            at: std::ptr::null_mut(),
            full: false,
            alloc,
        }
    }

    /// The open handle of a board.
    fn of(board: RawBox<Opened, Global>) -> Handle
        ensures full { result.full ≡ true }
        ensures held { result.held ≡ board.value }
    {
        let RawBox { at, alloc } = board;
        Handle {
            at: at as *mut u8,
            full: true,
            alloc,
        }
    }

    /// The board of a handle, where it is open.
    fn into_raw(self) -> Option<RawBox<Opened, Global>>
        ensures empty { self.full ≡ false → result ≡ None }
        ensures held { self.full ≡ true → IsSomeAnd result (λ board. board.value ≡ self.held) }
    {
        let Handle { at, full, alloc } = self;
        if full {
            Some(RawBox {
                at: at as *mut Opened,
                alloc,
            })
        } else {
            None
        }
    }

    /// Takes the board out, where the handle is open. Then it is closed.
    pub(crate) fn take(&mut self, alloc: Global) -> Option<Box<Opened>>
        ensures empty { self.old.full ≡ false → result ≡ None }
        ensures held { self.old.full ≡ true → IsSomeAnd result (λ board. board.value ≡ self.old.held) }
        ensures after { self.new.full ≡ false }
    {
        match std::mem::replace(self, Handle::empty(alloc)).into_raw() {
            Some(board) => Some(board.into_box()),
            None => None,
        }
    }

    /// Puts a board in, in the place of what is there. Then the handle is open.
    pub(crate) fn put(&mut self, board: Box<Opened>)
        ensures full { self.new.full ≡ true }
        ensures held { self.new.held ≡ board.value }
    {
        if let Some(old) = std::mem::replace(self, Handle::of(RawBox::of(board))).into_raw() {
            let _ended = old.into_box();
        }
    }
}
