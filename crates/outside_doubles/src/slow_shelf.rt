//! A shelf in memory that hands out few bytes a call.

ghost use Rattle.std.specs.Prelude.{◌≡◌, ◌<◌, ◌≤◌, ◌↔◌, ◌⊎◌, take, drop, Contains, Some, None, IfOk, OnOk, OnErr};
ghost use Rattle.std.specs.Prelude.{IsErr};
ghost use Rattle.board_outside.specs.Files.{file_at, file_named, piece_length};
ghost use Rattle.board_outside.specs.Counts.{next_fault};
ghost use Rattle.outside_doubles.specs.Calls.{next_call};

use crate::memory_shelf::MemShelf;
use board_outside::{Failed, Shelf};

/// Files in memory, of which one fetch reads at most `piece` bytes, at least 1. Each fetch is one
/// fetch of `inner`, which counts the calls and faults and keeps the name.
#[derive(Drop)]
pub struct SlowShelf {
    pub inner: MemShelf,
    pub piece: usize,
    pub ghost some: { 0 < piece },
}

impl SlowShelf {
    /// A shelf of the files of `inner`, in pieces of at most `piece` bytes.
    pub fn new(inner: MemShelf, piece: usize) -> SlowShelf
        requires some { 0 < piece }
        ensures inner { result.inner ≡ inner }
        ensures piece { result.piece ≡ piece }
    {
        SlowShelf { inner, piece }
    }
}

impl Shelf for SlowShelf {
    ghost files = { λ shelf. Some (file_named shelf.inner.files.items) };

    ghost faults = { λ shelf. shelf.inner.faults };

    ghost failed_name = { λ shelf. shelf.inner.last.items };

    ghost fetches = { λ _. None };

    // More than a shelf has to promise: what the inner one returns where it has room for `self.piece` bytes at most.
    fn fetch(&mut self, name: &str, at: u64, into: &mut [u8]) -> Result<usize, Failed>
        ensures piece { self.new.piece ≡ self.old.piece }
        ensures short { IfOk result (λ k. k ≤ self.old.piece) }
        ensures calls { self.new.inner.calls ≡ next_call self.old.inner.calls }
        ensures files { self.new.inner.files ≡ self.old.inner.files }
        ensures failing { self.new.inner.failing ≡ self.old.inner.failing }
        ensures fails { IsErr result ↔ (Contains self.old.inner.failing.items self.new.inner.calls
            ⊎ (file_at self.old.inner.files.items name.now ≡ None)) }
        ensures count { IfOk result (λ k. k ≡ piece_length (file_named self.old.inner.files.items name.now) at
            (take self.old.piece into.old)) }
        ensures bytes { IfOk result (λ k. take k into.new
            ≡ take k (drop at (file_named self.old.inner.files.items name.now))) }
        ensures beyond { IfOk result (λ k. drop k into.new ≡ drop k into.old) }
        ensures unread { OnErr result (into.new ≡ into.old) }
        ensures fault { OnErr result (self.new.inner.faults ≡ next_fault self.old.inner.faults) }
        ensures no_fault { OnOk result (self.new.inner.faults ≡ self.old.inner.faults) }
        ensures never_falls { self.old.inner.faults ≤ self.new.inner.faults }
        ensures names { OnErr result (self.new.inner.last.items ≡ take 255 name.now) }
        ensures still { OnOk result (self.new.inner.last ≡ self.old.inner.last) }
    {
        let room = self.piece.min(into.len());
        self.inner.fetch(name, at, &mut into[..room])
    }
}
