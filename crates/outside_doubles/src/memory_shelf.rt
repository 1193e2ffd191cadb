//! A shelf in memory that can be made to fail.

ghost use Rattle.std.specs.Prelude.{◌≡◌, ◌≤◌, ◌↔◌, ◌⊎◌, [], Some, None, take, drop, IfOk, OnOk, OnErr, IsErr, Contains};
ghost use Rattle.board_outside.specs.Files.{file_at, file_named, piece_length};
ghost use Rattle.board_outside.specs.Counts.{next_fault};
ghost use Rattle.outside_doubles.specs.Calls.{next_call};

use crate::calls::count_call;
use arrayvec::ArrayVec;
use board_outside::{Failed, Shelf, copy_piece, find_file, keep_name};

/// Files in memory. A fetch fails where its number, from 1 on, is in `failing`, and where no file
/// has its name. `calls` and `faults` stand still at the last value of their types.
#[derive(Drop)]
pub struct MemShelf {
    pub files: Vec<(String, Vec<u8>)>,
    pub failing: Vec<u32>,
    pub calls: u32,
    pub faults: u64,
    /// The first 255 bytes of the name of the last failed fetch.
    pub last: ArrayVec<u8, 255>,
}

impl MemShelf {
    /// A shelf of these files, from which nothing was fetched yet.
    pub fn new(files: Vec<(String, Vec<u8>)>, failing: Vec<u32>) -> MemShelf
        ensures files { result.files ≡ files }
        ensures failing { result.failing ≡ failing }
        ensures calls { result.calls ≡ 0 }
        ensures faults { result.faults ≡ 0 }
        ensures last { result.last.items ≡ [] }
    {
        MemShelf {
            files,
            failing,
            calls: 0,
            faults: 0,
            last: ArrayVec::new(),
        }
    }

    // Counts a fault, and keeps the name of the file whose fetch failed.
    fn fail(&mut self, name: &str) -> Failed
        ensures faults { self.new.faults ≡ next_fault self.old.faults }
        ensures never_falls { self.old.faults ≤ self.new.faults }
        ensures last { self.new.last.items ≡ take 255 name.now }
        ensures files { self.new.files ≡ self.old.files }
        ensures failing { self.new.failing ≡ self.old.failing }
        ensures calls { self.new.calls ≡ self.old.calls }
    {
        self.faults = self.faults.saturating_add(1);
        keep_name(&mut self.last, name);
        Failed
    }
}

impl Shelf for MemShelf {
    ghost files = { λ shelf. Some (file_named shelf.files.items) };

    ghost faults = { λ shelf. shelf.faults };

    ghost failed_name = { λ shelf. shelf.last.items };

    ghost fetches = { λ _. None };

    // More than a shelf has to promise: when it fails, and that it otherwise fills what it can.
    fn fetch(&mut self, name: &str, at: u64, into: &mut [u8]) -> Result<usize, Failed>
        ensures calls { self.new.calls ≡ next_call self.old.calls }
        ensures files { self.new.files ≡ self.old.files }
        ensures failing { self.new.failing ≡ self.old.failing }
        ensures fails { IsErr result ↔ (Contains self.old.failing.items self.new.calls
            ⊎ (file_at self.old.files.items name.now ≡ None)) }
        ensures count { IfOk result (λ k. k ≡ piece_length (file_named self.old.files.items name.now) at into.old) }
        ensures bytes { IfOk result (λ k. take k into.new
            ≡ take k (drop at (file_named self.old.files.items name.now))) }
        ensures beyond { IfOk result (λ k. drop k into.new ≡ drop k into.old) }
        ensures unread { OnErr result (into.new ≡ into.old) }
        ensures fault { OnErr result (self.new.faults ≡ next_fault self.old.faults) }
        ensures no_fault { OnOk result (self.new.faults ≡ self.old.faults) }
        ensures never_falls { self.old.faults ≤ self.new.faults }
        ensures names { OnErr result (self.new.last.items ≡ take 255 name.now) }
        ensures still { OnOk result (self.new.last ≡ self.old.last) }
    {
        if count_call(&mut self.calls, &self.failing) {
            return Err(self.fail(name));
        }
        match find_file(&self.files, name) {
            Some(file) => Ok(copy_piece(file, at, into)),
            None => Err(self.fail(name)),
        }
    }
}
