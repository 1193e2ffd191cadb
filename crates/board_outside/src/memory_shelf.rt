//! Files in memory as a shelf.

ghost use Rattle.std.specs.Prelude.{◌≡◌, IsOk, [], Some, None, take, drop, IfOk};
ghost use Rattle.board_outside.specs.Files.{file_named, piece_length};

use crate::fault::Failed;
use crate::outside::Shelf;
use crate::pieces::{copy_piece, find_file};

/// Files in memory, of which a fetch never fails. A name that is not there stands for an empty
/// file.
#[derive(Drop)]
pub struct SafeShelf {
    pub files: Vec<(String, Vec<u8>)>,
}

impl Shelf for SafeShelf {
    ghost files = { λ shelf. Some (file_named shelf.files.items) };

    ghost faults = { λ _. 0 };

    ghost failed_name = { λ _. [] };

    ghost fetches = { λ _. None };

    // More than a shelf has to promise: it never fails, and fills what it can.
    fn fetch(&mut self, name: &str, at: u64, into: &mut [u8]) -> Result<usize, Failed>
        ensures only { IsOk result }
        ensures files { self.new ≡ self.old }
        ensures count { IfOk result (λ k. k ≡ piece_length (file_named self.old.files.items name.now) at into.old) }
        ensures bytes { IfOk result (λ k. take k into.new
            ≡ take k (drop at (file_named self.old.files.items name.now))) }
        ensures beyond { IfOk result (λ k. drop k into.new ≡ drop k into.old) }
    {
        let file = find_file(&self.files, name).unwrap_or(&[]);
        Ok(copy_piece(file, at, into))
    }
}
