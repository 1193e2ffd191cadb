//! Where files are opened by their names.

ghost use Rattle.std.specs.Prelude.{ℕ, List, Option, None, IfOk};
ghost use Rattle.board_files.specs.Folder.{Gives};

use std::fs::File;
use std::io;
use std::io::Read;
use std::rt::Files;

/// Opens files by their names, each to be read from its first byte on.
pub trait Folder {
    type File: Read + Drop;

    // The bytes of each name; None where the folder does not say.
    ghost files: { Self → Option (List ℕ → List ℕ) };

    /// Opens the file of this name. A file that is not there is an error, as each other refusal of the system.
    fn open(&self, name: &str) -> io::Result<Self::File>
        ensures start { IfOk result (λ file. Gives (files self.now) name.now 0 (Self.File.remaining file)) };
}

/// The files of the system, of whose bytes nothing is known: a name is a path.
#[derive(Drop)]
pub struct SystemFolder<'a, R: Files> {
    pub rt: &'a R,
}

impl<R: Files> Folder for SystemFolder<'_, R> {
    type File = R::File;

    ghost files = { λ _. None };

    fn open(&self, name: &str) -> io::Result<R::File> {
        File::open(self.rt, name)
    }
}
