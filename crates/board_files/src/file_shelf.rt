//! A folder's files as a shelf.

ghost use Rattle.std.specs.Prelude.{◌≡◌, ◌<◌, ◌≤◌, ℕ, List, take, drop, length, Some, None, IfOk, OnOk, OnErr};
ghost use Rattle.std.specs.Io.KnownBytes.{ReadConsumes, IsAtEnd};
ghost use Rattle.board_outside.specs.Counts.{next_fault};
ghost use Rattle.board_outside.specs.Outside.{OfFile};
ghost use Rattle.board_files.specs.Folder.{Gives};

use crate::folder::Folder;
use crate::tries::read_on;
use arrayvec::ArrayVec;
use board_outside::{Failed, Shelf, keep_name};
use std::io;
use std::io::{ErrorKind, Read};

/// How many bytes a name has at most.
const NAME_LIMIT: usize = 4096;

/// How many bytes are passed over at once.
const PASSED_AT_ONCE: usize = 4096;

/// Files by their names. Each error of the folder is a fault, also where a file is not there, and so is a name
/// of more than 4,096 bytes. A file stays open between its pieces: so they are pieces of one file also where another
/// takes its name, and a pipe can be read.
#[derive(Drop)]
pub struct FileShelf<F: Folder> {
    folder: F,
    opened: Option<F::File>,
    /// The name of the open file.
    name: ArrayVec<u8, NAME_LIMIT>,
    /// Where its next read begins.
    at: u64,
    faults: u64,
    failed_name: ArrayVec<u8, 255>,
    ghost kept: { (file : F.File) → opened ≡ Some file
        → Gives (F.files folder) name.items at (F.File.remaining file) },
}

impl<F: Folder> FileShelf<F> {
    /// The files of a folder, without faults.
    pub fn new(folder: F) -> FileShelf<F>
        ensures folder { result.folder ≡ folder }
        ensures quiet { result.faults ≡ 0 }
    {
        FileShelf {
            folder,
            opened: None,
            name: ArrayVec::new(),
            at: 0,
            faults: 0,
            failed_name: ArrayVec::new(),
        }
    }

    // Reads from byte `at` of a file on. The file stays open, unless something was refused.
    #[tactic(auto, using(crate::proofs::Known::came_from, crate::proofs::Known::ends_by))]
    fn read_at(&mut self, name: &str, at: u64, into: &mut [u8]) -> io::Result<usize>
        requires room { 0 < length into.old }
        ensures fits { IfOk result (λ k. k ≤ length into.new) }
        ensures bytes { IfOk result (λ k. (file_of : List ℕ → List ℕ) → F.files self.old.folder ≡ Some file_of
            → take k into.new ≡ take k (drop at (file_of name.now))) }
        ensures end { IfOk result (λ k. k ≡ 0 → (file_of : List ℕ → List ℕ) → F.files self.old.folder ≡ Some file_of
            → length (file_of name.now) ≤ at) }
        ensures folder { self.new.folder ≡ self.old.folder }
        ensures faults { self.new.faults ≡ self.old.faults }
        ensures failed_name { self.new.failed_name ≡ self.old.failed_name }
    {
        let mut file = self.file_at(name, at)?;
        let count = read_on(&mut file, into)?;
        if let Some(after) = at.checked_add(count as u64) {
            self.at = after;
            self.opened = Some(file);
        }
        Ok(count)
    }

    // The file of this name from this place on: the open one, where it stands there, else the file opened anew. Its
    // name is kept.
    fn file_at(&mut self, name: &str, at: u64) -> io::Result<F::File>
        ensures stands { IfOk result (λ file. Gives (F.files self.old.folder) name.now at (F.File.remaining file)) }
        ensures closed { self.new.opened ≡ None }
        ensures name { OnOk result (self.new.name.items ≡ name.now) }
        ensures folder { self.new.folder ≡ self.old.folder }
        ensures faults { self.new.faults ≡ self.old.faults }
        ensures failed_name { self.new.failed_name ≡ self.old.failed_name }
    {
        if let Some(file) = self.opened.take() {
            if self.at == at && self.name.as_slice() == name.as_bytes() {
                return Ok(file);
            }
        }
        self.name.clear();
        if self.name.try_extend_from_slice(name.as_bytes()).is_err() {
            return Err(io::Error::from(ErrorKind::InvalidInput));
        }
        let mut file = self.folder.open(name)?;
        pass_over(&mut file, at)?;
        Ok(file)
    }
}

// Reads `count` bytes and drops them, or as many as there are.
fn pass_over<R: Read>(file: &mut R, count: u64) -> io::Result<()>
    ensures passed { OnOk result ((bytes : List ℕ) → R.remaining file.old ≡ Some bytes
        → R.remaining file.new ≡ Some (drop count bytes)) }
{
    let mut scratch = [0; PASSED_AT_ONCE];
    let mut left = count;
    while left > 0 {
        let room = left.min(PASSED_AT_ONCE as u64) as usize;
        let passed = read_on(file, &mut scratch[..room])?;
        if passed == 0 {
            return Ok(());
        }
        left -= passed as u64;
    }
    Ok(())
}

impl<F: Folder> Shelf for FileShelf<F> {
    ghost files = { λ shelf. F.files shelf.folder };

    ghost faults = { λ shelf. shelf.faults };

    ghost failed_name = { λ shelf. shelf.failed_name.items };

    ghost fetches = { λ _. None };

    // More than a shelf has to promise: a fetch that fails is one fault.
    #[tactic(auto, using(crate::proofs::Known::of_file))]
    fn fetch(&mut self, name: &str, at: u64, into: &mut [u8]) -> Result<usize, Failed>
        requires room { 0 < length into.old }
        ensures fits { IfOk result (λ k. k ≤ length into.new) }
        ensures bytes { IfOk result (λ k. OfFile (F.files self.old.folder) name.now
            (λ file. take k into.new ≡ take k (drop at file))) }
        ensures end { IfOk result (λ k. k ≡ 0 → OfFile (F.files self.old.folder) name.now
            (λ file. length file ≤ at)) }
        ensures folder { self.new.folder ≡ self.old.folder }
        ensures fault { OnErr result (self.new.faults ≡ next_fault self.old.faults) }
        ensures quiet { OnOk result (self.new.faults ≡ self.old.faults) }
        ensures never_falls { self.old.faults ≤ self.new.faults }
        ensures names { OnErr result (self.new.failed_name.items ≡ take 255 name.now) }
        ensures still { OnOk result (self.new.failed_name ≡ self.old.failed_name) }
    {
        match self.read_at(name, at, into) {
            Ok(count) => Ok(count),
            Err(_) => {
                self.faults = self.faults.saturating_add(1);
                keep_name(&mut self.failed_name, name);
                Err(Failed)
            }
        }
    }
}
