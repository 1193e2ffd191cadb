//! The words of the command line.

ghost use Rattle.std.specs.Prelude.{◌≡◌, ℕ, List, Option, None};
ghost use Rattle.std.specs.IoError.{error_kind};
ghost use Rattle.board_main.specs.Given.{AreRead, bytes_read, fault_of};

use std::env;
use std::env::Env;
use std::io::{Error, ErrorKind};

/// Why the words could not be read.
#[derive(Clone, Copy)]
pub enum WordFault {
    /// One of them is not UTF-8.
    NoText,
    /// There was no memory for them.
    NoRoom,
}

/// A command line.
pub trait CommandLine {
    // The words after the program's name, byte by byte; None where it does not say.
    ghost given: { Self → Option (List (List ℕ)) };

    /// Reads the words after the program's name.
    fn words(&self) -> Result<Vec<String>, WordFault>
        ensures read { AreRead (given self.now) (bytes_read result) };
}

/// The command line of the system, of whose words nothing is known.
#[derive(Drop)]
pub struct SystemLine<'a, R: Env + AllocGlobal> {
    pub rt: &'a R,
}

impl<R: Env + AllocGlobal> CommandLine for SystemLine<'_, R> {
    ghost given = { λ _. None };

    fn words(&self) -> Result<Vec<String>, WordFault> {
        match env::args(self.rt) {
            Ok(args) => args
                .skip(1)
                .collect(self.rt.alloc())
                .map_err(|_| WordFault::NoRoom),
            Err(error) => Err(fault_of(&error)),
        }
    }
}

/// Why `env::args` refused the words: where one is not UTF-8 it says that they are invalid data, and else that memory
/// ran out.
fn fault_of(error: &Error) -> WordFault
    ensures fault { result ≡ fault_of (error_kind error.now) }
{
    match error.kind() {
        ErrorKind::InvalidData => WordFault::NoText,
        _ => WordFault::NoRoom,
    }
}
