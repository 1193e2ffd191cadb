//! Files and writers each of whose calls a signal interrupts.

ghost use Rattle.std.specs.Prelude.{None};

use board_files::Folder;
use std::fs::File;
use std::io;
use std::io::{ErrorKind, Read, Write};
use std::rt::Files;

/// How often each call is interrupted.
const INTERRUPTIONS: u32 = 7;

/// A file or a writer whose calls are interrupted.
#[derive(Drop)]
pub struct Shaken<T> {
    pub inner: T,
    left: u32,
}

impl<T> Shaken<T> {
    pub fn new(inner: T) -> Shaken<T> {
        Shaken {
            inner,
            left: INTERRUPTIONS,
        }
    }

    /// Refuses a call that is interrupted.
    fn pass(&mut self) -> io::Result<()> {
        if self.left > 0 {
            self.left -= 1;
            return Err(io::Error::from(ErrorKind::Interrupted));
        }
        self.left = INTERRUPTIONS;
        Ok(())
    }
}

impl<T: Read> Read for Shaken<T> {
    fn read(&mut self, into: &mut [u8]) -> io::Result<usize> {
        self.pass()?;
        self.inner.read(into)
    }
}

impl<T: Write> Write for Shaken<T> {
    fn write(&mut self, bytes: &[u8]) -> io::Result<usize> {
        self.pass()?;
        self.inner.write(bytes)
    }

    fn flush(&mut self) -> io::Result<()> {
        self.inner.flush()
    }
}

/// The files of the system, whose reads are interrupted.
#[derive(Drop)]
pub struct ShakenFolder<'a, R: Files> {
    pub rt: &'a R,
}

impl<R: Files> Folder for ShakenFolder<'_, R> {
    type File = Shaken<R::File>;

    ghost files = { λ _. None };

    fn open(&self, name: &str) -> io::Result<Shaken<R::File>> {
        Ok(Shaken::new(File::open(self.rt, name)?))
    }
}
