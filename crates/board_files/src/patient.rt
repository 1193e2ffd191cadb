//! A writer that waits where there is no room yet.

ghost use Rattle.std.specs.Prelude.{◌≡◌};

use std::io;
use std::io::{ErrorKind, Write};
use std::time::{Clock, Duration};

/// How many milliseconds it waits before it tries again.
const PAUSE: u64 = 1;

/// A writer over one that may be set not to block, as a pipe whose other end was made so. Where that has no room yet
/// this one waits and tries again, so that it takes bytes as a writer that blocks does.
#[derive(Drop)]
pub struct Patient<'a, C: Clock, W> {
    clock: &'a C,
    out: W,
}

impl<'a, C: Clock, W: Write> Patient<'a, C, W> {
    /// A patient writer over another one.
    pub fn new(clock: &'a C, out: W) -> Patient<'a, C, W>
        ensures out { result.out ≡ out }
    {
        Patient { clock, out }
    }

    // Waits before the next try.
    fn pause(&self) {
        self.clock.sleep(Duration::from_millis(PAUSE))
    }
}

impl<C: Clock, W: Write> Write for Patient<'_, C, W> {
    ghost contents = { λ patient. W.contents patient.out };

    fn write(&mut self, bytes: &[u8]) -> io::Result<usize> {
        for _ in 0..u64::MAX {
            match self.out.write(bytes) {
                Err(error) if error.kind() == ErrorKind::WouldBlock => self.pause(),
                written => return written,
            }
        }
        Err(io::Error::from(ErrorKind::WouldBlock))
    }

    fn flush(&mut self) -> io::Result<()> {
        self.out.flush()
    }
}
