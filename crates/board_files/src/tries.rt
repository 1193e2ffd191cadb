//! A read or a write that a signal interrupted is made again.

ghost use Rattle.std.specs.Io.KnownBytes.{ReadConsumes, WriteAppends};
ghost use Rattle.std.specs.Io.{ReadsAtMost, WritesAtMost};

use std::io;
use std::io::{ErrorKind, Read, Write};

/// How often a read or a write is made where signals interrupt it.
const TRIES: usize = 64;

/// Reads, and again where a signal interrupted it.
pub fn read_on<R: Read>(file: &mut R, into: &mut [u8]) -> io::Result<usize>
    ensures fits { ReadsAtMost result into.new }
    ensures bytes { ReadConsumes (R.remaining file.old) (R.remaining file.new) result into.new }
{
    for _ in 0..TRIES {
        match file.read(into) {
            Err(error) if error.kind() == ErrorKind::Interrupted => {}
            read => return read,
        }
    }
    Err(io::Error::from(ErrorKind::Interrupted))
}

/// Writes, and again where a signal interrupted it.
pub fn write_on<W: Write>(out: &mut W, piece: &[u8]) -> io::Result<usize>
    ensures fits { WritesAtMost result piece.now }
    ensures bytes { WriteAppends (W.contents out.old) (W.contents out.new) result piece.now }
{
    for _ in 0..TRIES {
        match out.write(piece) {
            Err(error) if error.kind() == ErrorKind::Interrupted => {}
            written => return written,
        }
    }
    Err(io::Error::from(ErrorKind::Interrupted))
}
