//! The bytes that one expansion ROM was given.

ghost use Rattle.std.specs.Prelude.{◌≡◌, ◌<◌, ◌≤◌, ◌+◌, ℕ, [], length, slice_index, IfOk};
ghost use Rattle.board_prelude.specs.{expansion_byte};
ghost use Rattle.machine.specs.Roms.{byte_after, byte_in};

use board_base::NoMemory;
use std::alloc::Global;
use std::marker::Model;

/// The bytes that an expansion ROM was given, from its first on.
#[derive(Drop)]
pub(crate) struct Rom {
    bytes: Vec<u8>,
}

impl Model for Rom {
    ghost use Rattle.std.specs.Prelude.{ℕ, List};

    ghost Value = { List ℕ };

    ghost view = { λ rom. rom.bytes.items };
}

/// The byte that a board gives the expansion ROM of a device at an offset: the sum of the two modulo 256.
pub fn fixed_byte(dev: u8, off: usize) -> u8
    ensures byte { result ≡ expansion_byte dev off }
{
    dev.wrapping_add((off % 0x100) as u8)
}

impl Rom {
    /// No bytes.
    pub(crate) fn none(alloc: Global) -> Rom
        ensures none { result ≡ [] }
    {
        Rom {
            bytes: Vec::new(alloc),
        }
    }

    /// How many bytes it was given.
    pub(crate) fn len(&self) -> usize
        ensures length { result ≡ length self.now }
    {
        self.bytes.len()
    }

    /// The byte at an offset, and `old` where none was given.
    pub(crate) fn byte(&self, off: usize, old: u8) -> u8
        ensures byte { result ≡ byte_in self.now off old }
    {
        if off < self.bytes.len() {
            self.bytes[off]
        } else {
            old
        }
    }

    /// The first bytes of the ROM of a device, as many as its size: those that were given, and else the board's.
    pub(crate) fn grown(&self, alloc: Global, dev: u8, size: usize) -> Result<Rom, NoMemory>
        ensures size { IfOk result (λ rom. length rom ≡ size) }
        ensures bytes { IfOk result (λ rom. (off : ℕ) → off < size
            → slice_index rom off ≡ byte_in self.now off (expansion_byte dev off)) }
    {
        let mut bytes = vec![in alloc; 0; size]?;
        for off in 0..size {
            bytes[off] = self.byte(off, fixed_byte(dev, off));
        }
        Ok(Rom { bytes })
    }

    /// Replaces the bytes from an offset on.
    pub(crate) fn write(&mut self, off: usize, bytes: &[u8])
        requires within { off + length bytes.now ≤ length self.old }
        ensures size { length self.new ≡ length self.old }
        ensures bytes { (at : ℕ) → slice_index self.new at ≡ byte_after off bytes.now at (slice_index self.old at) }
    {
        self.bytes[off..off + bytes.len()].copy_from_slice(bytes);
    }
}
