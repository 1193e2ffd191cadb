//! A function's 256 bytes of configuration space (PCI Local Bus 2.1, section 6.1).
ghost use Rattle.std.specs.Prelude.{◌≡◌, ◌==◌, ◌<◌, ℕ, false, if◌then◌else◌};
ghost use Rattle.board_prelude.specs.{One, Reg, Store, Setup, bit, is_bit, merged, writable_bits, changed_byte, smram};
ghost use Rattle.board_prelude.specs.{is_same};
ghost use Rattle.addr_decode.specs.Space.{byte_at, mask_at, reset_at, SameTable};

use board_spec::bits::merged;
use std::marker::Model;

/// The 256 bytes of a function's configuration space. Each has a value after a reset, and bits that can be written.
#[derive(Drop)]
pub struct Space {
    reset: [u8; 256],
    mask: [u8; 256],
    bytes: [u8; 256],
}

impl Model for Space {
    ghost use Rattle.addr_decode.specs.Space.{SpaceBytes};

    ghost Value = { SpaceBytes };

    ghost view = { λ space. record { reset = space.reset; mask = space.mask; bytes = space.bytes } };
}

impl Space {
    /// A space with these bytes after a reset and these writable bits, just reset.
    pub fn new(reset: [u8; 256], mask: [u8; 256]) -> Space
        ensures space { result ≡ record { reset = reset; mask = mask; bytes = reset } }
    {
        Space {
            reset,
            mask,
            bytes: reset,
        }
    }

    /// The byte at an offset, as the last write or reset left it.
    pub fn read(&self, off: u8) -> u8
        ensures byte { result ≡ byte_at self.now off }
    {
        self.bytes[usize::from(off)]
    }

    /// Writes the byte at an offset: its writable bits become those written, and nothing else changes.
    #[tactic(auto, using(crate::proofs::SpaceLemmas::stored_byte))]
    pub fn write(&mut self, off: u8, byte: u8)
        ensures bytes { (at : ℕ) → byte_at self.new at
            ≡ (if at == off then merged (mask_at self.old at) (byte_at self.old at) byte else byte_at self.old at) }
        ensures mask_alone { (k : ℕ) → k < 8 → bit (byte_at self.new off) k
            ≡ (if is_bit (mask_at self.old off) k then bit byte k else bit (byte_at self.old off) k) }
        ensures same_table { SameTable self.old self.new }

        // For the registers of a function that the registers' table lists, this is a store of one byte.
        ensures stored { (setup : Setup) (reg : Reg) → mask_at self.old reg.off ≡ writable_bits setup reg
            → is_same reg smram ≡ false
            → byte_at self.new reg.off
            ≡ changed_byte setup (Store (record reg { off = off }) One byte) reg (byte_at self.old reg.off) }
    {
        let at = usize::from(off);
        self.bytes[at] = merged(self.mask[at], self.bytes[at], byte);
    }

    /// Gives each byte its value after a reset.
    pub fn reset(&mut self)
        ensures bytes { (at : ℕ) → byte_at self.new at ≡ reset_at self.old at }
        ensures same_table { SameTable self.old self.new }
    {
        self.bytes = self.reset;
    }
}
