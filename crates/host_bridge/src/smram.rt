//! The SMRAM control register (82441FX, offset 72h).
ghost use Rattle.std.specs.Prelude.{◌≡◌, true, false};
ghost use Rattle.board_prelude.specs.{One, Store, Setup, reset_byte, smram_after, changed_byte, Bytes, smram_answers};
ghost use Rattle.board_prelude.specs.{smram};
ghost use Rattle.host_bridge.specs.Control.{is_locked, IsSmramByte};

use crate::control::{DLCK, SMRAM_RESET, smram_after, smram_reaches};
use board_base::Kind;
use board_spec::bits::is_set;
use std::marker::Model;

/// The SMRAM control register. Contracts see its byte.
#[derive(Drop)]
pub struct Smram {
    byte: u8,
}

impl Model for Smram {
    ghost use Rattle.std.specs.Prelude.{ℕ};
    ghost use Rattle.host_bridge.specs.Control.{IsSmramByte};

    ghost Value = { ℕ };

    ghost view = { λ smram. smram.byte };

    ghost invariant = { λ smram. IsSmramByte smram.byte };
}

impl Smram {
    /// The register after a reset: SMRAM never answers, and the lock is off.
    pub fn new() -> Smram
        ensures reset { (setup : Setup) → result ≡ reset_byte setup smram }
    {
        Smram { byte: SMRAM_RESET }
    }

    /// Writes the register, by the rule of its lock.
    pub fn write(&mut self, byte: u8)
        ensures byte { self.new ≡ smram_after self.old byte }
        ensures written { (setup : Setup) (bytes : Bytes) → self.old ≡ bytes smram
            → self.new ≡ changed_byte setup (Store smram One byte) smram (bytes smram) }
        ensures stays_locked { is_locked self.old ≡ true → is_locked self.new ≡ true }
    {
        self.byte = smram_after(self.byte, byte);
    }

    /// The byte of the register. Bit 7 reads 0, bits 2 to 0 read 010, and DOPEN reads 0 while DLCK is 1.
    pub fn read(&self) -> u8
        ensures value { result ≡ self.now }
        ensures kept { IsSmramByte self.now }
    {
        self.byte
    }

    /// Gives the register its value after a reset. Nothing else ends the lock.
    pub fn reset(&mut self)
        ensures reset { (setup : Setup) → self.new ≡ reset_byte setup smram }
    {
        *self = Smram::new();
    }

    /// Whether DLCK is set: DOPEN stays 0, and only a reset ends the lock.
    pub fn locked(&self) -> bool
        ensures locked { result ≡ is_locked self.now }
    {
        is_set(u32::from(self.byte), DLCK)
    }

    /// Whether an access at A0000h to BFFFFh reaches SMRAM. `smm` says that it is made in system
    /// management mode. While the register is locked, no access outside it does.
    pub fn reaches(&self, kind: Kind, smm: bool) -> bool
        ensures reaches { result ≡ smram_answers self.now kind smm }
        ensures lock { is_locked self.now ≡ true → smm ≡ false → result ≡ false }
    {
        smram_reaches(self.byte, kind, smm)
    }
}
