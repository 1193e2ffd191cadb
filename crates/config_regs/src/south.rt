//! The registers of the 82371SB on which the memory map does not depend.
ghost use Rattle.std.specs.Prelude.{◌≡◌, ◌≢◌, ◌+◌, ◌≤◌, true, false};
ghost use Rattle.board_prelude.specs.{bytes_of, One, Store, Setup, reset_byte, changed_byte, Bytes};
ghost use Rattle.south_bridge.specs.Piix.{piix_register};
ghost use Rattle.config_regs.specs.Config.{IsSouthOf};

use board_base::{Reg, Width};
use board_spec::offset::{IDE, ISA_BRIDGE, SOUTH_BRIDGE};
use south_bridge::{Ide, Pirq};

/// The routes of the PCI interrupts in 01.0, and the IDE function 01.1.
#[derive(Drop)]
pub struct South {
    pub routes: Pirq,
    pub ide: Ide,
}

impl South {
    /// The registers after a reset.
    pub fn new() -> South
        ensures reset { (setup : Setup) → IsSouthOf (reset_byte setup) result }
    {
        South {
            routes: Pirq::new(),
            ide: Ide::new(),
        }
    }

    /// Gives each register its value after a reset.
    pub fn reset(&mut self)
        ensures reset { (setup : Setup) → IsSouthOf (reset_byte setup) self.new }
    {
        self.routes.reset();
        self.ide.reset();
    }

    /// Stores the bytes of a value from a register on, the low one first, and returns whether it is a register of the
    /// 82371SB. Where it is none of these, nothing happens.
    pub fn store(&mut self, reg: Reg, width: Width, value: u32) -> bool
        requires within { reg.off + bytes_of width ≤ 0x100 }
        ensures stored { (setup : Setup) (bytes : Bytes) → IsSouthOf bytes self.old
            → IsSouthOf (λ r. changed_byte setup (Store reg width value) r (bytes r)) self.new }
        ensures beside { reg.dev ≢ 1 → self.new ≡ self.old }
        ensures south { result ≡ true → reg.dev ≡ 1 }
        ensures other { result ≡ false → reg.dev ≢ 1 }
    {
        if reg.dev == SOUTH_BRIDGE {
            self.store_bytes(reg.fun, reg.off, width, value);
            return true;
        }
        false
    }

    /// Stores the bytes of a value from an offset of a function on.
    fn store_bytes(&mut self, fun: u8, off: u8, width: Width, value: u32)
        requires within { off + bytes_of width ≤ 0x100 }
        ensures stored { (setup : Setup) (bytes : Bytes) → IsSouthOf bytes self.old
            → IsSouthOf (λ r. changed_byte setup (Store (piix_register fun off) width value) r (bytes r)) self.new }
    {
        let bytes = value.to_le_bytes();
        for index in 0..width.bytes() as u8 {
            self.write(fun, off + index, bytes[usize::from(index)]);
        }
    }

    /// Writes the register at an offset of a function.
    fn write(&mut self, fun: u8, off: u8, byte: u8)
        ensures written { (setup : Setup) (bytes : Bytes) → IsSouthOf bytes self.old
            → IsSouthOf (λ r. changed_byte setup (Store (piix_register fun off) One byte) r (bytes r)) self.new }
    {
        match fun {
            ISA_BRIDGE => self.routes.write(off, byte),
            IDE => self.ide.write(off, byte),
            _ => {}
        }
    }
}
