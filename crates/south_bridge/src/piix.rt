//! The functions 01.0 and 01.1 of the 82371SB, and the ports whose devices they select.
ghost use Rattle.std.specs.Prelude.{◌≡◌, ◌+◌, ◌*◌};
ghost use Rattle.board_prelude.specs.{One, Store, Setup, reset_byte, changed_byte, Bytes, isa};
ghost use Rattle.south_bridge.specs.Piix.{IsPiixRegister, IsOffRouting, IsIsaFixed, piix_register, IsPiixOf};
ghost use Rattle.south_bridge.specs.Piix.{is_selected};

use crate::header::header_byte;
use crate::ide::Ide;
use crate::xbcs::{XBCS_RESET, selects_clock, selects_keyboard, xbcs_after};
use board_spec::offset::{ISA_BRIDGE, XBCS};
use board_spec::port::{
    CLOCK_DATA, CLOCK_INDEX, DISK_CONTROL, DISK_DATA, DISK_STATUS, KEYBOARD_COMMAND, KEYBOARD_DATA,
};
use std::marker::Model;

/// The header of the ISA bridge, offsets 00h to 0Fh. It cannot be written.
const ISA_BRIDGE_HEADER: [u8; 16] = [
    0x86, 0x80, 0x00, 0x70, // vendor 8086h, device 7000h
    0x07, 0x00, 0x80, 0x02, // command, status
    0x00, 0x00, 0x01, 0x06, // revision, class 060100h
    0x00, 0x00, 0x80, 0x00, // header type: several functions
];

/// The registers of 01.0 and 01.1 but those that route interrupts. Contracts see the bytes that can be written; the
/// others are fixed.
#[derive(Drop)]
pub struct Piix {
    xbcs: u8,
    ide: Ide,
}

impl Model for Piix {
    ghost use Rattle.south_bridge.specs.Piix.{PiixBytes};

    ghost Value = { PiixBytes };

    ghost view = { λ piix. record { xbcs = piix.xbcs; ide = piix.ide } };
}

impl Piix {
    /// The registers after a reset: the keyboard controller and the clock are selected, the disk is not.
    pub fn new() -> Piix
        ensures reset { (setup : Setup) → IsPiixOf (reset_byte setup) result }
    {
        Piix {
            xbcs: XBCS_RESET,
            ide: Ide::new(),
        }
    }

    /// The register at an offset of function 0 or 1. What no register is reads 0.
    pub fn read(&self, fun: u8, off: u8) -> u8
        requires register { IsPiixRegister fun off }
        ensures byte { (bytes : Bytes) → IsPiixOf bytes self.now → result ≡ bytes (piix_register fun off) }
    {
        match fun {
            ISA_BRIDGE => self.isa_bridge_byte(off),
            _ => self.ide.read(off),
        }
    }

    /// A register of the ISA bridge.
    fn isa_bridge_byte(&self, off: u8) -> u8
        requires register { IsOffRouting off }
        ensures byte { (bytes : Bytes) → IsPiixOf bytes self.now → result ≡ bytes (isa off) }
    {
        match off {
            XBCS => self.xbcs,
            _ => isa_fixed_byte(off),
        }
    }

    /// Writes the register at an offset of function 0 or 1. Reserved bits stay 0, and a register that
    /// cannot be written stays as it is.
    pub fn write(&mut self, fun: u8, off: u8, byte: u8)
        requires register { IsPiixRegister fun off }
        ensures written { (setup : Setup) (bytes : Bytes) → IsPiixOf bytes self.old
            → IsPiixOf (λ reg. changed_byte setup (Store (piix_register fun off) One byte) reg (bytes reg)) self.new }
    {
        match fun {
            ISA_BRIDGE => self.write_isa_bridge(off, byte),
            _ => self.ide.write(off, byte),
        }
    }

    /// Writes a register of the ISA bridge.
    fn write_isa_bridge(&mut self, off: u8, byte: u8)
        ensures written { (setup : Setup) (bytes : Bytes) → IsPiixOf bytes self.old
            → IsPiixOf (λ reg. changed_byte setup (Store (isa off) One byte) reg (bytes reg)) self.new }
    {
        if off == XBCS {
            self.xbcs = xbcs_after(self.xbcs, byte);
        }
    }

    /// Gives each register its value after a reset.
    pub fn reset(&mut self)
        ensures reset { (setup : Setup) → IsPiixOf (reset_byte setup) self.new }
    {
        *self = Piix::new();
    }

    /// Whether the device at a port is selected: the keyboard controller, the clock or the disk at its ports. False
    /// at all other ports.
    pub fn selects(&self, port: u16) -> bool
        ensures selects { (bytes : Bytes) → IsPiixOf bytes self.now → result ≡ is_selected bytes port }
    {
        match port {
            KEYBOARD_DATA | KEYBOARD_COMMAND => selects_keyboard(self.xbcs),
            CLOCK_INDEX | CLOCK_DATA => selects_clock(self.xbcs),
            DISK_DATA..=DISK_STATUS | DISK_CONTROL => self.ide.decodes(),
            _ => false,
        }
    }
}

/// The register at an offset of the ISA bridge where nothing changes it: the header, and 0 elsewhere.
#[tactic(auto, using(crate::proofs::PiixLemmas::fixed_at))]
pub fn isa_fixed_byte(off: u8) -> u8
    requires fixed { IsIsaFixed off }
    ensures byte { (setup : Setup) → result ≡ reset_byte setup (isa off) }
{
    header_byte(&ISA_BRIDGE_HEADER, off)
}
