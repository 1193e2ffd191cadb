//! Function 01.1 of the 82371SB, the IDE controller.
ghost use Rattle.std.specs.Prelude.{◌≡◌, ◌+◌, ◌*◌, ◌/◌};
ghost use Rattle.board_prelude.specs.{One, Store, Setup, is_bit, reset_byte, changed_byte, Bytes, ide as ide_register};
ghost use Rattle.south_bridge.specs.Ide.{IsIdeOf, is_ide_decoded};

use crate::header::header_byte;
use board_spec::bits::{is_set, merged};
use board_spec::command::{BUS_MASTER_ENABLE, IO_SPACE_ENABLE};
use board_spec::offset::{COMMAND, IDETIM, IDETIM_HIGH};
use std::marker::Model;

/// The bit of IDETIM's high byte, bit 15 of the register, that decodes the ports of the channel.
const IDE_DECODE_ENABLE: u32 = 7;

/// The bits of the command that can be written. The others read 0.
const COMMAND_WRITABLE: u8 = 1 << IO_SPACE_ENABLE | 1 << BUS_MASTER_ENABLE;

/// The header after a reset, offsets 00h to 0Fh. Of it the command can be written.
const HEADER: [u8; 16] = [
    0x86, 0x80, 0x10, 0x70, // vendor 8086h, device 7010h
    0x00, 0x00, 0x80, 0x02, // command, status
    0x00, 0x80, 0x01, 0x01, // revision, class 010180h
    0x00, 0x00, 0x00, 0x00, // header type
];

/// The registers of the IDE function. Contracts see the bytes that can be written; the others are fixed.
#[derive(Drop)]
pub struct Ide {
    pub(crate) command: u8,
    pub(crate) timing_low: u8,
    pub(crate) timing_high: u8,
}

impl Model for Ide {
    ghost use Rattle.south_bridge.specs.Ide.{IdeBytes};

    ghost Value = { IdeBytes };

    ghost view = { λ ide. record {
      command = ide.command;
      timing_low = ide.timing_low;
      timing_high = ide.timing_high;
    } };
}

impl Ide {
    /// The registers after a reset: no port is decoded.
    pub fn new() -> Ide
        ensures reset { (setup : Setup) → IsIdeOf (reset_byte setup) result }
    {
        Ide {
            command: 0,
            timing_low: 0,
            timing_high: 0,
        }
    }

    /// The register at an offset. What no register is reads 0.
    pub fn read(&self, off: u8) -> u8
        ensures byte { (bytes : Bytes) → IsIdeOf bytes self.now → result ≡ bytes (ide_register off) }
    {
        match off {
            COMMAND => self.command,
            IDETIM => self.timing_low,
            IDETIM_HIGH => self.timing_high,
            _ => header_byte(&HEADER, off),
        }
    }

    /// Writes the register at an offset. Reserved bits stay 0, and a register that cannot be written stays as it is.
    pub fn write(&mut self, off: u8, byte: u8)
        ensures written { (setup : Setup) (bytes : Bytes) → IsIdeOf bytes self.old
            → IsIdeOf (λ reg. changed_byte setup (Store (ide_register off) One byte) reg (bytes reg)) self.new }
    {
        match off {
            COMMAND => self.command = merged(COMMAND_WRITABLE, self.command, byte),
            IDETIM => self.timing_low = byte,
            IDETIM_HIGH => self.timing_high = byte,
            _ => {}
        }
    }

    /// Gives each register its value after a reset.
    pub fn reset(&mut self)
        ensures reset { (setup : Setup) → IsIdeOf (reset_byte setup) self.new }
    {
        *self = Ide::new();
    }

    /// The low byte of the command.
    pub fn command(&self) -> u8
        ensures command { result ≡ self.now.command }
    {
        self.command
    }

    /// IDETIM, the timing register of the primary channel.
    pub fn timing(&self) -> u16
        ensures timing { result ≡ self.now.timing_low + 0x100 * self.now.timing_high }
        ensures high { result / 0x100 ≡ self.now.timing_high }
    {
        let (low, high) = (self.timing_low, self.timing_high);
        u16::from_le_bytes([low, high])
    }

    /// Whether the function answers at the ports of the primary channel.
    pub(crate) fn decodes(&self) -> bool
        ensures decodes { (bytes : Bytes) → IsIdeOf bytes self.now → result ≡ is_ide_decoded bytes }
    {
        enables_ide_ports(self.command) && decodes_ide_channel(self.timing())
    }
}

/// Whether the command of the IDE function lets it answer at its ports.
pub fn enables_ide_ports(command: u8) -> bool
    ensures enabled { result ≡ is_bit command 0 }
{
    is_set(command.into(), IO_SPACE_ENABLE)
}

/// Whether IDETIM decodes the ports of the primary channel.
pub fn decodes_ide_channel(idetim: u16) -> bool
    ensures decoded { result ≡ is_bit (idetim / 0x100) 7 }
{
    is_set((idetim >> 8).into(), IDE_DECODE_ENABLE)
}
