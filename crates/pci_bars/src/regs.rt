//! The configuration registers of a card (PCI Local Bus 2.1, section 6.2).
ghost use Rattle.std.specs.Prelude.{◌≡◌, ◌≢◌, ◌≤◌, ◌<◌, ◌/◌, ◌%◌, ℕ, true, Some, slice_index};
ghost use Rattle.board_prelude.specs.{Setup, IsCard, card_at, byte, merged, reset_byte, is_map_byte, Bytes};
ghost use Rattle.board_prelude.specs.{card_register};
ghost use Rattle.pci_bars.specs.Cards.{DecodesAs, IsCardOf, IsWritten, IsDecodedWritten, header_of};

use crate::spec::{BASE_COUNT, CardSpec};
use board_spec::bits::merged;
use board_spec::command::{BUS_MASTER_ENABLE, IO_SPACE_ENABLE, MEMORY_SPACE_ENABLE};
use board_spec::offset::{
    BASE0, BASE5_END, COMMAND, EXPANSION_ROM, EXPANSION_ROM_END, INTERRUPT_LINE, INTERRUPT_PIN,
};
use std::marker::Model;

/// The bits of the command register that can be written. The others read 0.
const COMMAND_WRITABLE: u8 = 1 << IO_SPACE_ENABLE
    | 1 << MEMORY_SPACE_ENABLE
    | 1 << BUS_MASTER_ENABLE;
/// The value of the interrupt pin register for INTA#.
const INTA: u8 = 0x01;

/// A card's registers: its command, 0 to 7, its interrupt line, its six base address registers, and that of its
/// expansion ROM. Those that the card does not have are 0.
#[derive(Drop)]
pub struct CardRegs {
    pub spec: CardSpec,
    pub command: u8,
    pub line: u8,
    pub bases: [u32; BASE_COUNT],
    pub rom: u32,
}

impl Model for CardRegs {
    ghost use Rattle.pci_bars.specs.Cards.{CardBytes};

    ghost Value = { CardBytes };

    ghost view = { λ regs. record {
      card = regs.spec;
      command = regs.command;
      line = regs.line;
      bases = regs.bases;
      rom = regs.rom;
    } };
}

impl Default for CardRegs {
    fn default() -> CardRegs {
        CardRegs {
            spec: CardSpec::default(),
            command: 0,
            line: 0,
            bases: [0; BASE_COUNT],
            rom: 0,
        }
    }
}

impl CardRegs {
    /// The registers of a card after a reset.
    pub fn new(spec: CardSpec) -> CardRegs
        requires card { IsCard spec }
        ensures reset { (setup : Setup) → card_at setup spec.dev ≡ Some spec
            → IsCardOf setup (reset_byte setup) result }
        ensures card { result.card ≡ spec }
    {
        let bases = spec.reset_bases();
        CardRegs {
            spec,
            command: 0,
            line: 0,
            bases,
            rom: 0,
        }
    }

    /// Equal registers. It takes no memory.
    pub fn copy(&self) -> CardRegs
        ensures equal { result ≡ self.now }
    {
        CardRegs {
            spec: self.spec.copy(),
            command: self.command,
            line: self.line,
            bases: self.bases,
            rom: self.rom,
        }
    }

    /// The register at an offset. What the card does not have reads 0.
    #[tactic(auto, using(crate::proofs::CardLemmas::reads))]
    pub fn read(&self, off: u8) -> u8
        requires card { IsCard self.now.card }
        ensures byte { (setup : Setup) (bytes : Bytes) → IsCardOf setup bytes self.now
            → result ≡ bytes (card_register self.now.card.dev off) }
        ensures decoded { (setup : Setup) (bytes : Bytes) → DecodesAs setup bytes self.now
            → is_map_byte setup (card_register self.now.card.dev off) ≡ true
            → result ≡ bytes (card_register self.now.card.dev off) }
    {
        match off {
            0x00..=0x0F => self.header()[usize::from(off)],
            BASE0..=BASE5_END => self.base_byte(off - BASE0),
            EXPANSION_ROM..=EXPANSION_ROM_END => byte_of(self.rom, off - EXPANSION_ROM),
            INTERRUPT_LINE => self.line,
            INTERRUPT_PIN => INTA,
            _ => 0,
        }
    }

    /// Writes the register at an offset: its writable bits become those written, and nothing else changes.
    pub fn write(&mut self, off: u8, byte: u8)
        requires card { IsCard self.old.card }
        ensures written { IsWritten self.old self.new off byte }
        ensures decodes { IsDecodedWritten self.old self.new off byte }
        ensures same_card { self.new.card ≡ self.old.card }
    {
        match off {
            COMMAND => self.command = merged(COMMAND_WRITABLE, self.command, byte),
            BASE0..=BASE5_END => self.write_base(off, byte),
            EXPANSION_ROM..=EXPANSION_ROM_END => self.write_rom(off, byte),
            INTERRUPT_LINE => self.line = byte,
            _ => {}
        }
    }

    /// Writes a byte of a base address register.
    fn write_base(&mut self, off: u8, byte: u8)
        requires card { IsCard self.old.card }
        requires base { (0x10 ≤ off) × (off < 0x28) }
        ensures written { IsWritten self.old self.new off byte }
        ensures decodes { IsDecodedWritten self.old self.new off byte }
        ensures same_card { self.new.card ≡ self.old.card }
    {
        let index = usize::from((off - BASE0) / 4);
        let writable = self.spec.writable(index);
        self.bases[index] = with_byte(self.bases[index], writable, usize::from(off % 4), byte);
    }

    /// Writes a byte of the expansion ROM's register.
    fn write_rom(&mut self, off: u8, byte: u8)
        requires card { IsCard self.old.card }
        requires rom { (0x30 ≤ off) × (off < 0x34) }
        ensures written { IsWritten self.old self.new off byte }
        ensures decodes { IsDecodedWritten self.old self.new off byte }
        ensures same_card { self.new.card ≡ self.old.card }
    {
        let writable = self.spec.rom_writable();
        self.rom = with_byte(self.rom, writable, usize::from(off % 4), byte);
    }

    /// Gives each register its value after a reset.
    pub fn reset(&mut self)
        requires card { IsCard self.old.card }
        ensures reset { (setup : Setup) → card_at setup self.old.card.dev ≡ Some self.old.card
            → IsCardOf setup (reset_byte setup) self.new }
        ensures same_card { self.new.card ≡ self.old.card }
    {
        *self = CardRegs::new(self.spec.copy());
    }

    /// The registers at 00h to 0Fh: vendor A55Ah, the device's id, command, status 0280h and class, which
    /// is 030000h for a VGA adapter and FF0000h for another card.
    fn header(&self) -> [u8; 16]
        ensures header { result ≡ header_of self.now }
    {
        let class = if self.spec.vga { 0x03 } else { 0xFF };
        [
            0x5A,
            0xA5,
            self.spec.dev,
            0x01,
            self.command,
            0x00,
            0x80,
            0x02,
            0x00,
            0x00,
            0x00,
            class,
            0x00,
            0x00,
            0x00,
            0x00,
        ]
    }

    /// A byte of the base address registers, 0 to 23.
    fn base_byte(&self, at: u8) -> u8
        requires at { at < 24 }
        ensures byte { result ≡ byte (slice_index self.now.bases (at / 4)) (at % 4) }
    {
        byte_of(self.bases[usize::from(at / 4)], at % 4)
    }
}

/// A byte of a register of four, 0 to 3.
fn byte_of(register: u32, lane: u8) -> u8
    requires lane { lane < 4 }
    ensures byte { result ≡ byte register lane }
{
    register.to_le_bytes()[usize::from(lane)]
}

/// A register of four bytes after one of them is written, 0 to 3: its writable bits become those written.
fn with_byte(register: u32, writable: u32, lane: usize, written: u8) -> u32
    requires lane { lane < 4 }
    ensures here { byte result lane ≡ merged (byte writable lane) (byte register lane) written }
    ensures others { (j : ℕ) → j < 4 → j ≢ lane → byte result j ≡ byte register j }
{
    let mask = writable.to_le_bytes();
    let mut bytes = register.to_le_bytes();
    bytes[lane] = merged(mask[lane], bytes[lane], written);
    u32::from_le_bytes(bytes)
}
