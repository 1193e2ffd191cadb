//! The disk as its ports show it.

ghost use Rattle.std.specs.Prelude.{◌≡◌, ◌*◌, ◌<◌, ◌↔◌, length, false, IsTrue, IfOk};
ghost use Rattle.device_spec.specs.Ata.State.{is_disk_length, power_on, is_interrupt, sectors_of, word_at};
ghost use Rattle.device_spec.specs.Ata.State.{sector_bytes};
ghost use Rattle.device_spec.specs.Ata.Steps.{is_ata_port, read_of, after_bad, word_of, word_read, word_written};
ghost use Rattle.device_spec.specs.Ata.Steps.{register_of, register_read, byte_written, after_read, after_write};
ghost use Rattle.device_spec.specs.Ata.Steps.{after_reset};
ghost use Rattle.ata_pio.specs.Words.{is_readable, with_word, with_all};

use crate::controller::Controller;
use crate::sectors::{SECTOR_BYTES, Sectors};
use board_base::Width;
use device_spec::port::{DISK_CONTROL, DISK_STATUS};
use std::alloc::Global;
use std::marker::Model;
use thiserror::Error;

/// The most sectors that a disk has: 32 MiB in all.
const MOST_SECTORS: usize = 65_536;

/// Why a disk cannot be opened.
#[derive(Clone, Copy, PartialEq, Eq, Debug, Error)]
pub enum AtaOpen {
    /// The bytes are not 1 to 65,536 whole sectors of 512 bytes.
    #[error("the disk is not 1 to 65,536 whole sectors of 512 bytes")]
    BadLength,
    /// There is no memory for the disk.
    #[error("out of memory")]
    NoMemory,
}

/// An ATA disk, drive 0 of a channel with no other drive. `board_example::disk` has an example.
#[derive(Drop)]
pub struct Ata {
    pub(crate) sectors: Sectors,
    pub(crate) controller: Controller,
}

impl Model for Ata {
    ghost use Rattle.device_spec.specs.Ata.State.{Disk, sectors_of};
    ghost use Rattle.ata_pio.specs.View.{medium_of, drive_of, IsOnDisk};

    ghost Value = { Disk };

    ghost view = { λ a. record { medium = medium_of a.sectors; drive = drive_of a.controller } };

    ghost invariant = { λ a. IsOnDisk (sectors_of (medium_of a.sectors)) a.controller.progress };
}

impl Ata {
    /// The disk that holds these bytes, at power-on. Refuses a length that is not 1 to 65,536 whole
    /// sectors of 512 bytes, before it asks for memory.
    pub fn open(alloc: Global, bytes: &[u8]) -> Result<Ata, AtaOpen>
        ensures opened { IfOk result (λ disk. disk ≡ power_on bytes.now) }
        ensures bad_length { (result ≡ Err AtaOpen.BadLength) ↔ (is_disk_length (length bytes.now) ≡ false) }
    {
        if bytes.is_empty()
            || bytes.len() % SECTOR_BYTES != 0
            || bytes.len() > MOST_SECTORS * SECTOR_BYTES
        {
            return Err(AtaOpen::BadLength);
        }
        let Ok(sectors) = Sectors::open(alloc, bytes) else {
            return Err(AtaOpen::NoMemory);
        };
        Ok(Ata {
            sectors,
            controller: Controller::power_on(),
        })
    }

    /// What a read of a port gives: words at 1F0h, four bytes being two words with the low one first,
    /// and registers elsewhere.
    pub fn port_read(&mut self, port: u16, width: Width) -> u32
        requires { IsTrue (is_ata_port port width) }
        ensures value { result ≡ read_of port width self.old }
        ensures after { self.new ≡ after_read port width self.old }
    {
        match width {
            Width::One => u32::from(self.read_register(port)),
            Width::Two => u32::from(self.read_word()),
            Width::Four => {
                let low = u32::from(self.read_word());
                low + 65_536 * u32::from(self.read_word())
            }
        }
    }

    /// Writes a port: words at 1F0h, four bytes being two words with the low one first, and registers
    /// elsewhere. A value beyond the width is cut to it.
    pub fn port_write(&mut self, port: u16, width: Width, value: u32)
        requires { IsTrue (is_ata_port port width) }
        ensures after { self.new ≡ after_write port width value self.old }
    {
        match width {
            Width::One => self.write_register(port, (value % 256) as u8),
            Width::Two => self.write_word((value % 65_536) as u16),
            Width::Four => {
                self.write_word((value % 65_536) as u16);
                self.write_word((value / 65_536) as u16);
            }
        }
    }

    /// The level of the interrupt line of the channel.
    pub fn irq(&self) -> bool
        ensures irq { result ≡ is_interrupt self.now.drive }
    {
        self.controller.is_interrupt()
    }

    /// Marks a sector as bad, where the disk has it: it cannot be read until it is written.
    pub fn mark_bad(&mut self, lba: u32)
        ensures after { self.new ≡ after_bad lba self.old }
    {
        self.sectors.mark_bad(lba);
    }

    /// A hard reset: the drive is as at power-on, and the sectors stay as they are.
    pub fn reset(&mut self)
        ensures after { self.new ≡ after_reset self.old }
    {
        self.controller = Controller::power_on();
    }

    /// How many sectors the disk has, 1 to 65,536.
    pub fn sectors(&self) -> u32
        ensures sectors { result ≡ sectors_of self.now.medium }
        ensures whole { length self.now.medium.bytes ≡ 512 * sectors_of self.now.medium }
    {
        self.sectors.count()
    }

    /// Whether a sector exists and is not bad.
    pub fn readable(&self, lba: u32) -> bool
        ensures readable { result ≡ is_readable self.now.medium lba }
    {
        self.sectors.is_readable(lba)
    }

    /// Word `i` of a sector that exists, its lower byte first.
    pub fn word(&self, lba: u32, i: u32) -> u16
        requires sector { lba < sectors_of self.now.medium }
        requires word { i < 256 }
        ensures word { result ≡ word_at self.now.medium lba i }
    {
        self.sectors.word(lba, i as u8)
    }

    /// Sets word `i` of a sector that exists, its lower byte first. Nothing else changes.
    pub fn set_word(&mut self, lba: u32, i: u32, word: u16)
        requires sector { lba < sectors_of self.old.medium }
        requires word { i < 256 }
        ensures after { self.new ≡ record self.old { medium = with_word self.old.medium lba i word } }
    {
        self.sectors.set_word(lba, i as u8, word);
    }

    /// The 512 bytes of a sector that exists, bad or not.
    pub fn sector(&self, lba: u32) -> &[u8]
        requires sector { lba < sectors_of self.now.medium }
        ensures bytes { result.now ≡ sector_bytes self.now.medium lba }
    {
        self.sectors.sector(lba)
    }

    /// Replaces the bytes of all sectors by as many. Nothing else changes: a sector that is bad stays so.
    pub fn set_all_bytes(&mut self, bytes: &[u8])
        requires whole { length bytes.now ≡ length self.old.medium.bytes }
        ensures after { self.new ≡ record self.old { medium = with_all self.old.medium bytes.now } }
    {
        self.sectors.set_all(bytes);
    }

    /// The bytes of all sectors, one after another from sector 0 on, as they are kept. Nothing is copied.
    pub fn bytes(&self) -> &[u8]
        ensures bytes { result.now ≡ self.now.medium.bytes }
    {
        self.sectors.bytes()
    }

    /// The bytes of all sectors, one after another from sector 0 on. All else is given up, and nothing is copied.
    pub fn into_bytes(self) -> Vec<u8>
        ensures bytes { result.items ≡ self.medium.bytes }
    {
        let Ata { sectors, .. } = self;
        sectors.into_bytes()
    }

    /// Reads a word at the data port.
    fn read_word(&mut self) -> u16
        ensures value { result ≡ word_of self.old }
        ensures after { self.new ≡ word_read self.old }
    {
        let word = self.controller.word(&self.sectors);
        self.controller.next_word(&self.sectors);
        word
    }

    /// Writes a word at the data port.
    fn write_word(&mut self, word: u16)
        ensures after { self.new ≡ word_written word self.old }
    {
        self.controller.write_word(word, &mut self.sectors);
    }

    /// Reads a register. A read of the status takes the request away.
    fn read_register(&mut self, port: u16) -> u8
        ensures value { result ≡ register_of port self.old.drive }
        ensures after { self.new ≡ register_read port self.old }
    {
        let value = self.controller.read_register(port);
        if port == DISK_STATUS {
            self.controller.request = false;
        }
        value
    }

    /// Writes a register: the command, device control, or one of the task file.
    fn write_register(&mut self, port: u16, byte: u8)
        ensures after { self.new ≡ byte_written port byte self.old }
    {
        match port {
            DISK_STATUS => self.controller.command(byte, &self.sectors),
            DISK_CONTROL => self.controller.write_control(byte),
            _ => self.controller.write_register(port, byte),
        }
    }
}
