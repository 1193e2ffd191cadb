//! The sectors of a disk: their bytes, and which of them are bad.

ghost use Rattle.std.specs.Prelude.{◌≡◌, ◌*◌, ◌<◌, ◌≤◌, length, vec_len, IsTrue, IfOk};
ghost use Rattle.device_spec.specs.Ata.State.{is_disk_length, power_on, sectors_of, word_at, sector_bytes, stored};
ghost use Rattle.device_spec.specs.Ata.State.{marked};
ghost use Rattle.device_spec.specs.Ata.Commands.{found, readable};
ghost use Rattle.ata_pio.specs.Words.{is_readable, with_word, with_all};

use crate::fault::Fault;
use byteorder::{ByteOrder, LittleEndian};
use std::alloc::{AllocError, Global};

/// The bytes of a sector.
pub const SECTOR_BYTES: usize = 512;

/// The bytes of all sectors, one after another, and a mark for each sector that is bad.
#[derive(Drop)]
pub struct Sectors {
    pub(crate) bytes: Vec<u8>,
    pub(crate) bad: Vec<bool>,
    ghost whole: { vec_len bytes ≡ 512 * vec_len bad },
    ghost some: { 1 ≤ vec_len bad },
    ghost few: { vec_len bad ≤ 65536 },
}

impl Sectors {
    ghost use Rattle.ata_pio.specs.View.{medium_of, looked};

    /// A copy of a disk's bytes, of which no sector is bad.
    pub fn open(alloc: Global, bytes: &[u8]) -> Result<Sectors, AllocError>
        requires { IsTrue (is_disk_length (length bytes.now)) }
        ensures opened { IfOk result (λ s. medium_of s ≡ (power_on bytes.now).medium) }
    {
        let count = bytes.len() / SECTOR_BYTES;
        let bytes = bytes.to_vec(alloc)?;
        let bad = vec![in alloc; false; count]?;
        Ok(Sectors { bytes, bad })
    }

    /// How many sectors there are, 1 to 65,536.
    pub fn count(&self) -> u32
        ensures count { result ≡ sectors_of (medium_of self.now) }
        ensures whole { length (medium_of self.now).bytes ≡ 512 * sectors_of (medium_of self.now) }
    {
        self.bad.len() as u32
    }

    /// The sector of this number, where there is one.
    pub fn found(&self, sector: Option<u32>) -> Result<u32, Fault>
        ensures found { looked result ≡ found (medium_of self.now) sector }
        ensures there { IfOk result (λ s. s < sectors_of (medium_of self.now)) }
    {
        match sector {
            Some(sector) if (sector as usize) < self.bad.len() => Ok(sector),
            _ => Err(Fault::NotFound),
        }
    }

    /// The sector of this number, where there is one and it is not bad.
    pub fn readable(&self, sector: Option<u32>) -> Result<u32, Fault>
        ensures readable { looked result ≡ readable (medium_of self.now) sector }
        ensures there { IfOk result (λ s. s < sectors_of (medium_of self.now)) }
    {
        let sector = self.found(sector)?;
        if self.bad[sector as usize] {
            Err(Fault::Uncorrectable)
        } else {
            Ok(sector)
        }
    }

    /// A word of a sector, its lower byte first.
    pub fn word(&self, sector: u32, word: u8) -> u16
        requires { sector < sectors_of (medium_of self.now) }
        ensures word { result ≡ word_at (medium_of self.now) sector word }
    {
        let at = sector as usize * SECTOR_BYTES + 2 * word as usize;
        LittleEndian::read_u16(&self.bytes[at..])
    }

    /// Stores the bytes of a sector, which is then no longer bad.
    #[tactic(auto, using(crate::proofs::Stores::stored_items))]
    pub fn store(&mut self, sector: u32, bytes: &[u8])
        requires there { sector < sectors_of (medium_of self.old) }
        requires whole { length bytes.now ≡ 512 }
        ensures stored { medium_of self.new ≡ stored (medium_of self.old) sector bytes.now }
    {
        let at = sector as usize * SECTOR_BYTES;
        self.bytes[at..at + SECTOR_BYTES].copy_from_slice(bytes);
        self.bad[sector as usize] = false;
    }

    /// Sets a word of a sector, its lower byte first. Nothing else changes.
    pub fn set_word(&mut self, sector: u32, word: u8, value: u16)
        requires { sector < sectors_of (medium_of self.old) }
        ensures set { medium_of self.new ≡ with_word (medium_of self.old) sector word value }
    {
        let at = sector as usize * SECTOR_BYTES + 2 * word as usize;
        self.bytes[at] = (value % 256) as u8;
        self.bytes[at + 1] = (value / 256) as u8;
    }

    /// The bytes of a sector.
    pub fn sector(&self, sector: u32) -> &[u8]
        requires { sector < sectors_of (medium_of self.now) }
        ensures bytes { result.now ≡ sector_bytes (medium_of self.now) sector }
    {
        let at = sector as usize * SECTOR_BYTES;
        &self.bytes[at..at + SECTOR_BYTES]
    }

    /// Replaces the bytes of all sectors. The marks stay.
    pub fn set_all(&mut self, bytes: &[u8])
        requires whole { length bytes.now ≡ length (medium_of self.old).bytes }
        ensures set { medium_of self.new ≡ with_all (medium_of self.old) bytes.now }
    {
        self.bytes.copy_from_slice(bytes);
    }

    /// The bytes of all sectors.
    pub fn bytes(&self) -> &[u8]
        ensures bytes { result.now ≡ (medium_of self.now).bytes }
    {
        &self.bytes
    }

    /// The bytes of all sectors. The marks are given up.
    pub fn into_bytes(self) -> Vec<u8>
        ensures bytes { result.items ≡ (medium_of self).bytes }
    {
        let Sectors { bytes, .. } = self;
        bytes
    }

    /// Whether there is a sector of this number and it is not bad.
    pub fn is_readable(&self, sector: u32) -> bool
        ensures readable { result ≡ is_readable (medium_of self.now) sector }
    {
        match self.bad.get(sector as usize) {
            Some(bad) => !*bad,
            None => false,
        }
    }

    /// Marks a sector as bad, where there is one of this number.
    pub fn mark_bad(&mut self, sector: u32)
        ensures marked { medium_of self.new ≡ marked (medium_of self.old) sector }
    {
        if let Some(bad) = self.bad.get_mut(sector as usize) {
            *bad = true;
        }
    }
}
