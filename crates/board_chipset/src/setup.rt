//! What a board is opened with.

ghost use Rattle.board_prelude.specs.{list_any, IsDiskSize, IsRomSize, card_at};
ghost use Rattle.std.specs.Prelude.{◌≡◌, ◌↔◌, ◌==◌, is_some, IsTrue, option_map};

use ata_pio::AtaOpen;
use board_base::NoMemory;
use pci_bars::CardSpec;
use std::marker::Model;
use thiserror::Error;

/// The sizes in bytes that a BIOS ROM can have.
const ROM_SIZES: [usize; 4] = [0x1_0000, 0x2_0000, 0x4_0000, 0x8_0000];
/// How many bytes a sector of a disk has.
const SECTOR: usize = 512;
/// The most sectors of a disk.
const MOST_SECTORS: usize = 0x1_0000;

/// The installed memory in MiB, 1 to 512, the cards in rising order of device, the bytes of the BIOS ROM, and those of
/// the disk where one is fitted.
#[derive(Drop)]
pub struct Setup {
    pub mib: u32,
    pub cards: Vec<CardSpec>,
    pub rom: Vec<u8>,
    pub disk: Option<Vec<u8>>,
}

impl Model for Setup {
    ghost use Rattle.std.specs.Prelude.{option_map};
    ghost use Rattle.board_spec.specs.Setup.{Setup as Fitting};

    ghost Value = { Fitting };

    ghost view = { λ setup. record {
      mib = setup.mib;
      cards = setup.cards.items;
      rom = setup.rom.items;
      disk = option_map (λ disk. disk.items) setup.disk;
    } };
}

impl Setup {
    /// The bytes of the BIOS ROM.
    pub(crate) fn rom(&self) -> &[u8]
        ensures bytes { result.now ≡ self.now.rom }
    {
        &self.rom
    }

    /// Whether a card has this device number.
    pub(crate) fn has_card(&self, dev: u8) -> bool
        ensures card { result ≡ is_some (card_at self.now dev) }
    {
        any_card(&self.cards, dev)
    }

    /// The bytes of the disk, where one is fitted.
    pub(crate) fn disk(&self) -> Option<&[u8]>
        ensures bytes { option_map (λ disk. disk.now) result ≡ self.now.disk }
    {
        match &self.disk {
            Some(disk) => Some(disk),
            None => None,
        }
    }
}

/// Whether one of these cards has this device number.
fn any_card(cards: &[CardSpec], dev: u8) -> bool
    ensures any { result ≡ list_any (λ card. card.dev == dev) cards.now }
{
    cards.iter().any(|card| card.dev == dev)
}

/// Whether a BIOS ROM can have this many bytes: 64, 128, 256 or 512 KiB.
pub fn is_rom_size(size: usize) -> bool
    ensures size { IsTrue result ↔ IsRomSize size }
{
    ROM_SIZES.contains(&size)
}

/// Whether a disk can have this many bytes: 1 to 65,536 whole sectors of 512.
#[tactic(auto, using(crate::proofs::Openings::decided, std::proofs::lemmas::Bool::Decides::nat_tests))]
pub fn is_disk_size(size: usize) -> bool
    ensures size { IsTrue result ↔ IsDiskSize size }
{
    size != 0 && size % SECTOR == 0 && size / SECTOR <= MOST_SECTORS
}

/// Why a board was not opened.
#[derive(Clone, Copy, PartialEq, Eq, Debug, Error)]
pub enum BoardOpen {
    /// The ROM is not of 64, 128, 256 or 512 KiB.
    #[error("the ROM is not of 64, 128, 256 or 512 KiB")]
    BadRom,
    /// The disk is not of 1 to 65,536 whole sectors of 512 bytes.
    #[error("the disk is not 1 to 65,536 whole sectors of 512 bytes")]
    BadDisk,
    /// There was no memory.
    #[error("out of memory")]
    NoMemory,
}

impl From<NoMemory> for BoardOpen {
    ghost use Rattle.board_chipset.specs.declared.setup.BoardOpen.{BoardOpen};

    ghost from_gives = { λ _ fault. fault ≡ BoardOpen.NoMemory };

    fn from(_: NoMemory) -> BoardOpen {
        BoardOpen::NoMemory
    }
}

impl From<AtaOpen> for BoardOpen {
    ghost use Rattle.board_chipset.specs.declared.setup.BoardOpen.{BoardOpen};
    ghost use Rattle.board_chipset.specs.Faults.{fault_of};

    ghost from_gives = { λ fault given. given ≡ fault_of fault };

    fn from(fault: AtaOpen) -> BoardOpen {
        match fault {
            AtaOpen::BadLength => BoardOpen::BadDisk,
            AtaOpen::NoMemory => BoardOpen::NoMemory,
        }
    }
}
