//! Tests a setup of which nothing is known, field after field.

ghost use Rattle.std.specs.Prelude.{◌≡◌, ◌≤◌, ◌↔◌, ◌⊎◌, ℕ, List, [], length, Option, IsTrue, MatchResult, IfOk, IfErr};
ghost use Rattle.std.specs.Prelude.{Err, option_map};
ghost use Rattle.board_spec.specs.Setup.{IsDisk, IsSetup, Setup as Fitting};
ghost use Rattle.board_chipset.specs.Chipset.{IsLeftBy};
ghost use Rattle.board_chipset.specs.Setups.{HasSizes, IsMemory, IsSetupFault};

use crate::card_check::{are_cards, fit_windows};
use crate::chipset::Chipset;
use crate::setup::{Setup, is_disk_size, is_rom_size};
use pci_bars::CardSpec;
use std::alloc::Global;
use thiserror::Error;

/// The most memory, in MiB.
const MOST_MIB: u32 = 512;

/// Why no chipset was opened: the first field of the setup that no board can have, or want of memory.
#[derive(Clone, Copy, PartialEq, Eq, Debug, Error)]
pub enum SetupFault {
    /// The memory is not of 1 to 512 MiB.
    #[error("a memory that is not of 1 to 512 MiB")]
    Memory,
    /// The cards are more than eight, not in rising order of device, or one of them is out of range.
    #[error("cards that are more than eight, not in rising order of device, or out of range")]
    Cards,
    /// The memory bases of the cards have more than 64 MiB together.
    #[error("cards with more than 64 MiB of memory together")]
    Windows,
    /// The ROM is not of 64, 128, 256 or 512 KiB.
    #[error("a ROM that is not of 64, 128, 256 or 512 KiB")]
    Rom,
    /// The disk is not of 1 to 65,536 whole sectors of 512 bytes.
    #[error("a disk that is not of 1 to 65,536 whole sectors of 512 bytes")]
    Disk,
    /// There was no memory.
    #[error("out of memory")]
    NoMemory,
}

impl Setup {
    /// Tests the memory, the cards, the memory of all their bases, the ROM and the disk, in this order. Refused with
    /// the first of them that no board can have.
    pub fn check(&self) -> Result<(), SetupFault>
        ensures exact { MatchResult result (λ _. IsSetup self.now) (λ fault. IsSetupFault self.now fault) }
    {
        check_sizes(
            self.mib,
            &self.cards,
            self.rom().len(),
            length_of(self.disk()),
        )
    }
}

/// Tests what a board is to be opened with, as `Setup::check` does, by the lengths of its ROM and its disk: so that
/// nothing is copied of what no board can have.
pub fn check_sizes(
    mib: u32,
    cards: &[CardSpec],
    rom: usize,
    disk: Option<usize>,
) -> Result<(), SetupFault>
    ensures exact { (setup : Fitting) → HasSizes setup mib cards.now rom disk
        → MatchResult result (λ _. IsSetup setup) (λ fault. IsSetupFault setup fault) }
{
    if !is_memory_size(mib) {
        return Err(SetupFault::Memory);
    }
    if !are_cards(cards) {
        return Err(SetupFault::Cards);
    }
    if !fit_windows(cards) {
        return Err(SetupFault::Windows);
    }
    if !is_rom_size(rom) {
        return Err(SetupFault::Rom);
    }
    if !is_disk(disk) {
        return Err(SetupFault::Disk);
    }
    Ok(())
}

impl Chipset {
    /// The chipset of a setup of which nothing is known, as `open` gives it. Refused with the first field of the setup
    /// that no board can have, and with NoMemory only where there is none.
    pub fn open_checked(alloc: Global, setup: Setup) -> Result<Chipset, SetupFault>
        ensures fresh { IfOk result (λ chipset. (chipset.setup ≡ setup) × IsLeftBy chipset []) }
        ensures fits { IfOk result (λ _. IsSetup setup) }
        ensures refused { IfErr result (λ fault. (fault ≡ SetupFault.NoMemory) ⊎ IsSetupFault setup fault) }
        ensures memory { result ≡ Err SetupFault.NoMemory → IsSetup setup }
    {
        setup.check()?;
        match Chipset::open(alloc, setup) {
            Ok(chipset) => Ok(chipset),
            Err(_) => Err(SetupFault::NoMemory),
        }
    }
}

/// Whether so many MiB can be installed: 1 to 512.
pub fn is_memory_size(mib: u32) -> bool
    ensures memory { IsTrue result ↔ IsMemory mib }
{
    1 <= mib && mib <= MOST_MIB
}

/// How many bytes a disk has, where one is fitted.
fn length_of(disk: Option<&[u8]>) -> Option<usize>
    ensures length { result ≡ option_map (λ bytes. length bytes.now) disk.entry }
{
    match disk {
        Some(bytes) => Some(bytes.len()),
        None => None,
    }
}

/// Whether a disk has 1 to 65,536 whole sectors, where one is fitted.
fn is_disk(disk: Option<usize>) -> bool
    ensures disk { (bytes : Option (List ℕ)) → disk ≡ option_map (λ bytes. length bytes) bytes
        → IsTrue result ↔ IsDisk bytes }
{
    match disk {
        Some(length) => is_disk_size(length),
        None => true,
    }
}
