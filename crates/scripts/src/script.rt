//! A script that was read.

use crate::name::Name;
use board_spec::Statement;
use pci_bars::CardSpec;

/// What a script says: its version, 1 or 2, the processors, 1 to 8, the installed memory in MiB, 1 to 64, the names
/// of the files with the BIOS ROM and the disk, the cards in rising order of device, and the statements of each phase.
#[derive(Drop)]
pub struct Script {
    pub version: u8,
    pub cpus: u8,
    pub mib: u32,
    pub rom: Name,
    pub disk: Option<Name>,
    pub cards: Vec<CardSpec>,
    pub phases: Vec<Vec<Statement>>,
}
