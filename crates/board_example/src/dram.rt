//! The DRAM: bytes are loaded, and read as a number.

use board_base::{NoMemory, Width};
use dram_store::Dram;
use std::alloc::Global;

/// Where a PC's BIOS loads a boot sector.
const BOOT_SECTOR: u32 = 0x7C00;

/// Loads a boot sector into a DRAM of 1 MiB, and reads its first four bytes at once.
pub fn first_of_boot_sector(alloc: Global, sector: &[u8]) -> Result<u32, NoMemory> {
    let mut dram = Dram::open(alloc, 1)?;
    dram.write_bytes(BOOT_SECTOR, sector);
    Ok(dram.read(BOOT_SECTOR, Width::Four))
}
