//! The images that the script names. They are made, and read from no file.

ghost use Rattle.std.specs.Prelude.{◌≡◌, IfOk};
ghost use Rattle.make_script.specs.Images.{rom_image, disk_image};

use board_base::NoMemory;
use std::alloc::Global;

const ROM_SIZE: usize = 0x1_0000;

const SECTOR_SIZE: usize = 512;

const SECTORS: usize = 64;

/// The 65,536 bytes of the ROM: the byte at an offset is the offset modulo 256.
pub fn make_rom(alloc: Global) -> Result<Vec<u8>, NoMemory>
    ensures bytes { IfOk result (λ rom. rom.items ≡ rom_image) }
{
    let mut rom = Vec::with_capacity(alloc, ROM_SIZE)?;
    for offset in 0..ROM_SIZE {
        rom.push((offset % 256) as u8)?;
    }
    Ok(rom)
}

/// The 64 sectors of the disk: each byte of sector s is s.
pub fn make_disk(alloc: Global) -> Result<Vec<u8>, NoMemory>
    ensures bytes { IfOk result (λ disk. disk.items ≡ disk_image) }
{
    let size = SECTORS * SECTOR_SIZE;
    let mut disk = Vec::with_capacity(alloc, size)?;
    for offset in 0..size {
        disk.push((offset / SECTOR_SIZE) as u8)?;
    }
    Ok(disk)
}
