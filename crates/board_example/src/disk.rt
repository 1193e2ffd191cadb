//! The ATA disk: it is identified.

ghost use Rattle.std.specs.Prelude.{◌≡◌, ◌↔◌, Err, false, length};
ghost use Rattle.board_prelude.specs.{is_disk_length};
ghost use Rattle.ata_pio.specs.declared.ata.AtaOpen.{AtaOpen};

use ata_pio::{Ata, AtaOpen};
use board_base::Width;
use board_spec::port::{DISK_DATA, DISK_DEVICE, DISK_STATUS};
use std::alloc::Global;

/// The device register: drive 0, addressed by LBA.
const DRIVE_0: u32 = 0xE0;

/// The command IDENTIFY DEVICE.
const IDENTIFY: u32 = 0xEC;

/// How many words stand before the number of sectors, which words 60 and 61 have.
const BEFORE_SECTORS: u32 = 60;

/// How many sectors a disk with these bytes says that it has, when it is asked by IDENTIFY DEVICE.
pub fn sectors(alloc: Global, bytes: &[u8]) -> Result<u32, AtaOpen>
    ensures bad_length { (result ≡ Err AtaOpen.BadLength) ↔ (is_disk_length (length bytes.now) ≡ false) }
{
    let mut disk = Ata::open(alloc, bytes)?;
    disk.port_write(DISK_DEVICE, Width::One, DRIVE_0);
    disk.port_write(DISK_STATUS, Width::One, IDENTIFY);
    for _ in 0..BEFORE_SECTORS {
        disk.port_read(DISK_DATA, Width::Two);
    }
    Ok(disk.port_read(DISK_DATA, Width::Four))
}
