//! The bytes of a chipset, out and in without an access on the bus.

ghost use Rattle.std.specs.Prelude.{◌≡◌, ◌<◌, ◌≤◌, ◌+◌, length};
ghost use Rattle.board_spec.specs.Setup.{installed};
ghost use Rattle.machine_records.specs.Bytes.{IsClockByte, IsClockWritten, IsDramRead, IsDramWritten, IsSectorRead};
ghost use Rattle.machine_records.specs.Bytes.{IsSectorRefusal, clock_bytes};
ghost use Rattle.machine_records.specs.Statuses.{IsOutcome, no_byte, past_end};

use crate::status::{BAD_LENGTH, NO_BYTE, NO_SECTOR, OK, PAST_END};
use board_chipset::Chipset;
use cmos_clock::CLOCK_BYTES;
use uart_16550::SerialBoard;

/// Fills `into` with the bytes of the DRAM from an address on, as reads of one byte each give them: FFh past the
/// installed memory.
pub fn read_dram(chipset: &Chipset, addr: u32, into: &mut [u8])
    ensures read { IsDramRead chipset.now addr into.old into.new }
{
    chipset.dram().read_bytes(addr, into);
}

/// Fills `into` with the 512 bytes of a sector, also of one marked bad. Refused with `NO_SECTOR` where there is no disk
/// or it has no such sector, and with `BAD_LENGTH` where `into` has not 512 bytes.
pub fn read_sector(chipset: &Chipset, sector: u32, into: &mut [u8]) -> u32
    ensures outcome { IsOutcome result (IsSectorRead chipset.now sector into.new)
        (IsSectorRefusal chipset.now sector (length into.old) result) (into.new ≡ into.old) }
{
    let Some(disk) = chipset.disk() else {
        return NO_SECTOR;
    };
    if disk.sectors() <= sector {
        return NO_SECTOR;
    }
    let bytes = disk.sector(sector);
    if into.len() != bytes.len() {
        return BAD_LENGTH;
    }
    into.copy_from_slice(bytes);
    OK
}

/// Sets `byte` to what a read of port 71h would give with this index, and clears nothing. Refused with `NO_BYTE` from
/// address 128 on.
pub fn read_clock_byte(chipset: &Chipset, address: u8, byte: &mut u8) -> u32
    ensures outcome { IsOutcome result (IsClockByte chipset.now address byte.new × (address < clock_bytes))
        ((result ≡ no_byte) × (clock_bytes ≤ address)) (byte.new ≡ byte.old) }
{
    if usize::from(address) >= CLOCK_BYTES {
        return NO_BYTE;
    }
    *byte = chipset.clock().peek(address);
    OK
}

/// Puts bytes into the DRAM from an address on. Refused with `PAST_END` where they do not all lie in the installed
/// memory; then nothing has changed.
pub fn write_dram(serial: &mut SerialBoard<Chipset>, addr: u32, bytes: &[u8]) -> u32
    ensures outcome { IsOutcome result (IsDramWritten serial.old serial.new addr bytes.now)
        ((result ≡ past_end) × (installed serial.old.board.setup < addr + length bytes.now))
        (serial.new ≡ serial.old) }
{
    match serial.write_dram(addr, bytes) {
        Ok(()) => OK,
        Err(_) => PAST_END,
    }
}

/// Writes the byte of the clock at an address. Refused with `NO_BYTE` from address 128 on; then nothing has changed.
pub fn write_clock_byte(serial: &mut SerialBoard<Chipset>, address: u8, byte: u8) -> u32
    ensures outcome { IsOutcome result (IsClockWritten serial.old serial.new address byte)
        ((result ≡ no_byte) × (clock_bytes ≤ address)) (serial.new ≡ serial.old) }
{
    match serial.set_clock_byte(address, byte) {
        Ok(()) => OK,
        Err(_) => NO_BYTE,
    }
}
