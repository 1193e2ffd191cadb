//! The bytes of a board, out and in.

ghost use Rattle.std.specs.Prelude.{◌≡◌, ◌+◌, ◌<◌, ◌≤◌, length, true};
ghost use Rattle.board_c.specs.Calls.{IsCall, OnBoard, OnBoth};
ghost use Rattle.board_spec.specs.Setup.{installed};
ghost use Rattle.machine_records.specs.Bytes.{IsClockByte, IsClockWritten, IsDramRead, IsDramWritten, IsSectorRead};
ghost use Rattle.machine_records.specs.Bytes.{IsSectorRefusal, clock_bytes};
ghost use Rattle.machine_records.specs.Statuses.{no_byte, past_end};

use crate::handle::Handle;
use machine_records::status::{BAD_HANDLE, OK};
use machine_records::{read_clock_byte, read_dram, read_sector, write_clock_byte, write_dram};
use std::alloc::Global;

/// Writes the bytes of the DRAM from an address on, as reads of one byte each would give them: FFh past the installed
/// memory. `BAD_HANDLE` exactly where the handle is closed.
#[unsafe(no_mangle)]
pub extern "C" fn board_dram_read(
    alloc: Global,
    handle: &mut Handle,
    addr: u32,
    into: &mut [u8],
) -> u32
    ensures call { IsCall handle.old handle.new result
        (OnBoard handle.old.held (λ serial. IsDramRead serial.board addr into.old into.new)) ⊥
        (into.new ≡ into.old) }
    ensures same { handle.old.full ≡ true → handle.new.held ≡ handle.old.held }
{
    let Some(board) = handle.take(alloc) else {
        return BAD_HANDLE;
    };
    read_dram(board.machine.chipset(), addr, into);
    handle.put(board);
    OK
}

/// Writes the 512 bytes of a sector, bad or not. `BAD_HANDLE` exactly where the handle is closed, `NO_SECTOR` where there is
/// no disk or it has no such sector, `BAD_LENGTH` where the room is not that of a sector.
#[unsafe(no_mangle)]
pub extern "C" fn board_disk_read(
    alloc: Global,
    handle: &mut Handle,
    sector: u32,
    into: &mut [u8],
) -> u32
    ensures call { IsCall handle.old handle.new result
        (OnBoard handle.old.held (λ serial. IsSectorRead serial.board sector into.new))
        (OnBoard handle.old.held (λ serial. IsSectorRefusal serial.board sector (length into.old) result))
        (into.new ≡ into.old) }
    ensures same { handle.old.full ≡ true → handle.new.held ≡ handle.old.held }
{
    let Some(board) = handle.take(alloc) else {
        return BAD_HANDLE;
    };
    let status = read_sector(board.machine.chipset(), sector, into);
    handle.put(board);
    status
}

/// Writes what a read of port 71h would give of the clock with this index, and clears nothing. `BAD_HANDLE` exactly where
/// the handle is closed, and `NO_BYTE` exactly where it is open and the address is 128 or more.
#[unsafe(no_mangle)]
pub extern "C" fn board_cmos_read(
    alloc: Global,
    handle: &mut Handle,
    address: u8,
    byte: &mut u8,
) -> u32
    ensures call { IsCall handle.old handle.new result
        (OnBoard handle.old.held (λ serial. IsClockByte serial.board address byte.new) × (address < clock_bytes))
        ((result ≡ no_byte) × (clock_bytes ≤ address)) (byte.new ≡ byte.old) }
    ensures same { handle.old.full ≡ true → handle.new.held ≡ handle.old.held }
{
    let Some(board) = handle.take(alloc) else {
        return BAD_HANDLE;
    };
    let status = read_clock_byte(board.machine.chipset(), address, byte);
    handle.put(board);
    status
}

/// Puts bytes into the DRAM from an address on, as if processors had written them. `BAD_HANDLE` exactly where the handle is
/// closed, and `PAST_END` exactly where they do not all lie in the installed memory; then nothing has changed.
#[unsafe(no_mangle)]
pub extern "C" fn board_dram_write(
    alloc: Global,
    handle: &mut Handle,
    addr: u32,
    from: &[u8],
) -> u32
    ensures call { IsCall handle.old handle.new result
        (OnBoth handle.old.held handle.new.held (λ old new. IsDramWritten old new addr from.now))
        (OnBoard handle.old.held (λ serial. (result ≡ past_end)
        × (installed serial.board.setup < addr + length from.now))) (Unit {0}) }
{
    let Some(mut board) = handle.take(alloc) else {
        return BAD_HANDLE;
    };
    let status = write_dram(&mut board.machine.serial, addr, from);
    handle.put(board);
    status
}

/// Writes the byte of the clock at an address, as if a processor had written it. `BAD_HANDLE` exactly where the handle is
/// closed, and `NO_BYTE` exactly where it is open and the address is 128 or more; then nothing has changed.
#[unsafe(no_mangle)]
pub extern "C" fn board_cmos_write(alloc: Global, handle: &mut Handle, address: u8, byte: u8) -> u32
    ensures call { IsCall handle.old handle.new result
        (OnBoth handle.old.held handle.new.held (λ old new. IsClockWritten old new address byte))
        ((result ≡ no_byte) × (clock_bytes ≤ address)) (Unit {0}) }
{
    let Some(mut board) = handle.take(alloc) else {
        return BAD_HANDLE;
    };
    let status = write_clock_byte(&mut board.machine.serial, address, byte);
    handle.put(board);
    status
}
