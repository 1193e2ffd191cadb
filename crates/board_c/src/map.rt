//! What C asks of a board between two steps: the board stays as it is.

ghost use Rattle.std.specs.Prelude.{◌≡◌, true, IsSomeAnd};
ghost use Rattle.board_c.specs.Calls.{IsCall, OnBoard};
ghost use Rattle.machine_records.specs.Maps.{AreRangesOf, AreWindowsOf, IsVersionSaid};
ghost use Rattle.machine_records.specs.Places.{IsAskedPlace, IsNotPlaced, IsRise};
ghost use Rattle.machine_records.specs.Events.{asked_said};

use crate::handle::Handle;
use machine_records::status::{BAD_HANDLE, OK};
use machine_records::{
    EventRecord, MapRecord, PartRecord, RangeRecord, WindowRecord, decode, read_map, read_rise,
};
use std::alloc::Global;

/// Writes the memory map, its ranges and the windows that its last change changed: as many of them as there is room
/// for, and how many there are; and the memory. `BAD_HANDLE` exactly where the handle is closed.
#[unsafe(no_mangle)]
pub extern "C" fn board_ranges(
    alloc: Global,
    handle: &mut Handle,
    map: &mut MapRecord,
    ranges: &mut [RangeRecord],
    windows: &mut [WindowRecord],
) -> u32
    ensures call { IsCall handle.old handle.new result
        (OnBoard handle.old.held (λ serial. IsVersionSaid serial.board map.new.version
        × (map.new.mib ≡ serial.board.setup.mib)
        × AreRangesOf serial.board map.new.ranges ranges.old ranges.new
        × AreWindowsOf serial.board map.new.windows windows.old windows.new))
        ⊥ ((map.new ≡ map.old) × (ranges.new ≡ ranges.old) × (windows.new ≡ windows.old)) }
    ensures same { handle.old.full ≡ true → handle.new.held ≡ handle.old.held }
{
    let Some(board) = handle.take(alloc) else {
        return BAD_HANDLE;
    };
    read_map(board.machine.chipset(), map, ranges, windows);
    handle.put(board);
    OK
}

/// Writes where the access that a record says would land, and what would deny it; nothing happens. `BAD_HANDLE` exactly
/// where the handle is closed; refused with why where the record says no event, or one that no bus cycle can make.
#[unsafe(no_mangle)]
pub extern "C" fn board_decode(
    alloc: Global,
    handle: &mut Handle,
    event: &EventRecord,
    part: &mut PartRecord,
) -> u32
    ensures call { IsCall handle.old handle.new result
        (OnBoard handle.old.held (λ serial. IsSomeAnd (asked_said event.now) (IsAskedPlace serial.board part.new)))
        (OnBoard handle.old.held (λ serial. IsNotPlaced serial.board (asked_said event.now) result))
        (part.new ≡ part.old) }
    ensures same { handle.old.full ≡ true → handle.new.held ≡ handle.old.held }
{
    let Some(board) = handle.take(alloc) else {
        return BAD_HANDLE;
    };
    let status = decode(board.machine.chipset(), event, part);
    handle.put(board);
    status
}

/// Writes after how many pulses of the timer's clock line 0 next rises: 0 where it does not, unless something is
/// written. `BAD_HANDLE` exactly where the handle is closed.
#[unsafe(no_mangle)]
pub extern "C" fn board_pulses_to_rise(alloc: Global, handle: &mut Handle, pulses: &mut u32) -> u32
    ensures call { IsCall handle.old handle.new result
        (OnBoard handle.old.held (λ serial. IsRise serial.board pulses.new)) ⊥ (pulses.new ≡ pulses.old) }
    ensures same { handle.old.full ≡ true → handle.new.held ≡ handle.old.held }
{
    let Some(board) = handle.take(alloc) else {
        return BAD_HANDLE;
    };
    read_rise(board.machine.chipset(), pulses);
    handle.put(board);
    OK
}
