//! Where a bus master's accesses land, and the bytes of cards.

ghost use Rattle.std.specs.Prelude.{◌≡◌, length, true};
ghost use Rattle.board_c.specs.Calls.{IsCall, OnBoard, OnMachine, OnMachines};
ghost use Rattle.machine_records.specs.CardBytes.{IsBaseRead, IsBaseUnread, IsBaseUnwritten, IsBaseWritten};
ghost use Rattle.machine_records.specs.Masters.{IsMasterCycle, IsMasterPlaced};
ghost use Rattle.machine_records.specs.Statuses.{no_cycle};

use crate::handle::Handle;
use machine_records::status::BAD_HANDLE;
use machine_records::{PartRecord, decode_master, read_base, write_base};
use std::alloc::Global;

/// Writes where an access of a bus master would land, and what would deny it: never SMRAM, nor memory at A0000h to
/// BFFFFh; nothing happens. `BAD_HANDLE` exactly where the handle is closed, and `NO_CYCLE` exactly where it is open and
/// the access is not of 1, 2 or 4 bytes at a multiple of them.
#[unsafe(no_mangle)]
pub extern "C" fn board_decode_master(
    alloc: Global,
    handle: &mut Handle,
    addr: u32,
    bytes: u8,
    is_write: bool,
    part: &mut PartRecord,
) -> u32
    ensures call { IsCall handle.old handle.new result
        (OnBoard handle.old.held (λ serial. IsMasterPlaced serial.board addr bytes is_write part.new))
        ((result ≡ no_cycle) × ¬ IsMasterCycle addr bytes) (part.new ≡ part.old) }
    ensures same { handle.old.full ≡ true → handle.new.held ≡ handle.old.held }
{
    let Some(board) = handle.take(alloc) else {
        return BAD_HANDLE;
    };
    let status = decode_master(board.machine.chipset(), addr, bytes, is_write, part);
    handle.put(board);
    status
}

/// Writes the bytes of a base of a card, 0 to 5, or 6 for its expansion ROM, or 7 for the VGA window, from an offset
/// on, as the guest would read them. `BAD_HANDLE` exactly where the handle is closed, and `PAST_END` exactly where they do
/// not all lie in the base: a card or base that is not there has none.
#[unsafe(no_mangle)]
pub extern "C" fn board_card_read(
    alloc: Global,
    handle: &mut Handle,
    device: u8,
    base: u8,
    offset: u32,
    into: &mut [u8],
) -> u32
    ensures call { IsCall handle.old handle.new result
        (OnMachine handle.old.held (IsBaseRead device base offset into.old into.new))
        (OnMachine handle.old.held (IsBaseUnread device base offset (length into.old) result))
        (into.new ≡ into.old) }
    ensures same { handle.old.full ≡ true → handle.new.held ≡ handle.old.held }
{
    let Some(board) = handle.take(alloc) else {
        return BAD_HANDLE;
    };
    let status = read_base(&board.machine, device, base, offset, into);
    handle.put(board);
    status
}

/// Puts bytes into a base of a card from an offset on, as if processors had written them, or into its expansion ROM,
/// base 6, where reads find them and no processor writes. `BAD_HANDLE` exactly where the handle is closed, and `PAST_END`
/// exactly where they do not all lie in the base; `NO_MEMORY` only of a ROM into which no bytes were put yet; then
/// nothing has changed.
#[unsafe(no_mangle)]
pub extern "C" fn board_card_write(
    alloc: Global,
    handle: &mut Handle,
    device: u8,
    base: u8,
    offset: u32,
    from: &[u8],
) -> u32
    ensures call { IsCall handle.old handle.new result
        (OnMachines handle.old.held handle.new.held (IsBaseWritten device base offset from.now))
        (OnMachine handle.old.held (IsBaseUnwritten device base offset (length from.now) result)) (Unit {0}) }
{
    let Some(mut board) = handle.take(alloc) else {
        return BAD_HANDLE;
    };
    let status = write_base(alloc, &mut board.machine, device, base, offset, from);
    handle.put(board);
    status
}
