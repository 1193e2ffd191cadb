//! A board as bytes, out and in, also without those that a monitor keeps itself.

ghost use Rattle.std.specs.Prelude.{◌≡◌, ◌⊎◌, [], length, true, false, Some};
ghost use Rattle.board_c.specs.Calls.{IsCall, IsOpening, OnMachine};
ghost use Rattle.board_c.specs.Images.{IsSaveRefusal, IsSaved};
ghost use Rattle.machine.specs.Given.{AreAsMany, IsGivenBoard, IsGivenRefusal, given_of, left_of, on_board, with_given};
ghost use Rattle.machine.specs.Given.{without};
ghost use Rattle.machine.specs.Images.{IsLoadRefusal, IsSavedState, image_bytes};
ghost use Rattle.machine.specs.Machines.{Saved, without_roms};
ghost use Rattle.machine.specs.declared.saved.LeftOut.{LeftOut as Left};
ghost use Rattle.machine_records.specs.Statuses.{IsOutcome, IsRefusedBy, no_memory, ok};

use crate::handle::Handle;
use crate::opened::Opened;
use machine::{Given, LeftOut, Machine, Refusal};
use machine_records::status::{BAD_HANDLE, OK, refusal_status};
use std::alloc::Global;

/// Writes the board to the front of the room, as bytes that are whole in themselves, and counts them. `BAD_HANDLE` exactly
/// where the handle is closed; `NO_ROOM` where they do not fit, and then too they are counted; `NO_MEMORY` where there
/// is none for a copy of those around the DRAM's.
#[unsafe(no_mangle)]
pub extern "C" fn board_save(
    alloc: Global,
    handle: &mut Handle,
    into: &mut [u8],
    bytes: &mut usize,
) -> u32
    ensures call { IsCall handle.old handle.new result
        (OnMachine handle.old.held (λ machine. IsSavedState machine.saved
        × IsSaved (image_bytes machine.saved) into.old into.new bytes.new))
        (OnMachine handle.old.held (λ machine.
        IsSaveRefusal (image_bytes machine.saved) (length into.old) result bytes.old bytes.new))
        (into.new ≡ into.old) }
    ensures same { handle.old.full ≡ true → handle.new.held ≡ handle.old.held }
    ensures uncounted { handle.old.full ≡ false → bytes.new ≡ bytes.old }
{
    let Some(board) = handle.take(alloc) else {
        return BAD_HANDLE;
    };
    let left = LeftOut {
        dram: false,
        disk: false,
    };
    let status = save(alloc, &board.machine, left, into, bytes);
    handle.put(board);
    status
}

/// Writes the board as `board_save` does, without the bytes of the DRAM or those of the disk, as it was fitted and as
/// its sectors stand: zeros stand in the place of what is left out. The statuses are those of `board_save`.
#[unsafe(no_mangle)]
pub extern "C" fn board_save_without(
    alloc: Global,
    handle: &mut Handle,
    dram: bool,
    disk: bool,
    into: &mut [u8],
    bytes: &mut usize,
) -> u32
    ensures call { IsCall handle.old handle.new result
        (OnMachine handle.old.held (λ machine. IsSavedState machine.saved
        × IsSaved (image_bytes (without (record { dram = dram; disk = disk }) machine.saved))
        into.old into.new bytes.new))
        (OnMachine handle.old.held (λ machine.
        IsSaveRefusal (image_bytes (without (record { dram = dram; disk = disk }) machine.saved))
        (length into.old) result bytes.old bytes.new))
        (into.new ≡ into.old) }
    ensures same { handle.old.full ≡ true → handle.new.held ≡ handle.old.held }
    ensures uncounted { handle.old.full ≡ false → bytes.new ≡ bytes.old }
{
    let Some(board) = handle.take(alloc) else {
        return BAD_HANDLE;
    };
    let status = save(alloc, &board.machine, LeftOut { dram, disk }, into, bytes);
    handle.put(board);
    status
}

/// Writes a machine without what is left out.
fn save(alloc: Global, machine: &Machine, left: LeftOut, into: &mut [u8], bytes: &mut usize) -> u32
    ensures outcome { IsOutcome result
        (IsSavedState machine.now.saved
        × IsSaved (image_bytes (without left machine.now.saved)) into.old into.new bytes.new)
        (IsSaveRefusal (image_bytes (without left machine.now.saved)) (length into.old) result bytes.old bytes.new)
        (into.new ≡ into.old) }
{
    match machine.save(alloc, left, into, bytes) {
        Ok(()) => OK,
        Err(why) => refusal_status(why),
    }
}

/// Opens the board that was saved as these bytes: it is equal to that one, but that no expansion ROM was given bytes.
/// `BAD_HANDLE` where the handle is open already; `OTHER_VERSION` where another version saved them; `BAD_IMAGE` where they
/// are those of no board. A handle that is refused is as before.
#[unsafe(no_mangle)]
pub extern "C" fn board_load(alloc: Global, handle: &mut Handle, from: &[u8]) -> u32
    ensures opening { IsOpening handle.old handle.new result
        (OnMachine handle.new.held (λ machine. IsSavedState machine.saved
        × (from.now ≡ image_bytes machine.saved) × (machine.roms ≡ [])))
        (IsRefusedBy (IsLoadRefusal from.now) result) }
    ensures exact { (saved : Saved) → handle.old.full ≡ false → IsSavedState saved → from.now ≡ image_bytes saved
        → (result ≡ no_memory) ⊎ ((result ≡ ok) × (handle.new.held ≡ Some (without_roms saved))) }
{
    if let Some(board) = handle.take(alloc) {
        handle.put(board);
        return BAD_HANDLE;
    }
    let machine = match Machine::load(alloc, from) {
        Ok(machine) => machine,
        Err(why) => return refusal_status(why),
    };
    let Ok(boxed) = Box::new(alloc, Opened { machine }) else {
        return refusal_status(Refusal::NoMemory);
    };
    handle.put(boxed);
    OK
}

/// Opens the board that was saved as these bytes, as `board_load` does, with the bytes that are given in the place of
/// its own: those of the DRAM, of the disk as it was fitted, and of its sectors as they stand. No bytes are none given.
/// So with those that `board_save_without` left out it is the board that was saved. `BAD_LENGTH` where the bytes are
/// those of a board, and those given are not as many as it has; the other statuses are those of `board_load`. A handle
/// that is refused is as before.
#[unsafe(no_mangle)]
pub extern "C" fn board_load_with(
    alloc: Global,
    handle: &mut Handle,
    from: &[u8],
    dram: &[u8],
    fitted: &[u8],
    sectors: &[u8],
) -> u32
    ensures opening { IsOpening handle.old handle.new result
        (OnMachine handle.new.held (λ machine. IsSavedState machine.saved × (machine.roms ≡ [])
        × IsGivenBoard from.now (given_of dram.now fitted.now sectors.now) machine.saved))
        (IsRefusedBy (IsGivenRefusal from.now (given_of dram.now fitted.now sectors.now)) result) }
    ensures exact { (saved : Saved) → handle.old.full ≡ false → IsSavedState saved → from.now ≡ image_bytes saved
        → AreAsMany (given_of dram.now fitted.now sectors.now) saved.serial.board.setup
        → (result ≡ no_memory) ⊎ ((result ≡ ok) × (handle.new.held ≡ Some (without_roms
        (on_board (with_given (given_of dram.now fitted.now sectors.now)) saved)))) }
    ensures back { (left : Left) (saved : Saved) → handle.old.full ≡ false → IsSavedState saved
        → from.now ≡ image_bytes (without left saved)
        → given_of dram.now fitted.now sectors.now ≡ left_of left saved.serial.board
        → (result ≡ no_memory) ⊎ ((result ≡ ok) × (handle.new.held ≡ Some (without_roms saved))) }
{
    if let Some(board) = handle.take(alloc) {
        handle.put(board);
        return BAD_HANDLE;
    }
    let given = Given {
        dram,
        fitted,
        sectors,
    };
    let machine = match Machine::load_with(alloc, from, &given) {
        Ok(machine) => machine,
        Err(why) => return refusal_status(why),
    };
    let Ok(boxed) = Box::new(alloc, Opened { machine }) else {
        return refusal_status(Refusal::NoMemory);
    };
    handle.put(boxed);
    OK
}
