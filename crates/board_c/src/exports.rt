//! The functions that C calls. One call at a time is inside a handle, and its pointers are good: what the caller owes.

ghost use Rattle.std.specs.Prelude.{◌≡◌, [], false, IsSomeAnd};
ghost use Rattle.board_c.specs.Calls.{IsCall, IsOpening, OnBoard, OnMachine, OnMachines};
ghost use Rattle.machine_records.specs.Statuses.{IsEventRefusal};
ghost use Rattle.machine_records.specs.FittedReplies.{IsMachineStep};
ghost use Rattle.machine_records.specs.Openings.{IsOpenRefusal, IsOpenedWith, setup_said};
ghost use Rattle.machine_records.specs.Events.{asked_said};
ghost use Rattle.machine_records.specs.Cards.{identities_said};

use crate::handle::Handle;
use crate::opened::Opened;
use machine_records::status::{BAD_HANDLE, NO_MEMORY, OK};
use machine_records::{CardRecord, EventRecord, ReplyRecord, open, step};
use std::alloc::Global;

/// Opens a board with these cards over copies of these bytes. A disk of no bytes is none. `BAD_HANDLE` where the handle is
/// open already; a handle that is refused is as before.
#[unsafe(no_mangle)]
pub extern "C" fn board_open(
    alloc: Global,
    handle: &mut Handle,
    mib: u32,
    cards: &[CardRecord],
    rom: &[u8],
    disk: &[u8],
) -> u32
    ensures opening { IsOpening handle.old handle.new result
        (OnMachine handle.new.held (λ machine.
        IsSomeAnd (setup_said mib cards.now rom.now disk.now) (IsOpenedWith machine.saved.serial)
        × (machine.saved.identities ≡ identities_said cards.now) × (machine.roms ≡ [])))
        (IsOpenRefusal (setup_said mib cards.now rom.now disk.now) result) }
{
    if let Some(board) = handle.take(alloc) {
        handle.put(board);
        return BAD_HANDLE;
    }
    let machine = match open(alloc, mib, cards, rom, disk) {
        Ok(machine) => machine,
        Err(status) => return status,
    };
    let Ok(boxed) = Box::new(alloc, Opened { machine }) else {
        return NO_MEMORY;
    };
    handle.put(boxed);
    OK
}

/// Does the event that a record says, and writes its reply to another. `BAD_HANDLE` exactly where the handle is closed;
/// refused with why where the record says no event, or one that is out of range. Then nothing has changed.
#[unsafe(no_mangle)]
pub extern "C" fn board_step(
    alloc: Global,
    handle: &mut Handle,
    event: &EventRecord,
    reply: &mut ReplyRecord,
) -> u32
    ensures call { IsCall handle.old handle.new result
        (IsSomeAnd (asked_said event.now) (λ asked. OnMachines handle.old.held handle.new.held
        (λ old new. IsMachineStep old new event.now reply.new asked)))
        (OnBoard handle.old.held (λ serial. IsEventRefusal serial (asked_said event.now) result))
        (reply.new ≡ reply.old) }
{
    let Some(mut board) = handle.take(alloc) else {
        return BAD_HANDLE;
    };
    let status = step(&mut board.machine, event, reply);
    handle.put(board);
    status
}

/// Frees the board. The handle is closed from then on.
#[unsafe(no_mangle)]
pub extern "C" fn board_close(alloc: Global, handle: &mut Handle)
    ensures closed { handle.new.full ≡ false }
{
    let _ended = handle.take(alloc);
}
