//! Accesses to one port, one after another, as a string instruction makes them.

ghost use Rattle.std.specs.Prelude.{◌≡◌, length};
ghost use Rattle.board_c.specs.Calls.{IsCall, OnMachine, OnMachines};
ghost use Rattle.machine_records.specs.Strings.{AreRead, AreWritten, IsFirstRefused, reads, writes};

use crate::handle::Handle;
use machine_records::status::BAD_HANDLE;
use machine_records::{ReplyRecord, in_many, out_many};
use std::alloc::Global;

/// Reads a port for each of the values, one after another, until the processor is asked for: INT is asserted, or there
/// was a reset. Writes how many were read, and the last one's reply. `BAD_HANDLE` exactly where the handle is closed;
/// refused with why where the first is. Then nothing has changed.
#[unsafe(no_mangle)]
pub extern "C" fn board_in_many(
    alloc: Global,
    handle: &mut Handle,
    port: u16,
    bytes: u8,
    values: &mut [u32],
    done: &mut usize,
    reply: &mut ReplyRecord,
) -> u32
    ensures call { IsCall handle.old handle.new result
        (OnMachines handle.old.held handle.new.held
        (λ old new. AreRead port bytes old reply.old values.old new reply.new values.new done.new))
        (OnMachine handle.old.held (λ machine. IsFirstRefused (reads port bytes) (length values.old) machine result))
        ((values.new ≡ values.old) × (done.new ≡ done.old) × (reply.new ≡ reply.old)) }
{
    let Some(mut board) = handle.take(alloc) else {
        return BAD_HANDLE;
    };
    let status = in_many(&mut board.machine, port, bytes, values, done, reply);
    handle.put(board);
    status
}

/// Writes each of the values to a port, one after another, until the processor is asked for: INT is asserted, there was
/// a reset, or COM1 sent a byte. Writes how many were written, and the last one's reply. `BAD_HANDLE` exactly where the
/// handle is closed; refused with why where the first is. Then nothing has changed.
#[unsafe(no_mangle)]
pub extern "C" fn board_out_many(
    alloc: Global,
    handle: &mut Handle,
    port: u16,
    bytes: u8,
    values: &[u32],
    done: &mut usize,
    reply: &mut ReplyRecord,
) -> u32
    ensures call { IsCall handle.old handle.new result
        (OnMachines handle.old.held handle.new.held
        (λ old new. AreWritten port bytes values.now old reply.old new reply.new done.new))
        (OnMachine handle.old.held (λ machine.
        IsFirstRefused (writes port bytes values.now) (length values.now) machine result))
        ((done.new ≡ done.old) × (reply.new ≡ reply.old)) }
{
    let Some(mut board) = handle.take(alloc) else {
        return BAD_HANDLE;
    };
    let status = out_many(&mut board.machine, port, bytes, values, done, reply);
    handle.put(board);
    status
}
