//! Accesses of 1, 2 or 4 bytes at ports, aligned or not.

ghost use Rattle.std.specs.Prelude.{◌≡◌};
ghost use Rattle.board_prelude.specs.{Read, Write};
ghost use Rattle.board_c.specs.Calls.{IsCall, OnMachines};
ghost use Rattle.machine_records.specs.PortAccesses.{IsPortAccess, port_status};

use crate::handle::Handle;
use machine_records::status::BAD_HANDLE;
use machine_records::{ReplyRecord, port_in, port_out};
use std::alloc::Global;

/// Reads so many bytes from a port on, by the bus cycles that an access to memory of as many bytes at the same address
/// has, and writes their replies, joined. `BAD_HANDLE` exactly where the handle is closed; refused with why where there
/// is no such access. Then nothing has changed.
#[unsafe(no_mangle)]
pub extern "C" fn board_in_cycles(
    alloc: Global,
    handle: &mut Handle,
    port: u16,
    bytes: u8,
    reply: &mut ReplyRecord,
) -> u32
    ensures call { IsCall handle.old handle.new result
        (OnMachines handle.old.held handle.new.held
        (λ old new. IsPortAccess Read port bytes 0 old reply.old new reply.new))
        (result ≡ port_status port bytes 0)
        (reply.new ≡ reply.old) }
{
    let Some(mut board) = handle.take(alloc) else {
        return BAD_HANDLE;
    };
    let status = port_in(&mut board.machine, port, bytes, reply);
    handle.put(board);
    status
}

/// Writes so many bytes from a port on, as `board_in_cycles` reads them.
#[unsafe(no_mangle)]
pub extern "C" fn board_out_cycles(
    alloc: Global,
    handle: &mut Handle,
    port: u16,
    bytes: u8,
    value: u32,
    reply: &mut ReplyRecord,
) -> u32
    ensures call { IsCall handle.old handle.new result
        (OnMachines handle.old.held handle.new.held
        (λ old new. IsPortAccess Write port bytes value old reply.old new reply.new))
        (result ≡ port_status port bytes value)
        (reply.new ≡ reply.old) }
{
    let Some(mut board) = handle.take(alloc) else {
        return BAD_HANDLE;
    };
    let status = port_out(&mut board.machine, port, bytes, value, reply);
    handle.put(board);
    status
}
