//! What stands now, without a step.

ghost use Rattle.std.specs.Prelude.{◌≡◌, true};
ghost use Rattle.board_c.specs.Calls.{IsCall, OnBoard};
ghost use Rattle.machine_records.specs.Now.{IsNow};

use crate::handle::Handle;
use machine_records::status::{BAD_HANDLE, OK};
use machine_records::{ReplyRecord, read_now};
use std::alloc::Global;

/// Writes what stands now as a step that asks nothing would tell it: INT, the interrupt lines, line 4, the room of COM1
/// and the version of the map; nothing answered, and no line rose. `BAD_HANDLE` exactly where the handle is closed.
#[unsafe(no_mangle)]
pub extern "C" fn board_now(alloc: Global, handle: &mut Handle, reply: &mut ReplyRecord) -> u32
    ensures call { IsCall handle.old handle.new result
        (OnBoard handle.old.held (λ serial. IsNow serial reply.new)) ⊥ (reply.new ≡ reply.old) }
    ensures same { handle.old.full ≡ true → handle.new.held ≡ handle.old.held }
{
    let Some(board) = handle.take(alloc) else {
        return BAD_HANDLE;
    };
    read_now(&board.machine.serial, reply);
    handle.put(board);
    OK
}
