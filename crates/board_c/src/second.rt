//! One second of the clock; the levels of the interrupt lines; and what the serial port holds.

ghost use Rattle.std.specs.Prelude.{◌≡◌, true};
ghost use Rattle.board_c.specs.Calls.{IsCall, OnBoard, OnBoth};
ghost use Rattle.machine_records.specs.Lines.{AreLinesOf, serial_state_said};
ghost use Rattle.machine_records.specs.Seconds.{HasNoSecond, IsSecondStep};
ghost use Rattle.machine_records.specs.Statuses.{no_time};

use crate::handle::Handle;
use machine_records::status::{BAD_HANDLE, OK};
use machine_records::{EventRecord, ReplyRecord, SerialRecord, read_lines, read_serial, second};
use std::alloc::Global;

/// Lets the clock go on one second from what it shows, in whichever form, and writes the event by which it does and the
/// reply. `BAD_HANDLE` exactly where the handle is closed, and `NO_TIME` exactly where it is open and SET holds the time,
/// or its registers say no moment; then nothing has changed.
#[unsafe(no_mangle)]
pub extern "C" fn board_second(
    alloc: Global,
    handle: &mut Handle,
    event: &mut EventRecord,
    reply: &mut ReplyRecord,
) -> u32
    ensures call { IsCall handle.old handle.new result
        (OnBoth handle.old.held handle.new.held (λ old new. IsSecondStep old new event.new reply.new))
        (OnBoard handle.old.held (λ serial. (result ≡ no_time) × HasNoSecond serial.board))
        ((event.new ≡ event.old) × (reply.new ≡ reply.old)) }
{
    let Some(mut board) = handle.take(alloc) else {
        return BAD_HANDLE;
    };
    let status = second(&mut board.machine.serial, event, reply);
    handle.put(board);
    status
}

/// Writes the levels of the sixteen interrupt lines, as the pair of 8259A hears them: bit k is that of line k. `BAD_HANDLE`
/// exactly where the handle is closed.
#[unsafe(no_mangle)]
pub extern "C" fn board_lines(alloc: Global, handle: &mut Handle, lines: &mut u16) -> u32
    ensures call { IsCall handle.old handle.new result
        (OnBoard handle.old.held (λ serial. AreLinesOf serial.board lines.new)) ⊥ (lines.new ≡ lines.old) }
    ensures same { handle.old.full ≡ true → handle.new.held ≡ handle.old.held }
{
    let Some(board) = handle.take(alloc) else {
        return BAD_HANDLE;
    };
    read_lines(board.machine.chipset(), lines);
    handle.put(board);
    OK
}

/// Writes what COM1 holds; nothing is taken or cleared. `BAD_HANDLE` exactly where the handle is closed.
#[unsafe(no_mangle)]
pub extern "C" fn board_serial_state(
    alloc: Global,
    handle: &mut Handle,
    state: &mut SerialRecord,
) -> u32
    ensures call { IsCall handle.old handle.new result
        (OnBoard handle.old.held (λ serial. state.new ≡ serial_state_said serial.com1)) ⊥ (state.new ≡ state.old) }
    ensures same { handle.old.full ≡ true → handle.new.held ≡ handle.old.held }
{
    let Some(board) = handle.take(alloc) else {
        return BAD_HANDLE;
    };
    read_serial(&board.machine.serial, state);
    handle.put(board);
    OK
}
