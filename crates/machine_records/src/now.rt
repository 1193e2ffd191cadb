//! What stands now, without a step.

ghost use Rattle.std.specs.Prelude.{◌≡◌};
ghost use Rattle.machine_records.specs.Now.{IsNow};

use crate::lines::lines_of;
use crate::reply::{ReplyRecord, clear, write_after};
use board_chipset::{Chipset, ResetKind};
use uart_16550::SerialBoard;

/// Sets `reply` to what stands now: INT, the interrupt lines, line 4, whether COM1 has room, and the version of the map.
/// Nothing answered, and no line rose.
pub fn read_now(serial: &SerialBoard<Chipset>, reply: &mut ReplyRecord)
    ensures now { IsNow serial.now reply.new }
{
    clear(reply);
    write_after(reply, serial, ResetKind::None);
    reply.lines = lines_of(serial.board());
    reply.rose = 0;
}
