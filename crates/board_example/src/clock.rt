//! The MC146818: the alarm goes off.

ghost use Rattle.board_prelude.specs.{IsMoment};

use board_base::Moment;
use board_spec::port::{CLOCK_DATA, CLOCK_INDEX};
use cmos_clock::Cmos;

/// Register B: hours from 0 to 23, binary-coded decimal, and the alarm may interrupt.
const ALARM_INTERRUPT: u8 = 0x22;

/// Writes a byte of the clock.
fn write(clock: &mut Cmos, index: u8, byte: u8) {
    clock.port_write(CLOCK_INDEX, index);
    clock.port_write(CLOCK_DATA, byte);
}

/// Reads a byte of the clock.
fn read(clock: &mut Cmos, index: u8) -> u8 {
    clock.port_write(CLOCK_INDEX, index);
    clock.port_read(CLOCK_DATA)
}

/// Sets the alarm at 07:30:00, and reads the flags, register C, as this moment comes.
pub fn flags_at(moment: Moment) -> u8
    requires moment { IsMoment moment }
{
    let mut clock = Cmos::new();
    write(&mut clock, 0x05, 0x07);
    write(&mut clock, 0x03, 0x30);
    write(&mut clock, 0x01, 0x00);
    write(&mut clock, 0x0B, ALARM_INTERRUPT);
    clock.moment(moment);
    read(&mut clock, 0x0C)
}
