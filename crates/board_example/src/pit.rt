//! The 8254: a counter is programmed, runs, and is read back.

use pit_8254::{CONTROL_WORD, COUNTER_2, Pit};

/// Counter 2, its low byte first and then its high one, mode 0, binary.
const COUNT_DOWN: u8 = 0xB0;

/// A read-back command that latches the status and the count of counter 2.
const READ_BACK: u8 = 0xC8;

/// What a read-back command gives of a counter.
#[derive(Clone, Copy, PartialEq, Eq, Debug)]
pub struct ReadBack {
    pub status: u8,
    pub count: u16,
}

/// Lets counter 2 count down from a number, in mode 0, for some pulses of its clock, and reads it back.
pub fn counted_down(from: u16, pulses: u32) -> ReadBack {
    let mut pit = Pit::new();
    pit.gate2(true);
    pit.port_write(CONTROL_WORD, COUNT_DOWN);
    let [low, high] = from.to_le_bytes();
    pit.port_write(COUNTER_2, low);
    pit.port_write(COUNTER_2, high);
    pit.pulses(pulses);
    pit.port_write(CONTROL_WORD, READ_BACK);
    let status = pit.port_read(COUNTER_2);
    let low = pit.port_read(COUNTER_2);
    let high = pit.port_read(COUNTER_2);
    ReadBack {
        status,
        count: u16::from_le_bytes([low, high]),
    }
}
