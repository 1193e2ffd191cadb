//! What stands at which address (MC146818 datasheet, "Address Map").
//!
//! | address | register                                 | a write keeps | effect                                  |
//! |---------|------------------------------------------|---------------|-----------------------------------------|
//! | 00-05   | seconds, minutes, hours, and their alarm | FF each       | in the form that register B says        |
//! | 06-09   | day of the week, day, month, year        | FF each       |                                         |
//! | 0A      | A                                        | 7F            | none; bit 7, UIP, reads 0               |
//! | 0B      | B                                        | FF            | SET, AIE, UIE, binary, 24 hours         |
//! | 0C      | C: the flags                             | 00            | a read clears them                      |
//! | 0D      | D                                        | 00            | reads 80h: the memory is valid          |
//! | 0E-7F   | memory                                   | FF each       |                                         |

pub const SECOND: usize = 0x00;

pub const SECOND_ALARM: usize = 0x01;

pub const MINUTE: usize = 0x02;

pub const MINUTE_ALARM: usize = 0x03;

pub const HOUR: usize = 0x04;

pub const HOUR_ALARM: usize = 0x05;

pub const WEEKDAY: usize = 0x06;

pub const DAY: usize = 0x07;

pub const MONTH: usize = 0x08;

pub const YEAR: usize = 0x09;

pub const REGISTER_A: usize = 0x0A;

pub const REGISTER_B: usize = 0x0B;

pub const REGISTER_C: usize = 0x0C;

pub const REGISTER_D: usize = 0x0D;
