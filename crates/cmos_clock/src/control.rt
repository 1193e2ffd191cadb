//! Register B: what the clock does and how it writes its time.
ghost use Rattle.std.specs.Prelude.{◌≡◌, ◌<◌};
ghost use Rattle.device_spec.specs.Clock.{alarm_interrupts, bcd, control_reset, control_written, hour_byte, holds_time};
ghost use Rattle.device_spec.specs.Clock.{is_24_hour, is_binary, number_byte, update_interrupts};

use board_base::bits::is_set;

// The numbers of its bits.
const SET: u32 = 7;

const UPDATE_INTERRUPT: u32 = 4;

const ALARM_INTERRUPT: u32 = 5;

const BINARY: u32 = 2;

const HOURS_24: u32 = 1;

/// What a hard reset keeps: all but the three interrupts and the square wave, bits 6 to 3.
const KEPT_OVER_RESET: u8 = 0x87;

/// The bit that says "after noon" beside an hour of a clock face.
const AFTERNOON: u8 = 0x80;

/// The byte of register B (MC146818 datasheet, "Register B").
#[derive(Clone, Copy)]
pub struct Control {
    pub byte: u8,
}

impl Control {
    /// The byte as a write leaves it: with SET no update can interrupt.
    pub fn written(byte: u8) -> Control
        ensures byte { result.byte ≡ control_written byte }
    {
        let as_given = Control { byte };
        if as_given.holds_time() && as_given.update_interrupts() {
            Control {
                byte: byte - (1 << UPDATE_INTERRUPT),
            }
        } else {
            as_given
        }
    }

    /// The byte after a hard reset, with all interrupts and the square wave off.
    pub fn after_reset(self) -> Control
        ensures byte { result.byte ≡ control_reset self.byte }
    {
        Control {
            byte: self.byte & KEPT_OVER_RESET,
        }
    }

    /// Whether the time stands still.
    pub fn holds_time(self) -> bool
        ensures value { result ≡ holds_time self.byte }
    {
        is_set(self.byte.into(), SET)
    }

    /// Whether the alarm's flag raises the interrupt line.
    pub fn alarm_interrupts(self) -> bool
        ensures value { result ≡ alarm_interrupts self.byte }
    {
        is_set(self.byte.into(), ALARM_INTERRUPT)
    }

    /// Whether the update's flag raises the interrupt line.
    pub fn update_interrupts(self) -> bool
        ensures value { result ≡ update_interrupts self.byte }
    {
        is_set(self.byte.into(), UPDATE_INTERRUPT)
    }

    /// Whether numbers are binary, and not binary-coded decimal.
    pub fn is_binary(self) -> bool
        ensures value { result ≡ is_binary self.byte }
    {
        is_set(self.byte.into(), BINARY)
    }

    /// Whether hours are 0 to 23, and not 1 to 12 with a bit for the half of the day.
    pub fn is_24_hour(self) -> bool
        ensures value { result ≡ is_24_hour self.byte }
    {
        is_set(self.byte.into(), HOURS_24)
    }

    /// A number of at most two digits as the clock writes it.
    pub fn number(self, number: u8) -> u8
        requires { number < 100 }
        ensures value { result ≡ number_byte self.byte number }
    {
        if self.is_binary() {
            number
        } else {
            bcd(number)
        }
    }

    /// An hour from 0 to 23 as the clock writes it.
    pub fn hour(self, hour: u8) -> u8
        requires { hour < 24 }
        ensures value { result ≡ hour_byte self.byte hour }
    {
        if self.is_24_hour() {
            return self.number(hour);
        }
        let face = match hour % 12 {
            0 => 12,
            hour => hour,
        };
        if hour < 12 {
            self.number(face)
        } else {
            self.number(face) + AFTERNOON
        }
    }
}

/// Two decimal digits, the tens in the high four bits.
fn bcd(number: u8) -> u8
    requires { number < 100 }
    ensures value { result ≡ bcd number }
{
    number / 10 * 16 + number % 10
}
