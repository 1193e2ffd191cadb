//! Which moment the registers of the time and the calendar say.

ghost use Rattle.std.specs.Prelude.{◌≡◌, ◌<◌, ◌+◌, ◌*◌, ◌%◌, ◌≤◌, ℕ, IfSome, None};
ghost use Rattle.device_spec.specs.Clock.{bcd, number_byte, hour_byte};
ghost use Rattle.board_base.specs.declared.moment.Moment.{Moment};
ghost use Rattle.cmos_clock.specs.Seconds.{AreDateBytes, AreTimeBytes, IsShown};

use crate::cmos::Cmos;
use crate::control::Control;
use crate::register::{DAY, HOUR, MINUTE, MONTH, SECOND, YEAR};
use board_base::Moment;

/// The bit that says "after noon" beside an hour of a clock face.
const AFTERNOON: u8 = 0x80;

/// The two digits of the first year that the clock shows: they are those of 1980 to 2079.
const FIRST_DIGITS: u8 = 80;

impl Cmos {
    /// The moment that the registers say. None exactly where they say none.
    pub(crate) fn shown(&self) -> Option<Moment>
        ensures shown { IfSome result (IsShown self.now) }
        ensures none { result ≡ None → (shown : Moment) → ¬ IsShown self.now shown }
    {
        let control = self.control();
        let bytes = self.bytes();
        let (year, month, day) = control.date_said(bytes[YEAR], bytes[MONTH], bytes[DAY])?;
        let (hour, minute, second) = control.time_said(bytes[HOUR], bytes[MINUTE], bytes[SECOND])?;
        Moment::new(year, month, day, hour, minute, second)
    }
}

/// The year from 1980 to 2079 with these two digits.
fn year_of(digits: u8) -> u16
    requires digits { digits < 100 }
    ensures digits { result % 100 ≡ digits }
    ensures first { 1980 ≤ result }
    ensures last { result ≤ 2079 }
    ensures only { (year : ℕ) → 1980 ≤ year → year ≤ 2079 → year % 100 ≡ digits → result ≡ year }
{
    if digits < FIRST_DIGITS {
        return 2000 + u16::from(digits);
    }
    1900 + u16::from(digits)
}

impl Control {
    /// The date from 1980 to 2079 that the clock writes so.
    fn date_said(self, year: u8, month: u8, day: u8) -> Option<(u16, u8, u8)>
        ensures said { IfSome result (λ date. AreDateBytes self.byte year month day date.0 date.1 date.2) }
        ensures only { (y m d : ℕ) → AreDateBytes self.byte year month day y m d → result ≡ Some (y, m, d) }
    {
        let year = self.number_said(year)?;
        let month = self.number_said(month)?;
        let day = self.number_said(day)?;
        Some((year_of(year), month, day))
    }

    /// The time of day that the clock writes so, where seconds and minutes may have any two digits.
    fn time_said(self, hour: u8, minute: u8, second: u8) -> Option<(u8, u8, u8)>
        ensures said { IfSome result (λ time. AreTimeBytes self.byte hour minute second time.0 time.1 time.2) }
        ensures only { (h m s : ℕ) → AreTimeBytes self.byte hour minute second h m s → result ≡ Some (h, m, s) }
    {
        let hour = self.hour_said(hour)?;
        let minute = self.number_said(minute)?;
        let second = self.number_said(second)?;
        Some((hour, minute, second))
    }

    /// The number of at most two digits that the clock writes so.
    fn number_said(self, byte: u8) -> Option<u8>
        ensures said { IfSome result (λ number. (number < 100) × (byte ≡ number_byte self.byte number)) }
        ensures only { (number : ℕ) → number < 100 → byte ≡ number_byte self.byte number → result ≡ Some number }
    {
        if self.is_binary() {
            return if byte < 100 { Some(byte) } else { None };
        }
        number_of_bcd(byte)
    }

    /// The hour from 0 to 23 that the clock writes so.
    fn hour_said(self, byte: u8) -> Option<u8>
        ensures said { IfSome result (λ hour. (hour < 24) × (byte ≡ hour_byte self.byte hour)) }
        ensures only { (hour : ℕ) → hour < 24 → byte ≡ hour_byte self.byte hour → result ≡ Some hour }
    {
        if self.is_24_hour() {
            return match self.number_said(byte) {
                Some(hour) => if hour < 24 { Some(hour) } else { None },
                None => None,
            };
        }
        let face = self.number_said(byte % AFTERNOON)?;
        if face < 1 || 12 < face {
            return None;
        }
        Some(if byte < AFTERNOON {
            face % 12
        } else {
            face % 12 + 12
        })
    }
}

/// The number whose two decimal digits a byte has, the tens in the high four bits.
fn number_of_bcd(byte: u8) -> Option<u8>
    ensures said { IfSome result (λ number. (number < 100) × (byte ≡ bcd number)) }
    ensures only { (number : ℕ) → number < 100 → byte ≡ bcd number → result ≡ Some number }
{
    let tens = byte / 16;
    let ones = byte % 16;
    if tens > 9 || ones > 9 {
        return None;
    }
    Some(tens * 10 + ones)
}
