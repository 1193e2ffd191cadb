//! The second after the one that the clock shows.

ghost use Rattle.std.specs.Prelude.{◌≡◌, ◌≤◌, IfSome, Some, None};
ghost use Rattle.board_base.specs.Calendar.{IsDate, IsMoment, days_in_month, is_leap};
ghost use Rattle.cmos_clock.specs.Seconds.{HasNoNext, IsNextSecond, SecondsFollow, midnight_after, second_after};

use crate::cmos::Cmos;
use board_base::Moment;

/// The last second of a minute and minute of an hour, the last hour of a day, and the last month of a year.
const LAST_SECOND: u8 = 59;

const LAST_MINUTE: u8 = 59;

const LAST_HOUR: u8 = 23;

const LAST_MONTH: u8 = 12;

impl Cmos {
    /// The second after the one that the registers say, in whichever form. None exactly where SET holds the time, or
    /// they say no moment.
    pub fn next_second(&self) -> Option<Moment>
        ensures next { IfSome result (IsNextSecond self.now) }
        ensures none { result ≡ None → HasNoNext self.now }
    {
        if self.control().holds_time() {
            return None;
        }
        match self.shown() {
            Some(shown) => second_after(shown),
            None => None,
        }
    }
}

/// A law of the next second: it lies one second later.
#[tactic(auto, using(crate::proofs::Following::seconds_follow))]
pub fn law_seconds_follow()
    ensures law { SecondsFollow }
{}

/// One second on.
fn second_after(m: Moment) -> Option<Moment>
    requires moment { IsMoment m }
    requires last_year { m.year ≤ 2079 }
    ensures after { result ≡ Some (second_after m) }
    ensures moment { IfSome result IsMoment }
{
    if m.second < LAST_SECOND {
        return Moment::new(m.year, m.month, m.day, m.hour, m.minute, m.second + 1);
    }
    if m.minute < LAST_MINUTE {
        return Moment::new(m.year, m.month, m.day, m.hour, m.minute + 1, 0);
    }
    if m.hour < LAST_HOUR {
        return Moment::new(m.year, m.month, m.day, m.hour + 1, 0, 0);
    }
    midnight_after(m.year, m.month, m.day)
}

/// Midnight of the day after.
fn midnight_after(year: u16, month: u8, day: u8) -> Option<Moment>
    requires date { IsDate year month day }
    requires last_year { year ≤ 2079 }
    ensures after { result ≡ Some (midnight_after year month day) }
    ensures moment { IfSome result IsMoment }
{
    if day < days_in_month(year, month) {
        return Moment::new(year, month, day + 1, 0, 0, 0);
    }
    if month < LAST_MONTH {
        return Moment::new(year, month + 1, 1, 0, 0, 0);
    }
    Moment::new(year + 1, 1, 1, 0, 0, 0)
}

/// How many days a month has.
fn days_in_month(year: u16, month: u8) -> u8
    ensures days { result ≡ days_in_month year month }
{
    match month {
        2 => { if is_leap(year) { 29 } else { 28 } }
        4 | 6 | 9 | 11 => 30,
        _ => 31,
    }
}

/// Every fourth year, but of the centuries only every fourth.
fn is_leap(year: u16) -> bool
    ensures leap { result ≡ is_leap year }
{
    year % 4 == 0 && (year % 100 != 0 || year % 400 == 0)
}
