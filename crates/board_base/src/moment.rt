//! A date and a time of day, as the clock keeps it.
ghost use Rattle.std.specs.Prelude.{◌↔◌, IfSome, IsTrue};
ghost use Rattle.std.specs.Option.{SomeIff};
ghost use Rattle.board_base.specs.Calendar.{IsDate, IsMoment, IsTime, moment_of, weekday_of, MomentsDecided};
ghost use Rattle.board_base.specs.Calendar.{WeekdaysFollow};

use jiff::civil::Date;

/// The years that a moment may have.
const FIRST_YEAR: u16 = 1980;

const LAST_YEAR: u16 = 2099;

/// A second of the Gregorian calendar. `year` is 1980 to 2099, `month` and `day` count from 1, and `weekday`
/// counts from 1 for Sunday.
#[derive(Clone, Copy, PartialEq, Eq, Debug)]
pub struct Moment {
    pub year: u16,
    pub month: u8,
    pub day: u8,
    pub weekday: u8,
    pub hour: u8,
    pub minute: u8,
    pub second: u8,
}

impl Moment {
    /// The moment with these parts and its weekday. `None` exactly where the year is not 1980 to
    /// 2099, the calendar has no such date, or the hour, the minute or the second is past 23, 59 or
    /// 59.
    pub fn new(year: u16, month: u8, day: u8, hour: u8, minute: u8, second: u8) -> Option<Moment>
        ensures exact { SomeIff result (IsDate year month day × IsTime hour minute second)
            (moment_of year month day hour minute second) }
        ensures moment { IfSome result IsMoment }
    {
        if hour > 23 || minute > 59 || second > 59 {
            return None;
        }
        let weekday = weekday(year, month, day)?;
        Some(Moment {
            year,
            month,
            day,
            weekday,
            hour,
            minute,
            second,
        })
    }

    /// Whether the calendar has this moment, with its weekday, and the day has its time.
    pub fn is_real(&self) -> bool
        ensures real { IsTrue result ↔ IsMoment self.now }
    {
        match Moment::new(
            self.year,
            self.month,
            self.day,
            self.hour,
            self.minute,
            self.second,
        ) {
            Some(moment) => moment.weekday == self.weekday,
            None => false,
        }
    }

    /// A law of the calendar: each day has the weekday after that of the day before it.
    #[tactic(auto, using(crate::proofs::CalendarLemmas::weekdays_follow))]
    pub fn weekdays_follow()
        ensures law { WeekdaysFollow }
    {}

    /// A law of the calendar: `is_moment` says whether there is such a moment.
    #[tactic(auto, using(crate::proofs::CalendarLemmas::moments_decided))]
    pub fn moments_decided()
        ensures law { MomentsDecided }
    {}
}

/// The weekday of a date, from 1 for Sunday, where the calendar has the date.
fn weekday(year: u16, month: u8, day: u8) -> Option<u8>
    ensures exact { SomeIff result (IsDate year month day) (weekday_of year month day) }
{
    if year < FIRST_YEAR || year > LAST_YEAR || month > 12 || day > 31 {
        return None;
    }
    let Ok(date) = Date::new(year as i16, month as i8, day as i8) else {
        return None;
    };
    Some(date.weekday().to_sunday_one_offset() as u8)
}
