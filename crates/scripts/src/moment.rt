//! A moment, as a statement spells it.

ghost use Rattle.std.specs.Prelude.{◌≡◌, ◌<◌, option_map};
ghost use Rattle.scripts.specs.Items.{moment_said};
ghost use Rattle.script_spec.specs.Moments.{parse_moment_part, parse_year, parse_date, parse_time, parse_moment};

use crate::numbers::{after_mark, parse_two_digits};

/// The numbers of a moment, which the calendar may not have.
#[derive(Clone, Copy, PartialEq, Eq)]
pub struct MomentFields {
    pub year: u16,
    pub month: u8,
    pub day: u8,
    pub hour: u8,
    pub minute: u8,
    pub second: u8,
}

/// Two digits after a mark, and what follows.
#[tactic(auto, unfolding(script_spec::specs::Moments::parse_moment_part))]
fn parse_moment_part(mark: u8, text: &[u8]) -> Option<(u8, &[u8])>
    ensures part { option_map (λ p. (p.0, p.1.now)) result ≡ parse_moment_part mark text.now }
{
    let digits = after_mark(mark, text)?;
    parse_two_digits(digits)
}

/// The four digits of a year, and what follows.
#[tactic(auto, unfolding(script_spec::specs::Moments::parse_year))]
fn parse_year(text: &[u8]) -> Option<(u16, &[u8])>
    ensures year { option_map (λ p. (p.0, p.1.now)) result ≡ parse_year text.now }
{
    let (century, rest) = parse_two_digits(text)?;
    let (year, rest) = parse_two_digits(rest)?;
    Some((u16::from(century) * 100 + u16::from(year), rest))
}

/// `YYYY-MM-DD`, and what follows.
#[tactic(auto, unfolding(script_spec::specs::Moments::parse_date))]
fn parse_date(text: &[u8]) -> Option<(u16, u8, u8, &[u8])>
    ensures date { option_map (λ p. record { first = p.0; second = p.1; third = p.2; rest = p.3.now }) result
        ≡ parse_date text.now }
{
    let (year, rest) = parse_year(text)?;
    let (month, rest) = parse_moment_part(b'-', rest)?;
    let (day, rest) = parse_moment_part(b'-', rest)?;
    Some((year, month, day, rest))
}

/// `THH:MM:SS`, and what follows.
#[tactic(auto, unfolding(script_spec::specs::Moments::parse_time))]
fn parse_time(text: &[u8]) -> Option<(u8, u8, u8, &[u8])>
    ensures time { option_map (λ p. record { first = p.0; second = p.1; third = p.2; rest = p.3.now }) result
        ≡ parse_time text.now }
{
    let (hour, rest) = parse_moment_part(b'T', text)?;
    let (minute, rest) = parse_moment_part(b':', rest)?;
    let (second, rest) = parse_moment_part(b':', rest)?;
    Some((hour, minute, second, rest))
}

/// The moment that a field spells.
#[tactic(auto, unfolding(script_spec::specs::Moments::parse_moment, script_spec::specs::Moments::whole_moment))]
pub(crate) fn parse_moment(text: &[u8]) -> Option<MomentFields>
    ensures moment { option_map moment_said result ≡ parse_moment text.now }
{
    let (year, month, day, rest) = parse_date(text)?;
    let (hour, minute, second, rest) = parse_time(rest)?;
    match rest {
        [] => Some(MomentFields {
            year,
            month,
            day,
            hour,
            minute,
            second,
        }),
        _ => None,
    }
}
