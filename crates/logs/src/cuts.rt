//! Texts that are cut at a mark, and small numbers.

ghost use Rattle.std.specs.Prelude.{◌≡◌, ◌<◌, length, IfSome, option_map};
ghost use Rattle.script_spec.specs.Cuts.{cut, parse_one_digit, if_byte};

use scripts::parse_digit;

/// The base of decimals.
const TEN: u64 = 10;

/// What stands before the first byte that is `mark`, and after it. None where there is none.
pub fn cut(mark: u8, text: &[u8]) -> Option<(&[u8], &[u8])>
    ensures parts { option_map (λ p. (p.0.now, p.1.now)) result ≡ cut mark text.now }
    ensures shorter { IfSome result (λ p. length p.1.now < length text.now) }
{
    match text.iter().position(|byte| *byte == mark) {
        Some(end) => Some((&text[..end], &text[end + 1..])),
        None => None,
    }
}

/// The number of one decimal digit, 0 to 9.
#[tactic(auto, unfolding(script_spec::specs::Cuts::parse_one_digit))]
pub(crate) fn parse_one_digit(field: &[u8]) -> Option<u8>
    ensures digit { result ≡ parse_one_digit field.now }
    ensures below { IfSome result (λ digit. digit < 10) }
{
    let [byte] = field else {
        return None;
    };
    let digit = parse_digit(TEN, *byte)?;
    Some(digit as u8)
}

/// The same number where it is at most 255.
pub(crate) fn if_byte(number: u32) -> Option<u8>
    ensures byte { result ≡ if_byte number }
{
    if number < 0x100 {
        Some(number as u8)
    } else {
        None
    }
}
