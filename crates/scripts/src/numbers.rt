//! Numbers as a script writes them.

ghost use Rattle.std.specs.Prelude.{ℕ, ◌≡◌, ◌<◌, ◌≤◌, ◌^◌, [], ◌∷◌, length, IfSome, option_map, Option, Some, None};
ghost use Rattle.std.specs.Prelude.{if◌then◌else◌};
ghost use Rattle.script_spec.specs.Numbers.{digit_value, parse_digit, parse_digits, parse_hex, parse_decimal};
ghost use Rattle.script_spec.specs.Numbers.{has_leading_zero, parse_two_digits, after_mark};
ghost use Rattle.scripts.specs.Sums.{IsSum, sum_after, summand_of};

/// The base of hexadecimal numbers.
const HEX: u64 = 16;

/// The base of decimals.
const TEN: u64 = 10;

/// The most digits of a decimal.
const MOST_DIGITS: usize = 9;

/// What each byte stands for as a digit, with letters in either case, or 255.
const DIGITS: [u8; 256] = [
    255, 255, 255, 255, 255, 255, 255, 255, 255, 255, 255, 255, 255, 255, 255, 255, 255, 255, 255,
    255, 255, 255, 255, 255, 255, 255, 255, 255, 255, 255, 255, 255, 255, 255, 255, 255, 255, 255,
    255, 255, 255, 255, 255, 255, 255, 255, 255, 255, 0, 1, 2, 3, 4, 5, 6, 7, 8, 9, 255, 255, 255,
    255, 255, 255, 255, 10, 11, 12, 13, 14, 15, 255, 255, 255, 255, 255, 255, 255, 255, 255, 255,
    255, 255, 255, 255, 255, 255, 255, 255, 255, 255, 255, 255, 255, 255, 255, 255, 10, 11, 12, 13,
    14, 15, 255, 255, 255, 255, 255, 255, 255, 255, 255, 255, 255, 255, 255, 255, 255, 255, 255,
    255, 255, 255, 255, 255, 255, 255, 255, 255, 255, 255, 255, 255, 255, 255, 255, 255, 255, 255,
    255, 255, 255, 255, 255, 255, 255, 255, 255, 255, 255, 255, 255, 255, 255, 255, 255, 255, 255,
    255, 255, 255, 255, 255, 255, 255, 255, 255, 255, 255, 255, 255, 255, 255, 255, 255, 255, 255,
    255, 255, 255, 255, 255, 255, 255, 255, 255, 255, 255, 255, 255, 255, 255, 255, 255, 255, 255,
    255, 255, 255, 255, 255, 255, 255, 255, 255, 255, 255, 255, 255, 255, 255, 255, 255, 255, 255,
    255, 255, 255, 255, 255, 255, 255, 255, 255, 255, 255, 255, 255, 255, 255, 255, 255, 255, 255,
    255, 255, 255, 255, 255, 255, 255, 255, 255, 255, 255, 255, 255, 255, 255, 255, 255, 255, 255,
    255, 255, 255,
];

/// What a byte that is no digit adds: more than eight digits make.
const MORE: u64 = 0x1_0000_0000;

/// What each byte adds to a hexadecimal number, with letters in either case.
static SUMMANDS: [u64; 256] = [
    MORE, MORE, MORE, MORE, MORE, MORE, MORE, MORE, MORE, MORE, MORE, MORE, MORE, MORE, MORE, MORE,
    MORE, MORE, MORE, MORE, MORE, MORE, MORE, MORE, MORE, MORE, MORE, MORE, MORE, MORE, MORE, MORE,
    MORE, MORE, MORE, MORE, MORE, MORE, MORE, MORE, MORE, MORE, MORE, MORE, MORE, MORE, MORE, MORE,
    0, 1, 2, 3, 4, 5, 6, 7, 8, 9, MORE, MORE, MORE, MORE, MORE, MORE, MORE, 10, 11, 12, 13, 14, 15,
    MORE, MORE, MORE, MORE, MORE, MORE, MORE, MORE, MORE, MORE, MORE, MORE, MORE, MORE, MORE, MORE,
    MORE, MORE, MORE, MORE, MORE, MORE, MORE, MORE, MORE, MORE, 10, 11, 12, 13, 14, 15, MORE, MORE,
    MORE, MORE, MORE, MORE, MORE, MORE, MORE, MORE, MORE, MORE, MORE, MORE, MORE, MORE, MORE, MORE,
    MORE, MORE, MORE, MORE, MORE, MORE, MORE, MORE, MORE, MORE, MORE, MORE, MORE, MORE, MORE, MORE,
    MORE, MORE, MORE, MORE, MORE, MORE, MORE, MORE, MORE, MORE, MORE, MORE, MORE, MORE, MORE, MORE,
    MORE, MORE, MORE, MORE, MORE, MORE, MORE, MORE, MORE, MORE, MORE, MORE, MORE, MORE, MORE, MORE,
    MORE, MORE, MORE, MORE, MORE, MORE, MORE, MORE, MORE, MORE, MORE, MORE, MORE, MORE, MORE, MORE,
    MORE, MORE, MORE, MORE, MORE, MORE, MORE, MORE, MORE, MORE, MORE, MORE, MORE, MORE, MORE, MORE,
    MORE, MORE, MORE, MORE, MORE, MORE, MORE, MORE, MORE, MORE, MORE, MORE, MORE, MORE, MORE, MORE,
    MORE, MORE, MORE, MORE, MORE, MORE, MORE, MORE, MORE, MORE, MORE, MORE, MORE, MORE, MORE, MORE,
    MORE, MORE, MORE, MORE, MORE, MORE, MORE, MORE, MORE, MORE, MORE, MORE, MORE, MORE, MORE, MORE,
    MORE, MORE, MORE, MORE, MORE, MORE, MORE,
];

/// What a digit stands for, with letters in either case.
#[tactic(auto, using(crate::proofs::DigitTable::some_digit, crate::proofs::DigitTable::no_digit))]
fn digit_value(byte: u8) -> Option<u64>
    ensures digit { result ≡ digit_value byte }
{
    let digit = DIGITS[byte as usize];
    if digit < 16 {
        Some(u64::from(digit))
    } else {
        None
    }
}

/// A digit of a base.
pub fn parse_digit(base: u64, byte: u8) -> Option<u64>
    ensures digit { result ≡ parse_digit base byte }
    ensures below { IfSome result (λ digit. digit < base) }
{
    let digit = digit_value(byte)?;
    if digit < base { Some(digit) } else { None }
}

/// The number that the digits of a field make, where every number of that many digits fits 64 bits.
fn parse_digits(base: u64, field: &[u8]) -> Option<u64>
    requires some { 0 < base }
    requires fits { base ^ length field.now ≤ 2 ^ 64 }
    ensures number { result ≡ parse_digits base field.now }
    ensures below { IfSome result (λ number. number < base ^ length field.now) }
{
    let mut number = 0;
    for byte in field {
        number = number * base + parse_digit(base, *byte)?;
    }
    Some(number)
}

/// What a byte adds to a hexadecimal number.
#[tactic(auto, using(crate::proofs::Sums::summand_at))]
#[inline(always)]
fn summand_of(byte: u8) -> u64
    ensures summand { result ≡ summand_of byte }
    ensures most { result ≤ 2 ^ 32 }
{
    SUMMANDS[byte as usize]
}

/// What four bytes add up to as hexadecimal digits.
#[tactic(auto, using(crate::proofs::Sums::four_added))]
#[inline(always)]
fn sum_of(a: u8, b: u8, c: u8, d: u8) -> u64
    ensures sum { result ≡ sum_after 0 (a ∷ b ∷ c ∷ d ∷ []) }
    ensures most { result < 2 ^ 45 }
{
    let high = summand_of(a) * HEX + summand_of(b);
    let low = summand_of(c) * HEX + summand_of(d);
    high * 0x100 + low
}

/// The number that a sum is if it is below a limit, which no sum is with a byte that is no digit.
#[tactic(auto, using(crate::proofs::Sums::within, crate::proofs::Sums::past))]
#[inline(always)]
fn if_below(limit: u64, sum: u64) -> Option<u64>
    ensures number { (number : Option ℕ) → IsSum limit number sum → result ≡ number }
    ensures below { IfSome result (λ number. number < limit) }
{
    if sum < limit { Some(sum) } else { None }
}

/// The number that two hexadecimal digits make.
#[inline(always)]
fn of_two(a: u8, b: u8) -> Option<u64>
    ensures number { result ≡ parse_digits 16 (a ∷ b ∷ []) }
    ensures below { IfSome result (λ number. number < 16 ^ 2) }
{
    if_below(0x100, summand_of(a) * HEX + summand_of(b))
}

/// The number that four hexadecimal digits make.
#[inline(always)]
fn of_four(a: u8, b: u8, c: u8, d: u8) -> Option<u64>
    ensures number { result ≡ parse_digits 16 (a ∷ b ∷ c ∷ d ∷ []) }
    ensures below { IfSome result (λ number. number < 16 ^ 4) }
{
    if_below(0x1_0000, sum_of(a, b, c, d))
}

/// The number that eight hexadecimal digits make.
#[inline(always)]
fn of_eight(a: u8, b: u8, c: u8, d: u8, e: u8, f: u8, g: u8, h: u8) -> Option<u64>
    ensures number { result ≡ parse_digits 16 (a ∷ b ∷ c ∷ d ∷ e ∷ f ∷ g ∷ h ∷ []) }
    ensures below { IfSome result (λ number. number < 16 ^ 8) }
{
    let high = sum_of(a, b, c, d);
    let low = sum_of(e, f, g, h);
    if_below(0x1_0000_0000, high * 0x1_0000 + low)
}

/// The number that hexadecimal digits make, at most sixteen. Two, four and eight are read at once.
#[tactic(auto, using(crate::proofs::NumberLemmas::power_within))]
#[inline(always)]
fn parse_straight_hex(field: &[u8]) -> Option<u64>
    requires few { length field.now ≤ 16 }
    ensures number { result ≡ parse_digits 16 field.now }
    ensures below { IfSome result (λ number. number < 16 ^ length field.now) }
{
    match field {
        [a, b] => of_two(*a, *b),
        [a, b, c, d] => of_four(*a, *b, *c, *d),
        [a, b, c, d, e, f, g, h] => of_eight(*a, *b, *c, *d, *e, *f, *g, *h),
        _ => parse_digits(HEX, field),
    }
}

/// The number of exactly `digits` hexadecimal digits, at most sixteen.
#[inline(always)]
pub fn parse_hex(digits: usize, field: &[u8]) -> Option<u64>
    requires { digits ≤ 16 }
    ensures number { result ≡ parse_hex digits field.now }
    ensures below { IfSome result (λ number. number < 16 ^ digits) }
{
    if field.len() == digits {
        parse_straight_hex(field)
    } else {
        None
    }
}

/// Whether the first of several digits is a zero.
fn has_leading_zero(field: &[u8]) -> bool
    ensures zero { result ≡ has_leading_zero field.now }
{
    field.len() > 1 && field[0] == b'0'
}

/// The number of 1 to 9 decimal digits, with no leading zero but in `0` itself.
#[tactic(auto, using(crate::proofs::NumberLemmas::power_within))]
pub fn parse_decimal(field: &[u8]) -> Option<u32>
    ensures number { result ≡ parse_decimal field.now }
{
    if field.is_empty() || field.len() > MOST_DIGITS || has_leading_zero(field) {
        return None;
    }
    let number = parse_digits(TEN, field)?;
    Some(number as u32)
}

/// The number of two decimal digits, and what stands after them.
#[tactic(auto, unfolding(script_spec::specs::Numbers::parse_two_digits))]
pub(crate) fn parse_two_digits(text: &[u8]) -> Option<(u8, &[u8])>
    ensures number { option_map (λ p. (p.0, p.1.now)) result ≡ parse_two_digits text.now }
    ensures below { IfSome result (λ p. p.0 < 100) }
{
    let [high, low, rest @ ..] = text else {
        return None;
    };
    let high = parse_digit(TEN, *high)?;
    let low = parse_digit(TEN, *low)?;
    Some(((high * TEN + low) as u8, rest))
}

/// What stands after a byte.
#[tactic(auto, unfolding(script_spec::specs::Numbers::after_mark))]
pub(crate) fn after_mark(mark: u8, text: &[u8]) -> Option<&[u8]>
    ensures rest { option_map (λ rest. rest.now) result ≡ after_mark mark text.now }
{
    match text {
        [] => None,
        [first, rest @ ..] => rest_if(*first == mark, rest),
    }
}

fn rest_if(holds: bool, rest: &[u8]) -> Option<&[u8]>
    ensures rest { option_map (λ rest. rest.now) result ≡ (if holds then Some rest.now else None) }
{
    if holds { Some(rest) } else { None }
}
