//! The processor of a line.

ghost use Rattle.std.specs.Prelude.{◌≡◌, ◌≢◌, ◌<◌, ◌++◌, ◌∷◌, [], ◌==◌, ℕ, List, Some, All, IfSome, MatchOption};
ghost use Rattle.std.specs.Prelude.{decimal, length};
ghost use Rattle.board_prelude.specs.{position, Entry, space, line_text};

/// The place of the first byte that is `mark`.
fn place_of_mark(mark: u8, bytes: &[u8]) -> Option<usize>
    ensures place { result ≡ position (λ byte. byte == mark) bytes.now }
{
    bytes.iter().position(|byte| *byte == mark)
}

/// What stands before the first byte that is `mark`, and what stands after it.
fn cut(mark: u8, bytes: &[u8]) -> Option<(&[u8], &[u8])>
    ensures parts { (before after : List ℕ) → All (λ byte. byte ≢ mark) before → bytes.now ≡ before ++ mark ∷ after
        → MatchOption result ⊥ (λ parts. (parts.0.now ≡ before) × (parts.1.now ≡ after)) }
{
    let at = place_of_mark(mark, bytes)?;
    Some((&bytes[..at], &bytes[at + 1..]))
}

/// The number that decimal digits write, where it is below 256.
fn number(digits: &[u8]) -> Option<u8>
    ensures number { (number : ℕ) → number < 256 → digits.now ≡ decimal number → result ≡ Some number }
{
    str::from_utf8(digits).ok()?.parse().ok()
}

/// The number that a digit writes.
#[tactic(auto, using(std::proofs::lemmas::Fmt::decimal_digit))]
fn digit(byte: u8) -> Option<u8>
    ensures digit { IfSome result (λ digit. decimal digit ≡ byte ∷ []) }
    ensures small { IfSome result (λ digit. digit < 10) }
{
    if byte < b'0' || byte > b'9' {
        return None;
    }
    Some(byte - b'0')
}

/// The number that one digit before a full stop writes.
#[tactic(auto, using(crate::proofs::TextCuts::single_if))]
fn single(bytes: &[u8]) -> Option<u8>
    ensures single { IfSome result (λ digit. (number : ℕ) (after : List ℕ) → number < 256
        → bytes.now ≡ decimal number ++ 0x2E ∷ after → number ≡ digit) }
{
    if bytes.len() < 2 {
        return None;
    }
    if bytes[1] != b'.' {
        return None;
    }
    digit(bytes[0])
}

/// The number before the first full stop.
#[tactic(auto, using(crate::proofs::TextCuts::decimal_apart))]
fn before_stop(bytes: &[u8]) -> Option<u8>
    ensures number { (number : ℕ) (after : List ℕ) → number < 256 → bytes.now ≡ decimal number ++ 0x2E ∷ after
        → result ≡ Some number }
{
    let (digits, _) = cut(b'.', bytes)?;
    number(digits)
}

/// How many digits a number below 100,000 has.
#[tactic(auto, using(crate::proofs::TextCuts::digit_counts))]
fn few_digits(n: u32) -> usize
    requires below { n < 100_000 }
    ensures digits { result ≡ length (decimal n) }
{
    if n < 10 {
        return 1;
    }
    if n < 100 {
        return 2;
    }
    if n < 1_000 {
        return 3;
    }
    if n < 10_000 {
        return 4;
    }
    5
}

/// How many digits a number has.
#[tactic(auto, using(crate::proofs::TextCuts::more_digits))]
fn digit_count(n: u32) -> usize
    ensures digits { result ≡ length (decimal n) }
{
    if n < 100_000 {
        return few_digits(n);
    }
    few_digits(n / 100_000) + 5
}

/// What stands after the number `n` and a space.
#[tactic(auto, using(crate::proofs::TextCuts::after_marks))]
fn past_number(n: u32, bytes: &[u8]) -> Option<&[u8]>
    ensures past { (after : List ℕ) → bytes.now ≡ decimal n ++ space ∷ after
        → MatchOption result ⊥ (λ later. later.now ≡ after) }
{
    let digits = digit_count(n);
    if bytes.len() <= digits {
        return None;
    }
    Some(&bytes[digits + 1..])
}

/// The processor that line `n` of a log names: the number between its first space and the next full stop.
pub(crate) fn processor(n: u32, rest: &[u8]) -> Option<u8>
    ensures named { (entry : Entry) (after : List ℕ) → entry.actor < 256 → rest.now ≡ line_text n entry ++ after
        → result ≡ Some entry.actor }
{
    let named = past_number(n, rest)?;
    match single(named) {
        Some(digit) => Some(digit),
        None => before_stop(named),
    }
}
