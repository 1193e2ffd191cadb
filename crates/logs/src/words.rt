//! Fixed words, and numbers in decimal.

ghost use Rattle.std.specs.Prelude.{◌≡◌, ◌+◌, ◌++◌, length, OnOk, OnErr, decimal, IsAscii};
ghost use Rattle.board_spec.specs.LogText.{two_digits};
ghost use Rattle.logs.specs.Adds.{AddsWords, KeepsFront};
ghost use Rattle.logs.specs.Tails.{HasRoom, GrowsBy};

use crate::tail::Tail;
use board_base::NoMemory;
use itoa::Buffer;
use std::str;

/// Appends words as they are.
#[inline]
pub fn push_words(text: &mut String, words: &str) -> Result<(), NoMemory>
    ensures appended { OnOk result (AddsWords text.old text.new words.now) }
    ensures front { OnErr result (KeepsFront text.old text.new) }
{
    text.push_str(words)?;
    Ok(())
}

/// Appends characters of ASCII. They are proved to be text, and no test is made.
#[inline]
pub(crate) fn push_ascii(text: &mut String, characters: &[u8]) -> Result<(), NoMemory>
    requires ascii { IsAscii characters.now }
    ensures appended { OnOk result (AddsWords text.old text.new characters.now) }
    ensures front { OnErr result (KeepsFront text.old text.new) }
{
    push_words(text, unsafe { str::from_utf8_unchecked(characters) })
}

/// Appends a number in decimal.
#[inline]
#[tactic(auto, using(std::proofs::lemmas::Fmt::decimal_digit))]
pub fn push_decimal(text: &mut String, number: u64) -> Result<(), NoMemory>
    ensures appended { OnOk result (AddsWords text.old text.new (decimal number)) }
    ensures front { OnErr result (KeepsFront text.old text.new) }
{
    if number >= 10 {
        return push_digits(text, number);
    }
    text.push((b'0' + number as u8) as char)?;
    Ok(())
}

/// Appends a number in decimal, as `push_decimal` does without its short way for a single digit.
#[inline(never)]
fn push_digits(text: &mut String, number: u64) -> Result<(), NoMemory>
    ensures appended { OnOk result (AddsWords text.old text.new (decimal number)) }
    ensures front { OnErr result (KeepsFront text.old text.new) }
{
    push_words(text, Buffer::new().format(number))
}

/// Appends words and the number that follows them.
pub(crate) fn push_numbered(text: &mut String, words: &str, number: u8) -> Result<(), NoMemory>
    ensures appended { OnOk result (AddsWords text.old text.new (words.now ++ decimal number)) }
    ensures front { OnErr result (KeepsFront text.old text.new) }
{
    push_words(text, words)?;
    push_decimal(text, u64::from(number))
}

/// Puts a number below 256 in decimal.
#[inline(always)]
#[tactic(auto, using(std::proofs::lemmas::Fmt::decimal_digit))]
pub(crate) fn put_small(line: &mut Tail, number: u8)
    requires room { HasRoom line.old 20 }
    ensures words { line.new ≡ decimal number ++ line.old }
    ensures length { GrowsBy line.old line.new 3 }
{
    if number < 10 {
        line.put(&[b'0' + number]);
    } else {
        line.put_decimal(u64::from(number));
    }
}

/// Puts words and the number that follows them.
#[inline(always)]
pub(crate) fn put_numbered(line: &mut Tail, words: &[u8], number: u8)
    requires ascii { IsAscii words.now }
    requires room { HasRoom line.old (length words.now + 20) }
    ensures words { line.new ≡ words.now ++ decimal number ++ line.old }
    ensures length { GrowsBy line.old line.new (length words.now + 3) }
{
    put_small(line, number);
    line.put(words);
}

/// Puts the last two digits of a number.
pub(crate) fn put_two_digits(line: &mut Tail, number: u16)
    requires room { HasRoom line.old 2 }
    ensures words { line.new ≡ two_digits number ++ line.old }
    ensures length { GrowsBy line.old line.new 2 }
{
    line.put(&[b'0' + (number / 10 % 10) as u8, b'0' + (number % 10) as u8]);
}
