//! The end of a line. A line is put together from its end to its front, and appended to a text at once.

ghost use Rattle.std.specs.Prelude.{◌≡◌, ◌+◌, ◌<◌, ◌∷◌, ◌++◌, [], length, OnOk, OnErr, decimal, IsAscii};
ghost use Rattle.logs.specs.Adds.{AddsWords, KeepsFront};
ghost use Rattle.logs.specs.Tails.{HasRoom, GrowsBy};

use crate::words::push_ascii;
use board_base::NoMemory;
use itoa::write_digits;
use std::marker::Model;

/// No line that has a value of at most eight bytes is longer, with its line feed.
const LONGEST_LINE: usize = 240;

/// The end of a line, in characters of ASCII. Contracts see it as its bytes.
#[derive(Drop)]
pub(crate) struct Tail {
    bytes: [u8; LONGEST_LINE],
    start: usize,
}

impl Model for Tail {
    ghost use Rattle.std.specs.Prelude.{ℕ, ◌≤◌, List, drop, IsAscii};

    ghost Value = { List ℕ };

    ghost view = { λ tail. drop tail.start tail.bytes };

    ghost invariant = { λ tail. (tail.start ≤ 240) × IsAscii (drop tail.start tail.bytes) };
}

impl Tail {
    /// The end of a line before anything stands there.
    #[inline(always)]
    pub(crate) fn new() -> Tail
        ensures empty { result ≡ [] }
    {
        Tail {
            bytes: [0; LONGEST_LINE],
            start: LONGEST_LINE,
        }
    }

    /// Puts one character to the front.
    #[inline(always)]
    fn put_one(&mut self, character: u8)
        requires ascii { IsAscii (character ∷ []) }
        requires room { HasRoom self.old 1 }
        ensures words { self.new ≡ character ∷ self.old }
    {
        let start = self.start - 1;
        self.bytes[start..self.start].copy_from_slice(&[character]);
        self.start = start;
    }

    /// Puts characters to the front, one at a time: those that the compiler knows it joins.
    #[inline(always)]
    pub(crate) fn put(&mut self, characters: &[u8])
        requires ascii { IsAscii characters.now }
        requires room { HasRoom self.old (length characters.now) }
        ensures words { self.new ≡ characters.now ++ self.old }
        ensures length { length self.new ≡ length characters.now + length self.old }
    {
        let mut left = characters.len();
        while left > 0 {
            left -= 1;
            self.put_one(characters[left]);
        }
    }

    /// Puts a number in decimal to the front.
    #[inline(always)]
    pub(crate) fn put_decimal(&mut self, number: u64)
        requires room { HasRoom self.old 20 }
        ensures words { self.new ≡ decimal number ++ self.old }
        ensures length { GrowsBy self.old self.new 20 }
    {
        let start = write_digits(number, &mut self.bytes, self.start);
        self.start = start;
    }

    /// Appends the bytes to others. Where there is no memory those are as before.
    #[inline(always)]
    pub(crate) fn append_to(&self, bytes: &mut Vec<u8>) -> Result<(), NoMemory>
        ensures appended { OnOk result (bytes.new.items ≡ bytes.old.items ++ self.now) }
        ensures same { OnErr result (bytes.new.items ≡ bytes.old.items) }
    {
        bytes.extend_from_slice(&self.bytes[self.start..])?;
        Ok(())
    }

    /// Appends the bytes to a text.
    #[inline(always)]
    pub(crate) fn push_onto(&self, text: &mut String) -> Result<(), NoMemory>
        ensures appended { OnOk result (AddsWords text.old text.new self.now) }
        ensures front { OnErr result (KeepsFront text.old text.new) }
    {
        push_ascii(text, &self.bytes[self.start..])
    }
}
