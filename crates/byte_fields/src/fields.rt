//! Fields at the front of bytes.

ghost use Rattle.std.specs.Prelude.{◌≡◌, ◌≤◌, ◌<◌, ℕ, Bool, true, false, Option, length, take, drop, MatchResult, IfOk};
ghost use Rattle.std.specs.Int.{w8, w16, w32, w64};
ghost use Rattle.byte_fields.specs.Fields.{AreBytes, Took, number, within, plain, exactly, other_than, ended, flag_of};
ghost use Rattle.byte_fields.specs.Fields.{flag_field, flag_byte, flag_where, IsWithin, optional, bound_where};
ghost use Rattle.byte_fields.specs.Fields.{some_where};

use crate::fault::Bad;
use std::marker::Model;

/// The bytes that are still to be read. A call goes past one field. Where that is bad, it stays at the front.
#[derive(Drop)]
pub struct Fields<'a> {
    rest: &'a [u8],
}

impl<'a> Model for Fields<'a> {
    ghost use Rattle.std.specs.Prelude.{ℕ, List};

    ghost Value = { List ℕ };

    ghost view = { λ fields. fields.rest.now };
}

/// The level that a byte stands for.
fn flag_of(byte: u8) -> Option<bool>
    ensures said { result ≡ flag_of byte }
{
    match byte {
        0 => Some(false),
        1 => Some(true),
        _ => None,
    }
}

/// Does nothing: its clause says what the type of a slice says.
fn law_slice_has_bytes(bytes: &[u8])
    ensures bytes { AreBytes bytes.now }
{}

impl<'a> Fields<'a> {
    /// All fields of these bytes.
    pub fn of(bytes: &'a [u8]) -> Fields<'a>
        ensures all { result ≡ bytes.now }
    {
        Fields { rest: bytes }
    }

    /// How many bytes are left.
    pub fn len(&self) -> usize
        ensures length { result ≡ length self.now }
    {
        self.rest.len()
    }

    /// Does nothing: its clause says that what is left are bytes.
    pub fn are_bytes(&self)
        ensures bytes { AreBytes self.now }
    {
        law_slice_has_bytes(self.rest);
    }

    /// The bytes of a field of this size.
    pub fn front<const N: usize>(&self) -> Result<[u8; N], Bad>
        ensures front { MatchResult result (λ bytes. (N ≤ length self.now) × (bytes ≡ take N self.now))
            (λ _. length self.now < N) }
    {
        match self.rest.first_chunk::<N>() {
            Some(bytes) => Ok(*bytes),
            None => Err(Bad),
        }
    }

    /// Goes past a field of this size where it is good.
    pub fn past(&mut self, size: usize, is_good: bool) -> Result<(), Bad>
        requires whole { size ≤ length self.old }
        ensures past { MatchResult result (λ _. (is_good ≡ true) × (self.new ≡ drop size self.old))
            (λ _. (is_good ≡ false) × (self.new ≡ self.old)) }
    {
        if !is_good {
            return Err(Bad);
        }
        self.rest = &self.rest[size..];
        Ok(())
    }

    /// Reads a byte, and gives the value that it stands for.
    pub fn byte_of<T, F: FnOnce(u8) -> Option<T>>(&mut self, says: F) -> Result<T, Bad>
        requires call { F.IsAlwaysCallable says }
        ensures took { (model : ℕ → Option T) → ((n : ℕ) (r : Option T) → n < 256 → F.post says n r → r ≡ model n)
            → Took (λ value. value) result self.new (number w8 model self.old) }
    {
        match self.rest {
            [byte, after @ ..] => {
                let value = says(*byte).ok_or(Bad)?;
                self.rest = after;
                Ok(value)
            }
            [] => Err(Bad),
        }
    }

    /// Reads a flag or a level: 0 or 1.
    pub fn flag(&mut self) -> Result<bool, Bad>
        ensures took { Took (λ flag. flag) result self.new (flag_field self.old) }
    {
        self.byte_of(flag_of)
    }

    /// Reads a byte from `low` to `high`.
    pub fn byte(&mut self, low: u8, high: u8) -> Result<u8, Bad>
        ensures took { Took (λ n. n) result self.new (within w8 low high self.old) }
        ensures range { IfOk result (λ n. (low ≤ n) × (n ≤ high)) }
    {
        let value = u8::from_le_bytes(self.front()?);
        self.past(1, (low..=high).contains(&value))?;
        Ok(value)
    }

    /// Reads a flag, which is 1 only where that is allowed.
    #[tactic(auto, unfolding(crate::specs::Fields::flag_where))]
    pub fn flag_where(&mut self, is_allowed: bool) -> Result<bool, Bad>
        ensures took { Took (λ flag. flag) result self.new (flag_where is_allowed self.old) }
        ensures allowed { IfOk result (λ flag. flag_byte flag ≤ flag_byte is_allowed) }
    {
        let value = self.byte(0, u8::from(is_allowed))?;
        Ok(value == 1)
    }

    /// Reads whether a byte is there, and then the byte, which is 0 where it is absent.
    #[tactic(auto, unfolding(crate::specs::Fields::optional))]
    pub fn optional_byte(&mut self) -> Result<Option<u8>, Bad>
        ensures took { Took (λ byte. byte) result self.new (optional (within w8) 0 255 self.old) }
    {
        let there = self.flag()?;
        let value = self.byte(0, if there { u8::MAX } else { 0 })?;
        Ok(there.then_some(value))
    }

    /// Reads whether a number of 4 bytes from `low` to `high` is there, and then the number, which is 0 where it is
    /// absent.
    #[tactic(auto, unfolding(crate::specs::Fields::optional))]
    pub fn optional_word(&mut self, low: u32, high: u32) -> Result<Option<u32>, Bad>
        ensures took { Took (λ n. n) result self.new (optional (within w32) low high self.old) }
        ensures range { IfOk result (λ n. IsWithin low high n) }
    {
        let there = self.flag()?;
        let low = if there { low } else { 0 };
        let high = if there { high } else { 0 };
        let value = self.word(low, high)?;
        Ok(there.then_some(value))
    }

    /// Reads a number of 2 bytes from `low` to `high`.
    pub fn half(&mut self, low: u16, high: u16) -> Result<u16, Bad>
        ensures took { Took (λ n. n) result self.new (within w16 low high self.old) }
        ensures range { IfOk result (λ n. (low ≤ n) × (n ≤ high)) }
    {
        let value = u16::from_le_bytes(self.front()?);
        self.past(2, (low..=high).contains(&value))?;
        Ok(value)
    }

    /// Reads a number of 4 bytes from `low` to `high`.
    pub fn word(&mut self, low: u32, high: u32) -> Result<u32, Bad>
        ensures took { Took (λ n. n) result self.new (within w32 low high self.old) }
        ensures range { IfOk result (λ n. (low ≤ n) × (n ≤ high)) }
    {
        let value = u32::from_le_bytes(self.front()?);
        self.past(4, (low..=high).contains(&value))?;
        Ok(value)
    }

    /// Reads a number of 8 bytes that is at most `most`.
    pub fn long(&mut self, most: u64) -> Result<u64, Bad>
        ensures took { Took (λ n. n) result self.new (within w64 0 most self.old) }
        ensures range { IfOk result (λ n. n ≤ most) }
    {
        let value = u64::from_le_bytes(self.front()?);
        self.past(8, value <= most)?;
        Ok(value)
    }

    /// Reads `size` bytes, whatever they are.
    pub fn bytes(&mut self, size: usize) -> Result<&'a [u8], Bad>
        ensures took { Took (λ bytes. bytes.now) result self.new (plain size self.old) }
    {
        let Some((bytes, after)) = self.rest.split_at_checked(size) else {
            return Err(Bad);
        };
        self.rest = after;
        Ok(bytes)
    }

    /// Reads an array of bytes, whatever they are.
    pub fn array<const N: usize>(&mut self) -> Result<[u8; N], Bad>
        ensures took { Took (λ bytes. bytes) result self.new (plain N self.old) }
    {
        let bytes = self.front::<N>()?;
        self.past(N, true)?;
        Ok(bytes)
    }

    /// Goes past these bytes.
    pub fn exactly(&mut self, text: &[u8]) -> Result<(), Bad>
        ensures took { Took (λ _. tt) result self.new (exactly text.now self.old) }
    {
        let Some(after) = self.rest.strip_prefix(text) else {
            return Err(Bad);
        };
        self.rest = after;
        Ok(())
    }

    /// Reads as many bytes as these, which differ from them.
    pub fn other_than(&mut self, text: &[u8]) -> Result<&'a [u8], Bad>
        ensures took { Took (λ bytes. bytes.now) result self.new (other_than text.now self.old) }
        ensures whole { IfOk result (λ bytes. length bytes.now ≡ length text.now) }
    {
        let Some((bytes, after)) = self.rest.split_at_checked(text.len()) else {
            return Err(Bad);
        };
        if bytes == text {
            return Err(Bad);
        }
        self.rest = after;
        Ok(bytes)
    }

    /// Checks that nothing follows.
    pub fn end(&mut self) -> Result<(), Bad>
        ensures took { Took (λ _. tt) result self.new (ended self.old) }
    {
        if self.rest.is_empty() {
            Ok(())
        } else {
            Err(Bad)
        }
    }
}
