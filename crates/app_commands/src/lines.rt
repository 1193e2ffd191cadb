//! Command lines that a row gives.

ghost use Rattle.std.specs.Prelude.{None};

use board_base::NoMemory;
use board_main::{CommandLine, WordFault};
use std::alloc::Global;
use std::env::{Env, FillError};

/// A command line whose words are cut at each space.
#[derive(Drop)]
pub struct Row<'a> {
    pub line: &'a str,
    pub alloc: Global,
}

/// The words of a line, cut at each space.
pub fn words_of(alloc: Global, line: &str) -> Result<Vec<String>, NoMemory> {
    let mut words = Vec::new(alloc);
    for word in line.split(' ') {
        words.push(word.to_string(alloc)?)?;
    }
    Ok(words)
}

impl CommandLine for Row<'_> {
    ghost given = { λ _. None };

    fn words(&self) -> Result<Vec<String>, WordFault> {
        match words_of(self.alloc, self.line) {
            Ok(words) => Ok(words),
            Err(_) => Err(WordFault::NoRoom),
        }
    }
}

/// A line for whose words there is no memory.
pub struct NoRoom;

impl CommandLine for NoRoom {
    ghost given = { λ _. None };

    fn words(&self) -> Result<Vec<String>, WordFault> {
        Err(WordFault::NoRoom)
    }
}

/// The byte that a character of a row stands for.
fn byte_of(character: u8) -> u8 {
    match character {
        b'~' => 0xFF,
        b'^' => 0xC3,
        b'!' => 0xA9,
        b'?' => 0x80,
        _ => character,
    }
}

/// The bytes of a word.
fn bytes_of(alloc: Global, word: &str) -> Result<Vec<u8>, NoMemory> {
    let mut bytes = Vec::new(alloc);
    for character in word.as_bytes() {
        bytes.push(byte_of(*character))?;
    }
    Ok(bytes)
}

/// The bytes of the words of a line after the first.
pub fn given_by(alloc: Global, line: &str) -> Result<Vec<Vec<u8>>, NoMemory> {
    let mut words = Vec::new(alloc);
    for word in line.split(' ').skip(1) {
        words.push(bytes_of(alloc, word)?)?;
    }
    Ok(words)
}

/// The words of a command line, with the program's name, as the system has them.
#[derive(Clone, Copy)]
pub struct Bytes<'a>(pub &'a [Vec<u8>]);

impl Env for Bytes<'_> {
    fn arg(&self, i: usize, buf: &mut [u8]) -> Result<usize, FillError> {
        let Some(word) = self.0.get(i) else {
            return Err(FillError::NotPresent);
        };
        if word.len() > buf.len() {
            return Err(FillError::TooLong);
        }
        buf[..word.len()].copy_from_slice(word);
        Ok(word.len())
    }

    fn var(&self, _name: &str, _buf: &mut [u8]) -> Result<usize, FillError> {
        Err(FillError::NotPresent)
    }

    fn var_at(&self, _i: usize, _buf: &mut [u8]) -> Result<usize, FillError> {
        Err(FillError::NotPresent)
    }
}
