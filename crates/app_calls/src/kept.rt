//! How much of a memory is kept: `kept 2 FFFFC=01020304 0 1 2` writes a stretch of bytes to 2 MiB as the bus does, and
//! tells of some MiB how many of their bytes are kept.

use crate::told::{push_hex, space};
use board_base::NoMemory;
use call_words::{byte, bytes_of, number, word};
use dram_store::Dram;
use std::alloc::{AllocError, Global};

/// A memory of 1 to 3 MiB to which a stretch was written, its address before an equals sign.
fn written(alloc: Global, mib: &str, stretch: &str) -> Result<Dram, NoMemory> {
    let mut dram = Dram::open(alloc, 1 + number(mib).wrapping_sub(1) % 3)?;
    if let Some((addr, digits)) = stretch.split_once('=') {
        dram.write_bytes(number(addr), &bytes_of(alloc, digits)?);
    }
    Ok(dram)
}

/// How many bytes of a MiB are kept.
fn push_kept(dram: &Dram, mib: &str, text: &mut String) -> Result<(), AllocError> {
    space(text)?;
    match dram.kept(usize::from(byte(mib))) {
        Some(bytes) => push_hex(text, (bytes.len() % 0x1_0000_0000) as u32),
        None => text.push_str("none"),
    }
}

/// The same of each MiB of a row.
pub fn tell(alloc: Global, words: &[&str], text: &mut String) -> Result<(), NoMemory> {
    let dram = written(alloc, word(words, 0), word(words, 1))?;
    for mib in words.iter().skip(2) {
        push_kept(&dram, mib, text)?;
    }
    Ok(())
}
