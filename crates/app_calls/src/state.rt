//! States of chipsets as bytes: `chipset-state DISK BYTES CARD..` and, with a serial port, `serial-state`. The chipset
//! has 1 MiB, a ROM of 64 KiB, a disk of so many bytes, none where that is 0, and cards as `setup` has them. Told is
//! that the state is saved as the same bytes, or where it is bad. Bytes are pieces joined by `+`; `00*100` are so many
//! equal ones.

use crate::setup::setup;
use board_base::NoMemory;
use board_chipset::{Chipset, Setup, StateFault};
use call_words::{byte, bytes_of, number, word};
use std::alloc::{AllocError, Global};
use uart_16550::SerialBoard;

/// The most equal bytes of a piece.
const MOST_EQUAL: u32 = 0x1_0000;

/// Appends the bytes of a piece.
fn push_piece(alloc: Global, bytes: &mut Vec<u8>, piece: &str) -> Result<(), AllocError> {
    match piece.split_once('*') {
        Some((digits, count)) => {
            let more = (number(count) % MOST_EQUAL) as usize;
            bytes.resize(bytes.len().saturating_add(more), byte(digits))
        }
        None => bytes.extend_from_slice(&bytes_of(alloc, piece)?),
    }
}

/// The bytes of pieces.
fn joined(alloc: Global, pieces: &str) -> Result<Vec<u8>, AllocError> {
    let mut bytes = Vec::new(alloc);
    for piece in pieces.split('+') {
        push_piece(alloc, &mut bytes, piece)?;
    }
    Ok(bytes)
}

/// What the chipset of a line is fitted with.
fn fitted(alloc: Global, words: &[&str]) -> Result<Setup, AllocError> {
    setup(alloc, number(word(words, 0)), words)
}

/// Tells whether what was saved are the same bytes.
fn push_same(saved: &[u8], bytes: &[u8], text: &mut String) -> Result<(), AllocError> {
    text.push_str(if saved == bytes {
        "saved as the same"
    } else {
        "saved as another"
    })
}

/// Tells why a state was not loaded.
fn push_fault(fault: StateFault, text: &mut String) -> Result<(), NoMemory> {
    match fault {
        StateFault::Bad { at } => Ok(write!(text, "bad at {at:X}")?),
        StateFault::OtherVersion => Ok(text.push_str("another version")?),
        StateFault::Setup(_) => Ok(text.push_str("no setup")?),
        StateFault::NoMemory => Err(NoMemory),
    }
}

/// Tells whether a chipset is saved as these bytes.
fn push_chipset(
    alloc: Global,
    chipset: &Chipset,
    bytes: &[u8],
    text: &mut String,
) -> Result<(), NoMemory> {
    let mut saved = Vec::new(alloc);
    chipset.save_state(&mut saved)?;
    Ok(push_same(&saved, bytes, text)?)
}

/// Tells the state of a chipset.
pub fn tell_chipset(alloc: Global, words: &[&str], text: &mut String) -> Result<(), NoMemory> {
    let bytes = joined(alloc, word(words, 1))?;
    match Chipset::load_state(alloc, fitted(alloc, words)?, &bytes) {
        Ok(chipset) => push_chipset(alloc, &chipset, &bytes, text),
        Err(fault) => push_fault(fault, text),
    }
}

/// Tells whether a chipset with a serial port is saved as these bytes.
fn push_serial(
    alloc: Global,
    serial: &SerialBoard<Chipset>,
    bytes: &[u8],
    text: &mut String,
) -> Result<(), NoMemory> {
    let mut saved = Vec::new(alloc);
    serial.save_state(&mut saved)?;
    Ok(push_same(&saved, bytes, text)?)
}

/// Tells the state of a chipset with a serial port.
pub fn tell_serial(alloc: Global, words: &[&str], text: &mut String) -> Result<(), NoMemory> {
    let bytes = joined(alloc, word(words, 1))?;
    match SerialBoard::<Chipset>::load_state(alloc, fitted(alloc, words)?, &bytes) {
        Ok(serial) => push_serial(alloc, &serial, &bytes, text),
        Err(fault) => push_fault(fault, text),
    }
}
