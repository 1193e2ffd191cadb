//! Images of boards that are bad. Bytes stand alone (`bare`), behind the head of an image of two cards (`cards`), or
//! behind an image of a board with a card and one step (`step`): told is at which byte behind these the image is bad.

use board_base::NoMemory;
use board_image::{ImageFault, read_image};
use call_words::{bytes_of, word};
use std::alloc::{AllocError, Global};

/// The head of an image of a board of 8 MiB with a ROM of 64 KiB and two cards, without disk and steps.
const HEAD_OF_CARDS: &str = "424F415244494D47010008020000000001000000000000000000";

/// The head of one with a step, and its card: VGA, at device 2, with a memory base of 16 bytes.
const HEAD_OF_A_STEP: &str = "424F415244494D470100080100000000010000000000010000000201000104";

/// How many bytes that head, the card and the ROM have.
const BEFORE_THE_STEP: usize = 26 + 5 + 0x1_0000;

/// The bytes before those of a line.
fn before(alloc: Global, what: &str) -> Result<Vec<u8>, AllocError> {
    match what {
        "cards" => bytes_of(alloc, HEAD_OF_CARDS),
        "step" => {
            let mut bytes = bytes_of(alloc, HEAD_OF_A_STEP)?;
            bytes.resize(BEFORE_THE_STEP, 0)?;
            Ok(bytes)
        }
        _ => Ok(Vec::new(alloc)),
    }
}

/// Where bytes are bad.
fn bad_at(alloc: Global, bytes: &[u8]) -> Option<u32> {
    match read_image(alloc, bytes) {
        Err(ImageFault::Bad { at }) => Some(at),
        _ => None,
    }
}

/// Tells where an image is bad, whose first bytes stood before.
fn push_bad(text: &mut String, at: Option<u32>, before: usize) -> Result<(), AllocError> {
    match at {
        Some(at) => write!(text, "bad at {:X}", (at as usize).saturating_sub(before)),
        None => text.push_str("good"),
    }
}

/// Tells where the image of words is bad.
pub fn tell(alloc: Global, words: &[&str], text: &mut String) -> Result<(), NoMemory> {
    let mut bytes = before(alloc, word(words, 0))?;
    let before = bytes.len();
    bytes.extend_from_slice(&bytes_of(alloc, word(words, 1))?)?;
    Ok(push_bad(text, bad_at(alloc, &bytes), before)?)
}
