//! Setups of a chipset: the bytes of its disk, and the cards. A card is its device, 1 for a base of memory or 0 for one
//! of ports, the number of its address bits, and that of its expansion ROM or 0, as `2:1:4:0`.

use arrayvec::ArrayVec;
use board_chipset::Setup;
use call_words::{byte, word};
use pci_bars::{BaseSpec, CardSpec};
use std::alloc::{AllocError, Global};

/// The most bytes of a disk that a line asks for.
const MOST_BYTES: u32 = 0x400_0000;

/// The bytes of the ROM.
const ROM: u32 = 0x1_0000;

/// A card with one base.
fn card(dev: u8, base: BaseSpec, rom: u8) -> CardSpec {
    let mut bases = ArrayVec::new();
    bases.push(base);
    CardSpec {
        dev,
        vga: false,
        bases,
        rom: if rom == 0 { None } else { Some(rom) },
    }
}

/// The card of a text, if it has four numbers.
fn card_of(alloc: Global, text: &str) -> Result<Option<CardSpec>, AllocError> {
    let fields: Vec<&str> = text.split(':').collect(alloc)?;
    if fields.len() != 4 {
        return Ok(None);
    }
    let bits = byte(word(&fields, 2));
    let base = if word(&fields, 1) == "1" {
        BaseSpec::Memory(bits)
    } else {
        BaseSpec::Io(bits)
    };
    Ok(Some(card(byte(word(&fields, 0)), base, byte(word(&fields, 3)))))
}

/// The cards of words; a word that has not four numbers is none.
fn cards_of(alloc: Global, words: &[&str]) -> Result<Vec<CardSpec>, AllocError> {
    let mut cards = Vec::new(alloc);
    for text in words {
        if let Some(card) = card_of(alloc, text)? {
            cards.push(card)?;
        }
    }
    Ok(cards)
}

/// So many bytes of 5Ah.
fn bytes(alloc: Global, count: u32) -> Result<Vec<u8>, AllocError> {
    vec![in alloc; 0x5A; (count % MOST_BYTES) as usize]
}

/// A setup of 1 MiB, with a ROM, the cards of words, and a disk of so many bytes, none where that is 0.
pub fn setup(alloc: Global, disk: u32, words: &[&str]) -> Result<Setup, AllocError> {
    let cards = cards_of(alloc, words)?;
    let rom = bytes(alloc, ROM)?;
    let disk = if disk == 0 {
        None
    } else {
        Some(bytes(alloc, disk)?)
    };
    Ok(Setup {
        mib: 1,
        cards,
        rom,
        disk,
    })
}
