//! The bytes behind the bases of the cards.
ghost use Rattle.std.specs.Prelude.{◌≡◌, ◌≢◌, ◌≤◌, ◌<◌, ◌+◌, ◌-◌, ◌++◌, ◌==◌, ◌&&◌, nat_le, nat_lt, if◌then◌else◌, ℕ};
ghost use Rattle.std.specs.Prelude.{List, [], ◌∷◌, All, find, length, slice_index, take, drop, IfOk, unwrap_or};
ghost use Rattle.board_prelude.specs.{Width, Card, bytes_of, largest_of, byte, Entry, Setup, IsCard, rom_base};
ghost use Rattle.board_prelude.specs.{kept_size, wide, CardCell, byte_put, card_byte, entry_put, expansion_byte};
ghost use Rattle.pci_bars.specs.Contents.{IsBaseNumber, slot_number, held, held_byte, kept_at, slot_size, FitsIn};
ghost use Rattle.pci_bars.specs.Contents.{LiesIn, IsContentsOf};

use crate::cards::CARD_COUNT;
use crate::spec::{CardSpec, ROM_BASE};
use board_base::{NoMemory, Width};
use board_spec::wide::{read_at, write_at};
use std::alloc::Global;
use std::marker::Model;

/// The first device number that a card can have.
const FIRST_DEVICE: u8 = 2;
/// How many device numbers a card can have, 2 to 9.
const DEVICES: u8 = CARD_COUNT as u8;
/// How many base numbers a card has: 0 to 5 for its bases, 6 for its expansion ROM, and 7 for the VGA window.
const BASE_NUMBERS: u8 = 8;
/// How many bases the devices have together.
pub(crate) const SLOTS: u8 = DEVICES * BASE_NUMBERS;

/// The byte of a device's expansion ROM at an offset: the sum of the two modulo 256.
pub fn expansion_byte(dev: u8, off: u32) -> u8
    ensures byte { result ≡ expansion_byte dev off }
{
    dev.wrapping_add((off % 0x100) as u8)
}

/// The bytes of each base and of each VGA window, which begin with zeros. Those of an expansion ROM are not kept,
/// since `expansion_byte` computes them.
#[derive(Drop)]
pub struct Contents {
    pub(crate) buffers: Vec<Vec<u8>>,
}

impl Model for Contents {
    ghost use Rattle.std.specs.Prelude.{◌≡◌, ℕ, List, map, vec_len};

    ghost Value = { List (List ℕ) };

    ghost view = { λ contents. map (λ buffer. buffer.items) contents.buffers.items };

    ghost invariant = { λ contents. vec_len contents.buffers ≡ 64 };
}

impl Contents {
    /// The contents of these cards, all zeros. It takes all their memory, and no later call takes any.
    pub fn open(alloc: Global, specs: &[CardSpec]) -> Result<Contents, NoMemory>
        requires cards { All IsCard specs.now }
        ensures sizes { IfOk result (λ contents. (dev base : ℕ) → IsBaseNumber dev base
            → length (held contents dev base) ≡ kept_size (find (λ card. card.dev == dev) specs.now) base) }
        ensures zeros { IfOk result (λ contents. (dev base off : ℕ) → base ≢ rom_base
            → off < length (held contents dev base) → held_byte contents dev base off ≡ 0) }
        ensures stored { IfOk result (λ contents. (setup : Setup) → setup.cards ≡ specs.now
            → IsContentsOf setup [] contents) }
    {
        let mut buffers = Vec::new(alloc);
        for slot in 0..SLOTS {
            let size = slot_size(specs, slot);
            buffers.push(vec![in alloc; 0; size]?)?;
        }
        Ok(Contents { buffers })
    }

    /// How many bytes are kept of a base: none where it does not exist, of an outside base, and of an expansion ROM.
    /// Devices are 2 to 9, and base numbers 0 to 7, of which 6 is the expansion ROM and 7 the VGA window.
    pub fn size(&self, dev: u8, base: u8) -> usize
        requires number { IsBaseNumber dev base }
        ensures size { result ≡ length (held self.now dev base) }
    {
        self.buffers[slot_of(dev, base)].len()
    }

    /// The value at an offset in a base, its low byte first. All ones of one of which no bytes are kept.
    pub fn read(&self, dev: u8, base: u8, off: u32, width: Width) -> u32
        requires place { LiesIn self.now dev base off width }
        ensures value { result ≡ wide (held_byte self.now dev base) off width }
        ensures stored { (setup : Setup) (history : List Entry) → IsContentsOf setup history self.now
            → result ≡ wide (card_byte setup history dev base) off width }
    {
        if base == ROM_BASE {
            return rom_value(dev, off, width);
        }
        kept_value(&self.buffers[slot_of(dev, base)], off, width)
    }

    /// Writes a value at an offset in a base, its low byte first. A write to an expansion ROM is lost, and one to a
    /// base of which no bytes are kept.
    pub fn write(&mut self, dev: u8, base: u8, off: u32, width: Width, value: u32)
        requires place { LiesIn self.old dev base off width }
        requires value { value ≤ largest_of width }
        ensures sizes { (d b : ℕ) → length (held self.new d b) ≡ length (held self.old d b) }
        ensures bytes { (d b at : ℕ) → IsBaseNumber d b → at < length (held self.old d b) → held_byte self.new d b at
            ≡ unwrap_or (byte_put (Card dev base off) 0 width value (CardCell d b at)) (held_byte self.old d b at) }
        ensures stored { (setup : Setup) (history : List Entry) (entry : Entry) (place : ℕ)
            → IsContentsOf setup history self.old
            → ((d b at : ℕ) → entry_put entry.event entry.reply (CardCell d b at)
            ≡ byte_put (Card dev base off) place width value (CardCell d b at))
            → IsContentsOf setup (entry ∷ history) self.new }
    {
        if base != ROM_BASE {
            put_value(&mut self.buffers[slot_of(dev, base)], off, width, value);
        }
    }
}

impl Contents {
    /// Copies the bytes from an offset on in a base, which is no expansion ROM.
    pub fn read_bytes(&self, dev: u8, base: u8, off: u32, into: &mut [u8])
        requires number { IsBaseNumber dev base }
        requires within { off + length into.old ≤ length (held self.now dev base) }
        ensures bytes { into.new ≡ take (length into.old) (drop off (held self.now dev base)) }
    {
        let from = off as usize;
        into.copy_from_slice(&self.buffers[slot_of(dev, base)][from..from + into.len()]);
    }

    /// Replaces the bytes from an offset on in a base, which is no expansion ROM.
    pub fn write_bytes(&mut self, dev: u8, base: u8, off: u32, bytes: &[u8])
        requires number { IsBaseNumber dev base }
        requires within { off + length bytes.now ≤ length (held self.old dev base) }
        ensures here { held self.new dev base ≡ take off (held self.old dev base)
            ++ (bytes.now ++ drop (off + length bytes.now) (held self.old dev base)) }
        ensures others { (d b : ℕ) → IsBaseNumber d b → (d ≡ dev → b ≡ base → ⊥)
            → held self.new d b ≡ held self.old d b }
    {
        let from = off as usize;
        self.buffers[slot_of(dev, base)][from..from + bytes.len()].copy_from_slice(bytes);
    }
}

/// The number of a base among those of all devices.
fn slot_of(dev: u8, base: u8) -> usize
    requires number { IsBaseNumber dev base }
    ensures slot { result ≡ slot_number dev base }
    ensures below { result < 64 }
{
    usize::from((dev - FIRST_DEVICE) * BASE_NUMBERS + base)
}

/// How many bytes are kept of a base, by its number among those of all devices.
pub(crate) fn slot_size(specs: &[CardSpec], slot: u8) -> usize
    requires cards { All IsCard specs.now }
    requires below { slot < 64 }
    ensures size { result ≡ slot_size specs.now slot }
{
    size_of(
        specs,
        FIRST_DEVICE + slot / BASE_NUMBERS,
        slot % BASE_NUMBERS,
    )
}

/// How many bytes are kept of a base of a device. 0 where it does not exist, of an outside base, and of an expansion
/// ROM.
fn size_of(specs: &[CardSpec], dev: u8, base: u8) -> usize
    requires cards { All IsCard specs.now }
    ensures size { result ≡ kept_size (find (λ card. card.dev == dev) specs.now) base }
{
    for spec in specs {
        if spec.dev == dev {
            return spec.kept_size(base);
        }
    }
    0
}

/// The value at an offset of the bytes that are kept of a base. All ones where there are none.
fn kept_value(kept: &[u8], off: u32, width: Width) -> u32
    requires fits { FitsIn kept.now off width }
    ensures value { result ≡ wide (kept_at kept.now) off width }
{
    if kept.is_empty() {
        width.largest()
    } else {
        read_at(kept, off as usize, width)
    }
}

/// Writes a value at an offset of the bytes that are kept of a base. It is lost where there are none.
fn put_value(kept: &mut [u8], off: u32, width: Width, value: u32)
    requires fits { FitsIn kept.old off width }
    requires value { value ≤ largest_of width }
    ensures size { length kept.new ≡ length kept.old }
    ensures bytes { (k : ℕ) → k < length kept.old
        → slice_index kept.new k
        ≡ (if nat_le off k && nat_lt k (off + bytes_of width) then byte value (k - off) else slice_index kept.old k) }
{
    if !kept.is_empty() {
        write_at(kept, off as usize, width, value);
    }
}

/// The value at an offset of a device's expansion ROM.
fn rom_value(dev: u8, off: u32, width: Width) -> u32
    ensures value { result ≡ wide (expansion_byte dev) off width }
{
    let bytes = [
        expansion_byte(dev, off),
        expansion_byte(dev, off.wrapping_add(1)),
        expansion_byte(dev, off.wrapping_add(2)),
        expansion_byte(dev, off.wrapping_add(3)),
    ];
    read_at(&bytes, 0, width)
}
