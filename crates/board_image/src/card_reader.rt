//! Reads cards.

ghost use Rattle.std.specs.Prelude.{◌≡◌, ◌≤◌, ◌-◌, ◌<◌, ◌∷◌, [], map, sum_by, option_map, IfSome, IfOk};
ghost use Rattle.board_prelude.specs.{w8, most_card_memory, IsBase, memory_of_cards, memory_size};
ghost use Rattle.pci_bars.specs.Bases.{base_of};
ghost use Rattle.byte_fields.specs.Fields.{Took, Filled, number};
ghost use Rattle.board_image.specs.ImageBytes.{keeps_bytes};
ghost use Rattle.board_image.specs.ImageFields.{base_in, base_of_byte, rom_of, bases_fields, card_fields, cards_fields};

use crate::format::{IO_BASE, OUTSIDE_BASE};
use arrayvec::ArrayVec;
use board_core::{is_base, is_expansion_rom};
use byte_fields::{Bad, Fault, Fields};
use pci_bars::{BASE_COUNT, BaseSpec, CardSpec};
use std::alloc::Global;

/// The device numbers of cards.
const FIRST_DEVICE: u8 = 2;

const LAST_DEVICE: u8 = 9;
/// The most bytes behind the memory bases of all cards.
const MOST_CARD_MEMORY: u32 = 0x400_0000;

/// Whether the board keeps the bytes behind a base.
fn keeps_bytes(base: BaseSpec) -> bool
    ensures said { result ≡ keeps_bytes (base_of base) }
{
    match base {
        BaseSpec::Outside(_) => false,
        _ => true,
    }
}

/// The base that a byte stands for. None where it stands for none, or for one that wants more memory than `room`, or
/// for one of which the board keeps no bytes, unless such a base may stand there too (`outside`).
fn base_in(outside: bool, room: u32, byte: u8) -> Option<BaseSpec>
    ensures said { option_map base_of result ≡ base_in outside room byte }
    ensures base { IfSome result (λ base. IsBase (base_of base)) }
{
    let base = base_of_byte(byte);
    if is_base(base) && base.memory_size() <= room && (outside || keeps_bytes(base)) {
        Some(base)
    } else {
        None
    }
}

/// The base that a byte stands for, which no card may be able to have.
fn base_of_byte(byte: u8) -> BaseSpec
    ensures said { base_of result ≡ base_of_byte byte }
{
    if byte >= IO_BASE {
        return BaseSpec::Io(byte - IO_BASE);
    }
    if byte >= OUTSIDE_BASE {
        return BaseSpec::Outside(byte - OUTSIDE_BASE);
    }
    BaseSpec::Memory(byte)
}

/// Reads a base, and takes the memory that it wants from the room.
fn base(fields: &mut Fields, outside: bool, room: &mut u32) -> Result<BaseSpec, Bad>
    ensures took { Took base_of result fields.new (number w8 (base_in outside room.old) fields.old) }
    ensures room { IfOk result (λ base. room.new ≡ room.old - memory_size (base_of base)) }
{
    let byte = u8::from_le_bytes(fields.front()?);
    let said = base_in(outside, *room, byte);
    fields.past(1, said.is_some())?;
    let base = said.unwrap();
    *room -= base.memory_size();
    Ok(base)
}

/// Reads some bases, and takes the memory that they want from the room.
fn bases(
    fields: &mut Fields,
    outside: bool,
    count: u8,
    room: &mut u32,
) -> Result<ArrayVec<BaseSpec, BASE_COUNT>, Bad>
    requires few { count ≤ 6 }
    ensures took { Took (λ bases. map base_of bases.items) result fields.new
        (bases_fields outside count room.old fields.old) }
    ensures room { IfOk result (λ bases. room.new
        ≡ room.old - sum_by memory_size (map base_of bases.items)) }
{
    let mut bases = ArrayVec::new();
    for _ in 0..count {
        bases.push(base(fields, outside, room)?);
    }
    Ok(bases)
}

/// The expansion ROM that a byte stands for: log2 of its size.
fn rom_of(byte: u8) -> Option<Option<u8>>
    ensures said { result ≡ rom_of byte }
{
    if byte == 0 {
        return Some(None);
    }
    if is_expansion_rom(Some(byte)) {
        Some(Some(byte))
    } else {
        None
    }
}

/// Reads the expansion ROM of a card, where it has one.
fn rom(fields: &mut Fields) -> Result<Option<u8>, Bad>
    ensures took { Took (λ rom. rom) result fields.new (number w8 rom_of fields.old) }
{
    fields.byte_of(rom_of)
}

/// Reads a card whose device number lies above that of the card before. It takes its memory from the room.
#[tactic(auto, unfolding(crate::specs::ImageFields::card_fields))]
fn card(fields: &mut Fields, outside: bool, above: u8, room: &mut u32) -> Result<CardSpec, Bad>
    requires above { above ≤ 9 }
    ensures took { Took (λ card. card) result fields.new (card_fields outside above room.old fields.old) }
    ensures room { IfOk result (λ card. room.new ≡ room.old - memory_of_cards (card ∷ [])) }
    ensures last { IfOk result (λ card. card.dev ≤ 9) }
{
    let dev = fields.byte(above + 1, LAST_DEVICE)?;
    let vga = fields.flag()?;
    let rom = rom(fields)?;
    let count = fields.byte(0, BASE_COUNT as u8)?;
    let bases = bases(fields, outside, count, room)?;
    Ok(CardSpec {
        dev,
        vga,
        bases,
        rom,
    })
}

/// Reads some cards, in rising order of device, of which all memory bases together have at most 64 MiB. Refused where a
/// field is not whole, or none that a card can have after those before it: the bytes left then begin with it. A base of
/// which the board keeps no bytes is refused too, unless `outside` says that one may stand there.
pub fn cards(
    alloc: Global,
    fields: &mut Fields,
    outside: bool,
    count: u8,
) -> Result<Vec<CardSpec>, Fault>
    ensures filled { Filled (λ cards. cards.items) result fields.new
        (cards_fields outside count 1 most_card_memory fields.old) }
{
    let mut cards = Vec::with_capacity(alloc, usize::from(count))?;
    let mut above = FIRST_DEVICE - 1;
    let mut room = MOST_CARD_MEMORY;
    for _ in 0..count {
        let card = card(fields, outside, above, &mut room)?;
        above = card.dev;
        cards.push(card)?;
    }
    Ok(cards)
}
