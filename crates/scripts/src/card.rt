//! A card, read from the fields of its line.

ghost use Rattle.std.specs.Prelude.{◌≡◌, None, option_map};
ghost use Rattle.scripts.specs.Items.{base_said, card_said, tail_said};
ghost use Rattle.script_spec.specs.Cards.{parse_base, parse_rom_bits, with_base, with_rom, with_field, with_fields};
ghost use Rattle.script_spec.specs.Cards.{no_tail, parse_vga, parse_card};

use crate::fields::Fields;
use crate::item::is_word;
use crate::numbers::parse_decimal;
use arrayvec::ArrayVec;

/// The most bases of a card.
const MOST_BASES: usize = 6;

/// A base of a card line, by its power of two, which may be out of range.
#[derive(Clone, Copy, PartialEq, Eq)]
pub enum BaseField {
    Memory(u32),
    Io(u32),
}

impl Default for BaseField {
    fn default() -> BaseField {
        BaseField::Memory(0)
    }
}

/// What a card line says, with numbers that may be out of range.
#[derive(Drop)]
pub struct CardFields {
    pub dev: u32,
    pub vga: bool,
    pub bases: ArrayVec<BaseField, MOST_BASES>,
    pub rom: Option<u32>,
}

/// The base of a field `mK` or `iK`.
#[tactic(auto, unfolding(script_spec::specs::Cards::parse_base))]
fn parse_base(field: &[u8]) -> Option<BaseField>
    ensures base { option_map base_said result ≡ parse_base field.now }
{
    match field {
        [b'm', digits @ ..] => Some(BaseField::Memory(parse_decimal(digits)?)),
        [b'i', digits @ ..] => Some(BaseField::Io(parse_decimal(digits)?)),
        _ => None,
    }
}

/// The power of two of a field `xK`, which version 2 has.
#[tactic(auto, unfolding(script_spec::specs::Cards::parse_rom_bits))]
fn parse_rom_bits(version: u8, field: &[u8]) -> Option<u32>
    ensures rom { result ≡ parse_rom_bits version field.now }
{
    if version != 2 {
        return None;
    }
    match field {
        [b'x', digits @ ..] => parse_decimal(digits),
        _ => None,
    }
}

/// Whether it is a VGA adapter.
fn parse_vga(field: &[u8]) -> Option<bool>
    ensures vga { result ≡ parse_vga field.now }
{
    if is_word(field, "vga") {
        return Some(true);
    }
    if is_word(field, "plain") {
        return Some(false);
    }
    None
}

/// The bases and the expansion ROM of the fields so far.
#[derive(Drop)]
struct Tail {
    bases: ArrayVec<BaseField, MOST_BASES>,
    rom: Option<u32>,
}

/// With one base more, where there is room.
#[tactic(auto, unfolding(script_spec::specs::Cards::with_base))]
fn with_base(mut tail: Tail, field: &[u8]) -> Option<Tail>
    requires open { tail.rom ≡ None }
    ensures tail { option_map tail_said result ≡ with_base (tail_said tail) field.now }
{
    if tail.bases.is_full() {
        return None;
    }
    tail.bases.push(parse_base(field)?);
    Some(tail)
}

/// With one field more. Nothing follows an expansion ROM.
#[tactic(auto, unfolding(script_spec::specs::Cards::with_field, script_spec::specs::Cards::with_rom))]
fn with_field(version: u8, tail: Tail, field: &[u8]) -> Option<Tail>
    ensures tail { option_map tail_said result ≡ with_field version (tail_said tail) field.now }
{
    if tail.rom.is_some() {
        return None;
    }
    match parse_rom_bits(version, field) {
        None => with_base(tail, field),
        Some(bits) => Some(Tail {
            bases: tail.bases,
            rom: Some(bits),
        }),
    }
}

/// The bases and the expansion ROM of all fields.
#[tactic(auto, unfolding(script_spec::specs::Cards::with_fields))]
fn parse_tail(version: u8, fields: Fields<'_>) -> Option<Tail>
    ensures tail { option_map tail_said result ≡ with_fields version no_tail fields.entry }
{
    let mut tail = Tail {
        bases: ArrayVec::new(),
        rom: None,
    };
    let mut rest = fields;
    while let Some((field, later)) = rest.next() {
        tail = with_field(version, tail, field)?;
        rest = later;
    }
    Some(tail)
}

/// The card of a line, by its fields after `card`.
#[tactic(auto, unfolding(script_spec::specs::Cards::parse_card))]
pub(crate) fn parse_card(version: u8, words: Fields<'_>) -> Option<CardFields>
    ensures card { option_map card_said result ≡ parse_card version words.entry }
{
    let (dev, words) = words.next()?;
    let (kind, words) = words.next()?;
    let dev = parse_decimal(dev)?;
    let vga = parse_vga(kind)?;
    let tail = parse_tail(version, words)?;
    Some(CardFields {
        dev,
        vga,
        bases: tail.bases,
        rom: tail.rom,
    })
}
