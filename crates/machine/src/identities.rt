//! What cards say that they are, as bytes.

ghost use Rattle.std.specs.Prelude.{◌≡◌, ◌≤◌, ◌<◌, ◌^◌, ◌++◌, length, flat_map, All, OnOk};
ghost use Rattle.byte_fields.specs.Fields.{Took};
ghost use Rattle.machine.specs.Identities.{IsIdentity, first_bytes, last_bytes, identity_bytes, identity_fields};
ghost use Rattle.machine.specs.Identities.{identities_bytes, identities_fields, some_identities};

use crate::identity::{FittedIdentity, Identity};
use arrayvec::ArrayVec;
use board_base::NoMemory;
use byte_fields::{Bad, Fields, push_byte, push_half, push_word};

/// The most cards of a board.
pub(crate) const MOST_CARDS: usize = 8;

/// Adds a device number, and the first fields of what its card says.
#[tactic(auto, unfolding(crate::specs::Identities::first_bytes))]
fn push_first(into: &mut Vec<u8>, card: &FittedIdentity) -> Result<(), NoMemory>
    ensures added { OnOk result (into.new.items ≡ into.old.items ++ first_bytes card.now) }
{
    push_byte(into, card.dev)?;
    push_half(into, card.identity.vendor_id)?;
    push_half(into, card.identity.device_id)?;
    push_byte(into, card.identity.revision_id)
}

/// Adds the other fields.
#[tactic(auto, unfolding(crate::specs::Identities::last_bytes))]
fn push_last(into: &mut Vec<u8>, card: &FittedIdentity) -> Result<(), NoMemory>
    ensures added { OnOk result (into.new.items ≡ into.old.items ++ last_bytes card.now) }
{
    push_word(into, card.identity.class_code)?;
    push_half(into, card.identity.subsystem_vendor_id)?;
    push_half(into, card.identity.subsystem_id)?;
    push_byte(into, card.identity.interrupt_pin)
}

/// Adds what a card says that it is.
fn push_identity(into: &mut Vec<u8>, card: &FittedIdentity) -> Result<(), NoMemory>
    ensures added { OnOk result (into.new.items ≡ into.old.items ++ identity_bytes card.now) }
{
    push_first(into, card)?;
    push_last(into, card)
}

/// Adds how many cards say something, and what each says.
pub(crate) fn push_identities(into: &mut Vec<u8>, cards: &[FittedIdentity]) -> Result<(), NoMemory>
    requires few { length cards.now ≤ 8 }
    ensures added { OnOk result (into.new.items ≡ into.old.items ++ identities_bytes cards.now) }
{
    push_byte(into, cards.len() as u8)?;
    push_each(into, cards)
}

/// Adds what each of some cards says.
#[tactic(auto, using(std::proofs::lemmas::List::flat_map_more, std::proofs::lemmas::List::take_more))]
fn push_each(into: &mut Vec<u8>, cards: &[FittedIdentity]) -> Result<(), NoMemory>
    ensures added { OnOk result (into.new.items ≡ into.old.items ++ flat_map identity_bytes cards.now) }
{
    for card in cards {
        push_identity(into, card)?;
    }
    Ok(())
}

/// Does nothing: its clause says what the type of the number says.
fn is_byte(number: u8)
    ensures small { number < 2 ^ 8 }
{}

/// Does nothing: its clause says what the type of the number says.
fn is_half(number: u16)
    ensures small { number < 2 ^ 16 }
{}

/// Does nothing: its clause says what the type of the number says.
fn is_word(number: u32)
    ensures small { number < 2 ^ 32 }
{}

/// Does nothing: its clause says what the types of the fields say.
fn is_identity(card: &FittedIdentity)
    ensures sound { IsIdentity card.now }
{
    is_byte(card.dev);
    is_half(card.identity.vendor_id);
    is_half(card.identity.device_id);
    is_byte(card.identity.revision_id);
    is_word(card.identity.class_code);
    is_half(card.identity.subsystem_vendor_id);
    is_half(card.identity.subsystem_id);
    is_byte(card.identity.interrupt_pin);
}

/// Does nothing: its clause says what the types of the fields say.
pub(crate) fn are_identities(cards: &[FittedIdentity])
    ensures sound { All IsIdentity cards.now }
{
    for card in cards {
        is_identity(card);
    }
}

/// Reads what a card says that it is.
#[tactic(auto, unfolding(crate::specs::Identities::identity_fields))]
fn read_identity(fields: &mut Fields) -> Result<FittedIdentity, Bad>
    ensures took { Took (λ card. card) result fields.new (identity_fields fields.old) }
{
    let dev = fields.byte(0, u8::MAX)?;
    let vendor_id = fields.half(0, u16::MAX)?;
    let device_id = fields.half(0, u16::MAX)?;
    let revision_id = fields.byte(0, u8::MAX)?;
    let class_code = fields.word(0, u32::MAX)?;
    let subsystem_vendor_id = fields.half(0, u16::MAX)?;
    let subsystem_id = fields.half(0, u16::MAX)?;
    let interrupt_pin = fields.byte(0, u8::MAX)?;
    Ok(FittedIdentity {
        dev,
        identity: Identity {
            vendor_id,
            device_id,
            revision_id,
            class_code,
            subsystem_vendor_id,
            subsystem_id,
            interrupt_pin,
        },
    })
}

/// Reads what so many cards say.
fn read_some(fields: &mut Fields, count: u8) -> Result<ArrayVec<FittedIdentity, MOST_CARDS>, Bad>
    requires few { count ≤ 8 }
    ensures took { Took (λ cards. cards.items) result fields.new (some_identities tt count fields.old) }
{
    let mut cards = ArrayVec::new();
    for _ in 0..count {
        cards.push(read_identity(fields)?);
    }
    Ok(cards)
}

/// Reads how many cards say something, and what each says.
#[tactic(auto, unfolding(crate::specs::Identities::identities_fields))]
pub(crate) fn read_identities(
    fields: &mut Fields,
) -> Result<ArrayVec<FittedIdentity, MOST_CARDS>, Bad>
    ensures took { Took (λ cards. cards.items) result fields.new (identities_fields fields.old) }
{
    let count = fields.byte(0, MOST_CARDS as u8)?;
    read_some(fields, count)
}
