//! Cards as records of numbers.

ghost use Rattle.std.specs.Prelude.{◌≡◌, ◌≤◌, length, map, IfOk, is_some, option_map};
ghost use Rattle.pci_bars.specs.Bases.{base_of as fitted_base};
ghost use Rattle.machine_records.specs.Cards.{all_said, base_said, rom_said, numbers_fit, card_said, cards_said};
ghost use Rattle.machine_records.specs.Cards.{identity_said, identities_said};

use crate::numbers::{IO_BASE, MEMORY_BASE, OUTSIDE_BASE};
use arrayvec::ArrayVec;
use machine::{FittedIdentity, Identity};
use pci_bars::{BASE_COUNT, BaseSpec, CardSpec};
use std::alloc::{AllocError, Global};

/// A base of a card: for memory or for I/O ports (`MEMORY_BASE`, `IO_BASE`), or for memory whose bytes the monitor
/// keeps (`OUTSIDE_BASE`), and log2 of its size in bytes or ports.
#[repr(C)]
#[derive(Clone, Copy, Default)]
pub struct BaseRecord {
    pub kind: u8,
    pub bits: u8,
}

/// The largest class code: class, subclass and programming interface, a byte each.
const MOST_CLASS: u32 = 0xFF_FFFF;

/// The pin of INTD#, the last one.
const LAST_PIN: u8 = 4;

/// A PCI card: its device number, 1 for a VGA adapter, log2 of the size of its expansion ROM or 0 for none, how many
/// bases it has, and these, of which those past that count are not read; and what it says that it is, as `Identity` has
/// it, the class in 24 bits and the pin 0 to 4. `reserved` is 0.
#[repr(C)]
#[derive(Clone, Copy, Default)]
pub struct CardRecord {
    pub device: u8,
    pub vga: u8,
    pub rom: u8,
    pub bases: u8,
    pub base: [BaseRecord; 6],
    pub class_code: u32,
    pub vendor_id: u16,
    pub device_id: u16,
    pub subsystem_vendor_id: u16,
    pub subsystem_id: u16,
    pub revision_id: u8,
    pub interrupt_pin: u8,
    pub reserved: u16,
}

/// Whether each record says a card.
#[tactic(auto, using(crate::proofs::Openings::said_next))]
pub(crate) fn are_said(records: &[CardRecord]) -> bool
    ensures said { result ≡ is_some (cards_said records.now) }
{
    for record in records {
        if card_of(record).is_none() {
            return false;
        }
    }
    true
}

/// The cards that at most eight records say, without a copy on the heap.
pub(crate) fn few_cards(records: &[CardRecord]) -> Option<ArrayVec<CardSpec, 8>>
    requires few { length records.now ≤ 8 }
    ensures said { option_map (λ cards. cards.items) result ≡ cards_said records.now }
{
    let mut cards = ArrayVec::new();
    for record in records {
        match card_of(record) {
            Some(card) => cards.push(card),
            None => return None,
        }
    }
    Some(cards)
}

/// The cards that some records say. None exactly where a number of one names nothing. They may still be none that a
/// board can be fitted with.
pub fn cards_of(alloc: Global, records: &[CardRecord]) -> Result<Option<Vec<CardSpec>>, AllocError>
    ensures said { IfOk result (λ cards. option_map (λ cards. cards.items) cards ≡ cards_said records.now) }
{
    let mut cards = Vec::with_capacity(alloc, records.len())?;
    for record in records {
        match card_of(record) {
            Some(card) => cards.push(card)?,
            None => return Ok(None),
        }
    }
    Ok(Some(cards))
}

/// Whether what is kept for later versions is 0, and each of the other numbers in its range.
fn numbers_fit(record: &CardRecord) -> bool
    ensures fit { result ≡ numbers_fit record.now }
{
    record.reserved == 0
        && record.vga <= 1
        && usize::from(record.bases) <= BASE_COUNT
        && record.class_code <= MOST_CLASS
        && record.interrupt_pin <= LAST_PIN
}

#[tactic(auto, unfolding(crate::specs::Cards::card_said))]
fn card_of(record: &CardRecord) -> Option<CardSpec>
    ensures said { result ≡ card_said record.now }
{
    if !numbers_fit(record) {
        return None;
    }
    match bases_of(&record.base[..usize::from(record.bases)]) {
        Some(bases) => Some(CardSpec {
            dev: record.device,
            vga: record.vga == 1,
            bases,
            rom: rom_of(record.rom),
        }),
        None => None,
    }
}

/// The bases that at most six records say.
fn bases_of(records: &[BaseRecord]) -> Option<ArrayVec<BaseSpec, BASE_COUNT>>
    requires few { length records.now ≤ 6 }
    ensures said { option_map (λ bases. map fitted_base bases.items) result ≡ all_said base_said records.now }
{
    let mut bases = ArrayVec::new();
    for record in records {
        match base_of(*record) {
            Some(base) => bases.push(base),
            None => return None,
        }
    }
    Some(bases)
}

#[tactic(auto, unfolding(crate::specs::Cards::base_said))]
fn base_of(record: BaseRecord) -> Option<BaseSpec>
    ensures said { option_map fitted_base result ≡ base_said «record» }
{
    match record.kind {
        MEMORY_BASE => Some(BaseSpec::Memory(record.bits)),
        IO_BASE => Some(BaseSpec::Io(record.bits)),
        OUTSIDE_BASE => Some(BaseSpec::Outside(record.bits)),
        _ => None,
    }
}

#[tactic(auto, unfolding(crate::specs::Cards::rom_said))]
fn rom_of(bits: u8) -> Option<u8>
    ensures said { result ≡ rom_said bits }
{
    if bits == 0 { None } else { Some(bits) }
}

/// What the cards say that they are, of at most eight records: those of which a field is not 0.
#[tactic(auto, using(crate::proofs::Identities::identities_next))]
pub(crate) fn identities_of(records: &[CardRecord]) -> ArrayVec<FittedIdentity, 8>
    requires few { length records.now ≤ 8 }
    ensures said { result.items ≡ identities_said records.now }
{
    let mut identities = ArrayVec::new();
    for record in records {
        let identity = identity_of(record);
        if !identity.is_blank() {
            identities.push(FittedIdentity {
                dev: record.device,
                identity,
            });
        }
    }
    identities
}

fn identity_of(record: &CardRecord) -> Identity
    ensures said { result ≡ identity_said record.now }
{
    Identity {
        vendor_id: record.vendor_id,
        device_id: record.device_id,
        revision_id: record.revision_id,
        class_code: record.class_code,
        subsystem_vendor_id: record.subsystem_vendor_id,
        subsystem_id: record.subsystem_id,
        interrupt_pin: record.interrupt_pin,
    }
}
