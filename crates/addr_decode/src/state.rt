//! The state of the registers that the address map depends on as bytes, out and in. The cards of the board are not in
//! them: a board that is loaded has those of its setup.

ghost use Rattle.std.specs.Prelude.{◌≡◌, ◌≤◌, ◌<◌, ◌^◌, ◌++◌, ℕ, List, length, slice_index, flat_map, All, OnOk, IfOk};
ghost use Rattle.board_prelude.specs.{FittedCard, Setup, IsCardList, Bytes};
ghost use Rattle.byte_fields.specs.Fields.{Took};
ghost use Rattle.byte_fields.specs.Loads.{Loads, OneSpelling};
ghost use Rattle.pci_bars.specs.Cards.{AreCardsOf, AreFitted};
ghost use Rattle.addr_decode.specs.State.{AreBases, bases_bytes, bases_fields, IsWideCard, most_rom, card_bytes};
ghost use Rattle.addr_decode.specs.State.{card_fields, cards_fields, AreMapRegs, regs_bytes, regs_fields};

use crate::regs::MapRegs;
use crate::singles::joined;
use arrayvec::ArrayVec;
use board_base::NoMemory;
use byte_fields::{Bad, Fields, push_bytes, push_word};
use pci_bars::{BASE_COUNT, CARD_COUNT, CardRegs, CardSpec};

/// Does nothing: its clause says that the registers of each card are as wide as their types.
fn are_wide(cards: &[CardRegs])
    ensures widths { All IsWideCard cards.now }
{
    for card in cards {
        is_wide(card);
    }
}

/// Does nothing: its clause says that the registers of a card are as wide as their types.
fn is_wide(card: &CardRegs)
    ensures widths { IsWideCard card.now }
{
    is_byte(card.command);
    is_byte(card.line);
    are_bases(&card.bases);
    is_doubleword(card.rom);
}

/// Does nothing: its clause says that the value is below 2^8.
fn is_byte(value: u8)
    ensures byte { value < 2 ^ 8 }
{}

/// Does nothing: its clause says that the value is below 2^32.
fn is_doubleword(value: u32)
    ensures doubleword { value < 2 ^ 32 }
{}

/// Does nothing: its clause says that there are six values below 2^32.
fn are_bases(values: &[u32; BASE_COUNT])
    ensures bases { AreBases values.now }
{
    are_doublewords(values);
}

/// Does nothing: its clause says that each of the values is below 2^32.
fn are_doublewords(values: &[u32])
    ensures doublewords { (k : ℕ) → slice_index values.now k < 2 ^ 32 }
{}

/// The most that the register of an expansion ROM holds: 0 where there is no ROM.
fn most_rom(rom: Option<u8>) -> u32
    ensures most { result ≡ most_rom rom }
{
    match rom {
        Some(_) => u32::MAX,
        None => 0,
    }
}

/// Adds base address registers.
fn push_bases(into: &mut Vec<u8>, bases: &[u32]) -> Result<(), NoMemory>
    ensures added { OnOk result (into.new.items ≡ into.old.items ++ bases_bytes bases.now) }
{
    for base in bases {
        push_word(into, *base)?;
    }
    Ok(())
}

/// Adds the 30 bytes of a card: command, interrupt line, the six bases, and the register of the expansion ROM.
fn push_card(into: &mut Vec<u8>, card: &CardRegs) -> Result<(), NoMemory>
    ensures added { OnOk result (into.new.items ≡ into.old.items ++ card_bytes card.now) }
{
    push_bytes(into, &[card.command, card.line])?;
    push_bases(into, &card.bases)?;
    push_word(into, card.rom)
}

/// Adds the bytes of cards.
fn push_cards(into: &mut Vec<u8>, cards: &[CardRegs]) -> Result<(), NoMemory>
    ensures added { OnOk result (into.new.items ≡ into.old.items ++ flat_map card_bytes cards.now) }
{
    for card in cards {
        push_card(into, card)?;
    }
    Ok(())
}

/// Reads six base address registers, each any doubleword.
#[tactic(auto, unfolding(crate::specs::State::bases_fields))]
fn read_bases(fields: &mut Fields) -> Result<[u32; BASE_COUNT], Bad>
    ensures took { Took (λ bases. bases) result fields.new (bases_fields fields.old) }
{
    let first = fields.word(0, u32::MAX)?;
    let second = fields.word(0, u32::MAX)?;
    let third = fields.word(0, u32::MAX)?;
    let fourth = fields.word(0, u32::MAX)?;
    let fifth = fields.word(0, u32::MAX)?;
    let sixth = fields.word(0, u32::MAX)?;
    Ok([first, second, third, fourth, fifth, sixth])
}

/// Reads the registers of a card.
#[tactic(auto, unfolding(crate::specs::State::card_fields))]
fn read_card(spec: &CardSpec, fields: &mut Fields) -> Result<CardRegs, Bad>
    ensures took { Took (λ card. card) result fields.new (card_fields spec.now fields.old) }
{
    let command = fields.byte(0, u8::MAX)?;
    let line = fields.byte(0, u8::MAX)?;
    let bases = read_bases(fields)?;
    let rom = fields.word(0, most_rom(spec.rom))?;
    Ok(CardRegs {
        spec: spec.copy(),
        command,
        line,
        bases,
        rom,
    })
}

/// Reads the registers of some cards, one after another.
fn read_cards(
    specs: &[CardSpec],
    fields: &mut Fields,
) -> Result<ArrayVec<CardRegs, CARD_COUNT>, Bad>
    requires few { length specs.now ≤ 8 }
    ensures took { Took (λ cards. cards.items) result fields.new (cards_fields specs.now fields.old) }
{
    let mut cards = ArrayVec::new();
    for spec in specs {
        cards.push(read_card(spec, fields)?);
    }
    Ok(cards)
}

impl MapRegs {
    /// Adds the bytes of the state: those of the bridges, and 30 for each card. Of a card without an expansion ROM the
    /// register of that has to be 0, as it is on each board.
    #[tactic(auto, using(std::proofs::lemmas::Bool::Decides::nat_tests))]
    pub fn save_state(&self, into: &mut Vec<u8>) -> Result<(), NoMemory>
        ensures saved { OnOk result (into.new.items ≡ into.old.items ++ regs_bytes self.now) }
        ensures sound { (setup : Setup) (bytes : Bytes) → AreCardsOf setup bytes self.now.cards.items
            → AreMapRegs setup.cards self.now }
    {
        are_wide(self.cards.as_slice());
        push_bytes(into, &self.drb)?;
        push_bytes(into, &self.singles[..1])?;
        push_bytes(into, &self.pam)?;
        push_bytes(into, &self.singles[1..])?;
        push_cards(into, self.cards.as_slice())
    }

    /// The registers of a board with these cards, whose state is at the front of the bytes. Refused where a field is
    /// not whole, or a card without an expansion ROM has a register of that which is not 0: the bytes left then begin
    /// with the first such field.
    pub fn load_state(specs: &[CardSpec], fields: &mut Fields) -> Result<MapRegs, Bad>
        requires cards { IsCardList specs.now }
        ensures loaded { Loads (regs_fields specs.now) regs_bytes (AreMapRegs specs.now) fields.old fields.new result }
        ensures fitted { IfOk result (λ regs. AreFitted regs.cards.items) }
    {
        fields.are_bytes();
        MapRegs::read_state(specs, fields)
    }

    /// Reads the fields one after another.
    #[tactic(auto, unfolding(crate::specs::State::regs_fields))]
    fn read_state(specs: &[CardSpec], fields: &mut Fields) -> Result<MapRegs, Bad>
        requires few { length specs.now ≤ 8 }
        ensures took { Took (λ regs. regs) result fields.new (regs_fields specs.now fields.old) }
    {
        let drb = fields.array()?;
        let first = fields.array()?;
        let pam = fields.array()?;
        let others = fields.array()?;
        let cards = read_cards(specs, fields)?;
        Ok(MapRegs {
            drb,
            pam,
            singles: joined(first, others),
            cards,
        })
    }
}

/// Of each list of cards, one state has one spelling, and one spelling is of one state.
#[tactic(auto, using(crate::proofs::StateFormat::one_map_regs))]
pub fn law_one_map_regs()
    ensures one { (fitted : List FittedCard) → OneSpelling regs_bytes (AreMapRegs fitted) }
{}
