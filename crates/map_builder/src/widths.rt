//! The types of the registers as clauses, for the proofs: their values are bytes and doublewords.
ghost use Rattle.std.specs.Prelude.{◌<◌, ◌^◌, ℕ, All, slice_index};
ghost use Rattle.addr_decode.specs.MapRegs.{map_bytes};
ghost use Rattle.map_builder.specs.Map.{HoldsDoublewords, HaveWidths};

use addr_decode::MapRegs;
use pci_bars::CardRegs;

/// Does nothing: its clause says that the registers are bytes and doublewords.
pub fn hold_widths(regs: &MapRegs)
    ensures widths { HaveWidths (map_bytes regs.now) }
{
    are_bytes(&regs.drb);
    hold_doublewords(regs.cards.as_slice());
}

/// Does nothing: its clause says that the bases and expansion ROM registers of cards are doublewords.
fn hold_doublewords(cards: &[CardRegs])
    ensures doublewords { All HoldsDoublewords cards.now }
{
    for card in cards {
        hold_of_card(card);
    }
}

/// Does nothing: its clause says that the bases and the expansion ROM register of a card are doublewords.
fn hold_of_card(card: &CardRegs)
    ensures doublewords { HoldsDoublewords card.now }
{
    are_doublewords(&card.bases);
    is_doubleword(card.rom);
}

/// Does nothing: its clause says that the value is below 2^32.
fn is_doubleword(value: u32)
    ensures doubleword { value < 2 ^ 32 }
{}

/// Does nothing: its clause says that each of the values is below 2^8.
#[tactic(auto, using(std::proofs::lemmas::Bool::Decides::nat_tests))]
fn are_bytes(values: &[u8])
    ensures bytes { (k : ℕ) → slice_index values.now k < 2 ^ 8 }
{}

/// Does nothing: its clause says that each of the values is below 2^32.
#[tactic(auto, using(std::proofs::lemmas::Bool::Decides::nat_tests))]
fn are_doublewords(values: &[u32])
    ensures doublewords { (k : ℕ) → slice_index values.now k < 2 ^ 32 }
{}
