//! The registers that the address map depends on.
ghost use Rattle.std.specs.Prelude.{◌≡◌};
ghost use Rattle.board_prelude.specs.{Setup, IsCardList, reset_byte};
ghost use Rattle.pci_bars.specs.Cards.{AreCardsOf, AreFitted, AreReset, cards_of};
ghost use Rattle.addr_decode.specs.MapRegs.{StandsFor, map_bytes};

use crate::singles::{Singles, reset_singles};
use arrayvec::ArrayVec;
use host_bridge::{DRB_RESET, PAM_RESET};
use pci_bars::{CARD_COUNT, CardRegs, CardSpec, push_card};

/// The registers that the address map depends on: DRB0 to DRB7 and PAM0 to PAM6 of the host bridge, the registers of
/// one byte each by their numbers, and the cards in rising order of device.
#[derive(Drop)]
pub struct MapRegs {
    pub drb: [u8; 8],
    pub pam: [u8; 7],
    pub singles: Singles,
    pub cards: ArrayVec<CardRegs, CARD_COUNT>,
}

impl MapRegs {
    /// The registers after a reset of a board with these cards: at most eight, in rising order of device.
    pub fn reset_of(specs: &[CardSpec]) -> MapRegs
        requires cards { IsCardList specs.now }
        ensures stands { (setup : Setup) → setup.cards ≡ specs.now
            → StandsFor setup (reset_byte setup) (map_bytes result) }
        ensures reset { (setup : Setup) → setup.cards ≡ specs.now
            → AreCardsOf setup (reset_byte setup) result.cards.items }
        ensures cards { cards_of result.cards.items ≡ specs.now }
        ensures fitted { AreFitted result.cards.items }
    {
        let mut cards = ArrayVec::new();
        for spec in specs {
            push_card(&mut cards, spec.copy());
        }
        after_reset(cards)
    }

    /// An equal value. It takes no memory.
    pub fn copy(&self) -> MapRegs
        ensures equal { map_bytes result ≡ map_bytes self.now }
    {
        let mut cards = ArrayVec::new();
        for card in self.cards.as_slice() {
            cards.push(card.copy());
        }
        MapRegs {
            drb: self.drb,
            pam: self.pam,
            singles: self.singles,
            cards,
        }
    }

    /// Gives every register its value after a reset.
    pub(crate) fn reset(&mut self)
        requires cards { AreFitted self.old.cards.items }
        ensures stands { (setup : Setup) → setup.cards ≡ cards_of self.old.cards.items
            → StandsFor setup (reset_byte setup) (map_bytes self.new) }
        ensures reset { (setup : Setup) → setup.cards ≡ cards_of self.old.cards.items
            → AreCardsOf setup (reset_byte setup) self.new.cards.items }
        ensures same_cards { cards_of self.new.cards.items ≡ cards_of self.old.cards.items }
    {
        let mut cards = ArrayVec::new();
        for card in self.cards.as_slice() {
            push_card(&mut cards, card.spec.copy());
        }
        *self = after_reset(cards);
    }
}

/// The registers after a reset, with cards that a reset left.
fn after_reset(cards: ArrayVec<CardRegs, CARD_COUNT>) -> MapRegs
    requires reset { AreReset cards.items }
    requires cards { AreFitted cards.items }
    ensures stands { (setup : Setup) → setup.cards ≡ cards_of cards.items
        → StandsFor setup (reset_byte setup) (map_bytes result) }
    ensures reset { (setup : Setup) → setup.cards ≡ cards_of cards.items
        → AreCardsOf setup (reset_byte setup) result.cards.items }
    ensures cards { result.cards ≡ cards }
{
    MapRegs {
        drb: [DRB_RESET; 8],
        pam: [PAM_RESET; 7],
        singles: reset_singles(),
        cards,
    }
}
