//! The cards of a board, in rising order of device.
ghost use Rattle.std.specs.Prelude.{◌≡◌, ◌==◌, ◌+◌, ◌<◌, ◌++◌, [], ◌∷◌, find, option_map};
ghost use Rattle.board_prelude.specs.{position, Setup, IsCard, card_at};
ghost use Rattle.arrayvec.specs.ArrayVec.{array_vec_len};
ghost use Rattle.pci_bars.specs.Cards.{IsCardAdded, cards_of};

use crate::regs::CardRegs;
use crate::spec::CardSpec;
use arrayvec::ArrayVec;

/// How many cards a board can have: one for each device number from 2 to 9.
pub const CARD_COUNT: usize = 8;

/// The place of the card at a device number in the list. None where no card has it.
pub fn card_index(cards: &[CardRegs], dev: u8) -> Option<usize>
    ensures index { result ≡ position (λ card. card.card.dev == dev) cards.now }
{
    cards.iter().position(|card| card.spec.dev == dev)
}

/// The card at a device number. None where no card has it.
pub fn card_at(cards: &[CardRegs], dev: u8) -> Option<&CardRegs>
    ensures found { option_map (λ card. card.now) result ≡ find (λ card. card.card.dev == dev) cards.now }
    ensures fitted { (setup : Setup) → setup.cards ≡ cards_of cards.now
        → option_map (λ card. card.now.card) result ≡ card_at setup dev }
{
    cards.get(card_index(cards, dev)?)
}

/// Adds a card as a reset leaves it. The cards that were there stay as they are.
pub fn push_card(cards: &mut ArrayVec<CardRegs, CARD_COUNT>, spec: CardSpec)
    requires room { array_vec_len cards.old < 8 }
    requires card { IsCard spec }
    ensures added { IsCardAdded cards.old.items cards.new.items spec }
{
    cards.push(CardRegs::new(spec));
}
