//! The cards by their device numbers.
ghost use Rattle.std.specs.Prelude.{◌≡◌};
ghost use Rattle.board_prelude.specs.{Setup, Bytes, card_register};
ghost use Rattle.pci_bars.specs.Cards.{AreCardsOf, AreDecoded, AreFitted, cards_of};
ghost use Rattle.addr_decode.specs.MapRegs.{stored};

use arrayvec::ArrayVec;
use pci_bars::{CARD_COUNT, CardRegs, card_index};

/// Writes a byte of the card at a device number. Where there is none nothing happens.
pub fn write_card(cards: &mut ArrayVec<CardRegs, CARD_COUNT>, dev: u8, off: u8, byte: u8)
    requires cards { AreFitted cards.old.items }
    ensures decoded { (setup : Setup) (bytes : Bytes) → AreDecoded setup bytes cards.old.items
        → AreDecoded setup (stored setup bytes (card_register dev off) byte) cards.new.items }
    ensures written { (setup : Setup) (bytes : Bytes) → AreCardsOf setup bytes cards.old.items
        → AreCardsOf setup (stored setup bytes (card_register dev off) byte) cards.new.items }
    ensures same_cards { cards_of cards.new.items ≡ cards_of cards.old.items }
{
    if let Some(index) = card_index(cards, dev) {
        if let Some(card) = cards.get_mut(index) {
            card.write(off, byte);
        }
    }
}
