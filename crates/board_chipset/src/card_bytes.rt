//! Bytes of the cards, out and in without an access on the bus.

ghost use Rattle.std.specs.Prelude.{◌≡◌, ◌≤◌, ◌<◌, ◌+◌, ◌↔◌, ◌++◌, ℕ, true, false, List, length, slice_index, IsErr};
ghost use Rattle.std.specs.Prelude.{OnOk, OnErr};
ghost use Rattle.board_prelude.specs.{Entry, card_byte};
ghost use Rattle.pci_bars.specs.Contents.{IsBaseNumber};
ghost use Rattle.board_chipset.specs.Chipset.{IsLeftBy};
ghost use Rattle.board_chipset.specs.CardLoads.{WriteCard, card_size};

use crate::chipset::Chipset;
use thiserror::Error;

/// The first device number that a card can have.
const FIRST_DEVICE: u8 = 2;
/// The last one.
const LAST_DEVICE: u8 = 9;
/// The base numbers of a card: 0 to 5 for its bases, 6 for its expansion ROM, and 7 for its VGA window.
const BASE_NUMBERS: u8 = 8;

/// The refusal of bytes that do not all lie in a base.
#[derive(Clone, Copy, PartialEq, Eq, Debug, Error)]
#[error("the bytes do not all lie in the base of the card")]
pub struct PastTheBase;

impl Chipset {
    /// How many bytes are kept of a base of a card, 0 to 5, or 7 for the VGA window A0000h to BFFFFh. 0 where there is
    /// no such card or base, of an outside base, and of an expansion ROM, base 6, whose bytes are fixed.
    #[tactic(auto, using(crate::proofs::CardLoadSteps::none_without_number))]
    pub fn card_size(&self, dev: u8, base: u8) -> usize
        ensures size { result ≡ card_size self.now.setup dev base }
    {
        let contents = &self.state.stores.contents;
        if !is_base_number(dev, base) {
            return 0;
        }
        contents.size(dev, base)
    }

    /// Copies the bytes of a base of a card from an offset on. Refused exactly where they do not all lie in it
    /// (`card_size`); then nothing is copied.
    #[tactic(auto, using(crate::proofs::CardLoadSteps::copied_out), unfolding(crate::specs::Chipset::IsLeftBy))]
    pub fn card_bytes(
        &self,
        dev: u8,
        base: u8,
        off: u32,
        into: &mut [u8],
    ) -> Result<(), PastTheBase>
        ensures refused { IsErr result ↔ card_size self.now.setup dev base < off + length into.old }
        ensures untold { OnErr result (into.new ≡ into.old) }
        ensures size { length into.new ≡ length into.old }
        ensures bytes { OnOk result ((history : List Entry) (k : ℕ) → IsLeftBy self.now history → k < length into.old
            → slice_index into.new k ≡ card_byte self.now.setup history dev base (off + k)) }
    {
        self.test_card(dev, base, off, into.len())?;
        if into.is_empty() {
            return Ok(());
        }
        self.state.stores.contents.read_bytes(dev, base, off, into);
        Ok(())
    }

    /// Puts bytes into a base of a card from an offset on, as if writes had put them there one after another. Refused
    /// exactly where they do not all lie in it (`card_size`); then nothing has changed. It takes no memory.
    pub fn write_card(
        &mut self,
        dev: u8,
        base: u8,
        off: u32,
        bytes: &[u8],
    ) -> Result<(), PastTheBase>
        ensures refused { IsErr result ↔ card_size self.old.setup dev base < off + length bytes.now }
        ensures unchanged { OnErr result (self.new ≡ self.old) }
        ensures setup { self.new.setup ≡ self.old.setup }
        ensures left { OnOk result ((history entries : List Entry) → IsLeftBy self.old history
            → WriteCard dev base off bytes.now entries → IsLeftBy self.new (entries ++ history)) }
        ensures goes_on { (history : List Entry) → IsLeftBy self.old history
            → (later : List Entry) × IsLeftBy self.new later }
    {
        self.test_card(dev, base, off, bytes.len())?;
        if bytes.is_empty() {
            return Ok(());
        }
        self.state
            .stores
            .contents
            .write_bytes(dev, base, off, bytes);
        Ok(())
    }

    /// Tests that so many bytes from an offset on lie in a base of a card.
    fn test_card(&self, dev: u8, base: u8, off: u32, count: usize) -> Result<(), PastTheBase>
        ensures past { OnErr result (card_size self.now.setup dev base < off + count) }
        ensures within { OnOk result (off + count ≤ card_size self.now.setup dev base) }
    {
        let size = self.card_size(dev, base);
        if size < off as usize || size - (off as usize) < count {
            return Err(PastTheBase);
        }
        Ok(())
    }
}

/// Whether a card can have the device number, and a base the number.
fn is_base_number(dev: u8, base: u8) -> bool
    ensures number { result ≡ true → IsBaseNumber dev base }
    ensures none { result ≡ false → ¬ IsBaseNumber dev base }
{
    FIRST_DEVICE <= dev && dev <= LAST_DEVICE && base < BASE_NUMBERS
}
