//! A chipset with a serial port: bytes that are written to its cards from outside the bus.

ghost use Rattle.std.specs.Prelude.{◌≡◌, ◌<◌, ◌+◌, ◌↔◌, ◌++◌, List, length, IsErr, OnOk, OnErr};
ghost use Rattle.board_prelude.specs.{Entry};
ghost use Rattle.board_chipset.specs.Chipset.{IsLeftBy as IsChipsetLeftBy};
ghost use Rattle.board_chipset.specs.CardLoads.{WriteCard, card_size};
ghost use Rattle.uart_16550.specs.Serial.{AreOwn, IsLeftBy};

use crate::serial::SerialBoard;
use board_chipset::{Chipset, PastTheBase};

impl SerialBoard<Chipset> {
    /// Puts bytes into a base of a card from an offset on, as `Chipset::write_card` does: refused exactly where they do
    /// not all lie in it; then nothing has changed. It takes no memory.
    pub fn write_card(
        &mut self,
        dev: u8,
        base: u8,
        off: u32,
        bytes: &[u8],
    ) -> Result<(), PastTheBase>
        ensures refused { IsErr result ↔ card_size self.old.board.setup dev base < off + length bytes.now }
        ensures unchanged { OnErr result (self.new ≡ self.old) }
        ensures setup { self.new.board.setup ≡ self.old.board.setup }
        ensures com1 { self.new.com1 ≡ self.old.com1 }
        ensures left { OnOk result ((history entries : List Entry) → IsLeftBy IsChipsetLeftBy self.old history
            → WriteCard dev base off bytes.now entries → AreOwn entries
            → IsLeftBy IsChipsetLeftBy self.new (entries ++ history)) }
        ensures goes_on { (history : List Entry) → IsLeftBy IsChipsetLeftBy self.old history
            → (later : List Entry) × IsLeftBy IsChipsetLeftBy self.new later }
    {
        self.board.write_card(dev, base, off, bytes)
    }
}
