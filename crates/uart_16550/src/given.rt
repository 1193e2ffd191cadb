//! A chipset with a serial port: bytes that a caller keeps itself.

ghost use Rattle.std.specs.Prelude.{◌≡◌, ◌≢◌, ◌↔◌, length, IsErr, OnOk, OnErr};
ghost use Rattle.board_prelude.specs.{installed};
ghost use Rattle.board_chipset.specs.ChipsetState.{disk_size};
ghost use Rattle.board_chipset.specs.Given.{with_dram, with_fitted, with_sectors};

use crate::serial::SerialBoard;
use board_chipset::{Chipset, OtherLength};

impl SerialBoard<Chipset> {
    /// Replaces all bytes of the DRAM, as `Chipset::put_dram` does: refused exactly where they are not as many as are
    /// installed; then nothing has changed. It takes no memory.
    pub fn put_dram(&mut self, bytes: &[u8]) -> Result<(), OtherLength>
        ensures refused { IsErr result ↔ length bytes.now ≢ installed self.old.board.setup }
        ensures put { OnOk result
            (self.new ≡ record self.old { board = with_dram bytes.now self.old.board }) }
        ensures unchanged { OnErr result (self.new ≡ self.old) }
    {
        self.board.put_dram(bytes)
    }

    /// Replaces the bytes that the disk was fitted with, as `Chipset::put_fitted` does: refused exactly where they are
    /// not as many; then nothing has changed. It takes no memory.
    pub fn put_fitted(&mut self, bytes: &[u8]) -> Result<(), OtherLength>
        ensures refused { IsErr result ↔ length bytes.now ≢ disk_size self.old.board.setup }
        ensures put { OnOk result
            (self.new ≡ record self.old { board = with_fitted bytes.now self.old.board }) }
        ensures unchanged { OnErr result (self.new ≡ self.old) }
    {
        self.board.put_fitted(bytes)
    }

    /// Replaces the bytes of all sectors of the disk, as `Chipset::put_sectors` does: refused exactly where they are
    /// not as many; then nothing has changed. It takes no memory.
    pub fn put_sectors(&mut self, bytes: &[u8]) -> Result<(), OtherLength>
        ensures refused { IsErr result ↔ length bytes.now ≢ disk_size self.old.board.setup }
        ensures put { OnOk result
            (self.new ≡ record self.old { board = with_sectors bytes.now self.old.board }) }
        ensures unchanged { OnErr result (self.new ≡ self.old) }
    {
        self.board.put_sectors(bytes)
    }
}
