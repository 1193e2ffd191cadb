//! What a bus master needs of a board: the registers of the memory map, the bytes behind its addresses, and the disk.

ghost use Rattle.std.specs.Prelude.{◌≡◌};
ghost use Rattle.board_prelude.specs.{byte_of, disk_of};
ghost use Rattle.addr_decode.specs.MapRegs.{StandsFor, map_bytes};
ghost use Rattle.dram_store.specs.Dram.{IsDramOf};
ghost use Rattle.pci_bars.specs.Contents.{IsContentsOf};

use addr_decode::MapRegs;
use ata_pio::Ata;
use dram_store::Dram;
use pci_bars::Contents;

/// The registers that the memory map depends on, the bytes behind the addresses, the BIOS ROM, and the disk where one
/// is fitted.
#[derive(Drop)]
pub struct Store {
    pub regs: MapRegs,
    pub dram: Dram,
    pub contents: Contents,
    pub rom: Vec<u8>,
    pub disk: Option<Ata>,
}
