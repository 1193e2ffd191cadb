//! What a monitor can read of a chipset's bytes without an access on the bus.

ghost use Rattle.std.specs.Prelude.{◌≡◌, ◌≤◌, ◌*◌, List, length, option_map};
ghost use Rattle.board_prelude.specs.{Entry, disk_of, most_mib};
ghost use Rattle.dram_store.specs.Bank.{bank_size};
ghost use Rattle.dram_store.specs.Dram.{IsDramOf};
ghost use Rattle.pci_bars.specs.Contents.{IsContentsOf};
ghost use Rattle.board_chipset.specs.Chipset.{IsLeftBy};

use crate::chipset::Chipset;
use ata_pio::Ata;
use dram_store::Dram;
use pci_bars::Contents;

impl Chipset {
    /// The DRAM: its bytes can be copied out in stretches, or seen in place, of each MiB those up to the highest page
    /// written.
    #[tactic(auto, unfolding(crate::specs::Chipset::IsLeftBy))]
    pub fn dram(&self) -> &Dram
        ensures dram { (history : List Entry) → IsLeftBy self.now history
            → IsDramOf self.now.setup history result.now }
        ensures held { result.now ≡ self.now.state.stores.dram }
        ensures few { length result.now ≤ most_mib * bank_size }
    {
        &self.state.stores.dram
    }

    /// The bytes behind the bases and VGA windows of the cards.
    #[tactic(auto, unfolding(crate::specs::Chipset::IsLeftBy))]
    pub fn contents(&self) -> &Contents
        ensures contents { (history : List Entry) → IsLeftBy self.now history
            → IsContentsOf self.now.setup history result.now }
    {
        &self.state.stores.contents
    }

    /// The disk, where one is fitted. Its sectors can be seen in place.
    #[tactic(auto, unfolding(crate::specs::Chipset::IsLeftBy))]
    pub fn disk(&self) -> Option<&Ata>
        ensures disk { (history : List Entry) → IsLeftBy self.now history
            → option_map (λ disk. disk.now) result ≡ disk_of self.now.setup history }
        ensures held { option_map (λ disk. disk.now) result ≡ self.now.state.devices.disk }
    {
        self.state.devices.disk()
    }
}
