//! The DRAM, and the contents of the cards.
ghost use Rattle.std.specs.Prelude.{◌≡◌, ◌≤◌, ◌%◌, List, [], IfOk};
ghost use Rattle.board_prelude.specs.{bytes_of, largest_of, Entry, most_mib, Setup, IsCardList, byte_put, value_at};
ghost use Rattle.board_stores.specs.Targets.{IsStored};
ghost use Rattle.board_stores.specs.Values.{value_in};
ghost use Rattle.board_stores.specs.Puts.{HasStores, ArePut};

use board_base::{NoMemory, Target, Width};
use dram_store::Dram;
use pci_bars::{CardSpec, Contents};
use std::alloc::Global;

/// The DRAM, and the bytes behind each base of the cards.
#[derive(Drop)]
pub struct Stores {
    pub dram: Dram,
    pub contents: Contents,
}

impl Stores {
    /// `mib` MiB of DRAM, 1 to 512, and the contents of these cards, all zeros. No later call takes memory.
    pub fn open(alloc: Global, mib: u32, specs: &[CardSpec]) -> Result<Stores, NoMemory>
        requires low { 1 ≤ mib }
        requires high { mib ≤ most_mib }
        requires cards { IsCardList specs.now }
        ensures fresh { IfOk result (λ stores. (setup : Setup) → setup.mib ≡ mib → setup.cards ≡ specs.now
            → HasStores setup [] stores) }
    {
        let dram = Dram::open(alloc, mib)?;
        let contents = Contents::open(alloc, specs)?;
        Ok(Stores { dram, contents })
    }

    /// The value that a read at an address or a port gives, by what it reaches. Where nobody answers it is all ones.
    #[inline(always)]
    pub fn read(&self, target: Target, place: u32, width: Width) -> u32
        requires stored { IsStored self.now.contents target width }
        requires aligned { place % bytes_of width ≡ 0 }
        ensures stands { result ≡ value_in self.now target place width }
        ensures value { (setup : Setup) (history : List Entry) → HasStores setup history self.now
            → result ≡ value_at setup history target place width }
    {
        match target {
            Target::Dram(_) | Target::Shadow(_) | Target::Smram => self.dram.read(place, width),
            Target::Card(dev, base, off) => self.contents.read(dev, base, off, width),
            _ => width.largest(),
        }
    }

    /// Stores the bytes of a write at an address or a port, by what it reaches. Where nobody answers they are lost.
    #[inline(always)]
    pub fn write(&mut self, target: Target, place: u32, width: Width, value: u32)
        requires stored { IsStored self.old.contents target width }
        requires aligned { place % bytes_of width ≡ 0 }
        requires value { value ≤ largest_of width }
        ensures put { ArePut (byte_put target place width value) self.old self.new }
    {
        match target {
            Target::Dram(_) | Target::Shadow(_) | Target::Smram => {
                self.dram.write(place, width, value);
            }
            Target::Card(dev, base, off) => self.contents.write(dev, base, off, width, value),
            _ => {}
        }
    }
}
