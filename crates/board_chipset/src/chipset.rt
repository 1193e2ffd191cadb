//! The chipset: each event is one step, and its reply the answer to the history so far, which is not kept.

ghost use Rattle.std.specs.Prelude.{◌≡◌, ◌<◌, ◌≤◌, ◌%◌, ◌↔◌, List, [], ◌∷◌, length, Err, IfOk};
ghost use Rattle.board_prelude.specs.{Entry, most_mib, most_card_memory, IsCardList, IsDisk, IsRomSize, IsSetup};
ghost use Rattle.board_prelude.specs.{memory_of_cards, IsInRange, IsAnswer, byte_of, map_change_of, version_of};
ghost use Rattle.board_prelude.specs.{IsFlatMapOf, disk_of};
ghost use Rattle.addr_decode.specs.MapRegs.{StandsFor, map_bytes};
ghost use Rattle.dram_store.specs.Dram.{IsDramOf};
ghost use Rattle.pci_bars.specs.Contents.{IsContentsOf};
ghost use Rattle.board_chipset.specs.Chipset.{IsLeftBy, IsRunning};
ghost use Rattle.board_chipset.specs.Held.{HoldsBytes};
ghost use Rattle.board_chipset.specs.Stores.{IsOfBoard, IsStoreOf};
ghost use Rattle.board_chipset.specs.Versions.{version_count, AreLastChanged, IsAnswerModulo};

use crate::setup::{BoardOpen, Setup};
use crate::state::State;
use crate::step::step;
use crate::store::Store;
use addr_decode::MapChange;
use board_spec::{Event, Reply};
use map_builder::FlatMap;
use std::alloc::Global;
use std::marker::Model;

/// A chipset. Contracts see its setup, and which histories leave a board of that setup as this one is.
#[derive(Drop)]
pub struct Chipset {
    pub(crate) setup: Setup,
    pub(crate) state: State,
}

impl Model for Chipset {
    ghost use Rattle.board_chipset.specs.Chipset.{Running, IsRunning};

    ghost Value = { Running };

    ghost view = { λ chipset. record { setup = chipset.setup; state = chipset.state } };

    ghost invariant = { λ chipset. IsRunning (record { setup = chipset.setup; state = chipset.state }) };
}

impl Chipset {
    /// The chipset of a setup, as after power-on. The memory is 1 to 512 MiB; the cards are at most eight in rising
    /// order of device, with at most 64 MiB of memory together. BadRom exactly where the ROM is not of 64, 128, 256 or
    /// 512 KiB, and BadDisk exactly where it is and the disk is not of 1 to 65,536 whole sectors.
    #[tactic(auto, unfolding(crate::specs::Chipset::IsLeftBy))]
    pub fn open(alloc: Global, setup: Setup) -> Result<Chipset, BoardOpen>
        requires low { 1 ≤ setup.mib }
        requires high { setup.mib ≤ most_mib }
        requires cards { IsCardList setup.cards }
        requires windows { memory_of_cards setup.cards ≤ most_card_memory }
        ensures fresh { IfOk result (λ chipset. (chipset.setup ≡ setup) × IsLeftBy chipset []) }
        ensures bad_rom { (result ≡ Err BoardOpen.BadRom) ↔ ¬ IsRomSize (length setup.rom) }
        ensures bad_disk { (result ≡ Err BoardOpen.BadDisk) ↔ IsRomSize (length setup.rom) × ¬ IsDisk setup.disk }
    {
        let state = State::open(alloc, &setup)?;
        Ok(Chipset { setup, state })
    }

    /// Does an event that is in range, and returns the reply: the answer after the history so far. A look's reply has
    /// the version of the map modulo 2^32. It takes no memory.
    #[tactic(auto, using(crate::proofs::Exact::exactly), unfolding(crate::specs::Chipset::IsLeftBy))]
    pub fn step(&mut self, event: &Event) -> Reply
        requires in_range { IsInRange self.old.setup event.now }
        ensures setup { self.new.setup ≡ self.old.setup }
        ensures answer { (history : List Entry) → IsLeftBy self.old history
            → IsAnswerModulo self.old.setup history event.now result }
        ensures exact { (history : List Entry) → IsLeftBy self.old history
            → version_of self.old.setup history < version_count → IsAnswer self.old.setup history event.now result }
        ensures left { (history : List Entry) (entry : Entry) → IsLeftBy self.old history
            → entry.event ≡ event.now → entry.reply ≡ result → IsLeftBy self.new (entry ∷ history) }
    {
        step(&mut self.state, self.setup.rom(), event)
    }

    /// The change of the memory map that an event would make now: a store to a register that the map depends on, or a
    /// hard reset. None where it would make none.
    #[tactic(auto, unfolding(crate::specs::Chipset::IsLeftBy, board_spec::specs::MapWrites::map_change_of))]
    pub fn map_change(&self, event: &Event) -> Option<MapChange>
        ensures change { (history : List Entry) → IsLeftBy self.now history
            → result ≡ map_change_of self.now.setup history event.now }
    {
        match event {
            Event::Port(access) => {
                let disk = self.state.devices.has_disk();
                self.state.registers.map_change(access, disk)
            }
            _ => None,
        }
    }

    /// What the chipset is fitted with.
    pub fn setup(&self) -> &Setup
        ensures setup { result.now ≡ self.now.setup }
        ensures fits { IsSetup self.now.setup }
    {
        &self.setup
    }

    /// The memory map of the registers as they stand. Its version is the number of map writes so far, modulo 2^32: the
    /// stores to a register that the map depends on, and the hard resets. The registers are those of the state, also
    /// where no history left it so.
    #[tactic(auto, unfolding(crate::specs::Chipset::IsLeftBy))]
    pub fn map(&self) -> &FlatMap
        ensures held { result.now ≡ self.now.state.registers.map }
        ensures bytes { (history : List Entry) → IsLeftBy self.now history
            → HoldsBytes self.now (byte_of self.now.setup history) }
        ensures sound { IsRunning self.now }
        ensures stands { (history : List Entry) → IsLeftBy self.now history
            → StandsFor self.now.setup (byte_of self.now.setup history) result.now.regs }
        ensures map { (history : List Entry) → IsLeftBy self.now history
            → IsFlatMapOf self.now.setup (byte_of self.now.setup history) result.now.ranges }
        ensures version { (history : List Entry) → IsLeftBy self.now history
            → result.now.version ≡ version_of self.now.setup history % version_count }
        ensures changed { (history : List Entry) → IsLeftBy self.now history
            → AreLastChanged self.now.setup history result.now.changed }
    {
        &self.state.registers.map
    }

    /// Ends the chipset, and gives the registers and bytes as they stand, for a bus master. It takes no memory.
    #[tactic(auto, unfolding(crate::specs::Chipset::IsLeftBy))]
    pub fn into_store(self) -> Store
        ensures regs { (history : List Entry) → IsLeftBy self history
            → StandsFor self.setup (byte_of self.setup history) (map_bytes result.regs) }
        ensures dram { (history : List Entry) → IsLeftBy self history → IsDramOf self.setup history result.dram }
        ensures contents { (history : List Entry) → IsLeftBy self history
            → IsContentsOf self.setup history result.contents }
        ensures rom { result.rom.items ≡ self.setup.rom }
        ensures disk { (history : List Entry) → IsLeftBy self history → result.disk ≡ disk_of self.setup history }
        ensures store { (history : List Entry) → IsLeftBy self history
            → IsStoreOf self.setup (byte_of self.setup history) result }
        ensures sound { IsOfBoard result }
    {
        let regs = self.state.registers.regs().copy();
        let Chipset { setup, state } = self;
        let State {
            stores,
            devices,
            ..
        } = state;
        Store {
            regs,
            dram: stores.dram,
            contents: stores.contents,
            rom: setup.rom,
            disk: devices.into_disk(),
        }
    }
}
