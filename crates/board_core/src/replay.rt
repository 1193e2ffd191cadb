//! A board that keeps no history: each step returns its entry.

ghost use Rattle.std.specs.Prelude.{◌≡◌, ◌+◌, ◌<◌, ◌≤◌, ◌↔◌, ℕ, true, List, [], ◌∷◌, length, slice_index, Err, IfOk};
ghost use Rattle.board_prelude.specs.{Entry, Port, is_hard_reset, most_mib, most_card_memory, entry_limit, IsCardList};
ghost use Rattle.board_prelude.specs.{IsDisk, IsRomSize, IsSetup, memory_of_cards, IsInRange, byte_of, map_change_of};
ghost use Rattle.board_prelude.specs.{version_of, IsFlatMapOf, disk_of};
ghost use Rattle.addr_decode.specs.MapRegs.{StandsFor, map_bytes};
ghost use Rattle.dram_store.specs.Dram.{IsDramOf};
ghost use Rattle.pci_bars.specs.Contents.{IsContentsOf};
ghost use Rattle.board_chipset.specs.declared.setup.BoardOpen.{BoardOpen};
ghost use Rattle.board_chipset.specs.Resets.{reset_of};
ghost use Rattle.board_chipset.specs.Stores.{IsOfBoard, IsStoreOf};
ghost use Rattle.board_core.specs.Kept.{HasPlayed, entry_of};

use addr_decode::MapChange;
use board_base::PortAccess;
use board_chipset::{BoardOpen, Chipset, ResetKind, Setup, Store};
use board_spec::limits::ACTORS;
use board_spec::{Entry, Event, Reply};
use map_builder::FlatMap;
use std::alloc::Global;
use std::marker::Model;

/// A board that keeps no history. Contracts see its chipset and how many entries there were, and which histories it may
/// have played. `board_example::replay` has an example.
#[derive(Drop)]
pub struct Replay {
    chipset: Chipset,
    count: u32,
    /// How many entries each processor has.
    counts: [u32; ACTORS],
}

impl Model for Replay {
    ghost use Rattle.board_core.specs.Kept.{HasPlayedSome, Playing};

    ghost Value = { Playing };

    ghost view = { λ replay. record { chipset = replay.chipset; count = replay.count; counts = replay.counts } };

    ghost invariant = { λ replay.
        HasPlayedSome (record { chipset = replay.chipset; count = replay.count; counts = replay.counts }) };
}

/// No entries yet.
fn no_entries() -> [u32; ACTORS]
    ensures none { (actor : ℕ) → slice_index result actor ≡ 0 }
{
    [0; ACTORS]
}

impl Replay {
    /// The board of a setup, as after power-on. The memory is 1 to 512 MiB; the cards are at most eight in rising order
    /// of device, with at most 64 MiB of memory together. BadRom exactly where the ROM is not of 64, 128, 256 or
    /// 512 KiB, and BadDisk exactly where it is and the disk is not of 1 to 65,536 whole sectors.
    #[tactic(auto, using(crate::proofs::Boards::not_refused))]
    pub fn open(alloc: Global, setup: Setup) -> Result<Replay, BoardOpen>
        requires low { 1 ≤ setup.mib }
        requires high { setup.mib ≤ most_mib }
        requires cards { IsCardList setup.cards }
        requires windows { memory_of_cards setup.cards ≤ most_card_memory }
        ensures setup { IfOk result (λ replay. replay.chipset.setup ≡ setup) }
        ensures fresh { IfOk result (λ replay. HasPlayed replay []) }
        ensures bad_rom { (result ≡ Err BoardOpen.BadRom) ↔ ¬ IsRomSize (length setup.rom) }
        ensures bad_disk { (result ≡ Err BoardOpen.BadDisk) ↔ IsRomSize (length setup.rom) × ¬ IsDisk setup.disk }
    {
        let chipset = Chipset::open(alloc, setup)?;
        Ok(Replay {
            chipset,
            count: 0,
            counts: no_entries(),
        })
    }

    /// Does an event of a processor, and returns the reply of the entry that it adds to the history, which stays legal.
    /// The entry's number among its processor's is `last_of` then. There were fewer than 3,999,999 entries. It takes no
    /// memory.
    pub fn answer(&mut self, actor: u8, event: &Event) -> Reply
        requires in_range { IsInRange self.old.chipset.setup event.now }
        requires few { self.old.count + 1 < entry_limit }
        ensures played { (history : List Entry) → HasPlayed self.old history
            → HasPlayed self.new (entry_of self.new actor event.now result ∷ history) }
        ensures setup { self.new.chipset.setup ≡ self.old.chipset.setup }
        ensures count { self.new.count ≡ self.old.count + 1 }
    {
        let reply = self.chipset.step(event);
        let seq = self.counts[usize::from(actor)] + 1;
        self.counts[usize::from(actor)] = seq;
        self.count += 1;
        reply
    }

    /// The number of a processor's last entry, and 0 before its first.
    #[inline]
    pub fn last_of(&self, actor: u8) -> u32
        ensures last { result ≡ slice_index self.now.counts actor }
    {
        self.counts[usize::from(actor)]
    }

    /// Does an event of a processor, and returns the entry that it adds to the history, which stays legal. There were
    /// fewer than 3,999,999 entries. It takes no memory.
    pub fn step(&mut self, actor: u8, event: &Event) -> Entry
        requires in_range { IsInRange self.old.chipset.setup event.now }
        requires few { self.old.count + 1 < entry_limit }
        ensures asked { (result.actor ≡ actor) × (result.event ≡ event.now) }
        ensures played { (history : List Entry) → HasPlayed self.old history → HasPlayed self.new (result ∷ history) }
        ensures setup { self.new.chipset.setup ≡ self.old.chipset.setup }
        ensures count { self.new.count ≡ self.old.count + 1 }
    {
        let reply = self.answer(actor, event);
        Entry {
            actor,
            seq: self.last_of(actor),
            event: *event,
            reply,
        }
    }

    /// How many entries there were.
    pub fn count(&self) -> u32
        ensures count { result ≡ self.now.count }
    {
        self.count
    }

    /// The change of the memory map that an event would make now: a store to a register that the map depends on, or a
    /// hard reset. None where it would make none.
    pub fn map_change(&self, event: &Event) -> Option<MapChange>
        ensures change { (history : List Entry) → HasPlayed self.now history
            → result ≡ map_change_of self.now.chipset.setup history event.now }
    {
        self.chipset.map_change(event)
    }

    /// The reset that an access at a port would make now.
    pub fn reset_by(&self, access: &PortAccess) -> ResetKind
        ensures kind { (history : List Entry) → HasPlayed self.now history
            → result ≡ reset_of history (Port access.now) }
        ensures hard { (history : List Entry) → HasPlayed self.now history
            → (result ≡ ResetKind.Hard) ↔ (is_hard_reset history (Port access.now) ≡ true) }
    {
        self.chipset.reset_by(access)
    }

    /// What the board is fitted with, which is a setup that a board can have.
    #[tactic(auto, using(crate::proofs::Boards::fitted))]
    pub fn setup(&self) -> &Setup
        ensures setup { result.now ≡ self.now.chipset.setup }
        ensures fitted { IsSetup self.now.chipset.setup }
    {
        self.chipset.setup()
    }

    /// The registers and bytes that the history left. It takes no memory.
    pub fn into_store(self) -> Store
        ensures regs { (history : List Entry) → HasPlayed self history
            → StandsFor self.chipset.setup (byte_of self.chipset.setup history) (map_bytes result.regs) }
        ensures dram { (history : List Entry) → HasPlayed self history
            → IsDramOf self.chipset.setup history result.dram }
        ensures contents { (history : List Entry) → HasPlayed self history
            → IsContentsOf self.chipset.setup history result.contents }
        ensures rom { result.rom.items ≡ self.chipset.setup.rom }
        ensures disk { (history : List Entry) → HasPlayed self history
            → result.disk ≡ disk_of self.chipset.setup history }
        ensures store { (history : List Entry) → HasPlayed self history
            → IsStoreOf self.chipset.setup (byte_of self.chipset.setup history) result }
        ensures sound { IsOfBoard result }
    {
        let Replay { chipset, .. } = self;
        chipset.into_store()
    }

    /// The memory map of the registers as they stand. Its version is the number of map writes so far: the stores to a
    /// register that the map depends on, and the hard resets.
    #[tactic(auto, using(board_chipset::proofs::Exact::few_versions, crate::proofs::Boards::few_versions))]
    pub fn map(&self) -> &FlatMap
        ensures stands { (history : List Entry) → HasPlayed self.now history
            → StandsFor self.now.chipset.setup (byte_of self.now.chipset.setup history) result.now.regs }
        ensures map { (history : List Entry) → HasPlayed self.now history
            → IsFlatMapOf self.now.chipset.setup (byte_of self.now.chipset.setup history) result.now.ranges }
        ensures version { (history : List Entry) → HasPlayed self.now history
            → result.now.version ≡ version_of self.now.chipset.setup history }
    {
        self.chipset.map()
    }
}
