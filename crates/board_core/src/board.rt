//! The board: each event is one step, which adds one entry to a history that is legal at every moment.

ghost use Rattle.std.specs.Prelude.{◌≡◌, ◌-◌, ◌+◌, ◌++◌, ◌<◌, ◌≤◌, ◌↔◌, List, [], ◌∷◌, length, max, Err, IsTrue, IfOk};
ghost use Rattle.std.specs.Prelude.{OnOk, OnErr, true};
ghost use Rattle.board_prelude.specs.{Entry, Port, is_hard_reset, most_mib, most_card_memory, entry_limit, IsCardList};
ghost use Rattle.board_prelude.specs.{IsDisk, IsRomSize, IsSetup, memory_of_cards, IsInRange, IsAnswer, IsLegal};
ghost use Rattle.board_prelude.specs.{entries_by, next_entry, statements_of, byte_of, map_change_of, version_of};
ghost use Rattle.board_prelude.specs.{IsFlatMapOf, disk_of};
ghost use Rattle.addr_decode.specs.MapRegs.{StandsFor, map_bytes};
ghost use Rattle.dram_store.specs.Dram.{IsDramOf};
ghost use Rattle.pci_bars.specs.Contents.{IsContentsOf};
ghost use Rattle.board_chipset.specs.declared.setup.BoardOpen.{BoardOpen};
ghost use Rattle.board_chipset.specs.Resets.{reset_of};
ghost use Rattle.board_chipset.specs.Stores.{IsOfBoard, IsStoreOf};
ghost use Rattle.board_core.specs.Kept.{HasPlayed};
ghost use Rattle.board_core.specs.Steps.{AreInRange};

use crate::replay::Replay;
use access_history::History;
use addr_decode::MapChange;
use board_base::{NoMemory, PortAccess};
use board_chipset::{BoardOpen, ResetKind, Setup, Store};
use board_spec::{Entry, Event, Reply, Statement};
use map_builder::FlatMap;
use std::alloc::Global;
use std::marker::Model;

/// A board. Contracts see its setup, its history and the room for more entries. `board_example::reset_vector` is an
/// example.
#[derive(Drop)]
pub struct Board {
    replay: Replay,
    history: History,
}

impl Model for Board {
    ghost use Rattle.board_core.specs.Kept.{HasHistory, Standing};

    ghost Value = { Standing };

    ghost view = { λ board. record {
      setup = board.replay.chipset.setup;
      entries = board.history.entries;
      spare = board.history.spare;
    } };

    ghost invariant = { λ board. HasHistory board.replay board.history.entries board.history.spare };
}

impl Board {
    /// The board of a setup, as after power-on. The memory is 1 to 512 MiB; the cards are at most eight in rising order
    /// of device, with at most 64 MiB of memory together. BadRom exactly where the ROM is not of 64, 128, 256 or
    /// 512 KiB, and BadDisk exactly where it is and the disk is not of 1 to 65,536 whole sectors.
    #[tactic(auto, using(crate::proofs::Boards::not_refused))]
    pub fn open(alloc: Global, setup: Setup) -> Result<Board, BoardOpen>
        requires low { 1 ≤ setup.mib }
        requires high { setup.mib ≤ most_mib }
        requires cards { IsCardList setup.cards }
        requires windows { memory_of_cards setup.cards ≤ most_card_memory }
        ensures fresh { IfOk result (λ board. board ≡ record { setup = setup; entries = []; spare = 0 }) }
        ensures bad_rom { (result ≡ Err BoardOpen.BadRom) ↔ ¬ IsRomSize (length setup.rom) }
        ensures bad_disk { (result ≡ Err BoardOpen.BadDisk) ↔ IsRomSize (length setup.rom) × ¬ IsDisk setup.disk }
    {
        let replay = Replay::open(alloc, setup)?;
        Ok(Board {
            replay,
            history: History::new(alloc),
        })
    }

    /// Makes room for at least `n` more entries, where the history with them stays below 4,000,000. Refused for want of
    /// memory; then the board is as before.
    pub fn reserve(&mut self, n: u32) -> Result<(), NoMemory>
        requires { length self.old.entries + n < entry_limit }
        ensures ok { OnOk result (self.new ≡ record self.old { spare = max self.old.spare n }) }
        ensures err { OnErr result (self.new ≡ self.old) }
    {
        self.history.reserve(n)
    }

    /// Does an event of a processor, and returns the reply. It takes no memory.
    pub fn step(&mut self, actor: u8, event: &Event) -> Reply
        requires in_range { IsInRange self.old.setup event.now }
        requires spare { 1 ≤ self.old.spare }
        ensures answer { IsAnswer self.old.setup self.old.entries event.now result }
        ensures entry { self.new ≡ record self.old {
          entries = next_entry self.old.entries actor event.now result ∷ self.old.entries;
          spare = self.old.spare - 1;
        } }
    {
        let reply = self.replay.answer(actor, event);
        let seq = self.replay.last_of(actor);
        self.history.add(actor, seq, event, &reply);
        reply
    }

    /// The number of a processor's last entry, and 0 before its first.
    #[inline]
    pub fn last_of(&self, actor: u8) -> u32
        ensures last { result ≡ length (entries_by actor self.now.entries) }
    {
        self.replay.last_of(actor)
    }

    /// Does statements in their order.
    pub fn steps(&mut self, statements: &[Statement])
        requires in_range { AreInRange self.old.setup statements.now }
        requires spare { length statements.now ≤ self.old.spare }
        ensures setup { self.new.setup ≡ self.old.setup }
        ensures spare { self.new.spare ≡ self.old.spare - length statements.now }
        ensures legal { IsLegal self.new.setup self.new.entries }
        ensures grows { (more : List Entry) × (self.new.entries ≡ more ++ self.old.entries) }
        ensures same { statements_of self.new.entries ≡ statements_of self.old.entries ++ statements.now }
    {
        for statement in statements {
            self.step(statement.actor, &statement.event);
        }
        // The prover knows what always holds of a board where a field is used.
        let _ = &self.replay;
    }

    /// The events and the replies so far: each reply is the answer of the definitions, and each
    /// processor's entries are numbered from 1.
    pub fn history(&self) -> &History
        ensures legal { IsLegal self.now.setup self.now.entries }
        ensures history { result.now ≡ record { entries = self.now.entries; spare = self.now.spare } }
    {
        &self.history
    }

    /// The change of the memory map that an event would make now: a store to a register that the map depends on, or a
    /// hard reset. None where it would make none.
    pub fn map_change(&self, event: &Event) -> Option<MapChange>
        ensures change { result ≡ map_change_of self.now.setup self.now.entries event.now }
    {
        self.replay.map_change(event)
    }

    /// The reset that an access at a port would make now.
    pub fn reset_by(&self, access: &PortAccess) -> ResetKind
        ensures kind { result ≡ reset_of self.now.entries (Port access.now) }
        ensures hard { (result ≡ ResetKind.Hard) ↔ (is_hard_reset self.now.entries (Port access.now) ≡ true) }
    {
        self.replay.reset_by(access)
    }

    /// What the board is fitted with, which is a setup that a board can have.
    pub fn setup(&self) -> &Setup
        ensures setup { result.now ≡ self.now.setup }
        ensures fitted { IsSetup self.now.setup }
    {
        self.replay.setup()
    }

    /// The registers and bytes that the history left. It takes no memory.
    pub fn into_store(self) -> Store
        ensures regs { StandsFor self.setup (byte_of self.setup self.entries) (map_bytes result.regs) }
        ensures dram { IsDramOf self.setup self.entries result.dram }
        ensures contents { IsContentsOf self.setup self.entries result.contents }
        ensures rom { result.rom.items ≡ self.setup.rom }
        ensures disk { result.disk ≡ disk_of self.setup self.entries }
        ensures store { IsStoreOf self.setup (byte_of self.setup self.entries) result }
        ensures sound { IsOfBoard result }
    {
        self.into_replay().into_store()
    }

    /// The board as it stands, without its history, whose memory is given back.
    pub fn into_replay(self) -> Replay
        ensures setup { result.chipset.setup ≡ self.setup }
        ensures played { HasPlayed result self.entries }
    {
        let Board { replay, .. } = self;
        replay
    }

    /// The memory map of the registers as they stand. Its version is the number of map writes so far: the stores to a
    /// register that the map depends on, and the hard resets.
    pub fn map(&self) -> &FlatMap
        ensures stands { StandsFor self.now.setup (byte_of self.now.setup self.now.entries) result.now.regs }
        ensures map { IsFlatMapOf self.now.setup (byte_of self.now.setup self.now.entries) result.now.ranges }
        ensures version { result.now.version ≡ version_of self.now.setup self.now.entries }
    {
        self.replay.map()
    }
}
