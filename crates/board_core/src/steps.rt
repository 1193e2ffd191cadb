//! What callers can share: a board that does one event after another.
ghost use Rattle.std.specs.Prelude.{◌≡◌, ◌-◌, ◌+◌, ◌<◌, ◌≤◌, ◌∷◌, length, max, OnOk, OnErr};
ghost use Rattle.board_prelude.specs.{IsInRange, IsAnswer, IsLegal, next_entry, entry_limit, byte_of, map_change_of};
ghost use Rattle.board_prelude.specs.{version_of, IsFlatMapOf};
ghost use Rattle.addr_decode.specs.MapRegs.{StandsFor};
ghost use Rattle.board_core.specs.Kept.{Standing};

use crate::Board;
use addr_decode::MapChange;
use board_base::NoMemory;
use board_spec::{Event, Reply};
use map_builder::FlatMap;

/// A board that callers can share: a `Board`, or one that records no history.
pub trait Steps {
    // Its setup, its history with the newest entry first, and the room for more.
    ghost standing: { Self → Standing };

    /// How many entries there are. Their history is legal.
    fn count(&self) -> u32
        ensures count { result ≡ length (standing self.now).entries }
        ensures legal { IsLegal (standing self.now).setup (standing self.now).entries };

    /// Makes room for at least `n` more entries, where the history with them stays below 4,000,000. Refused for want of
    /// memory; then the board is as before.
    fn reserve(&mut self, n: u32) -> Result<(), NoMemory>
        requires few { length (standing self.old).entries + n < entry_limit }
        ensures ok { OnOk result (standing self.new
            ≡ record (standing self.old) { spare = max (standing self.old).spare n }) }
        ensures err { OnErr result (self.new ≡ self.old) };

    /// Does an event of a processor, and returns the reply. It takes no memory.
    fn step(&mut self, actor: u8, event: &Event) -> Reply
        requires in_range { IsInRange (standing self.old).setup event.now }
        requires spare { 1 ≤ (standing self.old).spare }
        ensures answer { IsAnswer (standing self.old).setup (standing self.old).entries event.now result }
        ensures entry { standing self.new ≡ record (standing self.old) {
          entries = next_entry (standing self.old).entries actor event.now result ∷ (standing self.old).entries;
          spare = (standing self.old).spare - 1;
        } };

    /// The change of the memory map that an event would make now: a store to a register that the map depends on, or a
    /// hard reset. None where it would make none.
    fn map_change(&self, event: &Event) -> Option<MapChange>
        ensures change { result ≡ map_change_of (standing self.now).setup (standing self.now).entries event.now };

    /// The memory map of the registers as they stand. Its version is the number of map writes so far: the stores to a
    /// register that the map depends on, and the hard resets.
    fn map(&self) -> &FlatMap
        ensures stands { StandsFor (standing self.now).setup
            (byte_of (standing self.now).setup (standing self.now).entries) result.now.regs }
        ensures map { IsFlatMapOf (standing self.now).setup
            (byte_of (standing self.now).setup (standing self.now).entries) result.now.ranges }
        ensures version { result.now.version
            ≡ version_of (standing self.now).setup (standing self.now).entries };
}

impl Steps for Board {
    ghost standing = { λ board. board };

    fn count(&self) -> u32 {
        self.history().len()
    }

    fn reserve(&mut self, n: u32) -> Result<(), NoMemory> {
        Board::reserve(self, n)
    }

    fn step(&mut self, actor: u8, event: &Event) -> Reply {
        Board::step(self, actor, event)
    }

    fn map_change(&self, event: &Event) -> Option<MapChange> {
        Board::map_change(self, event)
    }

    fn map(&self) -> &FlatMap {
        Board::map(self)
    }
}
