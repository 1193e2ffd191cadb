//! Transfers between the disk and memory.

ghost use Rattle.std.specs.Prelude.{ℕ, ◌≡◌, ◌<◌, ◌≤◌, ◌^◌, ◌%◌, true, false};
ghost use Rattle.board_prelude.specs.{Setup, Bytes, is_smram_range, Cell};
ghost use Rattle.dram_store.specs.Dram.{dram_at};
ghost use Rattle.bus_master.specs.Registers.{is_started, is_to_memory};
ghost use Rattle.bus_master.specs.Transfer.{direction_of, done_of, end_of, master_after, Moving, with_medium};
ghost use Rattle.board_chipset.specs.Stores.{IsOfBoard, IsStoreOf};
ghost use Rattle.bus_master.specs.Stores.{cells_of, DiffersInSmramAlone, HasSameShape, IsCell, transfer_of};

use crate::direction::Direction;
use crate::done::{Done, End};
use crate::registers::{BusMaster, DIRECTION};
use crate::under_way::UnderWay;
use board_chipset::Store;
use board_spec::bits::is_set;

/// How many words a sector has.
pub const SECTOR_WORDS: u32 = 256;

impl BusMaster {
    /// Moves `count` sectors, 1 to 256, from `lba` on, which is below 2^28, between the disk and the regions of the
    /// table, where start is 1 (82371SB, 2.7). Each word goes to what a bus master reaches at its address. Ends early
    /// with Shorter where the table has too few bytes, with Abort where nobody answers, and with Sector before the
    /// first word of a sector that does not exist or is bad. It takes no memory.
    #[tactic(auto, using(crate::proofs::WordLemmas::same_store))]
    pub fn transfer(&mut self, store: &mut Store, lba: u32, count: u32) -> Done
        requires started { is_started self.old ≡ true }
        requires some { 1 ≤ count }
        requires most { count ≤ 256 }
        requires lba { lba < 2 ^ 28 }
        requires sound { IsOfBoard store.old }
        ensures done { (setup : Setup) (bytes : Bytes) → IsStoreOf setup bytes store.old
            → result ≡ done_of (transfer_of setup bytes self.old lba count store.old) }
        ensures registers { (setup : Setup) (bytes : Bytes) → IsStoreOf setup bytes store.old
            → self.new ≡ master_after self.old (transfer_of setup bytes self.old lba count store.old) }
        ensures disk { (setup : Setup) (bytes : Bytes) → IsStoreOf setup bytes store.old
            → store.new.disk
            ≡ with_medium store.old.disk (transfer_of setup bytes self.old lba count store.old).medium }
        ensures cells { (setup : Setup) (bytes : Bytes) (cell : Cell) → IsStoreOf setup bytes store.old → IsCell cell
            → cells_of store.new cell ≡ (transfer_of setup bytes self.old lba count store.old).cells cell }
        ensures to_memory { is_to_memory self.old ≡ true → store.new.disk ≡ store.old.disk }
        ensures to_disk { is_to_memory self.old ≡ false → (cell : Cell) → IsCell cell
            → cells_of store.new cell ≡ cells_of store.old cell }
        ensures shape { HasSameShape store.old store.new }
        ensures sound { IsOfBoard store.new }
        // Whatever SMRAM's register says, no byte of it changes.
        ensures smram { (addr : ℕ) → is_smram_range addr ≡ true
            → dram_at store.new.dram addr ≡ dram_at store.old.dram addr }
        // Nor does any byte of it matter: with other bytes there the transfer does the same.
        ensures hidden { (setup : Setup) (bytes : Bytes) (other : Store) → IsStoreOf setup bytes store.old
            → DiffersInSmramAlone store.old other
            → (result ≡ done_of (transfer_of setup bytes self.old lba count other))
            × (self.new ≡ master_after self.old (transfer_of setup bytes self.old lba count other))
            × (store.new.disk ≡ with_medium other.disk (transfer_of setup bytes self.old lba count other).medium) }
    {
        let mut under_way = UnderWay::begin(self.table);
        let end = under_way.transfer(store, self.direction(), lba, SECTOR_WORDS * count);
        self.end_transfer(end, under_way.table());
        Done {
            end,
            moved: under_way.moved(),
        }
    }

    /// The direction that the command gives.
    pub(crate) fn direction(&self) -> Direction
        ensures direction { result ≡ direction_of self.now }
    {
        if is_set(self.command.into(), DIRECTION) {
            Direction::ToMemory
        } else {
            Direction::ToDisk
        }
    }

    /// Clears start, shows in the status how the transfer ended, and moves the table pointer.
    pub(crate) fn end_transfer(&mut self, end: End, table: u32)
        requires aligned { table % 4 ≡ 0 }
        ensures ended { (moving : Moving) → end_of moving ≡ end → moving.place.table ≡ table
            → self.new ≡ master_after self.old moving }
    {
        self.command = self.command / 2 * 2;
        self.status = self.status / 8 * 8 + end.status_bits();
        self.table = table;
    }
}
