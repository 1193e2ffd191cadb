//! A transfer under way.

ghost use Rattle.std.specs.Prelude.{ℕ, ◌≡◌, ◌≢◌, ◌<◌, ◌≤◌, ◌+◌, ◌*◌, ◌%◌, ◌^◌, ◌&&◌, None, if◌then◌else◌, IfOk};
ghost use Rattle.board_prelude.specs.{Kind, Width, sectors_of, word_at, Setup, Bytes, Cell};
ghost use Rattle.ata_pio.specs.Words.{with_word};
ghost use Rattle.pci_bars.specs.Cards.{AreFitted};
ghost use Rattle.addr_decode.specs.MapRegs.{StandsFor, map_bytes};
ghost use Rattle.addr_decode.specs.Master.{master_area, master_denial};
ghost use Rattle.bus_master.specs.declared.done.End.{End};
ghost use Rattle.bus_master.specs.declared.direction.Direction.{Direction};
ghost use Rattle.bus_master.specs.Cells.{put_in};
ghost use Rattle.bus_master.specs.Transfer.{Moving, abort_in, address_after, descriptor_read, first_place, is_used_up};
ghost use Rattle.bus_master.specs.Transfer.{kind_of, master_value, medium_of, moved_on, next_sector, next_word};
ghost use Rattle.bus_master.specs.Transfer.{ready_for, sector_tested, size_of, with_region, word_moved, words_moved};
ghost use Rattle.board_chipset.specs.Masters.{master_target};
ghost use Rattle.board_chipset.specs.Stores.{IsOfBoard, IsStoreOf};
ghost use Rattle.bus_master.specs.Stores.{cells_of, HasSameShape, IsCell, IsReached};
ghost use Rattle.bus_master.specs.UnderWay.{CameOn, end_in, HasSector, EndedSo, StandsAt};

use crate::direction::Direction;
use crate::done::End;
use crate::memory::{is_readable, read, set_word, word, write};
use addr_decode::{MapRegs, decode_master, next_edge};
use board_base::{Area, Denial, Kind, Width};
use board_chipset::Store;
use board_spec::bits::is_set;
use board_spec::range::SMRAM_RANGE;
use std::marker::Model;

/// How many bytes a sector has.
pub const SECTOR_BYTES: u32 = 512;
/// How many bytes a word has.
pub const WORD_BYTES: u32 = 2;
/// How many values a word can have.
const WORD_VALUES: u32 = 0x1_0000;
/// How many bytes a descriptor has: a doubleword for the base of a region, and one for its count.
pub const DESCRIPTOR_BYTES: u32 = 8;
/// Where the count stands in a descriptor.
pub const COUNT_OFFSET: u32 = 4;
/// The bit of the count's doubleword that marks the last descriptor of a table.
const END_OF_TABLE: u32 = 31;
/// The bytes of a region whose count is 0.
const LARGEST_REGION: u32 = 0x1_0000;

/// How far a transfer has come.
#[derive(Drop)]
pub(crate) struct UnderWay {
    /// The address of the next descriptor.
    pub(crate) table: u32,
    /// Where the region in use goes on.
    pub(crate) addr: u32,
    /// How many bytes it has left.
    pub(crate) left: u32,
    /// Whether it is the last of the table.
    pub(crate) is_last: bool,
    /// How many bytes were moved.
    pub(crate) moved: u32,
}

impl Model for UnderWay {
    ghost use Rattle.bus_master.specs.Transfer.{TransferPlace};
    ghost use Rattle.bus_master.specs.UnderWay.{IsPlace};

    ghost Value = { TransferPlace };

    ghost view = { λ w. record {
      table = w.table;
      addr = w.addr;
      left = w.left;
      is_last = w.is_last;
      moved = w.moved;
    } };

    ghost invariant = { λ w. IsPlace (record {
      table = w.table;
      addr = w.addr;
      left = w.left;
      is_last = w.is_last;
      moved = w.moved;
    }) };
}

/// The area that an access of the bus master reaches. Refused with Abort where nobody answers.
pub(crate) fn answering(regs: &MapRegs, addr: u32, kind: Kind) -> Result<Area, End>
    requires cards { AreFitted regs.now.cards.items }
    ensures area { (setup : Setup) (bytes : Bytes) → StandsFor setup bytes (map_bytes regs.now)
        → IfOk result (λ area. area ≡ master_area setup bytes addr kind) }
    ensures end { (setup : Setup) (bytes : Bytes) → StandsFor setup bytes (map_bytes regs.now)
        → end_in result ≡ abort_in (master_area setup bytes addr kind) addr (master_denial setup bytes addr kind) }
{
    match decode_master(regs, addr, kind) {
        (Area::Abort, denial) => Err(End::Abort {
            addr,
            denial: denial.unwrap_or(Denial::NoRegister),
        }),
        (area, _) => Ok(area),
    }
}

/// Reads a doubleword at an address that is a multiple of 4. Refused with Abort where nobody answers.
fn read_doubleword(store: &Store, addr: u32) -> Result<u32, End>
    requires sound { IsOfBoard store.now }
    requires aligned { addr % 4 ≡ 0 }
    ensures value { (setup : Setup) (bytes : Bytes) → IsStoreOf setup bytes store.now
        → IfOk result (λ value. value ≡ master_value setup bytes (cells_of store.now) addr Width.Four) }
    ensures end { (setup : Setup) (bytes : Bytes) → IsStoreOf setup bytes store.now
        → end_in result
        ≡ abort_in (master_area setup bytes addr Kind.Read) addr (master_denial setup bytes addr Kind.Read) }
{
    let area = answering(&store.regs, addr, Kind::Read)?;
    Ok(read(store, area, addr, Width::Four))
}

impl UnderWay {
    /// A transfer that has not begun, with its table at an address that is a multiple of 4.
    pub(crate) fn begin(table: u32) -> UnderWay
        requires aligned { table % 4 ≡ 0 }
        ensures first { result ≡ first_place table }
    {
        UnderWay {
            table,
            addr: 0,
            left: 0,
            is_last: false,
            moved: 0,
        }
    }

    /// The address of the next descriptor.
    pub(crate) fn table(&self) -> u32
        ensures table { result ≡ self.now.table }
        ensures aligned { result % 4 ≡ 0 }
    {
        self.table
    }

    /// How many bytes were moved.
    pub(crate) fn moved(&self) -> u32
        ensures moved { result ≡ self.now.moved }
    {
        self.moved
    }

    /// Whether the last region is used up.
    pub(crate) fn is_over(&self) -> bool
        ensures over { result ≡ (is_used_up self.now && self.now.is_last) }
    {
        self.left == 0 && self.is_last
    }

    /// How a transfer ends that has moved all its words.
    pub(crate) fn end(&self) -> End
        ensures end { result ≡ (if is_used_up self.now && self.now.is_last then End.Exact else End.Longer) }
    {
        if self.is_over() {
            End::Exact
        } else {
            End::Longer
        }
    }

    /// Moves `words` words, at most 65,536, to or from the sectors from `lba` on, and returns how it ended.
    pub(crate) fn transfer(
        &mut self,
        store: &mut Store,
        direction: Direction,
        lba: u32,
        words: u32,
    ) -> End
        requires sound { IsOfBoard store.old }
        requires begins { self.old.moved ≡ 0 }
        requires lba { lba < 2 ^ 28 }
        requires words { words ≤ 0x1_0000 }
        ensures moved { (setup : Setup) (bytes : Bytes) (moving : Moving) → IsStoreOf setup bytes store.old
            → StandsAt moving store.old self.old None
            → EndedSo (words_moved setup bytes direction lba words moving) store.new self.new result }
        ensures shape { HasSameShape store.old store.new }
    {
        match self.move_words(store, direction, lba, words) {
            Ok(()) => self.end(),
            Err(end) => end,
        }
    }

    /// Moves `words` words. Refused where the transfer ends before.
    #[tactic(auto, using(crate::proofs::WordLemmas::no_words, crate::proofs::WordLemmas::same_shape))]
    fn move_words(
        &mut self,
        store: &mut Store,
        direction: Direction,
        lba: u32,
        words: u32,
    ) -> Result<(), End>
        requires sound { IsOfBoard store.old }
        requires begins { self.old.moved ≡ 0 }
        requires lba { lba < 2 ^ 28 }
        requires words { words ≤ 0x1_0000 }
        ensures moved { (setup : Setup) (bytes : Bytes) (moving : Moving) → IsStoreOf setup bytes store.old
            → StandsAt moving store.old self.old None
            → StandsAt (words_moved setup bytes direction lba words moving) store.new self.new (end_in result) }
        ensures shape { HasSameShape store.old store.new }
    {
        let bytes = WORD_BYTES * words;
        while self.moved < bytes {
            let most = (bytes - self.moved) / WORD_BYTES;
            self.move_some(store, direction, lba, most)?;
        }
        Ok(())
    }

    /// Moves some of the next words, at least one and at most `most`.
    #[tactic(auto, using(crate::proofs::WordLemmas::ends_before, crate::proofs::WordLemmas::one_word))]
    fn move_some(
        &mut self,
        store: &mut Store,
        direction: Direction,
        lba: u32,
        most: u32,
    ) -> Result<(), End>
        requires sound { IsOfBoard store.old }
        requires most { 1 ≤ most }
        requires lba { lba < 2 ^ 28 }
        requires moved { self.old.moved + 2 * most ≤ 0x2_0000 }
        requires sector { HasSector lba store.old self.old }
        ensures moved { (setup : Setup) (bytes : Bytes) (moving : Moving) → IsStoreOf setup bytes store.old
            → StandsAt moving store.old self.old None
            → CameOn setup bytes direction lba most moving store.new self.old self.new (end_in result) }
        ensures some { IfOk result (λ done. self.old.moved < self.new.moved) }
        ensures most { IfOk result (λ done. self.new.moved ≤ self.old.moved + 2 * most) }
        ensures whole { IfOk result (λ done. self.new.moved % 2 ≡ 0) }
        ensures sector { HasSector lba store.new self.new }
        ensures shape { HasSameShape store.old store.new }
    {
        self.make_ready(store, lba)?;
        let area = answering(&store.regs, self.addr, direction.kind())?;
        let words = self.stretch(&store.regs, direction, most);
        for _ in 0..words {
            self.move_word(store, area, direction, lba);
        }
        Ok(())
    }

    /// Checks that a region and a readable sector are left for the next word; reads the next descriptor if need be.
    #[tactic(auto, using(crate::proofs::StepLemmas::ready_over))]
    fn make_ready(&mut self, store: &Store, lba: u32) -> Result<(), End>
        requires sound { IsOfBoard store.now }
        requires lba { lba < 2 ^ 28 }
        requires moved { self.old.moved < 0x2_0000 }
        requires sector { HasSector lba store.now self.old }
        ensures ready { (setup : Setup) (bytes : Bytes) (moving : Moving) → IsStoreOf setup bytes store.now
            → StandsAt moving store.now self.old None
            → StandsAt (ready_for setup bytes lba moving) store.now self.new (end_in result) }
        ensures left { IfOk result (λ done. self.new.left ≢ 0) }
        ensures sector { IfOk result (λ done. next_sector lba self.new < sectors_of (medium_of store.now.disk)) }
        ensures moved { self.new.moved ≡ self.old.moved }
    {
        if self.is_over() {
            return Err(End::Shorter);
        }
        self.test_sector(store, lba)?;
        if self.left == 0 {
            self.read_descriptor(store)?;
        }
        Ok(())
    }

    /// Refused where the next word is the first of a sector that does not exist or is bad.
    #[tactic(auto, using(crate::proofs::StepLemmas::test_sector_rules))]
    fn test_sector(&self, store: &Store, lba: u32) -> Result<(), End>
        requires lba { lba < 2 ^ 28 }
        requires moved { self.now.moved < 0x2_0000 }
        requires sector { HasSector lba store.now self.now }
        ensures tested { (moving : Moving) → StandsAt moving store.now self.now None
            → StandsAt (sector_tested lba moving) store.now self.now (end_in result) }
        ensures sector { IfOk result (λ done. next_sector lba self.now < sectors_of (medium_of store.now.disk)) }
    {
        let sector = lba + self.moved / SECTOR_BYTES;
        if self.moved % SECTOR_BYTES != 0 {
            return Ok(());
        }
        if is_readable(&store.disk, sector) {
            Ok(())
        } else {
            Err(End::Sector { lba: sector })
        }
    }

    /// Reads the next descriptor of the table. Refused with Abort where nobody answers for one of its halves; then the
    /// table pointer stays.
    fn read_descriptor(&mut self, store: &Store) -> Result<(), End>
        requires sound { IsOfBoard store.now }
        ensures read { (setup : Setup) (bytes : Bytes) (moving : Moving) → IsStoreOf setup bytes store.now
            → StandsAt moving store.now self.old None
            → StandsAt (descriptor_read setup bytes moving) store.now self.new (end_in result) }
        ensures left { IfOk result (λ done. self.new.left ≢ 0) }
        ensures moved { self.new.moved ≡ self.old.moved }
    {
        let base = read_doubleword(store, self.table)?;
        let count = read_doubleword(store, self.table.wrapping_add(COUNT_OFFSET))?;
        self.take_region(base, count);
        Ok(())
    }

    /// Goes on in the region of a descriptor.
    pub(crate) fn take_region(&mut self, base: u32, count: u32)
        ensures taken { self.new ≡ with_region base count self.old }
    {
        self.table = self.table.wrapping_add(DESCRIPTOR_BYTES);
        self.addr = base / WORD_BYTES * WORD_BYTES;
        self.left = size_of(count);
        self.is_last = is_set(count, END_OF_TABLE);
    }

    /// How many of the next words, at most `most`, lie in one sector, one region and one area.
    pub(crate) fn stretch(&self, regs: &MapRegs, direction: Direction, most: u32) -> u32
        requires most { 1 ≤ most }
        requires left { self.now.left ≢ 0 }
        requires cards { AreFitted regs.now.cards.items }
        ensures some { 1 ≤ result }
        ensures most { result ≤ most }
        ensures left { 2 * result ≤ self.now.left }
        ensures sector { next_word self.now + result ≤ 256 }
        ensures area { (setup : Setup) (bytes : Bytes) (i : ℕ) → StandsFor setup bytes (map_bytes regs.now) → i < result
            → master_area setup bytes (address_after self.now.addr (2 * i)) (kind_of direction)
            ≡ master_area setup bytes self.now.addr (kind_of direction) }
    {
        let in_sector = (SECTOR_BYTES - self.moved % SECTOR_BYTES) / WORD_BYTES;
        let in_region = self.left / WORD_BYTES;
        let in_area = words_in_area(regs, self.addr);
        most.min(in_sector).min(in_region).min(in_area)
    }

    /// Moves the next word, which is in this area.
    fn move_word(&mut self, store: &mut Store, area: Area, direction: Direction, lba: u32)
        requires reached { IsReached store.old area self.old.addr (kind_of direction) }
        requires left { self.old.left ≢ 0 }
        requires lba { lba < 2 ^ 28 }
        requires moved { self.old.moved < 0x2_0000 }
        requires sector { next_sector lba self.old < sectors_of (medium_of store.old.disk) }
        ensures word { (setup : Setup) (bytes : Bytes) (moving : Moving) → IsStoreOf setup bytes store.old
            → area ≡ master_area setup bytes self.old.addr (kind_of direction)
            → StandsAt moving store.old self.old None
            → StandsAt (word_moved setup bytes direction lba moving) store.new self.new None }
        ensures place { self.new ≡ moved_on self.old }
        ensures shape { HasSameShape store.old store.new }
    {
        let sector = lba + self.moved / SECTOR_BYTES;
        let i = self.moved % SECTOR_BYTES / WORD_BYTES;
        copy_word(store, area, self.addr, direction, sector, i);
        self.addr = self.addr.wrapping_add(WORD_BYTES);
        self.left -= WORD_BYTES;
        self.moved += WORD_BYTES;
    }
}

/// Copies one word between an address, which is even and in this area, and a sector that exists.
fn copy_word(store: &mut Store, area: Area, addr: u32, direction: Direction, sector: u32, i: u32)
    requires reached { IsReached store.old area addr (kind_of direction) }
    requires aligned { addr % 2 ≡ 0 }
    requires sector { sector < sectors_of (medium_of store.old.disk) }
    requires word { i < 256 }
    ensures memory { (setup : Setup) (bytes : Bytes) → IsStoreOf setup bytes store.old → direction ≡ Direction.ToMemory
        → area ≡ master_area setup bytes addr Kind.Write → (cell : Cell) → IsCell cell → cells_of store.new cell
        ≡ put_in setup (master_target setup bytes Kind.Write addr) addr Width.Two
        (word_at (medium_of store.old.disk) sector i) (cells_of store.old) cell }
    ensures disk { direction ≡ Direction.ToMemory → store.new.disk ≡ store.old.disk }
    ensures word { (setup : Setup) (bytes : Bytes) → IsStoreOf setup bytes store.old → direction ≡ Direction.ToDisk
        → area ≡ master_area setup bytes addr Kind.Read → medium_of store.new.disk
        ≡ with_word (medium_of store.old.disk) sector i (master_value setup bytes (cells_of store.old) addr Width.Two) }
    ensures cells { direction ≡ Direction.ToDisk → (cell : Cell) → cells_of store.new cell ≡ cells_of store.old cell }
    ensures shape { HasSameShape store.old store.new }
{
    match direction {
        Direction::ToMemory => {
            let value = word(&store.disk, sector, i);
            write(store, area, addr, Width::Two, value.into());
        }
        Direction::ToDisk => {
            let value = read(store, area, addr, Width::Two) % WORD_VALUES;
            set_word(&mut store.disk, sector, i, value as u16);
        }
    }
}

/// How many words from an address on lie in one area: up to the next edge of the memory map. In the range of SMRAM, of
/// which the edges say what processors reach, only the first is known to.
#[tactic(auto, using(crate::proofs::AreaLemmas::first_in_area))]
fn words_in_area(regs: &MapRegs, addr: u32) -> u32
    requires cards { AreFitted regs.now.cards.items }
    ensures some { 1 ≤ result }
    ensures area { (setup : Setup) (bytes : Bytes) (kind : Kind) (i : ℕ) → StandsFor setup bytes (map_bytes regs.now)
        → i < result → master_area setup bytes (address_after addr (2 * i)) kind ≡ master_area setup bytes addr kind }
{
    if SMRAM_RANGE.contains(addr) {
        return 1;
    }
    let end = next_edge(regs, addr).unwrap_or(u32::MAX);
    ((end - addr) / WORD_BYTES).max(1)
}

/// The bytes of a region with this count.
fn size_of(count: u32) -> u32
    ensures size { result ≡ size_of count }
{
    match count % LARGEST_REGION / WORD_BYTES * WORD_BYTES {
        0 => LARGEST_REGION,
        size => size,
    }
}
