//! A transfer in pieces: a caller is told what comes next, and does it to a memory that it keeps itself.

ghost use Rattle.std.specs.Prelude.{ℕ, ◌≡◌, ◌≢◌, ◌<◌, ◌≤◌, ◌+◌, ◌*◌, ◌^◌, ◌==◌, ◌&&◌, true, not, option_map};
ghost use Rattle.board_prelude.specs.{Setup, Bytes, Medium};
ghost use Rattle.ata_pio.specs.Words.{is_readable};
ghost use Rattle.pci_bars.specs.Cards.{AreFitted};
ghost use Rattle.addr_decode.specs.MapRegs.{StandsFor, map_bytes};
ghost use Rattle.bus_master.specs.Cells.{Cells};
ghost use Rattle.bus_master.specs.Registers.{is_started};
ghost use Rattle.bus_master.specs.Transfer.{Moving, done_of, kind_of, master_after, medium_of, next_sector, next_word};
ghost use Rattle.bus_master.specs.Pieces.{ComesToTheTransfer, HasPassed, IfMove, IsEnd, IsInArea, IsNext};
ghost use Rattle.bus_master.specs.Pieces.{IsOutsideSmramRange, IsSaid, IsStretch, abort_at, described, going_at_start};
ghost use Rattle.bus_master.specs.Pieces.{going_from, gone_on, went_on};

use crate::direction::Direction;
use crate::done::{Done, End};
use crate::piece::{Piece, Stretch};
use crate::registers::BusMaster;
use crate::transfer::SECTOR_WORDS;
use crate::under_way::{COUNT_OFFSET, SECTOR_BYTES, UnderWay, WORD_BYTES, answering};
use addr_decode::MapRegs;
use ata_pio::Ata;
use board_base::Kind;
use std::marker::Model;

/// A transfer over memory that its caller keeps: `BusMaster::begin` begins one and `BusMaster::finish` ends it.
/// Contracts see how far it has come, and what it still has to move.
#[derive(Drop)]
pub struct Transfer {
    pub(crate) way: UnderWay,
    pub(crate) direction: Direction,
    pub(crate) lba: u32,
    pub(crate) words: u32,
}

impl Model for Transfer {
    ghost use Rattle.bus_master.specs.Pieces.{Going, IsGoing, going_from};

    ghost Value = { Going };

    ghost view = { λ t. going_from t.way t.direction t.lba t.words };

    ghost invariant = { λ t. IsGoing (going_from t.way t.direction t.lba t.words) };
}

impl BusMaster {
    /// Begins to move `count` sectors, 1 to 256, from `lba` on, which is below 2^28, where start is 1.
    pub fn begin(&self, lba: u32, count: u32) -> Transfer
        requires started { is_started self.now ≡ true }
        requires some { 1 ≤ count }
        requires most { count ≤ 256 }
        requires lba { lba < 2 ^ 28 }
        ensures begun { result ≡ going_at_start self.now lba count }
    {
        Transfer {
            way: UnderWay::begin(self.table),
            direction: self.direction(),
            lba,
            words: SECTOR_WORDS * count,
        }
    }

    /// Takes a transfer that has ended: clears start, shows in the status how it ended, and moves the table pointer.
    pub fn finish(&mut self, transfer: &Transfer, end: End) -> Done
        ensures done { (moving : Moving) (cells : Cells) (medium : Medium)
            → IsEnd moving transfer.now cells medium end → result ≡ done_of moving }
        ensures registers { (moving : Moving) (cells : Cells) (medium : Medium)
            → IsEnd moving transfer.now cells medium end → self.new ≡ master_after self.old moving }
    {
        self.end_transfer(end, transfer.way.table());
        Done {
            end,
            moved: transfer.way.moved(),
        }
    }
}

impl Transfer {
    /// What comes next, by the registers of the memory map and the disk, where one is fitted. What the whole comes to
    /// is the same before and after it, whatever the caller's memory holds; and no byte of memory at A0000h to BFFFFh
    /// is in a stretch of memory.
    pub fn next(&self, regs: &MapRegs, disk: Option<&Ata>) -> Piece
        requires cards { AreFitted regs.now.cards.items }
        ensures next { (setup : Setup) (bytes : Bytes) (cells : Cells) → StandsFor setup bytes (map_bytes regs.now)
            → IsNext setup bytes self.now cells (medium_of (option_map (λ ata. ata.now) disk.entry)) result }
        ensures stretch { IfMove result (IsStretch self.now) }
        ensures smram { (setup : Setup) (bytes : Bytes) → StandsFor setup bytes (map_bytes regs.now)
            → IfMove result IsOutsideSmramRange }
    {
        self.next_by(regs, is_readable(disk, self.sector()))
    }

    /// What comes next, as `next` tells it, over any disk: its caller says whether the sector of the next word
    /// (`sector`) is there and not bad.
    pub fn next_by(&self, regs: &MapRegs, readable: bool) -> Piece
        requires cards { AreFitted regs.now.cards.items }
        ensures next { (setup : Setup) (bytes : Bytes) (cells : Cells) (medium : Medium)
            → StandsFor setup bytes (map_bytes regs.now) → IsSaid self.now medium readable
            → IsNext setup bytes self.now cells medium result }
        ensures stretch { IfMove result (IsStretch self.now) }
        ensures area { (setup : Setup) (bytes : Bytes) → StandsFor setup bytes (map_bytes regs.now)
            → IfMove result (IsInArea setup bytes self.now) }
        ensures there { IfMove result (λ stretch. next_word self.now.place ≡ 0 → readable ≡ true) }
        ensures smram { (setup : Setup) (bytes : Bytes) → StandsFor setup bytes (map_bytes regs.now)
            → IfMove result IsOutsideSmramRange }
    {
        self.way
            .next_piece(regs, readable, self.direction, self.lba, self.words)
    }

    /// What it does with memory: writes it where words go from the disk.
    pub fn kind(&self) -> Kind
        ensures kind { result ≡ kind_of self.now.direction }
    {
        self.direction.kind()
    }

    /// The sector of the next word.
    pub fn sector(&self) -> u32
        ensures sector { result ≡ next_sector self.now.lba self.now.place }
    {
        self.way.sector(self.lba)
    }

    /// Takes the two doublewords of a descriptor that was wanted.
    pub fn take_descriptor(&mut self, base: u32, count: u32)
        ensures described { self.new ≡ described base count self.old }
    {
        self.way.take_region(base, count);
    }

    /// Goes on after words that were moved.
    pub fn go_on(&mut self, words: u32)
        requires most { words ≤ self.old.words }
        requires left { 2 * words ≤ self.old.place.left }
        ensures gone { self.new ≡ gone_on words self.old }
    {
        self.way.go_on(words);
        self.words -= words;
    }
}

/// Whether a sector exists and is not bad.
fn is_readable(disk: Option<&Ata>, sector: u32) -> bool
    ensures readable { result ≡ is_readable (medium_of (option_map (λ ata. ata.now) disk.entry)) sector }
{
    match disk {
        Some(disk) => disk.readable(sector),
        None => false,
    }
}

impl UnderWay {
    /// What comes next, where so many words are to move.
    #[tactic(auto, using(crate::proofs::PieceLemmas::next_piece_rules))]
    fn next_piece(
        &self,
        regs: &MapRegs,
        readable: bool,
        direction: Direction,
        lba: u32,
        words: u32,
    ) -> Piece
        requires cards { AreFitted regs.now.cards.items }
        requires lba { lba < 2 ^ 28 }
        requires moved { self.now.moved + 2 * words ≤ 0x2_0000 }
        ensures next { (setup : Setup) (bytes : Bytes) (cells : Cells) (medium : Medium)
            → StandsFor setup bytes (map_bytes regs.now)
            → IsSaid (going_from self.now direction lba words) medium readable
            → IsNext setup bytes (going_from self.now direction lba words) cells medium result }
        ensures stretch { IfMove result (IsStretch (going_from self.now direction lba words)) }
        ensures area { (setup : Setup) (bytes : Bytes) → StandsFor setup bytes (map_bytes regs.now)
            → IfMove result (IsInArea setup bytes (going_from self.now direction lba words)) }
        ensures there { IfMove result (λ stretch. next_word self.now ≡ 0 → readable ≡ true) }
        ensures smram { (setup : Setup) (bytes : Bytes) → StandsFor setup bytes (map_bytes regs.now)
            → IfMove result IsOutsideSmramRange }
    {
        if words == 0 {
            return Piece::Ended(self.end());
        }
        if self.is_over() {
            return Piece::Ended(End::Shorter);
        }
        if self.is_missing(readable) {
            return Piece::Ended(End::Sector {
                lba: self.sector(lba),
            });
        }
        self.next_access(regs, direction, lba, words)
    }

    /// Whether the next word is the first of a sector that is not readable.
    fn is_missing(&self, readable: bool) -> bool
        ensures missing { result ≡ (next_word self.now == 0 && not readable) }
    {
        self.moved % SECTOR_BYTES == 0 && !readable
    }

    /// The sector of the next word.
    fn sector(&self, lba: u32) -> u32
        requires lba { lba < 2 ^ 28 }
        requires moved { self.now.moved ≤ 0x2_0000 }
        ensures sector { result ≡ next_sector lba self.now }
    {
        lba + self.moved / SECTOR_BYTES
    }

    /// The access that comes next: to the table, where the region is used up.
    fn next_access(&self, regs: &MapRegs, direction: Direction, lba: u32, words: u32) -> Piece
        requires cards { AreFitted regs.now.cards.items }
        requires lba { lba < 2 ^ 28 }
        requires some { 1 ≤ words }
        requires moved { self.now.moved + 2 * words ≤ 0x2_0000 }
        ensures next { (setup : Setup) (bytes : Bytes) (cells : Cells) (medium : Medium)
            → StandsFor setup bytes (map_bytes regs.now)
            → HasPassed (going_from self.now direction lba words) medium
            → IsNext setup bytes (going_from self.now direction lba words) cells medium result }
        ensures stretch { IfMove result (IsStretch (going_from self.now direction lba words)) }
        ensures area { (setup : Setup) (bytes : Bytes) → StandsFor setup bytes (map_bytes regs.now)
            → IfMove result (IsInArea setup bytes (going_from self.now direction lba words)) }
        ensures smram { (setup : Setup) (bytes : Bytes) → StandsFor setup bytes (map_bytes regs.now)
            → IfMove result IsOutsideSmramRange }
    {
        if self.left == 0 {
            self.next_descriptor(regs)
        } else {
            self.next_stretch(regs, direction, lba, words)
        }
    }

    /// The descriptor that is wanted, where somebody answers for both its halves.
    fn next_descriptor(&self, regs: &MapRegs) -> Piece
        requires cards { AreFitted regs.now.cards.items }
        requires used { self.now.left ≡ 0 }
        ensures next { (setup : Setup) (bytes : Bytes) (direction : Direction) (lba words : ℕ) (cells : Cells)
            (medium : Medium) → StandsFor setup bytes (map_bytes regs.now)
            → HasPassed (going_from self.now direction lba words) medium
            → IsNext setup bytes (going_from self.now direction lba words) cells medium result }
        ensures no_move { IfMove result (λ stretch. ⊥) }
    {
        match answering(regs, self.table, Kind::Read) {
            Ok(_) => self.next_count(regs),
            Err(end) => Piece::Ended(end),
        }
    }

    /// The descriptor that is wanted, where somebody answers for its second half too.
    #[tactic(auto, using(crate::proofs::PieceLemmas::described_same))]
    fn next_count(&self, regs: &MapRegs) -> Piece
        requires cards { AreFitted regs.now.cards.items }
        requires used { self.now.left ≡ 0 }
        ensures next { (setup : Setup) (bytes : Bytes) (direction : Direction) (lba words : ℕ) (cells : Cells)
            (medium : Medium) → StandsFor setup bytes (map_bytes regs.now)
            → HasPassed (going_from self.now direction lba words) medium
            → None ≡ abort_at setup bytes Kind.Read self.now.table
            → IsNext setup bytes (going_from self.now direction lba words) cells medium result }
        ensures no_move { IfMove result (λ stretch. ⊥) }
    {
        match answering(regs, self.table.wrapping_add(COUNT_OFFSET), Kind::Read) {
            Ok(_) => Piece::Descriptor { addr: self.table },
            Err(end) => Piece::Ended(end),
        }
    }

    /// The words that come next, where somebody answers.
    fn next_stretch(&self, regs: &MapRegs, direction: Direction, lba: u32, most: u32) -> Piece
        requires cards { AreFitted regs.now.cards.items }
        requires lba { lba < 2 ^ 28 }
        requires some { 1 ≤ most }
        requires left { self.now.left ≢ 0 }
        requires moved { self.now.moved + 2 * most ≤ 0x2_0000 }
        ensures next { (setup : Setup) (bytes : Bytes) (cells : Cells) (medium : Medium)
            → StandsFor setup bytes (map_bytes regs.now)
            → HasPassed (going_from self.now direction lba most) medium
            → IsNext setup bytes (going_from self.now direction lba most) cells medium result }
        ensures stretch { IfMove result (IsStretch (going_from self.now direction lba most)) }
        ensures area { (setup : Setup) (bytes : Bytes) → StandsFor setup bytes (map_bytes regs.now)
            → IfMove result (IsInArea setup bytes (going_from self.now direction lba most)) }
        ensures smram { (setup : Setup) (bytes : Bytes) → StandsFor setup bytes (map_bytes regs.now)
            → IfMove result IsOutsideSmramRange }
    {
        match answering(regs, self.addr, direction.kind()) {
            Ok(area) => {
                let words = self.stretch(regs, direction, most);
                Piece::Move(Stretch {
                    area,
                    addr: self.addr,
                    sector: lba + self.moved / SECTOR_BYTES,
                    word: self.moved % SECTOR_BYTES / WORD_BYTES,
                    words,
                })
            }
            Err(end) => Piece::Ended(end),
        }
    }

    /// Goes on after so many words.
    fn go_on(&mut self, words: u32)
        requires left { 2 * words ≤ self.old.left }
        requires moved { self.old.moved + 2 * words ≤ 0x2_0000 }
        ensures went { self.new ≡ went_on words self.old }
    {
        self.addr = self.addr.wrapping_add(WORD_BYTES * words);
        self.left -= WORD_BYTES * words;
        self.moved += WORD_BYTES * words;
    }
}

/// Where a caller does one piece after another as each is told, memory and disk hold in the end what the transfer makes
/// of them, and it has ended as it does, whatever they held.
pub fn law_pieces()
    ensures whole { ComesToTheTransfer }
{}
