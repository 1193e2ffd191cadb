//! Pieces of a transfer in numbers.

ghost use Rattle.std.specs.Prelude.{◌≡◌, ◌+◌, ◌*◌, ◌<◌, ◌≤◌, ◌^◌};
ghost use Rattle.board_prelude.specs.{Bytes};
ghost use Rattle.board_chipset.specs.Masters.{master_part};
ghost use Rattle.board_chipset.specs.Held.{HoldsBytes};
ghost use Rattle.bus_master.specs.Pieces.{IfMove};
ghost use Rattle.transfer_records.specs.Pieces.{descriptor_said, end_said, ended_said, nobody, piece_said, words_said};

use board_base::{Denial, Kind, Target};
use board_chipset::Chipset;
use board_spec::Part;
use bus_master::{
    COUNT_OFFSET, DESCRIPTOR_BYTES, Done, End, Piece, SECTOR_BYTES, Stretch, Transfer, WORD_BYTES,
};
use machine_records::{PartRecord, of_part};

/// The next descriptor is wanted.
pub const DESCRIPTOR_PIECE: u8 = 1;
/// Words are to be moved.
pub const WORDS_PIECE: u8 = 2;
/// The transfer has ended.
pub const ENDED_PIECE: u8 = 3;

/// The last word was also the end of the last region.
pub const EXACT_END: u8 = 1;
/// The table goes on after the last word.
pub const LONGER_END: u8 = 2;
/// The last region ended, and words remain.
pub const SHORTER_END: u8 = 3;
/// Nobody answers at an address.
pub const ABORT_END: u8 = 4;
/// A sector is not there, or it is bad.
pub const SECTOR_END: u8 = 5;

/// A piece in numbers: what it is (`DESCRIPTOR_PIECE` ..). Of a descriptor its address, and what answers each of its
/// two doublewords. Of words the address of the first and what answers it, how many bytes they are, and their first
/// byte on the disk and its sector. Of an end which one it is (`EXACT_END` ..), bits 2 to 0 of the status register, how
/// many bytes were moved, and where nobody answers or which sector cannot be read.
#[repr(C)]
#[derive(Clone, Copy, Default)]
pub struct PieceRecord {
    pub disk: u64,
    pub addr: u32,
    pub bytes: u32,
    pub sector: u32,
    pub part0: PartRecord,
    pub part1: PartRecord,
    pub what: u8,
    pub end: u8,
    pub status: u8,
    pub reserved: u8,
}

/// A piece of a transfer with its table at this address in numbers, with what answers a bus master on this chipset.
pub(crate) fn piece_record(
    chipset: &Chipset,
    table: u32,
    transfer: &Transfer,
    piece: &Piece,
) -> PieceRecord
    requires table { table ≡ transfer.now.place.table }
    requires fits { IfMove piece.now (λ stretch. stretch.word + stretch.words ≤ 256) }
    ensures said { (bytes : Bytes) → HoldsBytes chipset.now bytes
        → result ≡ piece_said (master_part chipset.now.setup bytes) transfer.now piece.now }
    ensures table { table < 2 ^ 32 }
    ensures address { IfMove piece.now (λ stretch. stretch.addr < 2 ^ 32) }
{
    match piece {
        Piece::Descriptor { .. } => {
            let base = chipset.decode_master(table, Kind::Read);
            let count = chipset.decode_master(table.wrapping_add(COUNT_OFFSET), Kind::Read);
            descriptor_record(table, base, count)
        }
        Piece::Move(stretch) => {
            let first = chipset.decode_master(stretch.addr, transfer.kind());
            words_record(stretch, first)
        }
        Piece::Ended(end) => ended_record(Done {
            end: *end,
            moved: transfer.state().moved,
        }),
    }
}

fn descriptor_record(addr: u32, base: Part, count: Part) -> PieceRecord
    ensures said { result ≡ descriptor_said addr base count }
{
    PieceRecord {
        addr,
        bytes: DESCRIPTOR_BYTES,
        part0: of_part(base),
        part1: of_part(count),
        what: DESCRIPTOR_PIECE,
        ..PieceRecord::default()
    }
}

fn words_record(stretch: &Stretch, first: Part) -> PieceRecord
    requires fits { stretch.now.word + stretch.now.words ≤ 256 }
    ensures said { result ≡ words_said stretch.now first }
{
    PieceRecord {
        disk: first_byte(stretch.sector) + u64::from(WORD_BYTES * stretch.word),
        addr: stretch.addr,
        bytes: WORD_BYTES * stretch.words,
        sector: stretch.sector,
        part0: of_part(first),
        what: WORDS_PIECE,
        ..PieceRecord::default()
    }
}

fn ended_record(done: Done) -> PieceRecord
    ensures said { result ≡ ended_said done }
{
    let none = PartRecord::default();
    match done.end {
        End::Exact => end_record(EXACT_END, 0, 0, none, done),
        End::Longer => end_record(LONGER_END, 0, 0, none, done),
        End::Shorter => end_record(SHORTER_END, 0, 0, none, done),
        End::Abort { addr, denial } => end_record(ABORT_END, addr, 0, nobody(denial), done),
        End::Sector { lba } => end_record(SECTOR_END, 0, lba, none, done),
    }
}

/// The first byte of a sector on the disk.
fn first_byte(sector: u32) -> u64
    ensures byte { result ≡ 512 * sector }
{
    u64::from(SECTOR_BYTES) * u64::from(sector)
}

/// That nobody answers.
fn nobody(denial: Denial) -> PartRecord
    ensures nobody { result ≡ nobody denial }
{
    of_part(Part {
        target: Target::Abort,
        denial: Some(denial),
    })
}

fn end_record(end: u8, addr: u32, sector: u32, part: PartRecord, done: Done) -> PieceRecord
    ensures said { result ≡ end_said end addr sector part done }
{
    PieceRecord {
        disk: first_byte(sector),
        addr,
        bytes: done.moved,
        sector,
        part0: part,
        what: ENDED_PIECE,
        end,
        status: done.end.status_bits(),
        ..PieceRecord::default()
    }
}
