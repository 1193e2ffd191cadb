//! The calls of a transfer in pieces.

ghost use Rattle.std.specs.Prelude.{◌≡◌, ◌≢◌};
ghost use Rattle.machine_records.specs.Statuses.{IsOutcome, no_transfer, ok};
ghost use Rattle.transfer_records.specs.Driven.{CallsComeToTheTransfer};
ghost use Rattle.bus_master.specs.Pieces.{IfMove, IsStretch};
ghost use Rattle.transfer_records.specs.Pieces.{IsNextPiece, going_past};
ghost use Rattle.transfer_records.specs.Transfers.{IsBeginning, IsRegionFree, IsTransfer, begun_at, described_by};
ghost use Rattle.transfer_records.specs.Transfers.{going_in};

use crate::piece::{PieceRecord, piece_record};
use crate::transfer::TransferRecord;
use board_chipset::Chipset;
use bus_master::{Piece, Transfer};
use machine_records::status::{NO_TRANSFER, OK};

/// Begins a transfer of `sectors` sectors, 1 to 256, from `lba` on, which is below 2^28, by the table at an address
/// that is a multiple of 4, between memory and a disk of the caller's own, of which the first `readable` sectors from
/// `lba` on are there and can be read. Refused with `NO_TRANSFER` where one of these is out of range.
pub fn begin_transfer(
    transfer: &mut TransferRecord,
    table: u32,
    lba: u32,
    sectors: u32,
    readable: u32,
    to_memory: bool,
) -> u32
    ensures done { result ≡ ok → transfer.new ≡ begun_at table lba sectors readable to_memory }
    ensures sound { result ≡ ok → IsTransfer transfer.new }
    ensures refused { result ≢ ok → (result ≡ no_transfer) × ¬ IsBeginning table lba sectors }
    ensures unchanged { result ≢ ok → transfer.new ≡ transfer.old }
{
    match TransferRecord::begin(table, lba, sectors, readable, to_memory) {
        Some(begun) => {
            *transfer = begun;
            OK
        }
        None => NO_TRANSFER,
    }
}

/// Writes the next piece of a transfer: a descriptor that is to be read, words that are to be moved, or its end, with
/// what answers a bus master there. Words are taken as moved. Refused with `NO_TRANSFER` where the numbers are those of
/// none.
pub fn next_piece(chipset: &Chipset, transfer: &mut TransferRecord, piece: &mut PieceRecord) -> u32
    ensures outcome { IsOutcome result
        (IsNextPiece chipset.now transfer.old transfer.new piece.new × IsTransfer transfer.new)
        ((result ≡ no_transfer) × ¬ IsTransfer transfer.old)
        ((transfer.new ≡ transfer.old) × (piece.new ≡ piece.old)) }
{
    match transfer.transfer() {
        Some(mut going) => {
            write_next(chipset, &mut going, transfer, piece);
            OK
        }
        None => NO_TRANSFER,
    }
}

/// Writes the next piece, and goes on past words.
fn write_next(
    chipset: &Chipset,
    going: &mut Transfer,
    transfer: &mut TransferRecord,
    piece: &mut PieceRecord,
)
    requires sound { IsTransfer transfer.old }
    requires going { going.old ≡ going_in transfer.old }
    ensures done { IsNextPiece chipset.now transfer.old transfer.new piece.new }
    ensures sound { IsTransfer transfer.new }
{
    let readable = going.sector() - transfer.lba < transfer.readable;
    let next = going.next_by(chipset.map().regs(), readable);
    *piece = piece_record(chipset, transfer.table, going, &next);
    go_past(going, &next);
    *transfer = TransferRecord::of(going, transfer.readable);
}

/// Goes on past words.
fn go_past(going: &mut Transfer, piece: &Piece)
    requires stretch { IfMove piece.now (IsStretch going.old) }
    ensures past { going.new ≡ going_past piece.now going.old }
{
    if let Piece::Move(stretch) = piece {
        going.go_on(stretch.words);
    }
}

/// Goes on in the region that a descriptor names, whose two doublewords are its base and its count. Refused with
/// `NO_TRANSFER` where the numbers are those of no transfer, or of one that has a region in use.
pub fn take_region(transfer: &mut TransferRecord, base: u32, count: u32) -> u32
    ensures done { result ≡ ok → transfer.new ≡ described_by base count transfer.old }
    ensures sound { result ≡ ok → IsTransfer transfer.new }
    ensures refused { result ≢ ok → (result ≡ no_transfer) × ¬ IsRegionFree transfer.old }
    ensures unchanged { result ≢ ok → transfer.new ≡ transfer.old }
{
    if transfer.left != 0 {
        return NO_TRANSFER;
    }
    match transfer.transfer() {
        Some(mut going) => {
            going.take_descriptor(base, count);
            *transfer = TransferRecord::of(&going, transfer.readable);
            OK
        }
        None => NO_TRANSFER,
    }
}

/// Where a caller does one piece after another as it is told, while the board stays as it is, its memory and its disk
/// hold in the end what the transfer makes of them, and the end that is told is that of the transfer, whatever they
/// held.
pub fn law_calls()
    ensures whole { CallsComeToTheTransfer }
{}
