//! A transfer of the bus master in pieces, over memory and a disk that the caller keeps.

ghost use Rattle.std.specs.Prelude.{◌≡◌, ◌≢◌, true};
ghost use Rattle.board_c.specs.Calls.{IsCall, OnBoard};
ghost use Rattle.machine_records.specs.Statuses.{no_transfer, ok};
ghost use Rattle.transfer_records.specs.Transfers.{IsBeginning, IsRegionFree, IsTransfer, begun_at, described_by};
ghost use Rattle.transfer_records.specs.Pieces.{IsNextPiece};

use crate::handle::Handle;
use machine_records::status::BAD_HANDLE;
use std::alloc::Global;
use transfer_records::{PieceRecord, TransferRecord, begin_transfer, next_piece, take_region};

/// Begins a transfer of sectors, 1 to 256, from `lba` on, which is below 2^28, by the table at an address that is a
/// multiple of 4; the first `readable` of them are there and can be read. `NO_TRANSFER` exactly where one of these is
/// out of range.
#[unsafe(no_mangle)]
pub extern "C" fn board_transfer_begin(
    transfer: &mut TransferRecord,
    table: u32,
    lba: u32,
    sectors: u32,
    readable: u32,
    to_memory: bool,
) -> u32
    ensures done { result ≡ ok → transfer.new ≡ begun_at table lba sectors readable to_memory }
    ensures sound { result ≡ ok → IsTransfer transfer.new }
    ensures refused { result ≢ ok → (result ≡ no_transfer) × ¬ IsBeginning table lba sectors }
    ensures unchanged { result ≢ ok → transfer.new ≡ transfer.old }
{
    begin_transfer(transfer, table, lba, sectors, readable, to_memory)
}

/// Writes the next piece of a transfer: a descriptor that is to be read, words that are to be moved, or its end. Words
/// are taken as moved. `BAD_HANDLE` exactly where the handle is closed, and `NO_TRANSFER` exactly where it is open and the
/// transfer's numbers are those of none.
#[unsafe(no_mangle)]
pub extern "C" fn board_transfer_next(
    alloc: Global,
    handle: &mut Handle,
    transfer: &mut TransferRecord,
    piece: &mut PieceRecord,
) -> u32
    ensures call { IsCall handle.old handle.new result
        (OnBoard handle.old.held (λ serial. IsNextPiece serial.board transfer.old transfer.new piece.new)
        × IsTransfer transfer.new)
        ((result ≡ no_transfer) × ¬ IsTransfer transfer.old)
        ((transfer.new ≡ transfer.old) × (piece.new ≡ piece.old)) }
    ensures same { handle.old.full ≡ true → handle.new.held ≡ handle.old.held }
{
    let Some(board) = handle.take(alloc) else {
        return BAD_HANDLE;
    };
    let status = next_piece(board.machine.chipset(), transfer, piece);
    handle.put(board);
    status
}

/// Goes on in the region that a descriptor names, whose two doublewords are its base and its count. `NO_TRANSFER`
/// exactly where the transfer's numbers are those of none, or of one that has a region in use.
#[unsafe(no_mangle)]
pub extern "C" fn board_transfer_region(transfer: &mut TransferRecord, base: u32, count: u32) -> u32
    ensures done { result ≡ ok → transfer.new ≡ described_by base count transfer.old }
    ensures sound { result ≡ ok → IsTransfer transfer.new }
    ensures refused { result ≢ ok → (result ≡ no_transfer) × ¬ IsRegionFree transfer.old }
    ensures unchanged { result ≢ ok → transfer.new ≡ transfer.old }
{
    take_region(transfer, base, count)
}
