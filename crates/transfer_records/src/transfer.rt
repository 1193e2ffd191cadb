//! A transfer in the numbers that its caller keeps.

ghost use Rattle.std.specs.Prelude.{◌≡◌, ◌/◌, true, false, None, IfSome};
ghost use Rattle.bus_master.specs.States.{IsTransferState};
ghost use Rattle.transfer_records.specs.Transfers.{IsBeginning, IsTransfer, begun_at, going_in, recorded, state_in};

use bus_master::{SECTOR_BYTES, SECTOR_WORDS, Transfer, TransferState};

/// The most sectors of a transfer.
const MOST_SECTORS: u32 = 256;

/// A transfer as far as it has come: the address of the next descriptor; where the region in use goes on, and how many
/// bytes it has left; how many bytes were moved, and how many words are still to be; the first sector, and how many
/// from it on are there and can be read; 1 where the region is the last of the table, and 1 where words go to memory.
#[repr(C)]
#[derive(Clone, Copy, Default)]
pub struct TransferRecord {
    pub table: u32,
    pub addr: u32,
    pub left: u32,
    pub moved: u32,
    pub words: u32,
    pub lba: u32,
    pub readable: u32,
    pub is_last: u8,
    pub to_memory: u8,
    pub reserved: u16,
}

impl TransferRecord {
    /// A transfer that has moved nothing. None exactly where the table is not at a multiple of 4, `lba` not below 2^28,
    /// or the sectors not 1 to 256.
    pub(crate) fn begin(
        table: u32,
        lba: u32,
        sectors: u32,
        readable: u32,
        to_memory: bool,
    ) -> Option<TransferRecord>
        ensures begun { IfSome result (λ transfer. transfer ≡ begun_at table lba sectors readable to_memory) }
        ensures sound { IfSome result IsTransfer }
        ensures beginning { IfSome result (λ transfer. IsBeginning table lba sectors) }
        ensures none { result ≡ None → ¬ IsBeginning table lba sectors }
    {
        if sectors == 0 || sectors > MOST_SECTORS {
            return None;
        }
        let begun = TransferRecord {
            table,
            words: SECTOR_WORDS * sectors,
            lba,
            readable,
            to_memory: u8::from(to_memory),
            ..TransferRecord::default()
        };
        begun.state().is_sound().then_some(begun)
    }

    /// The transfer that the numbers are those of. None exactly where they are those of none.
    pub(crate) fn transfer(&self) -> Option<Transfer>
        ensures of { IfSome result (λ transfer. transfer ≡ going_in self.now) }
        ensures sound { IfSome result (λ transfer. IsTransfer self.now) }
        ensures none { result ≡ None → ¬ IsTransfer self.now }
    {
        if !self.is_in_range() {
            return None;
        }
        Transfer::of(&self.state())
    }

    /// Whether flags are 0 or 1, no sector was begun that cannot be read, and the reserved bytes are 0.
    fn is_in_range(&self) -> bool
        ensures inside { result ≡ true → IsTransferState (state_in self.now) → IsTransfer self.now }
        ensures outside { result ≡ false → ¬ IsTransfer self.now }
    {
        self.is_last <= 1
            && self.to_memory <= 1
            && self.moved.div_ceil(SECTOR_BYTES) <= self.readable
            && self.reserved == 0
    }

    /// How far it has come.
    fn state(&self) -> TransferState
        ensures state { result ≡ state_in self.now }
    {
        TransferState {
            table: self.table,
            addr: self.addr,
            left: self.left,
            is_last: self.is_last == 1,
            moved: self.moved,
            to_memory: self.to_memory == 1,
            lba: self.lba,
            words: self.words,
        }
    }

    /// The numbers of a transfer, of which so many sectors can be read.
    pub(crate) fn of(transfer: &Transfer, readable: u32) -> TransferRecord
        ensures recorded { result ≡ recorded transfer.now readable }
    {
        let state = transfer.state();
        TransferRecord {
            table: state.table,
            addr: state.addr,
            left: state.left,
            moved: state.moved,
            words: state.words,
            lba: state.lba,
            readable,
            is_last: u8::from(state.is_last),
            to_memory: u8::from(state.to_memory),
            reserved: 0,
        }
    }
}
