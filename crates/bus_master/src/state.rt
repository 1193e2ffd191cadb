//! A transfer in plain numbers.

ghost use Rattle.std.specs.Prelude.{◌≡◌, true, false, None, IfSome};
ghost use Rattle.bus_master.specs.States.{IsAligned, IsTransferState, going_of};

use crate::direction::Direction;
use crate::pieces::Transfer;
use crate::under_way::{UnderWay, WORD_BYTES};

/// The most bytes that a transfer moves: 256 sectors.
const MOST_BYTES: u32 = 0x2_0000;
/// How many sectors a number of 28 bits can name.
const SECTOR_NUMBERS: u32 = 0x1000_0000;
/// The bytes of a doubleword: a table of descriptors begins at a multiple of them.
const DOUBLEWORD_BYTES: u32 = 4;

/// How far a transfer has come, for a caller that keeps it between two pieces.
#[derive(Clone, Copy)]
pub struct TransferState {
    /// The address of the next descriptor, a multiple of 4.
    pub table: u32,
    /// Where the region in use goes on, an even address.
    pub addr: u32,
    /// How many bytes it has left, an even number.
    pub left: u32,
    /// Whether it is the last of the table.
    pub is_last: bool,
    /// How many bytes were moved, an even number.
    pub moved: u32,
    /// Whether words go from the disk to memory.
    pub to_memory: bool,
    /// The first sector, below 2^28.
    pub lba: u32,
    /// How many words are still to be moved: with those that were, at most 256 sectors.
    pub words: u32,
}

impl TransferState {
    /// Whether a transfer can have come so far.
    pub fn is_sound(&self) -> bool
        ensures sound { result ≡ true → IsTransferState self.now }
        ensures unsound { result ≡ false → ¬ IsTransferState self.now }
    {
        self.is_aligned()
            && self.lba < SECTOR_NUMBERS
            && self.words <= MOST_BYTES / WORD_BYTES
            && self.moved <= MOST_BYTES - WORD_BYTES * self.words
    }

    /// Whether its addresses are aligned, and its counts those of whole words.
    fn is_aligned(&self) -> bool
        ensures aligned { result ≡ true → IsAligned self.now }
        ensures not_aligned { result ≡ false → ¬ IsAligned self.now }
    {
        self.table % DOUBLEWORD_BYTES == 0
            && self.addr % WORD_BYTES == 0
            && self.left % WORD_BYTES == 0
            && self.moved % WORD_BYTES == 0
    }
}

impl Transfer {
    /// The transfer that has come so far. None exactly where none can have.
    pub fn of(state: &TransferState) -> Option<Transfer>
        ensures of { IfSome result (λ transfer. transfer ≡ going_of state.now) }
        ensures sound { IfSome result (λ transfer. IsTransferState state.now) }
        ensures none { result ≡ None → ¬ IsTransferState state.now }
    {
        if !state.is_sound() {
            return None;
        }
        Some(Transfer {
            way: UnderWay {
                table: state.table,
                addr: state.addr,
                left: state.left,
                is_last: state.is_last,
                moved: state.moved,
            },
            direction: Direction::of(state.to_memory),
            lba: state.lba,
            words: state.words,
        })
    }

    /// How far it has come.
    pub fn state(&self) -> TransferState
        ensures state { going_of result ≡ self.now }
        ensures sound { IsTransferState result }
    {
        TransferState {
            table: self.way.table,
            addr: self.way.addr,
            left: self.way.left,
            is_last: self.way.is_last,
            moved: self.way.moved,
            to_memory: self.direction.is_to_memory(),
            lba: self.lba,
            words: self.words,
        }
    }
}
