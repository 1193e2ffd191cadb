//! The bus master of the IDE function: its registers, and transfers between the disk and memory without a processor.
#![tactic(auto)]

mod direction;
mod done;
mod memory;
mod piece;
mod pieces;
mod registers;
mod state;
mod transfer;
mod under_way;

pub use done::{Done, End};
pub use piece::{Piece, Stretch};
pub use pieces::{Transfer, law_pieces};
pub use registers::{BusMaster, COMMAND, DIRECTION, START, STATUS, TABLE};
pub use state::TransferState;
pub use transfer::SECTOR_WORDS;
pub use under_way::{COUNT_OFFSET, DESCRIPTOR_BYTES, SECTOR_BYTES, WORD_BYTES};
