//! A transfer of the bus master in pieces, in numbers: for a monitor that keeps the memory and the disk itself.
#![tactic(auto)]

mod calls;
mod piece;
mod transfer;

pub use calls::{begin_transfer, law_calls, next_piece, take_region};
pub use piece::PieceRecord;
pub use transfer::TransferRecord;
