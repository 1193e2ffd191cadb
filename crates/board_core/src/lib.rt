//! The board: a history that is legal at every moment, beside the chipset that it left.
//! The chipset keeps the memory map of its registers as one list of ranges, from which looks are answered.
#![tactic(auto)]

mod board;
mod past;
mod replay;
mod steps;
mod unrecorded;

pub use board::Board;
pub use board_chipset::{
    BoardOpen, Setup, Store, is_base, is_disk_size, is_expansion_rom, is_rom_size,
};
pub use past::Past;
pub use replay::Replay;
pub use steps::Steps;
pub use unrecorded::UnrecordedBoard;
