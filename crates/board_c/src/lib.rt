//! The board as a library for C: `include/board.h` declares these functions.
#![tactic(auto)]

mod boxed;
mod bytes;
mod cards;
mod exports;
mod handle;
mod image;
mod many;
mod map;
mod now;
mod opened;
mod ports;
mod second;
mod text;
mod transfer;
mod version;

pub use bytes::{
    board_cmos_read, board_cmos_write, board_disk_read, board_dram_read, board_dram_write,
};
pub use cards::{board_card_read, board_card_write, board_decode_master};
pub use exports::{board_close, board_open, board_step};
pub use handle::Handle;
pub use image::{board_load, board_load_with, board_save, board_save_without};
pub use many::{board_in_many, board_out_many};
pub use map::{board_decode, board_pulses_to_rise, board_ranges};
pub use now::board_now;
pub use ports::{board_in_cycles, board_out_cycles};
pub use second::{board_lines, board_second, board_serial_state};
pub use text::board_text;
pub use transfer::{board_transfer_begin, board_transfer_next, board_transfer_region};
pub use version::board_version;
