//! The DRAM of the board: its bytes from address 0 to the end of the installed memory.
#![tactic(auto)]

mod bank;
mod dram;
mod state;

pub use dram::{Dram, PastTheEnd};
pub use state::law_one_dram;
