//! The 82441FX host bridge, function 00.0: the boundaries of the DRAM rows and the fixed hole, the PAM registers with
//! the windows that they open, and SMRAM with its lock.
#![tactic(auto)]

mod control;
pub mod hole;
mod pam;
mod pmc;
mod rows;
mod smram;
mod window;

pub use control::{SMRAM_RESET, smram_after, smram_reaches};
pub use hole::{fdhc_after, hole_of};
pub use pam::{PAM_RESET, Pam, opens, store_pam};
pub use pmc::{DRB_RESET, FDHC_RESET, Pmc, fixed_byte};
pub use rows::{end_of, row_of, top_of};
pub use smram::Smram;
pub use window::{WINDOW_SIZE, Window, window_of};
