//! The ATA disk of the board: one drive at the ports 1F0h to 1F7h and 3F6h, moved by programmed
//! input and output as AT Attachment describes it.
#![tactic(auto)]

mod ata;
mod command;
mod controller;
mod drive_state;
mod fault;
mod feature;
mod identify;
pub mod laws;
mod sectors;
mod state;
mod task_file;

pub use ata::{Ata, AtaOpen};
pub use state::law_one_disk;
