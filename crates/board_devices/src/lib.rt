//! The devices of the board, joined by the interrupt lines: the 8259A pair, the 8254 with port 61h, the clock, the
//! disk, and the edge and level control. After each event that can move one, the lines reach the pair as they then
//! stand. The routes of the PCI interrupts are registers of the board's configuration space, so each call is given
//! them.
#![tactic(auto)]

mod access;
mod devices;
mod lines;
mod monitor;
mod outside;
mod plain;
mod state;
mod system;
mod told;

pub use devices::Devices;
pub use lines::{law_left_alone, law_lines_stand};
pub use state::law_one_devices;
