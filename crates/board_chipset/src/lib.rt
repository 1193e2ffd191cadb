//! The chipset of the board: the registers, the bytes behind the addresses, and the devices. Each event is one step,
//! which takes no memory, and whose reply is the answer to the history so far. That history is not kept.
#![tactic(auto)]

mod around;
mod bus;
mod bus_reply;
mod bytes;
mod card_bytes;
mod card_check;
mod check;
mod chipset;
mod decode;
mod given;
mod in_range;
mod load;
mod looks;
mod masters;
mod memory;
mod monitor;
mod outside;
mod ports;
mod registers;
mod reset_control;
mod saved;
mod setup;
mod state;
mod state_bytes;
mod state_fault;
mod step;
mod store;
mod told;
mod wide;

pub use around::law_dram_between;
pub use bus_reply::{BusReply, WideReply};
pub use card_bytes::PastTheBase;
pub use card_check::{is_base, is_expansion_rom};
pub use check::{SetupFault, check_sizes, is_memory_size};
pub use chipset::Chipset;
pub use dram_store::PastTheEnd;
pub use given::OtherLength;
pub use in_range::{OutOfRange, test_memory, test_port, test_wide};
pub use load::NoClockByte;
pub use reset_control::ResetKind;
pub use saved::{law_loaded_is_saved, law_one_state};
pub use setup::{BoardOpen, Setup, is_disk_size, is_rom_size};
pub use state_bytes::is_other_version;
pub use state_fault::StateFault;
pub use store::Store;
