//! What a monitor holds: a chipset with a serial port on COM1, what its cards say that they are (PCI Local Bus 2.1,
//! section 6.2), and the bytes that their expansion ROMs were given (section 6.3); and all of it as bytes, but the last.
#![tactic(auto)]

mod card_roms;
mod dram;
mod field;
mod fitted;
mod given;
mod identities;
mod identity;
mod identity_bytes;
mod image;
mod machine;
mod memory_reader;
mod page;
mod refusal;
mod rom;
mod roms;
mod room;
mod saved;
mod setup_reader;
mod setup_writer;

pub use card_roms::rom_size;
pub use fitted::{MAGIC, VERSION, law_one_fitting};
pub use given::Given;
pub use identity::{FittedIdentity, Identity};
pub use identity_bytes::identity_at;
pub use image::write_front;
pub use machine::Machine;
pub use refusal::Refusal;
pub use roms::Roms;
pub use saved::LeftOut;
