//! Which changes of the registers made the memory map what it is: since when each of its ranges stands, and which
//! changes it rests on. The others may be dropped, and the map stays.
#![tactic(auto)]

mod blamed;
mod covers;
mod keep;
pub mod laws;
mod report;
mod watch;

pub use blamed::{BlameReport, Blamed};
pub use board_base::NoMemory;
pub use board_spec::MapChange;
pub use map_builder::Range;
pub use pci_bars::CardSpec;
pub use report::blame;
