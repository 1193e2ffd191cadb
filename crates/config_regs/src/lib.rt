//! The registers in configuration space of bus 0, found by function and then by offset. Those that the memory map
//! depends on are read from the registers of the map; the routes of interrupts and the IDE function are kept here.
#![tactic(auto)]

mod reading;
mod south;
mod state;

pub use reading::{read, read_from};
pub use south::South;
pub use state::law_one_south;
