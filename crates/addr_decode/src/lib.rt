//! Where an access lands and which register denied it: the configuration address register of PCI mechanism one, and the
//! address decode of the 82441FX, the 82371SB and the PCI cards, over the registers on which it depends.
#![tactic(auto)]

mod address_state;
mod areas;
mod cards;
mod change;
mod conf_add;
mod denial;
mod denied_by;
mod edges;
mod found;
pub mod laws;
mod master;
mod memory;
mod onboard;
mod ports;
mod register;
mod regs;
pub mod singles;
mod space;
mod state;

pub use address_state::law_one_address;
pub use areas::{SixAreas, row};
pub use board_spec::MapChange;
pub use change::touches;
pub use conf_add::{ConfAdd, Selected, kept, select};
pub use edges::{MOST_EDGES, next_edge};
pub use found::{ConfigRegister, Found, Function, function_of};
pub use master::decode_master;
pub use memory::{decode, decode_elsewhere, plain_row};
pub use ports::{PortRegs, decode_port, find_port};
pub use register::{CardRegister, MapRegister, Names, touch_map};
pub use regs::MapRegs;
pub use singles::{SINGLE_COUNT, Singles, chip_selects};
pub use space::Space;
pub use state::law_one_map_regs;
