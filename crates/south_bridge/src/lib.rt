//! The 82371SB (PIIX3): the ISA bridge 01.0 with XBCS and the routing of PCI interrupts, the edge/level registers of its
//! interrupt lines, and the IDE function 01.1.
#![tactic(auto)]

mod elcr;
mod header;
mod ide;
mod ide_state;
pub mod laws;
mod piix;
mod pirq;
mod routing_state;
mod xbcs;

pub use elcr::Elcr;
pub use ide::{Ide, decodes_ide_channel, enables_ide_ports};
pub use ide_state::law_one_ide;
pub use piix::{Piix, isa_fixed_byte};
pub use pirq::Pirq;
pub use routing_state::law_one_routing;
pub use xbcs::{
    XBCS_RESET, rom_offset, rom_selected, selects_clock, selects_keyboard, sends_bios_writes,
    xbcs_after,
};
