//! The PCI cards of a board (PCI Local Bus 2.1, section 6.2): their registers, which of them claims an
//! address or a port, and the bytes behind their bases.
#![tactic(auto)]

mod cards;
mod claims;
mod contents;
mod regs;
mod spec;
mod state;

pub use cards::{CARD_COUNT, card_at, card_index, push_card};
pub use claims::{claim_io, claim_mem, offset_in, shut_io, shut_mem, unselected_rom};
pub use contents::{Contents, expansion_byte};
pub use regs::CardRegs;
pub use spec::{BASE_COUNT, BaseSpec, CardSpec};
