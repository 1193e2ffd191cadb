//! A change of the registers that the address map depends on.

use board_base::{Reg, Width};

/// One map write: a store to configuration space that covers a map byte, or a hard reset. The bits of
/// `value` past the width, and bytes past offset FFh, do not count.
#[derive(Clone, Copy, PartialEq, Eq, Debug)]
pub enum MapChange {
    Store { reg: Reg, width: Width, value: u32 },
    Reset,
}
