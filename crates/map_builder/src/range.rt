//! Intervals of addresses, first and last address, with what the memory map says of them.

use addr_decode::SixAreas;
use board_base::Area;

/// The last address.
pub const LAST_ADDRESS: u32 = 0xFFFF_FFFF;

/// A range of the memory map: first and last address, and the areas that each of its addresses has.
#[derive(Clone, Copy, PartialEq, Eq, Debug, Default)]
pub struct Range {
    pub lo: u32,
    pub hi: u32,
    pub row: SixAreas,
}

/// The longest interval round an address in which one kind of access has one area.
#[derive(Clone, Copy, PartialEq, Eq, Debug)]
pub struct Span {
    pub lo: u32,
    pub hi: u32,
    pub area: Area,
}

/// The bounds of the addresses whose areas a change of the registers may change. Both are 0 where there are none.
#[derive(Clone, Copy, PartialEq, Eq, Default)]
pub struct Changed {
    pub lo: u32,
    pub hi: u32,
}
