//! What comes next in a transfer that a caller drives.

use crate::done::End;
use board_base::Area;

/// Words that lie in one sector, one region and one area.
#[derive(Clone, Copy, PartialEq, Eq, Debug)]
pub struct Stretch {
    /// What answers at the address of each word.
    pub area: Area,
    /// The address of the first word.
    pub addr: u32,
    /// The sector.
    pub sector: u32,
    /// Which of its 256 words is the first.
    pub word: u32,
    /// How many words.
    pub words: u32,
}

/// What comes next in a transfer.
#[derive(Clone, Copy, PartialEq, Eq, Debug)]
pub enum Piece {
    /// A descriptor is wanted: the doubleword at this address, which is the base of a region, and the one 4 past it,
    /// which is its count. Both are answered.
    Descriptor { addr: u32 },
    /// Words are to be moved between a sector and memory.
    Move(Stretch),
    /// Nothing: the transfer has ended.
    Ended(End),
}
