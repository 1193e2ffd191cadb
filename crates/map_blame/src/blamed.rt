//! The report on a memory map: since when each range stands, and on which changes it rests.

use map_builder::Range;

/// A range of the memory map, and the least number of changes such that after these, and after each that follows, every
/// address of the range has the areas that it has at the end. 0 where that is so from reset on.
#[derive(Clone, Copy, PartialEq, Eq, Debug, Default)]
pub struct Blamed {
    pub range: Range,
    pub since: u32,
}

/// The ranges of the memory map after some changes, in rising order of address, and the numbers of the changes on which
/// it rests, in rising order, counted from 1.
#[derive(Drop)]
pub struct BlameReport {
    pub ranges: Vec<Blamed>,
    pub keep: Vec<u32>,
}
