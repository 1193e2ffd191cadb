//! The search for an address in the ranges of a map.
ghost use Rattle.std.specs.Prelude.{◌≡◌, ◌<◌, ℕ, length, map};
ghost use Rattle.board_prelude.specs.{Setup, Bytes, area_of, Tiles, IsFlatMapOf, IsSpan, six_areas};
ghost use Rattle.map_builder.specs.Ranges.{range_of};
ghost use Rattle.map_builder.specs.Find.{Holds, IsFirstAlike, IsLastAlike, area_at as area_at_index, in_column};

use crate::range::{Range, Span};
use board_base::{Area, Kind};

impl Range {
    /// The longest interval round an address in which this kind of access has one area, by the ranges of a map.
    pub fn span_in(ranges: &[Range], addr: u32, kind: Kind, smm: bool) -> Span
        requires tiles { Tiles 0 (map range_of ranges.now) }
        ensures span { (setup : Setup) (bytes : Bytes) → IsFlatMapOf setup bytes (map range_of ranges.now)
            → IsSpan setup bytes addr kind smm result.lo result.hi result.area }
    {
        let index = index_of(ranges, addr);
        let column = column_of(kind, smm);
        let first = first_alike(ranges, index, column);
        let last = last_alike(ranges, index, column);
        Span {
            lo: ranges[first].lo,
            hi: ranges[last].hi,
            area: area_at(ranges, index, column),
        }
    }
}

/// The index of the range that holds an address: the last that begins at it or below it. Each step halves the ranges
/// that are left.
#[tactic(auto, using(std::proofs::lemmas::Bool::Decides::nat_tests))]
pub fn index_of(ranges: &[Range], addr: u32) -> usize
    requires tiles { Tiles 0 (map range_of ranges.now) }
    ensures holds { Holds ranges.now result addr }
{
    let mut index = 0;
    let mut left = ranges.len();
    while left > 1 {
        let half = left / 2;
        if ranges[index + half].lo <= addr {
            index += half;
        }
        left -= half;
    }
    index
}

/// The column of a kind of access among the six areas of a row: fetch, read and write outside SMM, and then in SMM.
fn column_of(kind: Kind, smm: bool) -> usize
    ensures below { result < 6 }
    ensures column { (setup : Setup) (bytes : Bytes) (addr : ℕ)
        → in_column result (six_areas setup bytes addr) ≡ area_of setup bytes addr kind smm }
{
    match (kind, smm) {
        (Kind::Fetch, false) => 0,
        (Kind::Read, false) => 1,
        (Kind::Write, false) => 2,
        (Kind::Fetch, true) => 3,
        (Kind::Read, true) => 4,
        (Kind::Write, true) => 5,
    }
}

/// The area of a range in a column.
fn area_at(ranges: &[Range], index: usize, column: usize) -> Area
    requires index { index < length ranges.now }
    requires column { column < 6 }
    ensures area { result ≡ area_at_index ranges.now column index }
{
    ranges[index].row.areas[column]
}

/// The index of the first range from which on all ranges up to this one have its area in a column.
fn first_alike(ranges: &[Range], index: usize, column: usize) -> usize
    requires index { index < length ranges.now }
    requires column { column < 6 }
    ensures first { IsFirstAlike ranges.now column index result }
{
    let area = area_at(ranges, index, column);
    for below in (0..index).rev() {
        if area_at(ranges, below, column) != area {
            return below + 1;
        }
    }
    0
}

/// The index of the last range up to which all ranges from this one on have its area in a column.
fn last_alike(ranges: &[Range], index: usize, column: usize) -> usize
    requires index { index < length ranges.now }
    requires column { column < 6 }
    ensures last { IsLastAlike ranges.now column index result }
{
    let area = area_at(ranges, index, column);
    for above in index + 1..ranges.len() {
        if area_at(ranges, above, column) != area {
            return above - 1;
        }
    }
    ranges.len() - 1
}
