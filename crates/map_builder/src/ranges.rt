//! The ranges of a map as they are built, one edge after the other.
ghost use Rattle.std.specs.Prelude.{◌≡◌, ◌≢◌, ◌-◌, ◌<◌, true, false, [], ◌∷◌, ◌++◌, length, map};
ghost use Rattle.map_builder.specs.Ranges.{range_of, ContinuesAt};

use crate::list::FixedList;
use crate::range::{LAST_ADDRESS, Range};
use addr_decode::SixAreas;

/// The most ranges that a map can keep, which is more than a board's map has.
pub const CAPACITY: usize = 160;
/// The ranges of a map in rising order of address.
pub type Ranges = FixedList<Range, CAPACITY>;

/// The open range at `addr`, where the areas are those of `row` and `last` was the open range below. It is `last` where
/// that has the same areas. Else `last` ends below `addr` and is pushed, and a new range begins.
#[inline(always)]
pub fn range_at(ranges: &mut Ranges, last: Range, addr: u32, row: SixAreas) -> Range
    requires room { length ranges.old.items < 160 }
    requires above { last.lo < addr }
    ensures goes_on { ContinuesAt (map range_of ranges.old.items) (map range_of ranges.new.items) (range_of last)
        (range_of result) addr row.areas }
{
    if are_alike(row, last.row) {
        return last;
    }
    end_below(ranges, last, addr);
    Range {
        lo: addr,
        hi: LAST_ADDRESS,
        row,
    }
}

/// Whether two rows have the same areas.
#[inline(always)]
#[tactic(auto, using(crate::proofs::AreaLemmas::rows_eq))]
fn are_alike(row: SixAreas, other: SixAreas) -> bool
    ensures alike { result ≡ true → row.areas ≡ other.areas }
    ensures different { result ≡ false → row.areas ≢ other.areas }
{
    row == other
}

/// Pushes the open range `last`, which ends below `addr`.
fn end_below(ranges: &mut Ranges, last: Range, addr: u32)
    requires room { length ranges.old.items < 160 }
    requires above { 0 < addr }
    ensures ended { map range_of ranges.new.items
        ≡ map range_of ranges.old.items ++ record (range_of last) { hi = addr - 1 } ∷ [] }
{
    ranges.push(Range {
        hi: addr - 1,
        ..last
    });
}
