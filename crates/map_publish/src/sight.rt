//! What a look needs of a map.
ghost use Rattle.std.specs.Prelude.{◌≡◌, ◌≤◌, length, take};
ghost use Rattle.board_prelude.specs.{Setup, Bytes, IsFlatMapOf, IsSpan};
ghost use Rattle.addr_decode.specs.MapRegs.{StandsFor};
ghost use Rattle.map_builder.specs.Map.{most_ranges};

use board_base::{Area, Kind};
use map_builder::{FlatMap, MOST_RANGES, Range, Span};
use std::marker::Model;

/// No address lies in it.
const NOTHING: Span = Span {
    lo: 1,
    hi: 0,
    area: Area::Abort,
};

/// What a look needs of a map: its ranges and its version. It remembers the span that was found last, so that an access
/// of the same kind there is answered without a search.
#[derive(Drop)]
pub struct Sight {
    ranges: [Range; MOST_RANGES],
    count: usize,
    version: u32,
    kind: Kind,
    smm: bool,
    found: Span,
}

impl Model for Sight {
    ghost use Rattle.std.specs.Prelude.{map, take};
    ghost use Rattle.map_builder.specs.Map.{range_of};
    ghost use Rattle.map_publish.specs.Sights.{IsSight, Sighted};

    ghost Value = { Sighted };

    ghost view = { λ sight. record { ranges = map range_of (take sight.count sight.ranges); version = sight.version } };

    ghost invariant = { λ sight. IsSight sight.ranges sight.count sight.kind sight.smm sight.found };
}

/// Copies ranges over the first ones of a row, and returns how many they are.
fn copy_over(row: &mut [Range; MOST_RANGES], ranges: &[Range]) -> usize
    requires few { length ranges.now ≤ most_ranges }
    ensures count { (result ≡ length ranges.now) × (length row.new ≡ most_ranges) }
    ensures copied { take result row.new ≡ ranges.now }
{
    let count = ranges.len();
    row[..count].copy_from_slice(ranges);
    count
}

impl Sight {
    /// The sight of a map.
    #[tactic(auto, using(crate::proofs::Sights::kept_of))]
    pub(crate) fn new(map: &FlatMap) -> Sight
        ensures version { result.version ≡ map.now.version }
        ensures map { (setup : Setup) (bytes : Bytes) → StandsFor setup bytes map.now.regs
            → IsFlatMapOf setup bytes result.ranges }
    {
        let mut ranges = [Range::default(); MOST_RANGES];
        let count = copy_over(&mut ranges, map.ranges());
        Sight {
            ranges,
            count,
            version: map.version(),
            kind: Kind::Fetch,
            smm: false,
            found: NOTHING,
        }
    }

    /// Becomes the sight of another map. It copies only the ranges that there are.
    #[tactic(auto, using(crate::proofs::Sights::kept_of))]
    pub(crate) fn take_in(&mut self, map: &FlatMap)
        ensures version { self.new.version ≡ map.now.version }
        ensures map { (setup : Setup) (bytes : Bytes) → StandsFor setup bytes map.now.regs
            → IsFlatMapOf setup bytes self.new.ranges }
    {
        self.count = copy_over(&mut self.ranges, map.ranges());
        self.version = map.version();
        self.found = NOTHING;
    }

    /// How many changes the map has had, modulo 2^32.
    pub(crate) fn version(&self) -> u32
        ensures version { result ≡ self.now.version }
    {
        self.version
    }

    /// The longest interval round an address in which this kind of access has one area, and that area.
    pub(crate) fn find(&mut self, addr: u32, kind: Kind, smm: bool) -> Span
        ensures same { self.new ≡ self.old }
        ensures span { (setup : Setup) (bytes : Bytes) → IsFlatMapOf setup bytes self.old.ranges
            → IsSpan setup bytes addr kind smm result.lo result.hi result.area }
    {
        let is_kind = self.kind == kind && self.smm == smm;
        if is_kind && self.found.lo <= addr && addr <= self.found.hi {
            return self.found;
        }
        self.search(addr, kind, smm)
    }

    /// Searches the ranges, and remembers what it found.
    #[inline(never)]
    fn search(&mut self, addr: u32, kind: Kind, smm: bool) -> Span
        ensures same { self.new ≡ self.old }
        ensures span { (setup : Setup) (bytes : Bytes) → IsFlatMapOf setup bytes self.old.ranges
            → IsSpan setup bytes addr kind smm result.lo result.hi result.area }
    {
        let span = Range::span_in(&self.ranges[..self.count], addr, kind, smm);
        self.kind = kind;
        self.smm = smm;
        self.found = span;
        span
    }
}
