//! The ranges of the memory map, built from the registers on which it depends: all of them, or those that a change of
//! the registers may have changed.
ghost use Rattle.std.specs.Prelude.{ℕ, ◌≡◌, ◌≤◌, ◌<◌, ◌+◌, ◌-◌, [], length, map, unwrap_or, IfSome};
ghost use Rattle.board_prelude.specs.{Setup, Bytes, address_count, Tiles, IsFlatMapOf};
ghost use Rattle.pci_bars.specs.Cards.{AreFitted};
ghost use Rattle.addr_decode.specs.MapRegs.{MapBytes, StandsFor, map_bytes};
ghost use Rattle.addr_decode.specs.Edges.{SameAreas, edges_after};
ghost use Rattle.map_builder.specs.Map.{range_of, most_ranges, IsOfSomeBoard};
ghost use Rattle.map_builder.specs.Find.{BeginsBelow, Holds};
ghost use Rattle.map_builder.specs.Build.{IsBuilt, IsMapWhere, IsBelow, IsBetween, IsBeside, IsBuiltUpTo};
ghost use Rattle.map_builder.specs.Build.{IsWhole};
ghost use Rattle.map_builder.specs.Sorted.{Rise, rows_in as rows_of};

use crate::changed::EVERYTHING;
use crate::find::index_of;
use crate::list::FixedList;
use crate::range::{Changed, LAST_ADDRESS, Range};
use crate::ranges::{CAPACITY, Ranges, range_at};
use addr_decode::{MOST_EDGES, MapRegs, next_edge, row};
use board_base::Steps;
use std::sync::ledger::Ledger;

/// The most ranges that a map has: one begins at the first address, and one at each edge.
pub const MOST_RANGES: usize = MOST_EDGES + 1;

/// The ranges of the flat map of these registers. At each edge, from address 0 on, the range below goes on where the
/// areas are the same, and else a new range begins. Each row that is looked up is a step.
pub fn ranges_of<L: Ledger>(regs: &MapRegs, steps: &mut Steps<L>) -> Ranges
    requires cards { AreFitted regs.now.cards.items }
    requires board { IsOfSomeBoard (map_bytes regs.now) }
    ensures tiles { Tiles 0 (map range_of result.items) }
    ensures map { (setup : Setup) (bytes : Bytes) → StandsFor setup bytes (map_bytes regs.now)
        → IsFlatMapOf setup bytes (map range_of result.items) }
    ensures few { length result.items ≤ most_ranges }
{
    let mut ranges = FixedList::new();
    let first = first_range(regs, steps);
    let last = rows_in(&mut ranges, first, regs, EVERYTHING, steps);
    ranges.push(last);
    ranges
}

/// Brings a map's ranges up to date with the registers, where they are right outside `windows`: inside them they are
/// built anew, outside they stay, and neighbours with equal areas become one. `before` is working room: what it holds
/// before the call and after it does not matter.
pub fn rebuild<L: Ledger>(
    ranges: &mut Ranges,
    before: &mut [Range; CAPACITY],
    regs: &MapRegs,
    windows: &[Changed],
    steps: &mut Steps<L>,
)
    requires cards { AreFitted regs.now.cards.items }
    requires board { IsOfSomeBoard (map_bytes regs.now) }
    requires rise { Rise windows.now }
    requires beside { IsMapWhere (map_bytes regs.now) (IsBeside windows.now) (map range_of ranges.old.items) }
    requires few { length ranges.old.items ≤ most_ranges }
    ensures tiles { Tiles 0 (map range_of ranges.new.items) }
    ensures map { (setup : Setup) (bytes : Bytes) → StandsFor setup bytes (map_bytes regs.now)
        → IsFlatMapOf setup bytes (map range_of ranges.new.items) }
    ensures few { length ranges.new.items ≤ most_ranges }
    ensures rows { (setup : Setup) (bytes : Bytes) → StandsFor setup bytes (map_bytes regs.now)
        → steps.new ≤ steps.old + rows_of (edges_after setup bytes) windows.now }
{
    if windows.is_empty() {
        return;
    }
    let kept = ranges.as_slice();
    let before = &mut before[..kept.len()];
    before.copy_from_slice(kept);
    sweep(ranges, before, regs, windows, steps);
}

/// Builds the ranges inside the windows anew, and takes those outside from `before`, the map as it was.
#[tactic(auto, using(crate::proofs::RebuildLemmas::sweep_steps))]
fn sweep<L: Ledger>(
    ranges: &mut Ranges,
    before: &[Range],
    regs: &MapRegs,
    windows: &[Changed],
    steps: &mut Steps<L>,
)
    requires cards { AreFitted regs.now.cards.items }
    requires board { IsOfSomeBoard (map_bytes regs.now) }
    requires some { 0 < length windows.now }
    requires rise { Rise windows.now }
    requires same { ranges.old.items ≡ before.now }
    requires beside { IsMapWhere (map_bytes regs.now) (IsBeside windows.now) (map range_of before.now) }
    ensures whole { IsWhole (map_bytes regs.now) ranges.new.items }
    ensures rows { (setup : Setup) (bytes : Bytes) → StandsFor setup bytes (map_bytes regs.now)
        → steps.new ≤ steps.old + rows_of (edges_after setup bytes) windows.now }
{
    let first = windows[0];
    let from = index_of(before, first.lo.saturating_sub(1));
    let cut = cut_below(ranges, before, from, regs, first.lo, steps);
    let mut last = rows_in(ranges, cut, regs, first, steps);
    let mut hi = first.hi;
    for index in 1..windows.len() {
        let window = windows[index];
        last = keep(ranges, last, before, from, hi, window.lo - 1);
        last = row_at(ranges, last, regs, window.lo, steps);
        last = rows_in(ranges, last, regs, window, steps);
        hi = window.hi;
    }
    finish(ranges, last, before, from, hi);
}

/// The range that begins at address 0. It is open: it reaches to the last address until a next range is begun.
#[tactic(auto, using(crate::proofs::BuildLemmas::is_built_first))]
fn first_range<L: Ledger>(regs: &MapRegs, steps: &mut Steps<L>) -> Range
    requires cards { AreFitted regs.now.cards.items }
    ensures built { IsBuilt (map_bytes regs.now) [] (range_of result) 0 }
    ensures step { steps.new ≡ steps.old + 1 }
{
    Range {
        lo: 0,
        hi: LAST_ADDRESS,
        row: row(regs, 0, steps),
    }
}

/// Keeps of the ranges those below the address `lo`, and returns the open range that has `lo`. `from` is the index of
/// the range that has the address below `lo`.
#[tactic(auto, using(crate::proofs::BuildLemmas::build_steps))]
fn cut_below<L: Ledger>(
    ranges: &mut Ranges,
    before: &[Range],
    from: usize,
    regs: &MapRegs,
    lo: u32,
    steps: &mut Steps<L>,
) -> Range
    requires cards { AreFitted regs.now.cards.items }
    requires same { ranges.old.items ≡ before.now }
    requires holds { Holds before.now from (lo - 1) }
    requires below { IsMapWhere (map_bytes regs.now) (IsBelow lo) (map range_of before.now) }
    ensures built { IsBuilt (map_bytes regs.now) (map range_of ranges.new.items) (range_of result) lo }
    ensures step { steps.new ≡ steps.old + 1 }
{
    if lo == 0 {
        ranges.truncate(0);
        return first_range(regs, steps);
    }
    let last = Range {
        hi: LAST_ADDRESS,
        ..before[from]
    };
    ranges.truncate(from);
    range_at(ranges, last, lo, row(regs, lo, steps))
}

/// Builds on with the row of an address, where the ranges are built up to the address below it. Returns the open range.
#[tactic(auto, using(crate::proofs::BuildLemmas::build_steps))]
fn row_at<L: Ledger>(
    ranges: &mut Ranges,
    last: Range,
    regs: &MapRegs,
    addr: u32,
    steps: &mut Steps<L>,
) -> Range
    requires cards { AreFitted regs.now.cards.items }
    requires board { IsOfSomeBoard (map_bytes regs.now) }
    requires above { 0 < addr }
    requires built { IsBuilt (map_bytes regs.now) (map range_of ranges.old.items) (range_of last) (addr - 1) }
    ensures built { IsBuilt (map_bytes regs.now) (map range_of ranges.new.items) (range_of result) addr }
    ensures step { steps.new ≡ steps.old + 1 }
{
    range_at(ranges, last, addr, row(regs, addr, steps))
}

/// Builds on with the ranges of the map as it was, for the addresses above `after` up to `until`. Returns the open
/// range. In `before`, the range at index `from` begins at `after` or below.
#[tactic(auto, using(crate::proofs::BuildLemmas::build_steps, crate::proofs::RebuildLemmas::begins_next, crate::proofs::FindLemmas::placed))]
fn keep(
    ranges: &mut Ranges,
    last: Range,
    before: &[Range],
    from: usize,
    after: u32,
    until: u32,
) -> Range
    requires tiles { Tiles 0 (map range_of before.now) }
    requires from { BeginsBelow before.now from after }
    requires order { after ≤ until }
    requires kept { IsBuiltUpTo (map range_of ranges.old.items) (range_of last) (map range_of before.now) after until }
    ensures built { (regs : MapBytes) → IsBuilt regs (map range_of ranges.old.items) (range_of last) after
        → IsMapWhere regs (IsBetween after until) (map range_of before.now)
        → IsBuilt regs (map range_of ranges.new.items) (range_of result) until }
{
    if after == until {
        return last;
    }
    let index = index_from(before, from, after + 1);
    let here = before[index];
    let last = range_at(ranges, last, after + 1, here.row);
    if until <= here.hi {
        return last;
    }
    ranges.push(Range {
        hi: here.hi,
        ..last
    });
    let end = index_from(before, index + 1, until);
    ranges.extend(&before[index + 1..end]);
    Range {
        hi: LAST_ADDRESS,
        ..before[end]
    }
}

/// Builds on to the last address with the ranges of the map as it was, for all addresses above `after`. In `before`,
/// the range at index `from` begins at `after` or below.
#[tactic(auto, using(crate::proofs::BuildLemmas::build_steps))]
fn finish(ranges: &mut Ranges, last: Range, before: &[Range], from: usize, after: u32)
    requires tiles { Tiles 0 (map range_of before.now) }
    requires from { BeginsBelow before.now from after }
    requires kept { IsBuiltUpTo (map range_of ranges.old.items) (range_of last) (map range_of before.now) after
        (address_count - 1) }
    ensures whole { (regs : MapBytes) → IsOfSomeBoard regs
        → IsBuilt regs (map range_of ranges.old.items) (range_of last) after
        → IsMapWhere regs (IsBetween after (address_count - 1)) (map range_of before.now)
        → IsWhole regs ranges.new.items }
{
    if after == LAST_ADDRESS {
        ranges.push(last);
        return;
    }
    let index = index_from(before, from, after + 1);
    let next = before[index];
    let last = range_at(ranges, last, after + 1, next.row);
    ranges.push(Range {
        hi: next.hi,
        ..last
    });
    ranges.extend(&before[index + 1..]);
}

/// The index of the range that has an address, searched from index `from` on, whose range begins at the address or
/// below.
#[tactic(auto, using(std::proofs::lemmas::Bool::Decides::nat_tests, std::proofs::lemmas::Grind::common_steps, crate::proofs::RebuildLemmas::begins_next, crate::proofs::FindLemmas::placed))]
fn index_from(ranges: &[Range], from: usize, addr: u32) -> usize
    requires tiles { Tiles 0 (map range_of ranges.now) }
    requires from { BeginsBelow ranges.now from addr }
    ensures holds { Holds ranges.now result addr }
    ensures from { from ≤ result }
{
    let mut index = from;
    while ranges[index].hi < addr {
        index += 1;
    }
    index
}

/// Builds on through an interval, from `first`, the open range at its first address. Each edge inside is looked up.
/// Returns the open range at its last address.
#[inline(always)]
fn rows_in<L: Ledger>(
    ranges: &mut Ranges,
    first: Range,
    regs: &MapRegs,
    interval: Changed,
    steps: &mut Steps<L>,
) -> Range
    requires cards { AreFitted regs.now.cards.items }
    requires board { IsOfSomeBoard (map_bytes regs.now) }
    requires order { interval.lo ≤ interval.hi }
    requires built { IsBuilt (map_bytes regs.now) (map range_of ranges.old.items) (range_of first) interval.lo }
    ensures built { IsBuilt (map_bytes regs.now) (map range_of ranges.new.items) (range_of result) interval.hi }
    ensures rows { (setup : Setup) (bytes : Bytes) → StandsFor setup bytes (map_bytes regs.now)
        → steps.new + edges_after setup bytes interval.hi ≤ steps.old + edges_after setup bytes interval.lo }
    ensures fits { interval.hi < address_count }
{
    let mut last = first;
    let mut addr = interval.lo;
    while let Some(edge) = edge_up_to(regs, addr, interval.hi) {
        last = range_at(ranges, last, edge, row(regs, edge, steps));
        addr = edge;
    }
    last
}

/// The least edge above `addr`, where there is one up to `hi`.
#[inline(always)]
fn edge_up_to(regs: &MapRegs, addr: u32, hi: u32) -> Option<u32>
    requires cards { AreFitted regs.now.cards.items }
    ensures above { IfSome result (λ edge. addr < edge) }
    ensures within { IfSome result (λ edge. edge ≤ hi) }
    ensures equal { (setup : Setup) (bytes : Bytes) → StandsFor setup bytes (map_bytes regs.now)
        → SameAreas setup bytes addr (unwrap_or result (hi + 1)) }
    ensures fewer { (setup : Setup) (bytes : Bytes) → StandsFor setup bytes (map_bytes regs.now)
        → IfSome result (λ edge. edges_after setup bytes edge < edges_after setup bytes addr) }
{
    match next_edge(regs, addr) {
        Some(edge) if edge <= hi => Some(edge),
        _ => None,
    }
}
