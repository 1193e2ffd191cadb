//! The ranges of the map at the end, watched while the changes are made one after another.
ghost use Rattle.std.specs.Prelude.{◌≡◌, ◌<◌, ℕ, true, false, [], length, map, reverse, slice_index_or, All, IfOk};
ghost use Rattle.board_prelude.specs.{entry_limit, Setup, IsCardList, Bytes, IsRight, registers_after};
ghost use Rattle.pci_bars.specs.Cards.{AreFitted};
ghost use Rattle.addr_decode.specs.MapRegs.{StandsFor, map_bytes};
ghost use Rattle.map_builder.specs.Map.{range_of};
ghost use Rattle.map_blame.specs.Report.{AreBlamed};
ghost use Rattle.map_blame.specs.Watch.{IsInterval, IsWatchable, IsAfter, IsWatched, IsWatchedOn};
ghost use Rattle.map_blame.specs.declared.watch.Watched.{Watched};

use crate::blamed::Blamed;
use addr_decode::MapRegs;
use board_base::NoMemory;
use board_spec::MapChange;
use map_builder::{Changed, FlatMap, Range, index_of};
use std::alloc::Global;

/// A range of the map at the end, since when it stands, and whether it does now.
#[derive(Clone, Copy, PartialEq, Eq, Default)]
pub struct Watched {
    pub blamed: Blamed,
    pub stands: bool,
}

/// The ranges of a map after some changes, each with the number of changes from which on it stands. The map is that
/// after a reset.
pub fn blamed_ranges(
    alloc: Global,
    map: FlatMap,
    changes: &[MapChange],
) -> Result<Vec<Blamed>, NoMemory>
    requires count { length changes.now < entry_limit }
    ensures ranges { IfOk result (λ ranges. (setup : Setup) → IsCardList setup.cards → IsAfter setup [] map
        → AreBlamed setup (reverse changes.now) ranges.items) }
{
    let last = changed_map(&map, changes);
    let mut watched = begin(alloc, &map, last.ranges())?;
    watch(&mut watched, map, changes);
    all_blamed(alloc, &watched)
}

/// The map after some changes to one after a reset. It is built once, from the registers after the last change.
fn changed_map(map: &FlatMap, changes: &[MapChange]) -> FlatMap
    ensures after { (setup : Setup) → IsAfter setup [] map.now → IsAfter setup (reverse changes.now) result }
{
    FlatMap::from_scratch(changed_regs(map.regs(), changes))
}

/// The registers after some changes to those after a reset.
fn changed_regs(regs: &MapRegs, changes: &[MapChange]) -> MapRegs
    requires cards { AreFitted regs.now.cards.items }
    ensures fitted { AreFitted result.cards.items }
    ensures after { (setup : Setup) → StandsFor setup (registers_after setup []) (map_bytes regs.now)
        → StandsFor setup (registers_after setup (reverse changes.now)) (map_bytes result) }
{
    let mut regs = regs.copy();
    for change in changes {
        regs.apply(change);
    }
    regs
}

/// Begins to watch some ranges, by the map after a reset.
fn begin(alloc: Global, first: &FlatMap, ranges: &[Range]) -> Result<Vec<Watched>, NoMemory>
    requires ranges { All IsInterval ranges.now }
    ensures ranges { IfOk result (λ watched. map (λ one. one.blamed.range) watched.items ≡ ranges.now) }
    ensures watched { IfOk result (λ watched. (setup : Setup) → IsAfter setup [] first.now
        → All (IsWatched setup []) watched.items) }
{
    let mut watched = Vec::with_capacity(alloc, ranges.len())?;
    for range in ranges {
        watched.push(Watched {
            blamed: Blamed {
                range: *range,
                since: 0,
            },
            stands: stands(first, range),
        })?;
    }
    Ok(watched)
}

/// Watches ranges while some changes are made to a map after a reset.
#[tactic(auto, using(std::proofs::lemmas::Bool::Decides::nat_tests))]
fn watch(watched: &mut [Watched], map: FlatMap, changes: &[MapChange])
    requires ranges { All IsWatchable watched.old }
    requires count { length changes.now < entry_limit }
    ensures length { length watched.new ≡ length watched.old }
    ensures ranges { (k : ℕ) (d : Watched) → k < length watched.old
        → (slice_index_or watched.new k d).blamed.range ≡ (slice_index_or watched.old k d).blamed.range }
    ensures watched { (setup : Setup) → IsCardList setup.cards → IsAfter setup [] map
        → All (IsWatched setup []) watched.old → All (IsWatched setup (reverse changes.now)) watched.new }
{
    let mut map = map;
    for (index, change) in changes.iter().enumerate() {
        let bounds = map.apply(change);
        look_again(watched, &map, bounds, index as u32 + 1);
    }
}

/// Looks at the ranges within the bounds of the change of this number, after which this is the map.
fn look_again(watched: &mut [Watched], map: &FlatMap, bounds: Changed, number: u32)
    requires ranges { All IsWatchable watched.old }
    ensures length { length watched.new ≡ length watched.old }
    ensures next { (k : ℕ) (d : Watched) → k < length watched.old
        → IsWatchedOn map.now bounds number (slice_index_or watched.old k d) (slice_index_or watched.new k d) }
{
    for one in watched.iter_mut() {
        *one = one.after(map, bounds, number);
    }
}

/// The report on ranges that are watched.
fn all_blamed(alloc: Global, watched: &[Watched]) -> Result<Vec<Blamed>, NoMemory>
    ensures blamed { IfOk result (λ blamed. blamed.items ≡ map (λ one. one.blamed) watched.now) }
{
    Ok(watched.iter().map(|one| one.blamed).collect(alloc)?)
}

impl Watched {
    /// What is known of the range after the change of this number.
    fn after(self, map: &FlatMap, bounds: Changed, number: u32) -> Watched
        requires range { IsWatchable self }
        ensures next { IsWatchedOn map.now bounds number self result }
    {
        let Blamed { range, since } = self.blamed;
        if range.hi < bounds.lo || bounds.hi < range.lo {
            return self;
        }
        let stands = stands(map, &range);
        let since = if stands && !self.stands {
            number
        } else {
            since
        };
        Watched {
            blamed: Blamed { range, since },
            stands,
        }
    }
}

/// Whether every address of a range has its areas in a map.
fn stands(map: &FlatMap, range: &Range) -> bool
    requires range { IsInterval range.now }
    ensures yes { result ≡ true → (setup : Setup) (bytes : Bytes) → StandsFor setup bytes map.now.regs
        → IsRight setup bytes (range_of range.now) }
    ensures no { result ≡ false → (setup : Setup) (bytes : Bytes) → StandsFor setup bytes map.now.regs
        → ¬ IsRight setup bytes (range_of range.now) }
{
    let ranges = map.ranges();
    let here = ranges[index_of(ranges, range.lo)];
    here.row == range.row && range.hi <= here.hi
}
