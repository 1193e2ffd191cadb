//! The memory map as one list of ranges.
ghost use Rattle.std.specs.Prelude.{◌≡◌, ◌≤◌, ◌<◌, ◌+◌, [], length, map};
ghost use Rattle.board_prelude.specs.{Kind, Setup, Store, Bytes, Tiles, IsFlatMapOf, IsSpan};
ghost use Rattle.pci_bars.specs.Cards.{AreFitted, cards_of};
ghost use Rattle.addr_decode.specs.MapRegister.{AreNumbered, names_of};
ghost use Rattle.addr_decode.specs.Found.{HasRegister};
ghost use Rattle.addr_decode.specs.MapRegs.{StandsFor, map_bytes};
ghost use Rattle.map_builder.specs.Map.{range_of, most_ranges, IsOfSomeBoard, IsMapOf};
ghost use Rattle.map_builder.specs.Changed.{most_rows};
ghost use Rattle.map_builder.specs.Applied.{IsApplied, IsStored};

use crate::build::{ranges_of, rebuild};
use crate::changed::{Covered, keeps_windows, push_again, push_covered};
use crate::list::FixedList;
use crate::range::{Changed, Range, Span};
use crate::ranges::{CAPACITY, Ranges};
use crate::rows::choose_windows;
use crate::unchanged::{byte_alone, is_same_byte};
use crate::widths::hold_widths;
use crate::windows::{Windows, bounds_of};
use addr_decode::{ConfigRegister, MapChange, MapRegister, MapRegs, touch_map};
use board_base::{Kind, Steps, Width};
use std::marker::{Brand, Model};
use std::sync::ledger::{Blank, Ledger};

/// The answer where no window changes.
const NOTHING: Changed = Changed { lo: 0, hi: 0 };

/// The memory map of some registers, and how many changes it has had: the least list of ranges from the first address
/// to the last in each of which every address has the same areas. `board_example::map` has an example.
#[derive(Drop)]
pub struct FlatMap {
    pub(crate) regs: MapRegs,
    ranges: Ranges,
    /// Room for the ranges as they were, while those that changed are built anew.
    before: [Range; CAPACITY],
    /// Room for the windows of a change.
    windows: Covered,
    /// The windows in which the last change built the ranges anew.
    pub(crate) chosen: Windows,
    pub(crate) version: u32,
}

impl Model for FlatMap {
    ghost use Rattle.std.specs.Prelude.{map};
    ghost use Rattle.addr_decode.specs.MapRegs.{map_bytes};
    ghost use Rattle.map_builder.specs.Map.{Mapped, IsMapOf, range_of};

    ghost Value = { Mapped };

    ghost view = { λ flat. record {
      regs = map_bytes flat.regs;
      ranges = map range_of flat.ranges.items;
      version = flat.version;
      changed = flat.chosen.items;
    } };

    ghost invariant = { λ flat. IsMapOf (map_bytes flat.regs) (map range_of flat.ranges.items) };
}

impl FlatMap {
    /// The map of these registers, at version 0.
    pub fn from_scratch(regs: MapRegs) -> FlatMap
        requires cards { AreFitted regs.cards.items }
        ensures regs { result.regs ≡ map_bytes regs }
        ensures version { result.version ≡ 0 }
        ensures changed { result.changed ≡ [] }
        ensures map { (setup : Setup) (bytes : Bytes) → StandsFor setup bytes result.regs
            → IsFlatMapOf setup bytes result.ranges }
        ensures few { length result.ranges ≤ most_ranges }
    {
        FlatMap::restored(regs, 0, &[])
    }

    /// The map of these registers, built from scratch, at this version, with these windows of the last change.
    pub fn restored(regs: MapRegs, version: u32, changed: &[Changed]) -> FlatMap
        requires cards { AreFitted regs.cards.items }
        requires windows { length changed.now ≤ 64 }
        ensures regs { result.regs ≡ map_bytes regs }
        ensures version { result.version ≡ version }
        ensures changed { result.changed ≡ changed.now }
        ensures whole { IsMapOf result.regs result.ranges }
    {
        hold_widths(&regs);
        let ranges = uncounted_ranges::<Brand>(&regs, Blank::new(1));
        let mut chosen = FixedList::new();
        chosen.extend(changed);
        FlatMap {
            regs,
            ranges,
            before: [Range::default(); CAPACITY],
            windows: FixedList::new(),
            chosen,
            version,
        }
    }

    /// An equal map. It takes no memory.
    pub fn copy(&self) -> FlatMap
        ensures equal { result ≡ self.now }
    {
        let mut ranges = FixedList::new();
        ranges.extend(self.ranges.as_slice());
        let mut chosen = FixedList::new();
        chosen.extend(self.chosen.as_slice());
        FlatMap {
            regs: self.regs.copy(),
            ranges,
            before: [Range::default(); CAPACITY],
            windows: FixedList::new(),
            chosen,
            version: self.version,
        }
    }

    /// The ranges in rising order of address.
    pub fn ranges(&self) -> &[Range]
        ensures ranges { map range_of result.now ≡ self.now.ranges }
        ensures tiles { Tiles 0 self.now.ranges }
        ensures map { (setup : Setup) (bytes : Bytes) → StandsFor setup bytes self.now.regs
            → IsFlatMapOf setup bytes self.now.ranges }
        ensures few { length self.now.ranges ≤ most_ranges }
    {
        self.ranges.as_slice()
    }

    /// The registers that this is the map of.
    pub fn regs(&self) -> &MapRegs
        ensures regs { map_bytes result.now ≡ self.now.regs }
        ensures fitted { AreFitted self.now.regs.cards }
    {
        &self.regs
    }

    /// How many changes the map has had since it was built, modulo 2^32.
    pub fn version(&self) -> u32
        ensures version { result ≡ self.now.version }
    {
        self.version
    }

    /// The windows in which the last change may have changed the areas, in rising order, none overlapping another: an
    /// address outside them kept its areas. There is none before the first change, and where the registers kept what
    /// they held.
    pub fn changed(&self) -> &[Changed]
        ensures windows { result.now ≡ self.now.changed }
    {
        self.chosen.as_slice()
    }

    /// The longest interval round an address in which this kind of access has one area, and that area.
    pub fn find(&self, addr: u32, kind: Kind, smm: bool) -> Span
        ensures span { (setup : Setup) (bytes : Bytes) → StandsFor setup bytes self.now.regs
            → IsSpan setup bytes addr kind smm result.lo result.hi result.area }
    {
        Range::span_in(self.ranges.as_slice(), addr, kind, smm)
    }

    /// Makes a change of the registers, and raises the version by one, modulo 2^32. Returns the bounds of the addresses
    /// whose areas it may change: the least first and the greatest last address of the windows that the change covers.
    /// Both are 0 where there is no such window, and then no area changes (`law_changed_bounds`).
    pub fn apply(&mut self, change: &MapChange) -> Changed
        ensures applied { IsApplied self.old self.new change.now result }
    {
        let names = self.regs.names(change);
        uncounted::<Brand>(self, change, names.as_slice(), Blank::new(1))
    }

    /// Makes a change as `apply` does, and counts each row that is looked up as a step: at most one for each window,
    /// and one for each edge inside the windows after the change.
    pub fn apply_counted<L: Ledger>(&mut self, change: &MapChange, steps: &mut Steps<L>) -> Changed
        ensures applied { IsApplied self.old self.new change.now result }
        ensures rows { (setup : Setup) (bytes : Bytes) → StandsFor setup bytes self.old.regs
            → steps.new ≤ steps.old + most_rows setup bytes change.now }
    {
        let names = self.regs.names(change);
        self.change(change, names.as_slice(), steps)
    }

    /// Stores the bytes of a value in rising offset, from a register on that its function has. Where they cover a byte
    /// that the map depends on, this is a change as `apply` makes it. Else only registers of a card change, and neither
    /// the ranges nor the version.
    pub fn store(&mut self, register: &ConfigRegister, width: Width, value: u32)
        requires function { HasRegister self.old.regs.cards register.now.function register.now.reg }
        ensures stored { IsStored self.old self.new (Store register.now.reg width value) }
    {
        match width {
            Width::One => self.store_at(register, Width::One, value),
            Width::Two | Width::Four => self.store_at(register, width, value),
        }
    }

    /// Stores as `store` does. Where the width is known to be one byte, the compiler makes code of it that knows the
    /// number of names.
    #[inline(always)]
    fn store_at(&mut self, register: &ConfigRegister, width: Width, value: u32)
        requires function { HasRegister self.old.regs.cards register.now.function register.now.reg }
        ensures stored { IsStored self.old self.new (Store register.now.reg width value) }
    {
        let change = MapChange::Store {
            reg: register.reg,
            width,
            value,
        };
        let names = self.regs.names_at(register, width);
        if touch_map(names.as_slice()) {
            uncounted::<Brand>(self, &change, names.as_slice(), Blank::new(1));
        } else {
            self.regs.apply_named(&change, names.as_slice());
        }
    }

    /// Makes a change as `apply_counted` does, where the names of the registers that it stores to are known.
    #[inline(always)]
    #[tactic(auto, using(addr_decode::proofs::NameLemmas::names_numbered))]
    fn change<L: Ledger>(
        &mut self,
        change: &MapChange,
        names: &[Option<MapRegister>],
        steps: &mut Steps<L>,
    ) -> Changed
        requires names { names.now ≡ names_of (cards_of self.old.regs.cards) change.now }
        ensures applied { IsApplied self.old self.new change.now result }
        ensures rows { (setup : Setup) (bytes : Bytes) → StandsFor setup bytes self.old.regs
            → steps.new ≤ steps.old + most_rows setup bytes change.now }
    {
        self.windows.truncate(0);
        push_covered(&mut self.windows, &self.regs, change, names);
        let boundaries = self.regs.drb;
        let before = byte_alone(&self.regs, names);
        self.regs.apply_named(change, names);
        let kept = is_same_byte(before, byte_alone(&self.regs, names));
        let same = keeps_windows(kept, names);
        push_again(&mut self.windows, same, &self.regs, change, names);
        choose_windows(
            &mut self.chosen,
            kept,
            names,
            self.windows.as_slice(),
            &boundaries,
            &self.regs.drb,
        );
        rebuild(
            &mut self.ranges,
            &mut self.before,
            &self.regs,
            self.chosen.as_slice(),
            steps,
        );
        self.version = self.version.wrapping_add(1);
        bounds_of(self.windows.as_slice()).unwrap_or(NOTHING)
    }
}

/// Makes a change of a map as `apply` does, where the names of the registers that it stores to are known, and counts
/// nothing. Where there is one name the compiler makes code of its own of it.
#[inline(always)]
fn uncounted<L: Ledger>(
    map: &mut FlatMap,
    change: &MapChange,
    names: &[Option<MapRegister>],
    blank: Blank,
) -> Changed
    requires names { names.now ≡ names_of (cards_of map.old.regs.cards) change.now }
    requires name { blank.name ≡ L.name }
    requires parts { blank.parts ≡ L.parts }
    requires some_part { 0 < L.parts }
    ensures applied { IsApplied map.old map.new change.now result }
{
    let mut steps = Steps::<L>::new(blank);
    match names {
        [name] => map.change(change, &[*name], &mut steps),
        _ => map.change(change, names, &mut steps),
    }
}

/// The ranges of the flat map of these registers, without a count.
fn uncounted_ranges<L: Ledger>(regs: &MapRegs, blank: Blank) -> Ranges
    requires name { blank.name ≡ L.name }
    requires parts { blank.parts ≡ L.parts }
    requires some_part { 0 < L.parts }
    requires cards { AreFitted regs.now.cards.items }
    requires board { IsOfSomeBoard (map_bytes regs.now) }
    ensures tiles { Tiles 0 (map range_of result.items) }
    ensures map { (setup : Setup) (bytes : Bytes) → StandsFor setup bytes (map_bytes regs.now)
        → IsFlatMapOf setup bytes (map range_of result.items) }
    ensures few { length result.items ≤ most_ranges }
{
    let mut steps = Steps::<L>::new(blank);
    ranges_of(regs, &mut steps)
}
