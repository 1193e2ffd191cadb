//! The memory map as records of numbers.

ghost use Rattle.std.specs.Prelude.{◌≡◌, map};
ghost use Rattle.map_builder.specs.Map.{range_of};
ghost use Rattle.machine_records.specs.Maps.{short_area, range_said, window_said, filled, AreRangesOf, AreWindowsOf};
ghost use Rattle.machine_records.specs.Maps.{IsVersionSaid};

use crate::reply::area_record;
use board_base::Area;
use board_chipset::Chipset;
use map_builder::{Changed, Range};

/// What one kind of access reaches in a range, by the same numbers as in a part of a reply.
#[repr(C)]
#[derive(Clone, Copy, Default)]
pub struct AreaRecord {
    pub target: u8,
    pub unit: u8,
    pub base: u8,
    pub reserved: u8,
}

/// A range of the memory map: first and last address, and what a fetch, a read and a write reach outside SMM, and then
/// in SMM.
#[repr(C)]
#[derive(Clone, Copy, Default)]
pub struct RangeRecord {
    pub lo: u32,
    pub hi: u32,
    pub areas: [AreaRecord; 6],
}

/// A window of addresses in which a change of the map may have changed what answers: the first and the last address.
#[repr(C)]
#[derive(Clone, Copy, Default)]
pub struct WindowRecord {
    pub lo: u32,
    pub hi: u32,
}

/// The memory map: how many ranges it has, how many windows its last change has, its version, modulo 2^32, and how
/// many MiB of memory are installed: rows may be decoded further, without bytes.
#[repr(C)]
#[derive(Clone, Copy, Default)]
pub struct MapRecord {
    pub ranges: u64,
    pub windows: u64,
    pub version: u32,
    pub mib: u32,
}

/// Sets `into` to the counts and the version of the memory map, and to the memory. Fills `ranges` with its ranges and
/// `windows` with the windows of its last change, the first of them where there is no room for all.
pub fn read_map(
    chipset: &Chipset,
    into: &mut MapRecord,
    ranges: &mut [RangeRecord],
    windows: &mut [WindowRecord],
)
    ensures version { IsVersionSaid chipset.now into.new.version }
    ensures mib { into.new.mib ≡ chipset.now.setup.mib }
    ensures ranges { AreRangesOf chipset.now into.new.ranges ranges.old ranges.new }
    ensures windows { AreWindowsOf chipset.now into.new.windows windows.old windows.new }
{
    let map = chipset.map();
    let all = map.ranges();
    let changed = map.changed();
    *into = MapRecord {
        ranges: all.len() as u64,
        windows: changed.len() as u64,
        version: map.version(),
        mib: chipset.setup().mib,
    };
    fill_ranges(all, ranges);
    fill_windows(changed, windows);
}

/// Fills `room` with the first ranges, as many as fit. What is left of it stays as it was.
#[tactic(auto, using(std::proofs::lemmas::Grind::common_steps, crate::proofs::Filled::filled_more, crate::proofs::Filled::rest_more))]
fn fill_ranges(ranges: &[Range], room: &mut [RangeRecord])
    ensures filled { room.new ≡ filled (map (λ range. range_said (range_of range)) ranges.now) room.old }
{
    let count = ranges.len().min(room.len());
    for index in 0..count {
        room[index] = range_record(&ranges[index]);
    }
}

/// Fills `room` with the first windows, as many as fit. What is left of it stays as it was.
#[tactic(auto, using(std::proofs::lemmas::Grind::common_steps, crate::proofs::Filled::filled_more, crate::proofs::Filled::rest_more))]
fn fill_windows(windows: &[Changed], room: &mut [WindowRecord])
    ensures filled { room.new ≡ filled (map window_said windows.now) room.old }
{
    let count = windows.len().min(room.len());
    for index in 0..count {
        room[index] = window_record(windows[index]);
    }
}

fn range_record(range: &Range) -> RangeRecord
    ensures said { result ≡ range_said (range_of range.now) }
{
    let [fetch, read, write, smm_fetch, smm_read, smm_write] = range.row.areas;
    RangeRecord {
        lo: range.lo,
        hi: range.hi,
        areas: [
            short_area(fetch),
            short_area(read),
            short_area(write),
            short_area(smm_fetch),
            short_area(smm_read),
            short_area(smm_write),
        ],
    }
}

fn window_record(window: Changed) -> WindowRecord
    ensures said { result ≡ window_said window }
{
    WindowRecord {
        lo: window.lo,
        hi: window.hi,
    }
}

fn short_area(area: Area) -> AreaRecord
    ensures said { result ≡ short_area area }
{
    let part = area_record(area);
    AreaRecord {
        target: part.target,
        unit: part.unit,
        base: part.base,
        reserved: 0,
    }
}
