//! The order of priority of the eight levels, which begins behind the lowest and goes round to it (8259A, Automatic
//! Rotation and Specific Rotation).
ghost use Rattle.std.specs.Prelude.{◌≡◌, ◌<◌, IfSome, slice_index};
ghost use Rattle.std.specs.List.{find};
ghost use Rattle.device_spec.specs.Levels.{has};
ghost use Rattle.device_spec.specs.Pic.{priority_order};

use crate::level_set::LevelSet;

/// How many levels there are, IR0 to IR7.
pub const LEVEL_COUNT: u8 = 8;

/// The level at a place from 0 to 7 in the order from the highest priority to the lowest.
pub fn level_at(lowest: u8, place: u8) -> u8
    requires lowest { lowest < 8 }
    requires place { place < 8 }
    ensures level { result ≡ slice_index (priority_order lowest) place }
    ensures small { result < 8 }
{
    (lowest + 1 + place) % LEVEL_COUNT
}

/// The level of highest priority in a set. Of those in service that block, it is the one that a non-specific end of
/// interrupt ends (8259A, End of Interrupt).
pub fn first_of(levels: &LevelSet, lowest: u8) -> Option<u8>
    requires lowest { lowest < 8 }
    ensures first { result ≡ find (has levels.now) (priority_order lowest) }
    ensures level { IfSome result (λ level. level < 8) }
{
    for place in 0..LEVEL_COUNT {
        let level = level_at(lowest, place);
        if levels.contains(level) {
            return Some(level);
        }
    }
    None
}
