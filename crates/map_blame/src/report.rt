//! The report on a list of changes.
ghost use Rattle.std.specs.Prelude.{◌≡◌, ◌<◌, length, reverse, IfOk};
ghost use Rattle.board_prelude.specs.{entry_limit, Setup, IsCardList, registers_after, SameMapBytes};
ghost use Rattle.map_blame.specs.Keep.{chosen};
ghost use Rattle.map_blame.specs.Report.{IsBlame};

use crate::blamed::BlameReport;
use crate::keep::kept_changes;
use crate::watch::blamed_ranges;
use addr_decode::MapRegs;
use board_base::NoMemory;
use board_spec::MapChange;
use map_builder::FlatMap;
use pci_bars::CardSpec;
use std::alloc::Global;

/// The report on the memory map of a board with these cards after some changes from reset on, the oldest first: its
/// ranges, each with the number of changes from which on it stands, and the changes on which it rests. Those are
/// the last since the last reset that covers a byte on which the map depends, for each such byte, and the first that
/// sets DLCK (82441FX, SMRAM register). All others may be dropped, and the map stays.
pub fn blame(
    alloc: Global,
    specs: &[CardSpec],
    changes: &[MapChange],
) -> Result<BlameReport, NoMemory>
    requires cards { IsCardList specs.now }
    requires count { length changes.now < entry_limit }
    ensures blame { (setup : Setup) → setup.cards ≡ specs.now → IfOk result (λ report.
        IsBlame setup (reverse changes.now) report.ranges.items report.keep.items) }
    ensures suffice { (setup : Setup) → setup.cards ≡ specs.now → IfOk result (λ report.
        SameMapBytes setup (registers_after setup (chosen report.keep.items (reverse changes.now)))
        (registers_after setup (reverse changes.now))) }
{
    let map = FlatMap::from_scratch(MapRegs::reset_of(specs));
    let keep = kept_changes(alloc, map.regs(), changes)?;
    let ranges = blamed_ranges(alloc, map, changes)?;
    Ok(BlameReport { ranges, keep })
}
