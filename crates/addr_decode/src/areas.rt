//! The six areas of an address: what every kind of access there reaches.
ghost use Rattle.std.specs.Prelude.{◌≡◌, ◌+◌, true, false, unwrap_or};
ghost use Rattle.board_prelude.specs.{Setup, Bytes, lies_in, line_where, upper_memory, is_smram_range, is_shadow_range};
ghost use Rattle.board_prelude.specs.{is_smram_open, six_areas};
ghost use Rattle.board_base.specs.declared.target.Area.TheVariants.{Smram};
ghost use Rattle.pci_bars.specs.Cards.{AreFitted};
ghost use Rattle.addr_decode.specs.MapRegs.{StandsFor, map_bytes};
ghost use Rattle.addr_decode.specs.Memory.{beside_dram};
ghost use Rattle.addr_decode.specs.Singles.{AreSinglesOf};

use crate::memory::{UPPER_MEMORY, area_beside_dram, row_beside_hole, shadow_areas};
use crate::regs::MapRegs;
use crate::singles::{Singles, is_smram_open};
use board_base::{Area, Kind, Steps};
use board_spec::range::SMRAM_RANGE;
use host_bridge::top_of;
use std::sync::ledger::Ledger;

/// The areas of an address: of a fetch, a read and a write outside SMM, and then of these in SMM.
#[derive(Clone, Copy, PartialEq, Eq, Debug)]
pub struct SixAreas {
    pub areas: [Area; 6],
}

impl Default for SixAreas {
    fn default() -> SixAreas {
        SixAreas {
            areas: [Area::Abort; 6],
        }
    }
}

/// The six areas of an address: what a fetch, a read and a write reach outside SMM and in SMM. It counts as one step.
pub fn row<L: Ledger>(regs: &MapRegs, addr: u32, steps: &mut Steps<L>) -> SixAreas
    requires cards { AreFitted regs.now.cards.items }
    ensures areas { (setup : Setup) (bytes : Bytes) → StandsFor setup bytes (map_bytes regs.now)
        → result.areas ≡ six_areas setup bytes addr }
    ensures step { steps.new ≡ steps.old + 1 }
{
    steps.tick();
    areas_at(regs, addr)
}

/// The six areas of an address, by what can answer there.
#[tactic(auto, using(std::proofs::lemmas::Bool::Decides::nat_tests))]
fn areas_at(regs: &MapRegs, addr: u32) -> SixAreas
    requires cards { AreFitted regs.now.cards.items }
    ensures areas { (setup : Setup) (bytes : Bytes) → StandsFor setup bytes (map_bytes regs.now)
        → result.areas ≡ six_areas setup bytes addr }
{
    if !UPPER_MEMORY.contains(addr) {
        return areas_below_and_above(regs, addr);
    }
    let beside = area_beside_dram(regs, addr);
    if SMRAM_RANGE.contains(addr) {
        return areas_in_smram(regs, addr, beside);
    }
    areas_in_shadow(regs, addr, beside)
}

/// The areas of an address outside upper memory: each kind of access reaches the same.
fn areas_below_and_above(regs: &MapRegs, addr: u32) -> SixAreas
    requires cards { AreFitted regs.now.cards.items }
    requires outside { lies_in upper_memory addr ≡ false }
    ensures areas { (setup : Setup) (bytes : Bytes) → StandsFor setup bytes (map_bytes regs.now)
        → result.areas ≡ six_areas setup bytes addr }
{
    let area = match row_beside_hole(regs, addr) {
        Some(row) => Area::Dram(row),
        None => area_beside_dram(regs, addr),
    };
    SixAreas { areas: [area; 6] }
}

/// The areas of an address at which SMRAM can answer, where what answers beside DRAM is known.
fn areas_in_smram(regs: &MapRegs, addr: u32, beside: Area) -> SixAreas
    requires range { is_smram_range addr ≡ true }
    requires beside { (setup : Setup) (bytes : Bytes) → StandsFor setup bytes (map_bytes regs.now)
        → beside ≡ beside_dram setup bytes addr }
    ensures areas { (setup : Setup) (bytes : Bytes) → StandsFor setup bytes (map_bytes regs.now)
        → result.areas ≡ six_areas setup bytes addr }
{
    if addr >= top_of(&regs.drb) {
        return SixAreas { areas: [beside; 6] };
    }
    let (fetch, read, write) = (Kind::Fetch, Kind::Read, Kind::Write);
    let singles = &regs.singles;
    SixAreas {
        areas: [
            smram_or(singles, fetch, false, beside),
            smram_or(singles, read, false, beside),
            smram_or(singles, write, false, beside),
            smram_or(singles, fetch, true, beside),
            smram_or(singles, read, true, beside),
            smram_or(singles, write, true, beside),
        ],
    }
}

/// SMRAM, where an access in its range reaches it, or else what answers beside DRAM.
fn smram_or(singles: &Singles, kind: Kind, smm: bool, beside: Area) -> Area
    ensures area { (bytes : Bytes) → AreSinglesOf bytes singles.now
        → result ≡ unwrap_or (line_where (is_smram_open bytes kind smm) Smram) beside }
{
    if is_smram_open(singles, kind, smm) {
        return Area::Smram;
    }
    beside
}

/// The areas of an address in a shadow window, where what answers beside DRAM is known: a fetch reaches what a read
/// does, and SMM does not count.
#[tactic(auto, using(std::proofs::lemmas::Bool::Decides::nat_tests, crate::proofs::MemoryLemmas::areas_beside_smram))]
fn areas_in_shadow(regs: &MapRegs, addr: u32, beside: Area) -> SixAreas
    requires smram { is_smram_range addr ≡ false }
    requires window { is_shadow_range addr ≡ true }
    requires beside { (setup : Setup) (bytes : Bytes) → StandsFor setup bytes (map_bytes regs.now)
        → beside ≡ beside_dram setup bytes addr }
    ensures areas { (setup : Setup) (bytes : Bytes) → StandsFor setup bytes (map_bytes regs.now)
        → result.areas ≡ six_areas setup bytes addr }
{
    let (read, write) = shadow_areas(regs, addr, beside);
    SixAreas {
        areas: [read, read, write, read, read, write],
    }
}
