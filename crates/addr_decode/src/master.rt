//! The memory map as a bus master sees it, to which SMRAM never answers.
ghost use Rattle.std.specs.Prelude.{◌≡◌, false};
ghost use Rattle.board_prelude.specs.{Setup, Bytes, row_of as row_by, is_shadowed, is_in_hole};
ghost use Rattle.pci_bars.specs.Cards.{AreFitted};
ghost use Rattle.addr_decode.specs.MapRegs.{StandsFor, map_bytes};
ghost use Rattle.addr_decode.specs.Memory.{dram_area};
ghost use Rattle.addr_decode.specs.Master.{master_area, master_denial};

use crate::denial::denial_in;
use crate::memory::{area_beside_dram, plain_row, shadow_area};
use crate::regs::MapRegs;
use board_base::{Area, Denial, Kind};
use board_spec::range::SHADOW_RANGE;

/// The area that an access of a bus master reaches, and what denies it: None where the area answers, unless it is the
/// ROM and the access writes.
#[tactic(auto, using(std::proofs::lemmas::Bool::Decides::nat_tests), unfolding(crate::specs::Master::master_denial))]
pub fn decode_master(regs: &MapRegs, addr: u32, kind: Kind) -> (Area, Option<Denial>)
    requires cards { AreFitted regs.now.cards.items }
    ensures area { (setup : Setup) (bytes : Bytes) → StandsFor setup bytes (map_bytes regs.now)
        → result.0 ≡ master_area setup bytes addr kind }
    ensures denial { (setup : Setup) (bytes : Bytes) → StandsFor setup bytes (map_bytes regs.now)
        → result.1 ≡ master_denial setup bytes addr kind }
{
    let area = master_area(regs, addr, kind);
    (area, denial_in(regs, area, addr, kind))
}

/// The area that an access of a bus master reaches.
fn master_area(regs: &MapRegs, addr: u32, kind: Kind) -> Area
    requires cards { AreFitted regs.now.cards.items }
    ensures area { (setup : Setup) (bytes : Bytes) → StandsFor setup bytes (map_bytes regs.now)
        → result ≡ master_area setup bytes addr kind }
{
    match master_dram(regs, addr, kind) {
        Some(area) => area,
        None => area_beside_dram(regs, addr),
    }
}

/// Where such an access reaches DRAM. None where it does not.
#[tactic(auto, using(std::proofs::lemmas::Bool::Decides::nat_tests))]
fn master_dram(regs: &MapRegs, addr: u32, kind: Kind) -> Option<Area>
    ensures dram { (setup : Setup) (bytes : Bytes) → StandsFor setup bytes (map_bytes regs.now)
        → result ≡ dram_area (row_by bytes addr) false
        (is_shadowed bytes addr kind) (is_in_hole bytes addr) addr }
{
    if SHADOW_RANGE.contains(addr) {
        return shadow_area(regs, addr, kind);
    }
    match plain_row(regs, addr) {
        Some(row) => Some(Area::Dram(row)),
        None => None,
    }
}
