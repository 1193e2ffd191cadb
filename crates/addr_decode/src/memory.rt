//! The memory map of the 82441FX and the 82371SB: which area an access reaches, and what denies it.
ghost use Rattle.std.specs.Prelude.{◌≡◌, Bool, true, false, None, IfSome, if◌then◌else◌, unwrap_or};
ghost use Rattle.board_prelude.specs.{Kind, Read, Write, Setup, Bytes, line_where, row_of as row_by, is_shadow_range};
ghost use Rattle.board_prelude.specs.{is_smram_range, is_shadowed, area_of, denial_of, denial_in as denial_by};
ghost use Rattle.board_prelude.specs.{abort_denial, rom_denial, top_of, memory_shut, rom_unselected};
ghost use Rattle.board_prelude.specs.{xbcs as select_register, is_in_hole, is_smram_open};
ghost use Rattle.board_base.specs.declared.target.Area.TheVariants.{Dram, Shadow};
ghost use Rattle.host_bridge.specs.Pam.{IsPamOf};
ghost use Rattle.pci_bars.specs.Cards.{AreFitted};
ghost use Rattle.addr_decode.specs.MapRegs.{StandsFor, map_bytes};
ghost use Rattle.addr_decode.specs.Memory.{beside_dram, dram_area, plain_row};

use crate::denial::denial_in;
use crate::regs::MapRegs;
use crate::singles::{is_bios_selected, is_in_hole, is_smram_open};
use board_base::{Area, Denial, Kind};
use board_spec::range::{AddressRange, SHADOW_RANGE, SMRAM_RANGE};
use host_bridge::{opens, row_of, top_of, window_of};
use pci_bars::claim_mem;

/// SMRAM and all shadow windows of PAM: no address here is one of ordinary DRAM.
pub(crate) const UPPER_MEMORY: AddressRange = AddressRange {
    first: SMRAM_RANGE.first,
    last: SHADOW_RANGE.last,
};

/// The area that a memory access reaches, and what denies it: None where the area answers, unless it is the ROM
/// and the access writes. Nothing denies an access that reaches DRAM.
#[inline(always)]
#[tactic(auto, using(crate::proofs::MemoryLemmas::memory_map))]
pub fn decode(regs: &MapRegs, addr: u32, kind: Kind, smm: bool) -> (Area, Option<Denial>)
    requires cards { AreFitted regs.now.cards.items }
    ensures area { (setup : Setup) (bytes : Bytes) → StandsFor setup bytes (map_bytes regs.now)
        → result.0 ≡ area_of setup bytes addr kind smm }
    ensures denial { (setup : Setup) (bytes : Bytes) → StandsFor setup bytes (map_bytes regs.now)
        → result.1 ≡ denial_of setup bytes addr kind smm }
{
    match plain_row(regs, addr) {
        Some(row) => (Area::Dram(row), None),
        None => decode_elsewhere(regs, addr, kind, smm),
    }
}

/// The row of ordinary DRAM at an address, which every kind of access reaches: outside SMRAM, the shadow windows and
/// the hole. None where there is none.
#[inline(always)]
#[tactic(auto, using(crate::proofs::MemoryLemmas::memory_map))]
pub fn plain_row(regs: &MapRegs, addr: u32) -> Option<u8>
    ensures area { IfSome result (λ row. (setup : Setup) (bytes : Bytes) (kind : Kind) (smm : Bool)
        → StandsFor setup bytes (map_bytes regs.now) → area_of setup bytes addr kind smm ≡ Dram row) }
    ensures denial { IfSome result (λ row. (setup : Setup) (bytes : Bytes) (kind : Kind) (smm : Bool)
        → StandsFor setup bytes (map_bytes regs.now) → denial_of setup bytes addr kind smm ≡ None) }
    ensures row { (setup : Setup) (bytes : Bytes) → StandsFor setup bytes (map_bytes regs.now)
        → result ≡ plain_row bytes addr }
{
    if UPPER_MEMORY.contains(addr) {
        return None;
    }
    row_beside_hole(regs, addr)
}

/// The row of DRAM at an address outside SMRAM and the shadow windows, unless the hole has the address.
#[inline(always)]
pub(crate) fn row_beside_hole(regs: &MapRegs, addr: u32) -> Option<u8>
    ensures row { (setup : Setup) (bytes : Bytes) → StandsFor setup bytes (map_bytes regs.now)
        → result ≡ (if is_in_hole bytes addr then None else row_by bytes addr) }
{
    if is_in_hole(&regs.singles, addr) {
        return None;
    }
    row_of(&regs.drb, addr)
}

/// What `decode` gives at an address at which `plain_row` finds none.
#[tactic(auto, using(crate::proofs::MemoryLemmas::memory_map))]
pub fn decode_elsewhere(regs: &MapRegs, addr: u32, kind: Kind, smm: bool) -> (Area, Option<Denial>)
    requires cards { AreFitted regs.now.cards.items }
    requires elsewhere { (setup : Setup) (bytes : Bytes) → StandsFor setup bytes (map_bytes regs.now)
        → plain_row bytes addr ≡ None }
    ensures area { (setup : Setup) (bytes : Bytes) → StandsFor setup bytes (map_bytes regs.now)
        → result.0 ≡ area_of setup bytes addr kind smm }
    ensures denial { (setup : Setup) (bytes : Bytes) → StandsFor setup bytes (map_bytes regs.now)
        → result.1 ≡ denial_of setup bytes addr kind smm }
{
    match upper_area(regs, addr, kind, smm) {
        Some(area) => (area, None),
        None => decode_beside_dram(regs, addr, kind),
    }
}

/// The area that an access reaches where DRAM does not answer, and what denies it.
fn decode_beside_dram(regs: &MapRegs, addr: u32, kind: Kind) -> (Area, Option<Denial>)
    requires cards { AreFitted regs.now.cards.items }
    ensures area { (setup : Setup) (bytes : Bytes) → StandsFor setup bytes (map_bytes regs.now)
        → result.0 ≡ beside_dram setup bytes addr }
    ensures denial { (setup : Setup) (bytes : Bytes) → StandsFor setup bytes (map_bytes regs.now)
        → result.1 ≡ denial_by result.0 kind
        (abort_denial (top_of bytes) (memory_shut setup bytes addr) (rom_unselected setup bytes addr) addr)
        (rom_denial (bytes select_register)) }
{
    let area = area_beside_dram(regs, addr);
    (area, denial_in(regs, area, addr, kind))
}

/// What answers at an address where DRAM does not: the ROM, a card or nothing, whatever the kind of access.
#[inline(always)]
#[tactic(auto, using(std::proofs::lemmas::Bool::Decides::nat_tests))]
pub(crate) fn area_beside_dram(regs: &MapRegs, addr: u32) -> Area
    requires cards { AreFitted regs.now.cards.items }
    ensures area { (setup : Setup) (bytes : Bytes) → StandsFor setup bytes (map_bytes regs.now)
        → result ≡ beside_dram setup bytes addr }
{
    if is_bios_selected(&regs.singles, addr) {
        return Area::Rom;
    }
    match claim_mem(&regs.cards, addr) {
        Some((dev, base)) => Area::Card(dev, base),
        None => Area::Abort,
    }
}

/// Where an access in upper memory reaches DRAM: in SMRAM, or through a shadow window. None where it does not, and
/// outside upper memory.
fn upper_area(regs: &MapRegs, addr: u32, kind: Kind, smm: bool) -> Option<Area>
    ensures dram { (setup : Setup) (bytes : Bytes) → StandsFor setup bytes (map_bytes regs.now)
        → result ≡ dram_area (row_by bytes addr) (is_smram_open bytes kind smm)
        (is_shadowed bytes addr kind) true addr }
{
    if SMRAM_RANGE.contains(addr) {
        return smram_area(regs, addr, kind, smm);
    }
    if SHADOW_RANGE.contains(addr) {
        return shadow_area(regs, addr, kind);
    }
    None
}

/// SMRAM, where an access at an address in its range reaches it.
fn smram_area(regs: &MapRegs, addr: u32, kind: Kind, smm: bool) -> Option<Area>
    requires range { is_smram_range addr ≡ true }
    ensures dram { (setup : Setup) (bytes : Bytes) (shadowed hole : Bool) → StandsFor setup bytes (map_bytes regs.now)
        → result ≡ dram_area (row_by bytes addr) (is_smram_open bytes kind smm) shadowed hole addr }
{
    if addr < top_of(&regs.drb) {
        return is_smram_open(&regs.singles, kind, smm).then_some(Area::Smram);
    }
    None
}

/// The row behind a shadow window at an address, where the window is open.
pub(crate) fn shadow_area(regs: &MapRegs, addr: u32, kind: Kind) -> Option<Area>
    requires window { is_shadow_range addr ≡ true }
    ensures dram { (setup : Setup) (bytes : Bytes) (opened hole : Bool) → StandsFor setup bytes (map_bytes regs.now)
        → result ≡ dram_area (row_by bytes addr) opened (is_shadowed bytes addr kind) hole addr }
{
    match row_of(&regs.drb, addr) {
        Some(row) => is_shadowed(&regs.pam, addr, kind).then_some(Area::Shadow(row)),
        None => None,
    }
}

/// What a read and a write reach at an address of a shadow window, where what answers beside DRAM is known.
#[tactic(auto, using(crate::proofs::MemoryLemmas::memory_map))]
pub(crate) fn shadow_areas(regs: &MapRegs, addr: u32, beside: Area) -> (Area, Area)
    requires window { is_shadow_range addr ≡ true }
    requires beside { (setup : Setup) (bytes : Bytes) → StandsFor setup bytes (map_bytes regs.now)
        → beside ≡ beside_dram setup bytes addr }
    ensures read { (setup : Setup) (bytes : Bytes) → StandsFor setup bytes (map_bytes regs.now)
        → result.0 ≡ area_of setup bytes addr Read false }
    ensures write { (setup : Setup) (bytes : Bytes) → StandsFor setup bytes (map_bytes regs.now)
        → result.1 ≡ area_of setup bytes addr Write false }
{
    match row_of(&regs.drb, addr) {
        Some(row) => {
            let (reads, writes) = shadows(&regs.pam, addr);
            (
                shadow_or(reads, row, beside),
                shadow_or(writes, row, beside),
            )
        }
        None => (beside, beside),
    }
}

/// A row behind a shadow window, where it is open.
fn shadow_or(opened: bool, row: u8, beside: Area) -> Area
    ensures area { result ≡ unwrap_or (line_where opened (Shadow row)) beside }
{
    if opened { Area::Shadow(row) } else { beside }
}

/// Whether a shadow window is open for reads at an address, and whether for writes.
fn shadows(pam: &[u8; 7], addr: u32) -> (bool, bool)
    ensures reads { (bytes : Bytes) → IsPamOf bytes pam.now → result.0 ≡ is_shadowed bytes addr Read }
    ensures writes { (bytes : Bytes) → IsPamOf bytes pam.now → result.1 ≡ is_shadowed bytes addr Write }
{
    match window_of(addr) {
        Some(window) => {
            let reads = opens(pam, &window, Kind::Read);
            (reads, opens(pam, &window, Kind::Write))
        }
        None => (false, false),
    }
}

/// Whether a shadow window is open at an address.
pub(crate) fn is_shadowed(pam: &[u8; 7], addr: u32, kind: Kind) -> bool
    ensures shadowed { (bytes : Bytes) → IsPamOf bytes pam.now → result ≡ is_shadowed bytes addr kind }
{
    match window_of(addr) {
        Some(window) => opens(pam, &window, kind),
        None => false,
    }
}
