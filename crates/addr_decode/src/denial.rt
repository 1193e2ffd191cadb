//! Which register denies a memory access.
ghost use Rattle.std.specs.Prelude.{◌≡◌, ◌≤◌, false, Some, None};
ghost use Rattle.board_prelude.specs.{Register, Setup, Bytes, pam_register, top_of as top_by, memory_shut};
ghost use Rattle.board_prelude.specs.{rom_unselected, abort_denial, rom_denial, denial_in, is_shadow_range};
ghost use Rattle.board_prelude.specs.{shadow_range, xbcs as select_register};
ghost use Rattle.pci_bars.specs.Cards.{AreFitted};
ghost use Rattle.addr_decode.specs.MapRegs.{StandsFor, map_bytes};
ghost use Rattle.addr_decode.specs.Memory.{board_denial, row_denial};

use crate::denied_by::{card_command, expansion_rom, host_bridge, isa_bridge};
use crate::regs::MapRegs;
use crate::singles::{chip_selects, hole_denial};
use board_base::{Area, Denial, Kind};
use board_spec::offset::{DRB7, SMRAM, XBCS};
use board_spec::range::{EXPANSION_RANGE, LARGEST_TOP, SELECTABLE_BIOS, SMRAM_RANGE};
use host_bridge::{top_of, window_of};
use pci_bars::{shut_mem, unselected_rom};
use south_bridge::sends_bios_writes;

/// What denies an access that reaches this area. None where it is not denied.
#[inline(always)]
pub fn denial_in(regs: &MapRegs, area: Area, addr: u32, kind: Kind) -> Option<Denial>
    requires cards { AreFitted regs.now.cards.items }
    ensures denial { (setup : Setup) (bytes : Bytes) → StandsFor setup bytes (map_bytes regs.now)
        → result ≡ denial_in area kind
        (abort_denial (top_by bytes) (memory_shut setup bytes addr) (rom_unselected setup bytes addr) addr)
        (rom_denial (bytes select_register)) }
{
    match area {
        Area::Abort => Some(abort_denial(regs, addr)),
        Area::Rom => rom_denial_in(chip_selects(&regs.singles), kind),
        Area::Dram(_) | Area::Shadow(_) | Area::Smram | Area::Card(..) => None,
    }
}

/// What denies an access to the ROM: a write is denied by XBCS, or else by the chip itself.
fn rom_denial_in(xbcs: u8, kind: Kind) -> Option<Denial>
    ensures denial { result ≡ denial_in Area.Rom kind Denial.NoRegister (rom_denial xbcs) }
{
    match kind {
        Kind::Fetch | Kind::Read => None,
        Kind::Write => Some(rom_denial(xbcs)),
    }
}

/// What denies a write to the ROM.
fn rom_denial(xbcs: u8) -> Denial
    ensures denial { result ≡ rom_denial xbcs }
{
    if sends_bios_writes(xbcs) {
        return Denial::NoRegister;
    }
    isa_bridge(XBCS)
}

/// What denies an access that nobody answers.
#[tactic(auto, using(crate::proofs::MemoryLemmas::denials_in_order))]
fn abort_denial(regs: &MapRegs, addr: u32) -> Denial
    requires cards { AreFitted regs.now.cards.items }
    ensures denial { (setup : Setup) (bytes : Bytes) → StandsFor setup bytes (map_bytes regs.now)
        → result ≡ abort_denial (top_by bytes) (memory_shut setup bytes addr) (rom_unselected setup bytes addr) addr }
{
    if let Some(denial) = board_denial(top_of(&regs.drb), addr) {
        return denial;
    }
    if let Some(dev) = shut_mem(&regs.cards, addr) {
        return card_command(dev);
    }
    match unselected_rom(&regs.cards, addr) {
        Some(dev) => expansion_rom(dev),
        None => row_denial(addr),
    }
}

/// What denies an access that no other register denies: DRB7, where it could put DRAM at the address.
fn row_denial(addr: u32) -> Denial
    ensures denial { result ≡ row_denial addr }
{
    if addr < LARGEST_TOP {
        return host_bridge(DRB7);
    }
    Denial::NoRegister
}

/// The register of the board that keeps an address from an answer, by the top of DRAM: XBCS, SMRAM, PAM or that of a
/// hole. None where it is none of these.
#[tactic(auto, unfolding(crate::specs::Memory::board_denial))]
fn board_denial(top: u32, addr: u32) -> Option<Denial>
    ensures denial { result ≡ board_denial top addr }
{
    if SELECTABLE_BIOS.contains(addr) {
        return Some(isa_bridge(XBCS));
    }
    if top == 0 {
        return None;
    }
    if SMRAM_RANGE.contains(addr) {
        return Some(host_bridge(SMRAM));
    }
    if EXPANSION_RANGE.contains(addr) {
        return pam_denial(addr);
    }
    (addr < top).then_some(hole_denial())
}

/// The PAM register of an address. None outside the shadow windows.
fn pam_denial(addr: u32) -> Option<Denial>
    ensures denial { shadow_range.0 ≤ addr → addr ≤ shadow_range.1 → result ≡ Some (Register (pam_register addr)) }
    ensures none { is_shadow_range addr ≡ false → result ≡ None }
{
    match window_of(addr) {
        Some(window) => Some(host_bridge(window.off)),
        None => None,
    }
}
