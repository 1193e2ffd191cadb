//! The registers of one byte each that the address map depends on: FDHC and SMRAM of the host bridge, and XBCS of the
//! ISA bridge. Each stands at its number in a table, and all that a register says of an address is told here.
ghost use Rattle.std.specs.Prelude.{◌≡◌, ◌++◌, ◌<◌, ◌==◌, ◌&&◌, map, position};
ghost use Rattle.board_prelude.specs.{One, Store, Setup, Bytes, changed_byte, reset_byte, is_in, hole_of as hole_by};
ghost use Rattle.board_prelude.specs.{xbcs as select_register, is_in_hole, is_smram_open, is_bios_selected};
ghost use Rattle.addr_decode.specs.Singles.{AreSinglesOf, decided, ends_of_range, hole_denial, single};
ghost use Rattle.addr_decode.specs.Singles.{single_count, single_number};

use crate::denied_by::host_bridge;
use board_base::{Denial, Kind};
use board_spec::offset::{FDHC, HOST_BRIDGE, SMRAM, SOUTH_BRIDGE, XBCS};
use board_spec::range::{
    AddressRange, HOLE_AT_15_MIB, HOLE_AT_512_KIB, LOWER_BIOS, SELECTABLE_BIOS, SMRAM_RANGE,
};
use host_bridge::{FDHC_RESET, SMRAM_RESET, fdhc_after, hole_of, smram_after, smram_reaches};
use south_bridge::{XBCS_RESET, rom_selected, xbcs_after};

/// The number of FDHC, the hole in DRAM.
pub const HOLE: usize = 0;
/// The number of SMRAM control.
pub const SMRAM_CONTROL: usize = 1;
/// The number of XBCS, the chip selects.
pub const CHIP_SELECTS: usize = 2;

/// How many there are.
pub const SINGLE_COUNT: usize = 3;

/// What they hold, by their numbers.
pub type Singles = [u8; SINGLE_COUNT];

/// A register: where it stands, in function 0 of a bridge, what it holds after a reset, and the ranges of addresses
/// whose areas it decides.
#[derive(Clone, Copy)]
struct Row {
    dev: u8,
    off: u8,
    reset: u8,
    decides: &'static [AddressRange],
}

/// The registers by their numbers.
const ROWS: [Row; SINGLE_COUNT] = [
    Row {
        dev: HOST_BRIDGE,
        off: FDHC,
        reset: FDHC_RESET,
        decides: &[HOLE_AT_512_KIB, HOLE_AT_15_MIB],
    },
    Row {
        dev: HOST_BRIDGE,
        off: SMRAM,
        reset: SMRAM_RESET,
        decides: &[SMRAM_RANGE],
    },
    Row {
        dev: SOUTH_BRIDGE,
        off: XBCS,
        reset: XBCS_RESET,
        decides: &[LOWER_BIOS, SELECTABLE_BIOS],
    },
];

/// What they hold after a reset.
#[tactic(auto, using(crate::proofs::SingleLemmas::singles_are), unfolding(board_spec::specs::RegisterTable::reset_byte, board_spec::specs::RegisterTable::host_bridge, board_spec::specs::RegisterTable::isa_bridge))]
pub(crate) fn reset_singles() -> Singles
    ensures reset { (setup : Setup) → AreSinglesOf (reset_byte setup) result }
{
    ROWS.map(|row| row.reset)
}

/// The number of a register of function 0 of a bridge. None where it is none of these.
#[tactic(auto, using(std::proofs::lemmas::Bool::Decides::nat_tests))]
pub(crate) fn number_at(dev: u8, off: u8) -> Option<u8>
    ensures number { result ≡ single_number (record { dev = dev; fun = 0; off = off }) }
{
    match place_in(&ROWS, dev, off) {
        Some(number) => Some(number as u8),
        None => None,
    }
}

/// The place of a register in a list of rows.
fn place_in(rows: &[Row], dev: u8, off: u8) -> Option<usize>
    ensures place { result ≡ position (λ row. row.dev == dev && row.off == off) rows.now }
{
    rows.iter().position(|row| row.dev == dev && row.off == off)
}

/// The ranges of addresses whose areas the register of a number decides.
pub fn decided(number: usize) -> &'static [AddressRange]
    requires number { number < single_count }
    ensures ranges { map ends_of_range result.now ≡ decided number }
{
    ROWS[number].decides
}

/// The register of a number after a byte is written to it.
pub(crate) fn single_after(number: usize, old: u8, written: u8) -> u8
    requires number { number < single_count }
    ensures after { (setup : Setup)
        → result ≡ changed_byte setup (Store (single number) One written) (single number) old }
{
    match number {
        HOLE => fdhc_after(old, written),
        SMRAM_CONTROL => smram_after(old, written),
        _ => xbcs_after(old, written),
    }
}

/// The first of them, and the others in their order.
pub(crate) fn joined(first: [u8; 1], others: [u8; SINGLE_COUNT - 1]) -> Singles
    ensures joined { result ≡ first ++ others }
{
    let mut bytes = [first[0]; SINGLE_COUNT];
    bytes[1..].copy_from_slice(&others);
    bytes
}

/// Whether an address lies in a hole of DRAM.
pub(crate) fn is_in_hole(singles: &Singles, addr: u32) -> bool
    ensures hole { (bytes : Bytes) → AreSinglesOf bytes singles.now → result ≡ is_in_hole bytes addr }
{
    is_in_hole_of(singles[HOLE], addr)
}

/// Whether an address lies in the hole that FDHC makes.
fn is_in_hole_of(fdhc: u8, addr: u32) -> bool
    ensures hole { result ≡ is_in (hole_by fdhc) addr }
{
    match hole_of(fdhc) {
        Some((first, last)) => first <= addr && addr <= last,
        None => false,
    }
}

/// What denies an access below the top of DRAM that a hole takes out.
pub(crate) fn hole_denial() -> Denial
    ensures denial { result ≡ hole_denial }
{
    host_bridge(FDHC)
}

/// Whether an access in the range of SMRAM reaches it.
pub(crate) fn is_smram_open(singles: &Singles, kind: Kind, smm: bool) -> bool
    ensures opened { (bytes : Bytes) → AreSinglesOf bytes singles.now → result ≡ is_smram_open bytes kind smm }
{
    smram_reaches(singles[SMRAM_CONTROL], kind, smm)
}

/// Whether the ROM is selected at an address.
pub(crate) fn is_bios_selected(singles: &Singles, addr: u32) -> bool
    ensures selected { (bytes : Bytes) → AreSinglesOf bytes singles.now → result ≡ is_bios_selected bytes addr }
{
    rom_selected(singles[CHIP_SELECTS], addr)
}

/// What XBCS holds.
pub fn chip_selects(singles: &Singles) -> u8
    ensures byte { (bytes : Bytes) → AreSinglesOf bytes singles.now → result ≡ bytes select_register }
{
    singles[CHIP_SELECTS]
}
