//! The X-Bus chip select register, XBCS of the 82371SB, and the BIOS ranges that it selects.
ghost use Rattle.std.specs.Prelude.{◌≡◌, ◌<◌, ◌%◌, ◌↔◌, false, IsNone, IfSome};
ghost use Rattle.board_prelude.specs.{Setup, is_bit, merged, xbcs as select_register, writable_bits, is_rom_selected};
ghost use Rattle.board_prelude.specs.{system_bios};

use board_spec::bits::{is_set, merged};
use board_spec::range::{EXTENDED_BIOS, HIGH_BIOS, LOWER_BIOS, LOWER_HIGH_BIOS, SYSTEM_BIOS};

/// The bit that selects the real-time clock at its two ports.
const CLOCK_SELECT: u32 = 0;
/// The bit that selects the keyboard controller at its two ports.
const KEYBOARD_SELECT: u32 = 1;
/// The bit that lets writes to the BIOS reach its chip.
const BIOS_WRITE_ENABLE: u32 = 2;
/// The bit that selects the lower BIOS, below 1 MiB and below 4 GiB.
const LOWER_BIOS_ENABLE: u32 = 6;
/// The bit that selects the extended BIOS.
const EXTENDED_BIOS_ENABLE: u32 = 7;

/// The register after a reset: the keyboard controller and the clock are selected.
pub const XBCS_RESET: u8 = 1 << KEYBOARD_SELECT | 1 << CLOCK_SELECT;
/// The bits that can be written. The others read 0.
const WRITABLE: u8 = 1 << CLOCK_SELECT
    | 1 << KEYBOARD_SELECT
    | 1 << BIOS_WRITE_ENABLE
    | 1 << LOWER_BIOS_ENABLE
    | 1 << EXTENDED_BIOS_ENABLE;

/// The register after a byte is written to it.
#[tactic(auto, unfolding(board_spec::specs::RegisterTable::writable_bits, board_spec::specs::RegisterTable::isa_bridge))]
pub fn xbcs_after(old: u8, written: u8) -> u8
    ensures merged { (setup : Setup) → result ≡ merged (writable_bits setup select_register) old written }
{
    merged(WRITABLE, old, written)
}

/// Whether XBCS selects the real-time clock.
pub fn selects_clock(xbcs: u8) -> bool
    ensures clock { result ≡ is_bit xbcs 0 }
{
    is_set(xbcs.into(), CLOCK_SELECT)
}

/// Whether XBCS selects the keyboard controller.
pub fn selects_keyboard(xbcs: u8) -> bool
    ensures keyboard { result ≡ is_bit xbcs 1 }
{
    is_set(xbcs.into(), KEYBOARD_SELECT)
}

/// Whether XBCS lets writes to the BIOS reach its chip.
pub fn sends_bios_writes(xbcs: u8) -> bool
    ensures writes { result ≡ is_bit xbcs 2 }
{
    is_set(xbcs.into(), BIOS_WRITE_ENABLE)
}

/// Whether an address lies in a BIOS range that XBCS selects. The ranges of 64 KiB below 1 MiB and
/// below 4 GiB are always selected.
pub fn rom_selected(xbcs: u8, addr: u32) -> bool
    ensures selected { result ≡ is_rom_selected xbcs addr }
{
    let selects = u32::from(xbcs);
    if addr > SYSTEM_BIOS.last {
        return high_bios_selected(selects, addr);
    }
    addr >= SYSTEM_BIOS.first || addr >= LOWER_BIOS.first && is_set(selects, LOWER_BIOS_ENABLE)
}

/// Whether an address above 1 MiB lies in a BIOS range that XBCS selects. These ranges follow one another up to the last
/// address.
fn high_bios_selected(selects: u32, addr: u32) -> bool
    requires above { system_bios.1 < addr }
    ensures selected { result ≡ is_rom_selected selects addr }
{
    if addr >= LOWER_HIGH_BIOS.first {
        return addr >= HIGH_BIOS.first || is_set(selects, LOWER_BIOS_ENABLE);
    }
    addr >= EXTENDED_BIOS.first && is_set(selects, EXTENDED_BIOS_ENABLE)
}

/// The offset of an address in a BIOS image of `size` bytes, which repeats through the selected
/// ranges. None where the address is not selected.
pub fn rom_offset(xbcs: u8, addr: u32, size: u32) -> Option<u32>
    requires some_bytes { 0 < size }
    ensures none { IsNone result ↔ (is_rom_selected xbcs addr ≡ false) }
    ensures offset { IfSome result (λ offset. offset ≡ addr % size) }
{
    rom_selected(xbcs, addr).then_some(addr % size)
}
