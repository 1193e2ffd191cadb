//! The fixed DRAM hole, by its control register FDHC (82441FX).
ghost use Rattle.std.specs.Prelude.{◌≡◌, ◌↔◌, IsNone};
ghost use Rattle.board_prelude.specs.{Setup, is_bit, merged, fdhc as hole_register, writable_bits, hole_of as hole_by};

use board_spec::bits::merged;
use board_spec::range::{HOLE_AT_15_MIB, HOLE_AT_512_KIB};

/// The lower of the two bits that enable a hole. The bits below it are reserved and read 0.
const HOLE_ENABLE: u8 = 6;
/// The bits that can be written.
const WRITABLE: u8 = 0b11 << HOLE_ENABLE;

/// The first and the last address of the hole in DRAM that FDHC makes: that at 512 KiB by 01 in bits 7 and 6,
/// that at 15 MiB by 10. None by 00 and 11.
pub fn hole_of(fdhc: u8) -> Option<(u32, u32)>
    ensures hole { result ≡ hole_by fdhc }
    ensures none { IsNone result ↔ (is_bit fdhc 7 ≡ is_bit fdhc 6) }
{
    match fdhc >> HOLE_ENABLE {
        0b01 => Some((HOLE_AT_512_KIB.first, HOLE_AT_512_KIB.last)),
        0b10 => Some((HOLE_AT_15_MIB.first, HOLE_AT_15_MIB.last)),
        _ => None,
    }
}

/// FDHC after a byte is written to it. Reserved bits stay as they were.
#[tactic(auto, unfolding(board_spec::specs::RegisterTable::host_bridge, board_spec::specs::RegisterTable::writable_bits))]
pub fn fdhc_after(old: u8, written: u8) -> u8
    ensures merged { (setup : Setup) → result ≡ merged (writable_bits setup hole_register) old written }
{
    merged(WRITABLE, old, written)
}
