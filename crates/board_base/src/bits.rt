//! Bits of registers.

ghost use Rattle.std.specs.Prelude.{◌≡◌, ◌<◌, ℕ, if◌then◌else◌};
ghost use Rattle.board_base.specs.Bits.{bit as bit_of, is_bit, merged};

/// Whether a bit of a number is set; bit 0 is the lowest, 31 the highest.
pub fn is_set(value: u32, bit: u32) -> bool
    requires bit { bit < 32 }
    ensures set { result ≡ is_bit value bit }
{
    value >> bit & 1 == 1
}

/// A register after a write: the bits of the mask as written, and the others as they were.
#[tactic(auto, using(crate::proofs::MergedLemmas::merged_bits))]
pub fn merged(mask: u8, old: u8, written: u8) -> u8
    ensures merged { result ≡ merged mask old written }
    ensures bits { (k : ℕ) → k < 8 → bit_of result k ≡ (if is_bit mask k then bit_of written k else bit_of old k) }
{
    written & mask | old & !mask
}
