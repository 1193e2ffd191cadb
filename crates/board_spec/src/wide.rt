//! Values of one, two and four bytes as bytes, the low byte first.
ghost use Rattle.std.specs.Prelude.{◌≡◌, ◌≤◌, ◌+◌, ◌-◌, ◌&&◌, ℕ, nat_le, nat_lt, if◌then◌else◌, length, slice_index};
ghost use Rattle.board_base.specs.Access.{bytes_of, largest_of};
ghost use Rattle.board_spec.specs.Bits.{byte, wide};

use board_base::Width;
use byteorder::{ByteOrder, LittleEndian};

/// The value of the bytes from index `at` on, as many as the width has.
pub fn read_at(bytes: &[u8], at: usize, width: Width) -> u32
    requires within { at + bytes_of width ≤ length bytes.now }
    ensures value { result ≡ wide (slice_index bytes.now) at width }
{
    match width {
        Width::One => u32::from(bytes[at]),
        Width::Two => u32::from(LittleEndian::read_u16(&bytes[at..])),
        Width::Four => LittleEndian::read_u32(&bytes[at..]),
    }
}

/// Replaces the bytes from index `at` on, as many as the width has, by those of a value that fits it.
pub fn write_at(bytes: &mut [u8], at: usize, width: Width, value: u32)
    requires within { at + bytes_of width ≤ length bytes.old }
    requires fits { value ≤ largest_of width }
    ensures length { length bytes.new ≡ length bytes.old }
    ensures bytes { (k : ℕ) → slice_index bytes.new k
        ≡ (if nat_le at k && nat_lt k (at + bytes_of width) then byte value (k - at) else slice_index bytes.old k) }
{
    match width {
        Width::One => bytes[at] = value as u8,
        Width::Two => LittleEndian::write_u16(&mut bytes[at..], value as u16),
        Width::Four => LittleEndian::write_u32(&mut bytes[at..], value),
    }
}
