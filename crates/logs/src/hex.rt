//! Numbers in hexadecimal, in upper-case digits, two for each byte.

ghost use Rattle.std.specs.Prelude.{◌≡◌, ◌+◌, ◌/◌, ◌<◌, ◌≤◌, ◌++◌, OnOk, OnErr};
ghost use Rattle.board_prelude.specs.{byte, hex_digit, hex_byte, hex_number, hex_offset};
ghost use Rattle.logs.specs.Adds.{AddsWords, KeepsFront};
ghost use Rattle.logs.specs.Tails.{HasRoom, GrowsBy};

use crate::tail::Tail;
use crate::words::push_ascii;
use board_base::NoMemory;

/// The digits, each at the place of its value.
const DIGITS: [u8; 16] = *b"0123456789ABCDEF";

/// The two digits of each byte, one byte after another.
static PAIRS: [u8; 512] = *b"\
    000102030405060708090A0B0C0D0E0F101112131415161718191A1B1C1D1E1F\
    202122232425262728292A2B2C2D2E2F303132333435363738393A3B3C3D3E3F\
    404142434445464748494A4B4C4D4E4F505152535455565758595A5B5C5D5E5F\
    606162636465666768696A6B6C6D6E6F707172737475767778797A7B7C7D7E7F\
    808182838485868788898A8B8C8D8E8F909192939495969798999A9B9C9D9E9F\
    A0A1A2A3A4A5A6A7A8A9AAABACADAEAFB0B1B2B3B4B5B6B7B8B9BABBBCBDBEBF\
    C0C1C2C3C4C5C6C7C8C9CACBCCCDCECFD0D1D2D3D4D5D6D7D8D9DADBDCDDDEDF\
    E0E1E2E3E4E5E6E7E8E9EAEBECEDEEEFF0F1F2F3F4F5F6F7F8F9FAFBFCFDFEFF";

/// The digit of the low four bits of a byte.
#[inline(always)]
pub(crate) fn hex_digit(byte: u8) -> u8
    ensures digit { result ≡ hex_digit byte }
{
    DIGITS[usize::from(byte % 16)]
}

/// The two digits of a byte.
#[inline(always)]
fn digits_of_byte(byte: u8) -> (u8, u8)
    ensures high { result.0 ≡ hex_digit (byte / 16) }
    ensures low { result.1 ≡ hex_digit byte }
{
    let place = byte as usize * 2;
    (PAIRS[place], PAIRS[place + 1])
}

/// A byte of a value; byte 0 is the lowest, and those past the seventh are 0.
#[tactic(auto, using(crate::proofs::Digits::byte_shifted, crate::proofs::Digits::byte_past))]
fn byte_at(value: u64, index: u32) -> u8
    ensures byte { result ≡ byte value index }
{
    if index < 8 {
        ((value >> (8 * index)) % 256) as u8
    } else {
        0
    }
}

/// Appends the two digits of a byte.
pub fn push_hex_byte(text: &mut String, byte: u8) -> Result<(), NoMemory>
    ensures appended { OnOk result (AddsWords text.old text.new (hex_byte byte)) }
    ensures front { OnErr result (KeepsFront text.old text.new) }
{
    push_ascii(text, &[hex_digit(byte / 16), hex_digit(byte)])
}

/// Appends an address or an offset, in eight digits.
pub fn push_hex_long(text: &mut String, long: u32) -> Result<(), NoMemory>
    ensures appended { OnOk result (AddsWords text.old text.new (hex_number 4 long)) }
    ensures front { OnErr result (KeepsFront text.old text.new) }
{
    let mut line = Tail::new();
    put_hex_long(&mut line, long);
    line.push_onto(text)
}

/// Appends the low bytes of a value, `bytes` of them, the highest first. Those past the eighth are 0.
pub(crate) fn push_hex(text: &mut String, bytes: u32, value: u64) -> Result<(), NoMemory>
    ensures appended { OnOk result (AddsWords text.old text.new (hex_number bytes value)) }
    ensures front { OnErr result (KeepsFront text.old text.new) }
{
    let mut left = bytes;
    while left > 0 {
        left -= 1;
        push_hex_byte(text, byte_at(value, left))?;
    }
    Ok(())
}

/// Puts the two digits of a byte.
#[inline(always)]
pub(crate) fn put_hex_byte(line: &mut Tail, byte: u8)
    requires room { HasRoom line.old 2 }
    ensures words { line.new ≡ hex_byte byte ++ line.old }
    ensures length { GrowsBy line.old line.new 2 }
{
    let (high, low) = digits_of_byte(byte);
    line.put(&[high, low]);
}

/// Puts a word in four digits.
#[inline(always)]
pub(crate) fn put_hex_word(line: &mut Tail, word: u16)
    requires room { HasRoom line.old 4 }
    ensures words { line.new ≡ hex_number 2 word ++ line.old }
    ensures length { GrowsBy line.old line.new 4 }
{
    let [high, low] = word.to_be_bytes();
    put_hex_byte(line, low);
    put_hex_byte(line, high);
}

/// Puts an address or an offset, in eight digits.
#[inline(always)]
pub(crate) fn put_hex_long(line: &mut Tail, long: u32)
    requires room { HasRoom line.old 8 }
    ensures words { line.new ≡ hex_number 4 long ++ line.old }
    ensures length { GrowsBy line.old line.new 8 }
{
    let [a, b, c, d] = long.to_be_bytes();
    put_hex_byte(line, d);
    put_hex_byte(line, c);
    put_hex_byte(line, b);
    put_hex_byte(line, a);
}

/// Puts the low bytes of a value, `bytes` of them, the highest first.
#[inline(always)]
pub(crate) fn put_hex(line: &mut Tail, bytes: u32, value: u64)
    requires few { bytes ≤ 8 }
    requires room { HasRoom line.old 16 }
    ensures words { line.new ≡ hex_number bytes value ++ line.old }
    ensures length { GrowsBy line.old line.new 16 }
{
    match bytes {
        1 => put_hex_byte(line, byte_at(value, 0)),
        2 => put_hex_word(line, (value % (1 << 16)) as u16),
        4 => put_hex_long(line, (value % (1 << 32)) as u32),
        _ => put_each_byte(line, bytes, value),
    }
}

/// Puts bytes as `put_hex` does, one at a time.
fn put_each_byte(line: &mut Tail, bytes: u32, value: u64)
    requires few { bytes ≤ 8 }
    requires room { HasRoom line.old 16 }
    ensures words { line.new ≡ hex_number bytes value ++ line.old }
    ensures length { GrowsBy line.old line.new 16 }
{
    for index in 0..bytes {
        put_hex_byte(line, byte_at(value, index));
    }
}

/// Puts an offset in a ROM, which is below 512 KiB, in five digits.
pub(crate) fn put_hex_offset(line: &mut Tail, offset: u32)
    requires room { HasRoom line.old 5 }
    ensures words { line.new ≡ hex_offset offset ++ line.old }
    ensures length { GrowsBy line.old line.new 5 }
{
    put_hex_word(line, (offset % (1 << 16)) as u16);
    line.put(&[hex_digit(byte_at(u64::from(offset), 2))]);
}
