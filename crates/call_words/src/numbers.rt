//! The words of a line, and the numbers in them.

use board_base::{PortAccess, Width};
use std::alloc::{AllocError, Global};

/// The word at a place; the empty word where there is none.
pub fn word<'a>(words: &[&'a str], at: usize) -> &'a str {
    words.get(at).copied().unwrap_or("")
}

/// The number that hexadecimal digits say.
pub fn long(digits: &str) -> u64 {
    let mut number = 0u64;
    for digit in digits.as_bytes() {
        let value = match *digit {
            b'A'..=b'F' => *digit - b'A' + 10,
            _ => digit.wrapping_sub(b'0'),
        };
        number = number.wrapping_mul(16).wrapping_add(u64::from(value));
    }
    number
}

/// The low doubleword of it.
pub fn number(digits: &str) -> u32 {
    (long(digits) % 0x1_0000_0000) as u32
}

/// The low word of it.
pub fn port(digits: &str) -> u16 {
    (long(digits) % 0x1_0000) as u16
}

/// The low byte of it.
pub fn byte(digits: &str) -> u8 {
    (long(digits) % 0x100) as u8
}

/// The width of so many bytes, four for any other count.
pub fn width(digits: &str) -> Width {
    match byte(digits) {
        1 => Width::One,
        2 => Width::Two,
        _ => Width::Four,
    }
}

/// The number that decimal digits say.
pub fn decimal(digits: &str) -> u32 {
    let mut number = 0u32;
    for digit in digits.as_bytes() {
        let value = u32::from(digit.wrapping_sub(b'0'));
        number = number.wrapping_mul(10).wrapping_add(value);
    }
    number
}

/// The bytes of an even count of digits.
pub fn bytes_of(alloc: Global, digits: &str) -> Result<Vec<u8>, AllocError> {
    let mut bytes = Vec::new(alloc);
    let mut high = None;
    for digit in digits.chars() {
        let value = digit.to_digit(16).unwrap_or(0) as u8 % 16;
        match high {
            None => high = Some(value),
            Some(first) => {
                bytes.push(first.wrapping_mul(16).wrapping_add(value))?;
                high = None;
            }
        }
    }
    Ok(bytes)
}

/// An access to a port.
pub fn port_access(write: bool, bytes: &str, at: &str, value: &str) -> PortAccess {
    PortAccess {
        write,
        port: port(at),
        width: width(bytes),
        value: number(value),
    }
}
