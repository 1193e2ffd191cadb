//! Pieces of an answer.

use std::alloc::AllocError;

/// Appends a space where something stands before.
pub fn space(text: &mut String) -> Result<(), AllocError> {
    if text.is_empty() {
        return Ok(());
    }
    text.push(' ')
}

/// Appends the digits of a number.
pub fn push_hex(text: &mut String, number: u32) -> Result<(), AllocError> {
    write!(text, "{number:X}")
}

/// Appends a byte, and a space.
pub fn push_byte(text: &mut String, byte: u8) -> Result<(), AllocError> {
    write!(text, "{byte:02X} ")
}
