//! The bytes that each image has alike.

/// What an image begins with.
pub const MAGIC: [u8; 8] = *b"BOARDIMG";

/// The version of the format.
pub const VERSION: u16 = 1;

/// The bit of a base's byte that says that it is for I/O ports.
pub const IO_BASE: u8 = 0x80;

/// The bit of a base's byte that says that it is for memory of which the board keeps no bytes.
pub const OUTSIDE_BASE: u8 = 0x40;
