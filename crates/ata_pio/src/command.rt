//! The codes of the commands.

pub const READ_SECTORS: u8 = 0x20;

pub const WRITE_SECTORS: u8 = 0x30;

pub const VERIFY_SECTORS: u8 = 0x40;
/// Runs the diagnostic of both drives.
pub const DIAGNOSE: u8 = 0x90;
/// Initializes the device parameters: the count's sectors on a track, and heads up to the one named.
pub const SET_GEOMETRY: u8 = 0x91;

pub const FLUSH_CACHE: u8 = 0xE7;

pub const IDENTIFY: u8 = 0xEC;

pub const SET_FEATURES: u8 = 0xEF;
