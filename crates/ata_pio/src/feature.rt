//! The codes of SET FEATURES (AT Attachment), none of which needs an effect on this drive.

/// Enables the write cache.
pub const WRITE_CACHE: u8 = 0x02;
/// Sets the transfer mode by the sector count register.
pub const TRANSFER_MODE: u8 = 0x03;
/// Disables read look-ahead.
pub const NO_LOOK_AHEAD: u8 = 0x55;
/// Keeps the features over a soft reset.
pub const KEEP_OVER_RESET: u8 = 0x66;
/// Disables the write cache.
pub const NO_WRITE_CACHE: u8 = 0x82;
/// Enables read look-ahead.
pub const LOOK_AHEAD: u8 = 0xAA;
/// Takes the features of power-on at a soft reset.
pub const POWER_ON_AT_RESET: u8 = 0xCC;
