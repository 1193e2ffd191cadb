//! What a counter latch command holds.

/// A latched count: the bytes of it that are still to be read.
#[derive(Clone, Copy)]
pub enum CountLatch {
    Empty,
    OneByte(u8),
    TwoBytes(u8, u8),
}
