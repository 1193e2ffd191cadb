//! Why a call of a machine is refused.

/// Why a call of a machine is refused.
#[derive(Clone, Copy, PartialEq, Eq, Debug)]
pub enum Refusal {
    /// There is no memory.
    NoMemory,
    /// The bytes of the board do not fit.
    NoRoom,
    /// The bytes are no saved board.
    BadImage,
    /// Another version saved them.
    OtherVersion,
    /// Not as many bytes as the memory or the disk has.
    BadLength,
    /// The bytes do not all lie in the expansion ROM.
    PastEnd,
}
