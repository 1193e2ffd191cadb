//! Why no chipset was loaded.

use crate::check::SetupFault;
use thiserror::Error;

/// Why no chipset was loaded.
#[derive(Clone, Copy, PartialEq, Eq, Debug, Error)]
pub enum StateFault {
    /// No board can have the setup: the first field of it that none can have.
    #[error("a setup that no board can have")]
    Setup(SetupFault),
    /// The bytes are of another version of the format.
    #[error("the state of another version of the format")]
    OtherVersion,
    /// The offset of the first field that is not whole or out of range, or of the first byte too many.
    #[error("the state is bad at byte {at}")]
    Bad { at: usize },
    /// There was no memory.
    #[error("out of memory")]
    NoMemory,
}
