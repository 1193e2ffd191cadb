//! Why bytes were not read as an image.

use thiserror::Error;

/// Why bytes were not read as an image.
#[derive(Clone, Copy, PartialEq, Eq, Debug, Error)]
pub enum ImageFault {
    /// The offset of the first field that is not whole or out of range, or of the first byte too many.
    #[error("the image is bad at byte {at}")]
    Bad { at: u32 },
    /// There was no memory.
    #[error("out of memory")]
    NoMemory,
}
