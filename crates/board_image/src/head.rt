//! The head of an image.

/// What stands before the cards.
#[derive(Clone, Copy)]
pub(crate) struct Head {
    /// The memory in MiB.
    pub mib: u32,
    /// The number of cards.
    pub cards: u8,
    pub has_disk: bool,
    /// The length of the ROM, and that of the disk, which is 0 where there is none.
    pub rom_size: u32,
    pub disk_size: u32,
    /// The number of steps.
    pub steps: u32,
}
