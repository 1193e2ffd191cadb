//! The transfer that `dma` starts at the bus master.

/// A transfer between the disk and memory: from the disk to memory or back, the address of the descriptor table (a
/// multiple of 4), the first sector (0 to 65,535), and how many sectors (1 to 256).
#[derive(Clone, Copy)]
pub struct Transfer {
    pub to_memory: bool,
    pub table: u32,
    pub lba: u32,
    pub count: u32,
}
