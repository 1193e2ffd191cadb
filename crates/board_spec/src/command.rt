//! The bits of the command register of a PCI function (PCI Local Bus 2.1, section 6.2.2).

/// Lets the function decode I/O ports.
pub const IO_SPACE_ENABLE: u32 = 0;
/// Lets the function decode memory.
pub const MEMORY_SPACE_ENABLE: u32 = 1;
/// Lets the function be a bus master.
pub const BUS_MASTER_ENABLE: u32 = 2;
