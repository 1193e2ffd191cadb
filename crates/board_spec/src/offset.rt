//! The registers in PCI configuration space by their offsets, as the datasheets of the 82441FX and the
//! 82371SB and PCI Local Bus 2.1, section 6.2, name them.

/// Bus 0's device number of the 82441FX, whose registers are in function 0.
pub const HOST_BRIDGE: u8 = 0;
/// The device number of the 82371SB.
pub const SOUTH_BRIDGE: u8 = 1;
/// The function of the 82371SB that is the ISA bridge.
pub const ISA_BRIDGE: u8 = 0;
/// The function of the 82371SB that is the IDE controller.
pub const IDE: u8 = 1;

/// The command register, its low byte, of every function.
pub const COMMAND: u8 = 0x04;
/// The first byte of the six base address registers of a card.
pub const BASE0: u8 = 0x10;
/// The last byte of the base address registers of a card.
pub const BASE5_END: u8 = 0x27;
/// The first byte of the expansion ROM base address register of a card.
pub const EXPANSION_ROM: u8 = 0x30;
/// The last byte of the expansion ROM base address register.
pub const EXPANSION_ROM_END: u8 = 0x33;
/// The interrupt line register of a card.
pub const INTERRUPT_LINE: u8 = 0x3C;
/// The interrupt pin register of a card.
pub const INTERRUPT_PIN: u8 = 0x3D;

/// The first of the programmable attribute map registers of the host bridge.
pub const PAM0: u8 = 0x59;
/// The last of the programmable attribute map registers.
pub const PAM6: u8 = 0x5F;
/// The boundary register of the first row of DRAM.
pub const DRB0: u8 = 0x60;
/// The boundary register of the last row, which is the top of DRAM.
pub const DRB7: u8 = 0x67;
/// The fixed DRAM hole control register.
pub const FDHC: u8 = 0x68;
/// The SMRAM control register.
pub const SMRAM: u8 = 0x72;

/// The X-bus chip select register of the ISA bridge.
pub const XBCS: u8 = 0x4E;
/// The first of the four interrupt routing registers of the ISA bridge, PIRQRCA to PIRQRCD.
pub const PIRQRCA: u8 = 0x60;
/// The last of the interrupt routing registers.
pub const PIRQRCD: u8 = 0x63;
/// The timing register of the primary IDE channel, its low byte.
pub const IDETIM: u8 = 0x40;
/// The high byte of the timing register, whose bit 7 enables the channel.
pub const IDETIM_HIGH: u8 = 0x41;
