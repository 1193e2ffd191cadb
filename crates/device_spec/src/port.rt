//! The ports by the names of their datasheets, and the device that each is of.

ghost use Rattle.std.specs.Prelude.{◌≡◌};
ghost use Rattle.board_base.specs.Access.{bytes_of};
ghost use Rattle.device_spec.specs.PortTable.{device_at, select_of};

use board_base::{Dev, Width};

/// The configuration address of mechanism one, a doubleword (PCI Local Bus 2.1).
pub const CONFIG_ADDRESS: u16 = 0xCF8;
/// The reset control register of the 82371SB.
pub const RESET_CONTROL: u16 = 0xCF9;
/// The first byte of configuration data.
pub const CONFIG_DATA: u16 = 0xCFC;
/// The last byte of configuration data.
pub const CONFIG_DATA_END: u16 = 0xCFF;

/// The even port of the master 8259A.
pub const MASTER: u16 = 0x20;
/// The odd port of the master 8259A.
pub const MASTER_ODD: u16 = 0x21;
/// The even port of the slave 8259A.
pub const SLAVE: u16 = 0xA0;
/// The odd port of the slave 8259A.
pub const SLAVE_ODD: u16 = 0xA1;
/// The edge and level control of lines 0 to 7.
pub const ELCR: u16 = 0x4D0;
/// The edge and level control of lines 8 to 15.
pub const ELCR_HIGH: u16 = 0x4D1;

/// Counter 0 of the 8254.
pub const COUNTER_0: u16 = 0x40;
/// Counter 1 of the 8254.
pub const COUNTER_1: u16 = 0x41;
/// Counter 2 of the 8254.
pub const COUNTER_2: u16 = 0x42;
/// The control word register of the 8254, which reads FFh.
pub const CONTROL_WORD: u16 = 0x43;
/// System control port B.
pub const SYSTEM: u16 = 0x61;

/// The keyboard controller's data.
pub const KEYBOARD_DATA: u16 = 0x60;
/// The keyboard controller's command and status.
pub const KEYBOARD_COMMAND: u16 = 0x64;
/// The clock's index.
pub const CLOCK_INDEX: u16 = 0x70;
/// The clock's data.
pub const CLOCK_DATA: u16 = 0x71;

/// The data register of the primary IDE channel.
pub const DISK_DATA: u16 = 0x1F0;
/// The error register when read, the features when written: the first of the byte registers of the channel.
pub const DISK_ERROR: u16 = 0x1F1;
/// The sector count.
pub const DISK_COUNT: u16 = 0x1F2;
/// Bits 7:0 of an LBA, or the sector.
pub const DISK_LOW: u16 = 0x1F3;
/// Bits 15:8 of an LBA, or the cylinder's low byte.
pub const DISK_MID: u16 = 0x1F4;
/// Bits 23:16 of an LBA, or the cylinder's high byte.
pub const DISK_HIGH: u16 = 0x1F5;
/// The drive, the form of the address, and bits 27:24 of an LBA or the head.
pub const DISK_DEVICE: u16 = 0x1F6;
/// The status when read, a command when written: the last of the byte registers.
pub const DISK_STATUS: u16 = 0x1F7;
/// The alternate status when read, device control when written.
pub const DISK_CONTROL: u16 = 0x3F6;

/// What selects a device at its ports.
#[derive(Clone, Copy)]
pub enum Select {
    /// Nothing: it always answers.
    Always,
    /// Bit 0 of XBCS.
    XbcsBit0,
    /// Bit 1 of XBCS.
    XbcsBit1,
    /// Bit 0 of the command of the IDE function and bit 15 of IDETIM, where a disk is fitted.
    IdeChannel,
}

/// The device whose port this is, for an access of this width. None where it is no device's.
pub fn device_at(port: u16, width: Width) -> Option<Dev>
    ensures device { result ≡ device_at port (bytes_of width) }
{
    match width {
        Width::One => device_of_byte(port),
        Width::Two => device_of_word(port),
        Width::Four => device_of_long(port),
    }
}

/// The device with a register of one byte at a port.
fn device_of_byte(port: u16) -> Option<Dev>
    ensures device { result ≡ device_at port 1 }
{
    match port {
        RESET_CONTROL => Some(Dev::Reset),
        MASTER..=MASTER_ODD => Some(Dev::Pic0),
        SLAVE..=SLAVE_ODD => Some(Dev::Pic1),
        COUNTER_0..=CONTROL_WORD => Some(Dev::Pit),
        SYSTEM => Some(Dev::System),
        ELCR..=ELCR_HIGH => Some(Dev::Elcr),
        KEYBOARD_DATA | KEYBOARD_COMMAND => Some(Dev::Keyboard),
        CLOCK_INDEX..=CLOCK_DATA => Some(Dev::Clock),
        DISK_ERROR..=DISK_STATUS | DISK_CONTROL => Some(Dev::Ata),
        _ => None,
    }
}

/// The device with a register of two bytes at a port.
fn device_of_word(port: u16) -> Option<Dev>
    ensures device { result ≡ device_at port 2 }
{
    match port {
        DISK_DATA => Some(Dev::Ata),
        _ => None,
    }
}

/// The device with a register of four bytes at a port.
fn device_of_long(port: u16) -> Option<Dev>
    ensures device { result ≡ device_at port 4 }
{
    match port {
        CONFIG_ADDRESS => Some(Dev::Confadd),
        DISK_DATA => Some(Dev::Ata),
        _ => None,
    }
}

/// What selects a device at its ports.
pub fn select_of(dev: Dev) -> Select
    ensures select { result ≡ select_of dev }
{
    match dev {
        Dev::Keyboard => Select::XbcsBit1,
        Dev::Clock => Select::XbcsBit0,
        Dev::Ata => Select::IdeChannel,
        _ => Select::Always,
    }
}
