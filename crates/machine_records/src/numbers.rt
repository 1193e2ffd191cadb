//! The numbers by which a record names the cases of an enum. 0 names none, so a record of zeros is that of no event.
//! The number of a stimulus is that of `board_spec::Stimulus`.

ghost use Rattle.std.specs.Prelude.{◌≡◌};
ghost use Rattle.machine_records.specs.Numbers.{device_number};

use board_base::Dev;

/// An access to memory.
pub const MEMORY_EVENT: u8 = 1;
/// An access to a port.
pub const PORT_EVENT: u8 = 2;
/// A look at the address map.
pub const LOOK_EVENT: u8 = 3;
/// An interrupt acknowledge.
pub const ACK_EVENT: u8 = 4;
/// A moment that the clock is to show.
pub const TIME_EVENT: u8 = 6;
/// A byte that COM1 receives.
pub const SERIAL_EVENT: u8 = 10;

/// A code fetch.
pub const FETCH_KIND: u8 = 1;
/// A data read.
pub const READ_KIND: u8 = 2;
/// A data write.
pub const WRITE_KIND: u8 = 3;

/// A base for memory.
pub const MEMORY_BASE: u8 = 1;
/// A base for I/O ports.
pub const IO_BASE: u8 = 2;
/// A base for memory whose bytes the monitor keeps.
pub const OUTSIDE_BASE: u8 = 3;

/// Main memory.
pub const DRAM_TARGET: u8 = 1;
/// Main memory behind an open PAM window.
pub const SHADOW_TARGET: u8 = 2;
/// Main memory of system management mode.
pub const SMRAM_TARGET: u8 = 3;
/// The BIOS ROM.
pub const ROM_TARGET: u8 = 4;
/// A card.
pub const CARD_TARGET: u8 = 5;
/// A device of the board.
pub const DEVICE_TARGET: u8 = 6;
/// A configuration register.
pub const CONFIG_TARGET: u8 = 7;
/// Nothing.
pub const ABORT_TARGET: u8 = 8;

/// The configuration address register, port CF8h.
pub const CONFADD_DEVICE: u8 = 1;
/// The reset control register, port CF9h.
pub const RESET_DEVICE: u8 = 2;
/// The master 8259A.
pub const PIC0_DEVICE: u8 = 3;
/// The slave 8259A.
pub const PIC1_DEVICE: u8 = 4;
/// The 8254.
pub const PIT_DEVICE: u8 = 5;
/// Port 61h.
pub const SYSTEM_DEVICE: u8 = 6;
/// The empty socket of a keyboard controller.
pub const KEYBOARD_DEVICE: u8 = 7;
/// The MC146818.
pub const CLOCK_DEVICE: u8 = 8;
/// The edge and level control registers.
pub const ELCR_DEVICE: u8 = 9;
/// The primary ATA channel.
pub const ATA_DEVICE: u8 = 10;
/// The board's wires.
pub const WIRES_DEVICE: u8 = 11;
/// The master's vector.
pub const VECTOR0_DEVICE: u8 = 12;
/// The slave's vector.
pub const VECTOR1_DEVICE: u8 = 13;
/// The master's spurious vector.
pub const SPURIOUS0_DEVICE: u8 = 14;
/// The slave's spurious vector.
pub const SPURIOUS1_DEVICE: u8 = 15;
/// The UART of COM1.
pub const UART_DEVICE: u8 = 16;

/// The number of a device of the board.
pub fn device_number(dev: Dev) -> u8
    ensures number { result ≡ device_number dev }
{
    match dev {
        Dev::Confadd => CONFADD_DEVICE,
        Dev::Reset => RESET_DEVICE,
        Dev::Pic0 => PIC0_DEVICE,
        Dev::Pic1 => PIC1_DEVICE,
        Dev::Pit => PIT_DEVICE,
        Dev::System => SYSTEM_DEVICE,
        Dev::Keyboard => KEYBOARD_DEVICE,
        Dev::Clock => CLOCK_DEVICE,
        Dev::Elcr => ELCR_DEVICE,
        Dev::Ata => ATA_DEVICE,
        Dev::Wires => WIRES_DEVICE,
        Dev::Vector(0) => VECTOR0_DEVICE,
        Dev::Vector(_) => VECTOR1_DEVICE,
        Dev::Spurious(0) => SPURIOUS0_DEVICE,
        Dev::Spurious(_) => SPURIOUS1_DEVICE,
    }
}

/// A register denied the access.
pub const REGISTER_DENIAL: u8 = 1;
/// The configuration address register denied the access.
pub const CONFADD_DENIAL: u8 = 2;
/// No register could let the access through.
pub const NO_REGISTER_DENIAL: u8 = 3;

/// The reply to one bus cycle, or to an event that is no access and no look.
pub const BUS_REPLY: u8 = 1;
/// The reply to a wide access.
pub const PARTS_REPLY: u8 = 2;
/// The reply to a look.
pub const LOOK_REPLY: u8 = 3;

/// No reset.
pub const NO_RESET: u32 = 0;
/// A reset of the processor alone.
pub const SOFT_RESET: u32 = 1;
/// A reset of the board.
pub const HARD_RESET: u32 = 2;
