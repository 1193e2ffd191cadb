//! The interrupts of a UART (PC16550D data sheet, 8.6, "Interrupt Identification Register").

ghost use Rattle.std.specs.Prelude.{◌≡◌, ◌≤◌, ◌<◌};
ghost use Rattle.uart_16550.specs.Uart.{enable_of};
ghost use Rattle.uart_16550.specs.Reads.{identity_of};

use crate::register::{EDSSI, ELSI, ERBFI, ETBEI};

/// What a UART interrupts for.
#[derive(Clone, Copy, PartialEq, Eq, Debug)]
pub enum Interrupt {
    /// A received byte was lost.
    LineStatus,
    /// A received byte waits.
    DataAvailable,
    /// THR became empty.
    TransmitterEmpty,
    /// A line of the modem changed.
    ModemStatus,
}

impl Interrupt {
    /// The bit of IER that enables it.
    pub fn enable_bit(self) -> u32
        ensures bit { result ≡ enable_of self }
        ensures below { result < 8 }
    {
        match self {
            Interrupt::LineStatus => ELSI,
            Interrupt::DataAvailable => ERBFI,
            Interrupt::TransmitterEmpty => ETBEI,
            Interrupt::ModemStatus => EDSSI,
        }
    }
}

/// Bits 3 to 0 of IIR: which interrupt is pending, and 1 where none is.
pub fn identity(pending: Option<Interrupt>) -> u8
    ensures identity { result ≡ identity_of pending }
    ensures most { result ≤ 6 }
{
    match pending {
        Some(Interrupt::LineStatus) => 0x06,
        Some(Interrupt::DataAvailable) => 0x04,
        Some(Interrupt::TransmitterEmpty) => 0x02,
        Some(Interrupt::ModemStatus) => 0x00,
        None => 0x01,
    }
}
