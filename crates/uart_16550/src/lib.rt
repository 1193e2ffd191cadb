//! A 16550 serial port on COM1 (National PC16550D data sheet): `Uart`, the chip, and `SerialBoard`, a board with it.
//!
//! The line rate is not modelled: a byte is sent as soon as it is written, and the divisor latch is kept alone.
#![tactic(auto)]

mod com1;
mod given;
mod interrupt;
pub mod laws;
mod line;
mod modem;
mod over_cards;
mod over_chipset;
mod queue;
mod register;
mod serial;
mod serial_state;
mod state;
mod stepped;
mod uart;

pub use com1::{COM1, Happening, SerialReply, UartReply, is_for_uart};
pub use queue::{FIFO_SIZE, Queue};
pub use register::UartRegisters;
pub use serial::SerialBoard;
pub use state::law_one_uart;
pub use stepped::SteppedBoard;
pub use uart::Uart;
