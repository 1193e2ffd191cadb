//! The UART as the serial port COM1 of a PC: its ports, and its interrupt line.

ghost use Rattle.std.specs.Prelude.{◌≡◌, ◌-◌, ◌<◌, ◌≤◌, ◌||◌, true, Some, None};
ghost use Rattle.board_spec.specs.InRange.{IsBusAccess};
ghost use Rattle.uart_16550.specs.Uart.{is_interrupting, uart_at_reset};
ghost use Rattle.uart_16550.specs.Com1.{com1_at_reset, from_uart, is_for_uart, level_of, offset_of, uart_after};
ghost use Rattle.uart_16550.specs.Com1.{uart_reply};

use crate::uart::Uart;
use board_base::PortAccess;
use board_spec::{Event, Reply};

/// The port of the first of the eight registers.
pub const COM1: u16 = 0x3F8;
/// The port of the last.
pub const COM1_END: u16 = 0x3FF;
/// The interrupt line.
pub const COM1_IRQ: u8 = 4;
/// The number under which the port itself moves its line. Processors have 0 to 7.
pub const COM1_ACTOR: u8 = 8;

/// What happens to a board with a serial port.
#[derive(Clone, Copy)]
pub enum Happening {
    /// The port receives a byte from outside.
    Comes(u8),
    /// An event is done.
    Happens(Event),
}

/// What a board with a serial port replies to an event.
#[derive(Clone, Copy, PartialEq, Eq, Debug)]
pub enum SerialReply {
    /// The reply of the board.
    Board(Reply),
    /// The UART was read, and gave a value; or it was written, and maybe sent a byte.
    Uart { value: Option<u8>, sent: Option<u8> },
}

/// What the UART replies to an access: it was read, and gave a value; or it was written, and maybe sent a byte.
#[derive(Clone, Copy, PartialEq, Eq, Debug)]
pub struct UartReply {
    pub value: Option<u8>,
    pub sent: Option<u8>,
}

impl UartReply {
    /// The same as a reply of the board with the port.
    pub fn reply(self) -> SerialReply
        ensures reply { result ≡ from_uart self }
    {
        SerialReply::Uart {
            value: self.value,
            sent: self.sent,
        }
    }
}

/// Whether an access is for the UART: it is of one byte, and at one of its ports.
pub fn is_for_uart(access: &PortAccess) -> bool
    ensures is { result ≡ is_for_uart access.now }
{
    COM1 <= access.port && access.port <= COM1_END && access.width.bytes() == 1
}

/// The serial port: the UART, and the level that the script gave its line last.
#[derive(Drop)]
pub struct Com1 {
    pub uart: Uart,
    pub script_level: bool,
}

impl Com1 {
    /// The port after power-on.
    pub fn new() -> Com1
        ensures reset { result ≡ com1_at_reset }
    {
        Com1 {
            uart: Uart::new(),
            script_level: false,
        }
    }

    /// The level of the interrupt line.
    pub fn level(&self) -> bool
        ensures level { result ≡ level_of self.now }
    {
        self.uart.irq() || self.script_level
    }

    /// Does an access to the UART.
    pub fn access(&mut self, access: &PortAccess) -> UartReply
        requires uart { is_for_uart access.now ≡ true }
        requires bus { IsBusAccess access.now.write access.now.port access.now.width access.now.value }
        ensures reply { from_uart result ≡ uart_reply access.now self.old.uart }
        ensures after { self.new ≡ record self.old { uart = uart_after access.now self.old.uart } }
    {
        let off = (access.port - COM1) as u8;
        if access.write {
            let sent = self.uart.port_write(off, access.value as u8);
            return UartReply { value: None, sent };
        }
        let value = Some(self.uart.port_read(off));
        UartReply { value, sent: None }
    }
}
