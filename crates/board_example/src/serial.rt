//! The 16550: a byte comes back by loopback; and on COM1 of a board, a byte is sent.

use crate::fitted::fitted;
use board_base::{PortAccess, Width};
use board_chipset::{BoardOpen, Chipset};
use board_spec::Event;
use std::alloc::Global;
use uart_16550::{COM1, SerialBoard, SerialReply, Uart};

/// The offsets of RBR and THR, of MCR, and of LSR.
const BUFFER: u8 = 0;

const MODEM_CONTROL: u8 = 4;

const LINE_STATUS: u8 = 5;

/// MCR: loopback.
const LOOPBACK: u8 = 0x10;

/// What a UART received: LSR, and the byte.
#[derive(Clone, Copy, PartialEq, Eq, Debug)]
pub struct Received {
    pub line_status: u8,
    pub byte: u8,
}

/// Sends a byte by loopback, and receives it.
pub fn looped_back(byte: u8) -> Received {
    let mut uart = Uart::new();
    uart.port_write(MODEM_CONTROL, LOOPBACK);
    uart.port_write(BUFFER, byte);
    Received {
        line_status: uart.port_read(LINE_STATUS),
        byte: uart.port_read(BUFFER),
    }
}

/// Writes a byte to COM1 of a board with this ROM. The reply has the byte that is sent.
pub fn sent(alloc: Global, rom: Vec<u8>, byte: u8) -> Result<SerialReply, BoardOpen> {
    let chipset = Chipset::open(alloc, fitted(alloc, rom, None))?;
    let mut board = SerialBoard::open(chipset);
    let write = PortAccess {
        write: true,
        port: COM1,
        width: Width::One,
        value: byte.into(),
    };
    Ok(board.step(0, &Event::Port(write)))
}
