//! The levels of the interrupt lines, and what the serial port holds.

ghost use Rattle.std.specs.Prelude.{◌≡◌, ◌≤◌, length, replicate};
ghost use Rattle.machine_records.specs.Maps.{filled};
ghost use Rattle.machine_records.specs.Lines.{AreLinesOf, serial_state_said};

use board_chipset::Chipset;
use uart_16550::SerialBoard;

/// The most bytes that COM1 keeps.
const MOST_RECEIVED: usize = 16;

/// What COM1 holds: the bytes that came and were not read, the next to be read first, and how many they are; what reads
/// of its registers would give; 1 where THR became empty and IIR was not read with that cause since; and the level that
/// line 4 was given from outside.
#[repr(C)]
#[derive(Clone, Copy, Default)]
pub struct SerialRecord {
    pub received: [u8; 16],
    pub count: u8,
    pub ier: u8,
    pub iir: u8,
    pub lcr: u8,
    pub mcr: u8,
    pub lsr: u8,
    pub msr: u8,
    pub scr: u8,
    pub dll: u8,
    pub dlm: u8,
    pub emptied: u8,
    pub irq4: u8,
    pub reserved: u32,
}

/// Sets bit k of `lines` to the level of interrupt line k, as it reached the pair of 8259A last.
pub fn read_lines(chipset: &Chipset, lines: &mut u16)
    ensures read { AreLinesOf chipset.now lines.new }
{
    *lines = lines_of(chipset);
}

/// The number whose bit k is the level of line k, as it reached the pair of 8259A last.
#[inline(always)]
pub(crate) fn lines_of(chipset: &Chipset) -> u16
    ensures lines { AreLinesOf chipset.now result }
{
    chipset.lines()
}

/// Sets `state` to what COM1 holds. Nothing is taken or cleared.
pub fn read_serial(serial: &SerialBoard<Chipset>, state: &mut SerialRecord)
    ensures read { state.new ≡ serial_state_said serial.now.com1 }
{
    let uart = serial.uart();
    let registers = uart.registers();
    let received = uart.received();
    *state = SerialRecord {
        received: padded(received),
        count: received.len() as u8,
        ier: registers.ier,
        iir: registers.iir,
        lcr: registers.lcr,
        mcr: registers.mcr,
        lsr: registers.lsr,
        msr: registers.msr,
        scr: registers.scr,
        dll: registers.dll,
        dlm: registers.dlm,
        emptied: u8::from(uart.is_emptied()),
        irq4: u8::from(serial.given_level()),
        reserved: 0,
    };
}

/// At most 16 bytes, with zeros after them.
fn padded(bytes: &[u8]) -> [u8; MOST_RECEIVED]
    requires few { length bytes.now ≤ 16 }
    ensures padded { result ≡ filled bytes.now (replicate 16 0) }
{
    let mut all = [0; MOST_RECEIVED];
    for index in 0..bytes.len() {
        all[index] = bytes[index];
    }
    all
}
