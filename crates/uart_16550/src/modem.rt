//! The lines of the modem: the bits of MSR (PC16550D data sheet, 8.9, "Modem Status Register"), and loopback (8.8).

ghost use Rattle.std.specs.Prelude.{◌≡◌, ◌&&◌, not, true, false};
ghost use Rattle.uart_16550.specs.Uart.{lines_of, no_changes, is_any_change};
ghost use Rattle.uart_16550.specs.Reads.{msr_with};
ghost use Rattle.uart_16550.specs.Writes.{differ, changes_after};

use crate::register::{
    CTS, DCD, DCTS, DDCD, DDSR, DSR, DTR, LOOP, OUT1, OUT2, RI, RTS, TERI, flag,
};
use board_spec::bits::is_set;

/// The levels of the four lines from the modem.
#[derive(Clone, Copy, PartialEq, Eq, Debug)]
pub struct ModemLines {
    pub cts: bool,
    pub dsr: bool,
    pub ri: bool,
    pub dcd: bool,
}

impl ModemLines {
    /// The lines under this MCR: in loopback the port's own outputs, else a modem that is there and does not ring.
    pub fn under(mcr: u8) -> ModemLines
        ensures lines { result ≡ lines_of mcr }
    {
        let mcr = u32::from(mcr);
        if is_set(mcr, LOOP) {
            return ModemLines {
                cts: is_set(mcr, RTS),
                dsr: is_set(mcr, DTR),
                ri: is_set(mcr, OUT1),
                dcd: is_set(mcr, OUT2),
            };
        }
        ModemLines {
            cts: true,
            dsr: true,
            ri: false,
            dcd: true,
        }
    }
}

/// What the lines did since MSR was read: which changed, and whether a ring ended.
#[derive(Clone, Copy)]
pub struct ModemChanges {
    pub dcts: bool,
    pub ddsr: bool,
    pub teri: bool,
    pub ddcd: bool,
}

impl ModemChanges {
    /// No change.
    pub fn none() -> ModemChanges
        ensures none { result ≡ no_changes }
    {
        ModemChanges {
            dcts: false,
            ddsr: false,
            teri: false,
            ddcd: false,
        }
    }

    /// Whether there is any change.
    pub fn any(&self) -> bool
        ensures any { result ≡ is_any_change self.now }
    {
        self.dcts || self.ddsr || self.teri || self.ddcd
    }

    /// These changes, and those of the lines going from `old` to `new`.
    pub fn after(&self, old: ModemLines, new: ModemLines) -> ModemChanges
        ensures after { result ≡ changes_after self.now old new }
    {
        ModemChanges {
            dcts: self.dcts || differ(old.cts, new.cts),
            ddsr: self.ddsr || differ(old.dsr, new.dsr),
            teri: self.teri || falls(old.ri, new.ri),
            ddcd: self.ddcd || differ(old.dcd, new.dcd),
        }
    }
}

/// Whether a line changes.
fn differ(old: bool, new: bool) -> bool
    ensures differ { result ≡ differ old new }
{
    old != new
}

/// Whether a line goes from 1 to 0.
fn falls(old: bool, new: bool) -> bool
    ensures falls { result ≡ (old && not new) }
{
    old && !new
}

/// MSR.
pub fn modem_status(lines: ModemLines, changes: ModemChanges) -> u8
    ensures msr { result ≡ msr_with lines changes }
{
    flag(changes.dcts, DCTS)
        + flag(changes.ddsr, DDSR)
        + flag(changes.teri, TERI)
        + flag(changes.ddcd, DDCD)
        + flag(lines.cts, CTS)
        + flag(lines.dsr, DSR)
        + flag(lines.ri, RI)
        + flag(lines.dcd, DCD)
}
