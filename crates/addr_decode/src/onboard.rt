//! The board's own devices: which port is whose, and whether the registers select it.
ghost use Rattle.std.specs.Prelude.{◌≡◌};
ghost use Rattle.board_prelude.specs.{bytes_of, is_bit, xbcs as select_register, Register, device_at, select_of};
ghost use Rattle.addr_decode.specs.Onboard.{if_selected, if_decoded, by_select, response_of};

use crate::denied_by::{ide_function, isa_bridge};
use crate::ports::PortRegs;
use board_base::{Denial, Dev, Width};
use board_spec::offset::{COMMAND, IDETIM, XBCS};
use device_spec::port::{Select, device_at, select_of};
use south_bridge::{decodes_ide_channel, enables_ide_ports, selects_clock, selects_keyboard};

/// How the board's own devices respond to a port access.
#[derive(Clone, Copy, PartialEq, Eq)]
pub enum Onboard {
    /// This device answers.
    Answers(Dev),
    /// The device of the port is not selected.
    Denied(Denial),
    /// The port is no device's.
    Absent,
}

/// How the board's own devices respond at a port.
pub fn onboard_at(xbcs: u8, ports: &PortRegs, port: u16, width: Width) -> Onboard
    ensures response { result ≡ response_of (device_at port (bytes_of width))
        xbcs ports.now.disk ports.now.ide_command ports.now.idetim }
{
    match device_at(port, width) {
        Some(dev) => at_its_port(dev, xbcs, ports),
        None => Onboard::Absent,
    }
}

/// How a device responds at its port, by what selects it.
fn at_its_port(dev: Dev, xbcs: u8, ports: &PortRegs) -> Onboard
    ensures response { result ≡ by_select (select_of dev) dev xbcs ports.now.disk ports.now.ide_command
        ports.now.idetim }
{
    match select_of(dev) {
        Select::Always => Onboard::Answers(dev),
        Select::XbcsBit0 => if_selected(selects_clock(xbcs), dev),
        Select::XbcsBit1 => if_selected(selects_keyboard(xbcs), dev),
        Select::IdeChannel => if_decoded(dev, ports),
    }
}

/// A device that XBCS selects.
fn if_selected(selected: bool, dev: Dev) -> Onboard
    ensures selected { result ≡ if_selected selected dev (Register select_register) }
{
    if selected {
        return Onboard::Answers(dev);
    }
    Onboard::Denied(isa_bridge(XBCS))
}

/// The disk, where one is fitted: bit 0 of the IDE command and bit 15 of IDETIM select it.
fn if_decoded(dev: Dev, ports: &PortRegs) -> Onboard
    ensures decoded { result ≡ if_decoded ports.now.disk dev ports.now.ide_command ports.now.idetim }
{
    if !ports.disk {
        return Onboard::Denied(Denial::NoRegister);
    }
    if !enables_ide_ports(ports.ide_command) {
        return Onboard::Denied(ide_function(COMMAND));
    }
    if !decodes_ide_channel(ports.idetim) {
        return Onboard::Denied(ide_function(IDETIM));
    }
    Onboard::Answers(dev)
}
