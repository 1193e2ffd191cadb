//! Denials by the registers that the address decode names.
ghost use Rattle.std.specs.Prelude.{◌≡◌};
ghost use Rattle.board_prelude.specs.{Register, bridge, isa, ide, card_command as command_register};
ghost use Rattle.board_prelude.specs.{expansion_rom as rom_register};

use board_base::{Denial, Reg};
use board_spec::offset::{COMMAND, EXPANSION_ROM, HOST_BRIDGE, IDE, ISA_BRIDGE, SOUTH_BRIDGE};

/// A denial by a register of the host bridge, 00.0.
pub fn host_bridge(off: u8) -> Denial
    ensures register { result ≡ Register (bridge off) }
{
    register(HOST_BRIDGE, 0, off)
}

/// A denial by a register of the ISA bridge, 01.0.
pub fn isa_bridge(off: u8) -> Denial
    ensures register { result ≡ Register (isa off) }
{
    register(SOUTH_BRIDGE, ISA_BRIDGE, off)
}

/// A denial by a register of the IDE function, 01.1.
pub fn ide_function(off: u8) -> Denial
    ensures register { result ≡ Register (ide off) }
{
    register(SOUTH_BRIDGE, IDE, off)
}

/// A denial by the command of the card at a device number.
pub fn card_command(dev: u8) -> Denial
    ensures register { result ≡ Register (command_register dev) }
{
    register(dev, 0, COMMAND)
}

/// A denial by the register of the expansion ROM of the card at a device number.
pub fn expansion_rom(dev: u8) -> Denial
    ensures register { result ≡ Register (rom_register dev) }
{
    register(dev, 0, EXPANSION_ROM)
}

/// A denial by a register of a function of bus 0.
fn register(dev: u8, fun: u8, off: u8) -> Denial
    ensures register { result ≡ Register (record { dev = dev; fun = fun; off = off }) }
{
    Denial::Register(Reg { dev, fun, off })
}
