//! What a monitor holds.

ghost use Rattle.std.specs.Prelude.{◌≡◌};

use crate::identity::FittedIdentity;
use crate::roms::Roms;
use arrayvec::ArrayVec;
use board_chipset::Chipset;
use std::marker::Model;
use uart_16550::SerialBoard;

/// A chipset with a serial port on COM1, what its cards say that they are, and the bytes of their expansion ROMs: None
/// where none was given any.
#[derive(Drop)]
pub struct Machine {
    pub serial: SerialBoard<Chipset>,
    pub identities: ArrayVec<FittedIdentity, 8>,
    pub roms: Option<Roms>,
}

impl Model for Machine {
    ghost use Rattle.machine.specs.Machines.{MachineState};
    ghost use Rattle.machine.specs.Roms.{roms_in};

    ghost Value = { MachineState };

    ghost view = { λ machine. record {
      saved = record { serial = machine.serial; identities = machine.identities.items };
      roms = roms_in machine.roms;
    } };
}

impl Machine {
    /// The chipset.
    pub fn chipset(&self) -> &Chipset
        ensures chipset { result.now ≡ self.now.saved.serial.board }
    {
        self.serial.board()
    }
}
