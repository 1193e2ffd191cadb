//! The plain ports: the registers of the board itself, which drive no line and change at accesses alone. In place of
//! the keyboard controller there is an empty socket.

ghost use Rattle.std.specs.Prelude.{◌≡◌, ◌≤◌, ◌++◌, OnOk, Some, true, false};
ghost use Rattle.board_prelude.specs.{bytes_of, largest_of, plain_at_reset, plain_accessed, plain_value};
ghost use Rattle.byte_fields.specs.Fields.{Took};
ghost use Rattle.board_devices.specs.Events.{is_chip_port};
ghost use Rattle.board_devices.specs.State.{IsPlain, plain_bytes, plain_fields};

use crate::system::SystemPort;
use board_base::{Dev, NoMemory, PortAccess};
use byte_fields::{Bad, Fields};
use std::marker::Model;

/// What a read of the empty socket of a keyboard controller gives.
const EMPTY_SOCKET: u32 = 0xFF;

/// The plain ports.
#[derive(Drop)]
pub struct PlainPorts {
    system: SystemPort,
}

impl Model for PlainPorts {
    ghost use Rattle.board_spec.specs.Devices.{PlainPorts as Ports};

    ghost Value = { Ports };

    ghost view = { λ plain. record { system = plain.system } };
}

impl PlainPorts {
    /// All plain ports after a reset.
    pub fn new() -> PlainPorts
        ensures reset { result ≡ plain_at_reset }
    {
        PlainPorts {
            system: SystemPort::new(),
        }
    }

    /// Reads a plain port, where OUT of counter 2 has this level. All ones where there is none.
    pub fn read(&mut self, dev: Dev, access: &PortAccess, out: bool) -> u32
        ensures value { result ≡ plain_value dev self.old out access.now.width }
        ensures after { self.new ≡ plain_accessed (Some dev) (record access.now { write = false }) self.old }
    {
        match dev {
            Dev::System => u32::from(self.system.read(out)),
            Dev::Keyboard => EMPTY_SOCKET,
            _ => access.width.largest(),
        }
    }

    /// Writes a plain port.
    pub fn write(&mut self, dev: Dev, access: &PortAccess)
        requires port { is_chip_port dev access.now.port (bytes_of access.now.width) ≡ true }
        requires fits { access.now.value ≤ largest_of access.now.width }
        ensures after { self.new ≡ plain_accessed (Some dev) (record access.now { write = true }) self.old }
    {
        match dev {
            Dev::System => self.system.write(access.value as u8),
            _ => {}
        }
    }

    /// Adds the state, port after port.
    pub fn save_state(&self, into: &mut Vec<u8>) -> Result<(), NoMemory>
        ensures saved { OnOk result (into.new.items ≡ into.old.items ++ plain_bytes self.now) }
        ensures sound { IsPlain self.now }
    {
        self.system.save_state(into)
    }

    /// Reads the ports one after another.
    #[tactic(auto, unfolding(crate::specs::State::plain_fields))]
    pub fn read_state(fields: &mut Fields) -> Result<PlainPorts, Bad>
        ensures took { Took (λ plain. plain) result fields.new (plain_fields fields.old) }
    {
        let system = SystemPort::read_state(fields)?;
        Ok(PlainPorts { system })
    }
}
