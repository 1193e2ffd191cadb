//! System control port B, 61h.
//!
//! | bit  | what                                  | write   |
//! |------|---------------------------------------|---------|
//! | 0, 1 | gate of counter 2, speaker            | kept    |
//! | 4    | refresh: the other level at each read | ignored |
//! | 5    | OUT of counter 2                      | ignored |
//! | else | 0                                     | ignored |

ghost use Rattle.std.specs.Prelude.{◌≡◌, ◌%◌, ◌<◌, ◌++◌, not, OnOk};
ghost use Rattle.board_spec.specs.Devices.{system_at_reset, system_shown};
ghost use Rattle.byte_fields.specs.Fields.{Took};
ghost use Rattle.board_devices.specs.State.{IsSystem, system_bytes, system_fields};

use board_base::NoMemory;
use byte_fields::{Bad, Fields, push_bytes};
use std::marker::Model;

/// The bits that are kept as written: the gate of counter 2, and the speaker.
const KEPT: u8 = 0x03;
/// The bit that flips after each read.
const REFRESH: u8 = 1 << 4;
/// The bit that shows OUT of counter 2.
const OUT_2: u8 = 1 << 5;

/// Port 61h.
#[derive(Drop)]
pub struct SystemPort {
    kept: u8,
    flip: bool,
}

impl Model for SystemPort {
    ghost use Rattle.std.specs.Prelude.{◌<◌};
    ghost use Rattle.board_spec.specs.Devices.{SystemPort as Port};

    ghost Value = { Port };

    ghost view = { λ port. record { kept = port.kept; flip = port.flip } };

    ghost invariant = { λ port. port.kept < 4 };
}

impl SystemPort {
    /// The port after a reset.
    pub fn new() -> SystemPort
        ensures reset { result ≡ system_at_reset }
    {
        SystemPort {
            kept: 0,
            flip: false,
        }
    }

    /// Reads the port, where OUT of counter 2 has this level. Bit 4 flips after each read.
    pub fn read(&mut self, out: bool) -> u8
        ensures value { result ≡ system_shown self.old out }
        ensures flips { self.new ≡ record self.old { flip = not self.old.flip } }
    {
        let mut byte = self.kept;
        if self.flip {
            byte += REFRESH;
        }
        if out {
            byte += OUT_2;
        }
        self.flip = !self.flip;
        byte
    }

    /// Writes the port. Bits 1 and 0 are kept.
    pub fn write(&mut self, byte: u8)
        ensures written { self.new ≡ record self.old { kept = byte % 4 } }
    {
        self.kept = byte & KEPT;
    }

    /// Adds the 2 bytes of the state: the kept bits, and the bit that flips.
    pub fn save_state(&self, into: &mut Vec<u8>) -> Result<(), NoMemory>
        ensures saved { OnOk result (into.new.items ≡ into.old.items ++ system_bytes self.now) }
        ensures sound { IsSystem self.now }
    {
        push_bytes(into, &[self.kept, u8::from(self.flip)])
    }

    /// Reads the fields one after another.
    #[tactic(auto, unfolding(crate::specs::State::system_fields))]
    pub fn read_state(fields: &mut Fields) -> Result<SystemPort, Bad>
        ensures took { Took (λ port. port) result fields.new (system_fields fields.old) }
    {
        let kept = fields.byte(0, KEPT)?;
        let flip = fields.flag()?;
        Ok(SystemPort { kept, flip })
    }
}
