//! The state of the IDE function as bytes, out and in.

ghost use Rattle.std.specs.Prelude.{◌≡◌, ◌<◌, ◌++◌, OnOk};
ghost use Rattle.byte_fields.specs.Fields.{Took};
ghost use Rattle.byte_fields.specs.Loads.{Loads, OneSpelling};
ghost use Rattle.south_bridge.specs.IdeState.{IsIde, ide_bytes, ide_fields};

use crate::ide::Ide;
use board_base::NoMemory;
use byte_fields::{Bad, Fields, push_bytes};

/// Does nothing: its clause says that the value is below 256.
fn is_byte(value: u8)
    ensures byte { value < 256 }
{}

impl Ide {
    /// Adds the 3 bytes of the state: the low byte of the command, and both of IDETIM.
    pub fn save_state(&self, into: &mut Vec<u8>) -> Result<(), NoMemory>
        ensures saved { OnOk result (into.new.items ≡ into.old.items ++ ide_bytes self.now) }
        ensures sound { IsIde self.now }
    {
        is_byte(self.command);
        is_byte(self.timing_low);
        is_byte(self.timing_high);
        push_bytes(into, &[self.command, self.timing_low, self.timing_high])
    }

    /// The registers whose state is at the front of the bytes. Refused where a field is not whole: the bytes left then
    /// begin with it.
    #[tactic(auto, using(byte_fields::proofs::Loaded::loads, crate::proofs::IdeFormat::ide_format))]
    pub fn load_state(fields: &mut Fields) -> Result<Ide, Bad>
        ensures loaded { Loads ide_fields ide_bytes IsIde fields.old fields.new result }
    {
        fields.are_bytes();
        Ide::read_state(fields)
    }

    /// Reads the fields one after another.
    #[tactic(auto, unfolding(crate::specs::IdeState::ide_fields))]
    fn read_state(fields: &mut Fields) -> Result<Ide, Bad>
        ensures took { Took (λ ide. ide) result fields.new (ide_fields fields.old) }
    {
        let command = fields.byte(0, u8::MAX)?;
        let timing_low = fields.byte(0, u8::MAX)?;
        let timing_high = fields.byte(0, u8::MAX)?;
        Ok(Ide {
            command,
            timing_low,
            timing_high,
        })
    }
}

/// One state has one spelling, and one spelling is of one state.
#[tactic(auto, using(byte_fields::proofs::Loaded::one_spelling, crate::proofs::IdeFormat::ide_format))]
pub fn law_one_ide()
    ensures one { OneSpelling ide_bytes IsIde }
{}
