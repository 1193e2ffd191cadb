//! The state of the clock as bytes, out and in.

ghost use Rattle.std.specs.Prelude.{◌≡◌, ◌++◌, OnOk};
ghost use Rattle.byte_fields.specs.Fields.{Took};
ghost use Rattle.byte_fields.specs.Loads.{Loads, OneSpelling};
ghost use Rattle.cmos_clock.specs.State.{IsClock, clock_bytes, clock_fields};

use crate::cmos::{CLOCK_BYTES, Cmos};
use board_base::NoMemory;
use byte_fields::{Bad, Fields, push_byte, push_bytes, push_flag};

/// How many bytes the state of a clock has: the index, two flags, and the bytes by address.
pub const CLOCK_STATE_BYTES: usize = CLOCK_BYTES + 3;

/// The last of the addresses.
const LAST_ADDRESS: u8 = CLOCK_BYTES as u8 - 1;

impl Cmos {
    /// Adds the 131 bytes of the state.
    pub fn save_state(&self, into: &mut Vec<u8>) -> Result<(), NoMemory>
        ensures saved { OnOk result (into.new.items ≡ into.old.items ++ clock_bytes self.now) }
        ensures sound { IsClock self.now }
    {
        push_byte(into, self.index)?;
        push_flag(into, self.alarm_flag)?;
        push_flag(into, self.update_flag)?;
        push_bytes(into, &self.bytes)
    }

    /// The clock whose state is at the front of the bytes. Refused where a field is not whole or out of range: the
    /// bytes left then begin with the first such field.
    #[tactic(auto, using(byte_fields::proofs::Loaded::loads, crate::proofs::StateFormat::clock_format))]
    pub fn load_state(fields: &mut Fields) -> Result<Cmos, Bad>
        ensures loaded { Loads clock_fields clock_bytes IsClock fields.old fields.new result }
    {
        fields.are_bytes();
        Cmos::read_state(fields)
    }

    /// Reads the fields one after another.
    #[tactic(auto, unfolding(crate::specs::State::clock_fields))]
    fn read_state(fields: &mut Fields) -> Result<Cmos, Bad>
        ensures took { Took (λ clock. clock) result fields.new (clock_fields fields.old) }
    {
        let index = fields.byte(0, LAST_ADDRESS)?;
        let alarm_flag = fields.flag()?;
        let update_flag = fields.flag()?;
        let bytes = fields.array()?;
        Ok(Cmos {
            index,
            bytes,
            alarm_flag,
            update_flag,
        })
    }
}

/// One state has one spelling, and one spelling is of one state.
pub fn law_one_clock()
    ensures one { OneSpelling clock_bytes IsClock }
{}
