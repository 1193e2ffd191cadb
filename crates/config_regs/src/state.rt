//! The state of the 82371SB's registers on which the memory map does not depend as bytes, out and in.

ghost use Rattle.std.specs.Prelude.{◌≡◌, ◌++◌, OnOk};
ghost use Rattle.byte_fields.specs.Fields.{Took};
ghost use Rattle.byte_fields.specs.Loads.{Loads, OneSpelling};
ghost use Rattle.config_regs.specs.State.{IsSouth, south_bytes, south_fields};

use crate::south::South;
use board_base::NoMemory;
use byte_fields::{Bad, Fields};
use south_bridge::{Ide, Pirq};

impl South {
    /// Adds the 7 bytes of the state: those of the routes, and those of the IDE function.
    #[tactic(auto, using(std::proofs::lemmas::Bool::Decides::nat_tests))]
    pub fn save_state(&self, into: &mut Vec<u8>) -> Result<(), NoMemory>
        ensures saved { OnOk result (into.new.items ≡ into.old.items ++ south_bytes self.now) }
        ensures sound { OnOk result (IsSouth self.now) }
    {
        self.routes.save_state(into)?;
        self.ide.save_state(into)
    }

    /// The registers whose state is at the front of the bytes. Refused where a field is not whole: the bytes left then
    /// begin with it.
    pub fn load_state(fields: &mut Fields) -> Result<South, Bad>
        ensures loaded { Loads south_fields south_bytes IsSouth fields.old fields.new result }
    {
        fields.are_bytes();
        South::read_state(fields)
    }

    /// Reads the fields one after another.
    #[tactic(auto, unfolding(crate::specs::State::south_fields))]
    fn read_state(fields: &mut Fields) -> Result<South, Bad>
        ensures took { Took (λ south. south) result fields.new (south_fields fields.old) }
    {
        let routes = Pirq::load_state(fields)?;
        let ide = Ide::load_state(fields)?;
        Ok(South { routes, ide })
    }
}

/// One state has one spelling, and one spelling is of one state.
#[tactic(auto, using(byte_fields::proofs::Loaded::one_spelling, crate::proofs::StateFormat::south_format))]
pub fn law_one_south()
    ensures one { OneSpelling south_bytes IsSouth }
{}
