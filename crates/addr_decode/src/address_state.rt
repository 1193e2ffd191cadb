//! The state of the configuration address register as bytes, out and in.

ghost use Rattle.std.specs.Prelude.{◌≡◌, ◌++◌, OnOk};
ghost use Rattle.byte_fields.specs.Fields.{Took};
ghost use Rattle.byte_fields.specs.Loads.{Loads, OneSpelling};
ghost use Rattle.addr_decode.specs.AddressState.{IsAddress, address_bytes, address_fields};

use crate::conf_add::{ConfAdd, kept};
use board_base::NoMemory;
use byte_fields::{Bad, Fields, push_word};

/// How many bytes the state has.
const ADDRESS_BYTES: usize = 4;

impl ConfAdd {
    /// Adds the 4 bytes of the state: the number that the register holds.
    pub fn save_state(&self, into: &mut Vec<u8>) -> Result<(), NoMemory>
        ensures saved { OnOk result (into.new.items ≡ into.old.items ++ address_bytes self.now) }
        ensures sound { IsAddress self.now }
    {
        push_word(into, self.value)
    }

    /// The register whose state is at the front of the bytes. Refused where there are not 4 bytes, or they have a bit
    /// that the register does not keep: the bytes stay.
    pub fn load_state(fields: &mut Fields) -> Result<ConfAdd, Bad>
        ensures loaded { Loads address_fields address_bytes IsAddress fields.old fields.new result }
    {
        fields.are_bytes();
        ConfAdd::read_state(fields)
    }

    /// Reads the number.
    fn read_state(fields: &mut Fields) -> Result<ConfAdd, Bad>
        ensures took { Took (λ address. address) result fields.new (address_fields fields.old) }
    {
        let value = u32::from_le_bytes(fields.front()?);
        fields.past(ADDRESS_BYTES, kept(value) == value)?;
        Ok(ConfAdd { value })
    }
}

/// One state has one spelling, and one spelling is of one state.
#[tactic(auto, using(byte_fields::proofs::Loaded::one_spelling, crate::proofs::AddressFormat::address_format))]
pub fn law_one_address()
    ensures one { OneSpelling address_bytes IsAddress }
{}
