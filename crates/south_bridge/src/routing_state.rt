//! The states of the route control registers and of the edge/level control registers as bytes, out and in.

ghost use Rattle.std.specs.Prelude.{◌≡◌, ◌++◌, OnOk};
ghost use Rattle.byte_fields.specs.Fields.{Took};
ghost use Rattle.byte_fields.specs.Loads.{Loads, OneSpelling};
ghost use Rattle.south_bridge.specs.RoutingState.{IsRoutes, routes_bytes, routes_fields, AreTriggers, triggers_bytes};
ghost use Rattle.south_bridge.specs.RoutingState.{triggers_fields};

use crate::elcr::Elcr;
use crate::pirq::Pirq;
use board_base::NoMemory;
use byte_fields::{Bad, Fields, push_bytes};

impl Pirq {
    /// Adds the 4 bytes of the state: PIRQRCA to PIRQRCD.
    pub fn save_state(&self, into: &mut Vec<u8>) -> Result<(), NoMemory>
        ensures saved { OnOk result (into.new.items ≡ into.old.items ++ routes_bytes self.now) }
        ensures sound { IsRoutes self.now }
    {
        push_bytes(into, &self.bytes)
    }

    /// The registers whose state is at the front of the bytes. Refused where there are not 4 bytes, which stay.
    #[tactic(auto, using(byte_fields::proofs::Loaded::loads, crate::proofs::RoutingFormats::routes_format))]
    pub fn load_state(fields: &mut Fields) -> Result<Pirq, Bad>
        ensures loaded { Loads routes_fields routes_bytes IsRoutes fields.old fields.new result }
    {
        fields.are_bytes();
        Pirq::read_state(fields)
    }

    /// Reads the bytes.
    fn read_state(fields: &mut Fields) -> Result<Pirq, Bad>
        ensures took { Took (λ routes. routes) result fields.new (routes_fields fields.old) }
    {
        let bytes = fields.array()?;
        Ok(Pirq { bytes })
    }
}

impl Elcr {
    /// Adds the 2 bytes of the state: that of lines 0 to 7, and that of lines 8 to 15.
    pub fn save_state(&self, into: &mut Vec<u8>) -> Result<(), NoMemory>
        ensures saved { OnOk result (into.new.items ≡ into.old.items ++ triggers_bytes self.now) }
        ensures sound { AreTriggers self.now }
    {
        let low = self.read(false);
        let high = self.read(true);
        push_bytes(into, &[low, high])
    }

    /// The registers whose state is at the front of the bytes. Refused where a field is not whole: the bytes left then
    /// begin with it.
    #[tactic(auto, using(byte_fields::proofs::Loaded::loads, crate::proofs::RoutingFormats::triggers_format))]
    pub fn load_state(fields: &mut Fields) -> Result<Elcr, Bad>
        ensures loaded { Loads triggers_fields triggers_bytes AreTriggers fields.old fields.new result }
    {
        fields.are_bytes();
        Elcr::read_state(fields)
    }

    /// Reads the fields one after another.
    #[tactic(auto, unfolding(crate::specs::RoutingState::triggers_fields))]
    fn read_state(fields: &mut Fields) -> Result<Elcr, Bad>
        ensures took { Took (λ triggers. triggers) result fields.new (triggers_fields fields.old) }
    {
        let low = fields.byte(0, u8::MAX)?;
        let high = fields.byte(0, u8::MAX)?;
        Ok(Elcr { low, high })
    }
}

/// One state has one spelling, and one spelling is of one state.
#[tactic(auto, using(byte_fields::proofs::Loaded::one_spelling, crate::proofs::RoutingFormats::routes_format, crate::proofs::RoutingFormats::triggers_format))]
pub fn law_one_routing()
    ensures routes { OneSpelling routes_bytes IsRoutes }
    ensures triggers { OneSpelling triggers_bytes AreTriggers }
{}
