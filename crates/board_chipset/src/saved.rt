//! A chipset saved as bytes, and loaded from them.

ghost use Rattle.std.specs.Prelude.{◌≡◌, ◌≤◌, ◌++◌, ◌↔◌, ◌⊎◌, ℕ, List, length, true, false, Ok, Err, OnOk, IfOk, IfErr};
ghost use Rattle.board_prelude.specs.{Entry, IsSetup};
ghost use Rattle.byte_fields.specs.declared.fault.Fault.TheVariants as faults;
ghost use Rattle.byte_fields.specs.Fields.{Filled};
ghost use Rattle.board_chipset.specs.Alone.{alone};
ghost use Rattle.map_builder.specs.State.{IsMapped};
ghost use Rattle.board_chipset.specs.Chipset.{Running, IsLeftBy};
ghost use Rattle.board_chipset.specs.ChipsetState.{is_other_version, bare_state, bare_chipset, chipset_bytes};
ghost use Rattle.board_chipset.specs.ChipsetState.{chipset_fields, IsChipset, LoadsChipset, IsBadStateAt};
ghost use Rattle.board_chipset.specs.declared.check.SetupFault.{SetupFault};
ghost use Rattle.board_chipset.specs.Setups.{IsSetupFault};
ghost use Rattle.board_chipset.specs.StateFaults.{IsOfBytes};

use crate::chipset::Chipset;
use crate::setup::Setup;
use crate::state::State;
use crate::state_bytes::{head, is_other_version, push_head};
use crate::state_fault::StateFault;
use board_base::NoMemory;
use byte_fields::{Fault, Fields};
use map_builder::law_same_map;
use std::alloc::Global;

impl Chipset {
    /// Adds the state of the chipset, from which `load_state` makes it again over the same setup. After NoMemory some
    /// of it may have been added.
    pub fn save_state(&self, into: &mut Vec<u8>) -> Result<(), NoMemory>
        ensures saved { OnOk result (into.new.items ≡ into.old.items ++ chipset_bytes self.now) }
        ensures sound { OnOk result (IsChipset self.now) }
    {
        push_head(into, &self.setup)?;
        self.state.save_state(&self.setup, into)
    }

    /// The chipset of this setup whose state the bytes are. So it is the one that was saved (`law_one_state`), and
    /// every history that left that one as it was leaves this one so (`law_loaded_is_saved`).
    ///
    /// Refused with the first field of the setup that no board can have; and then where the bytes are of another
    /// version of the format; and then with the offset of the first field that is not whole or out of range, or of the
    /// first byte too many. Bytes over a setup of other sizes are refused at one of these. NoMemory says nothing of the
    /// bytes.
    #[tactic(auto, using(crate::proofs::ChipsetLoads::own_version))]
    pub fn load_state(alloc: Global, setup: Setup, bytes: &[u8]) -> Result<Chipset, StateFault>
        ensures loaded { IfOk result (λ chipset. (chipset.setup ≡ setup) × IsChipset chipset
            × (chipset_bytes chipset ≡ bytes.now)) }
        ensures exact { (chipset : Running) → chipset.setup ≡ setup → IsChipset chipset
            → bytes.now ≡ chipset_bytes chipset → (result ≡ Ok chipset) ⊎ (result ≡ Err StateFault.NoMemory) }
        ensures fits { (result ≡ Err StateFault.NoMemory → IsSetup setup)
            × ((fault : SetupFault) → result ≡ Err (StateFault.Setup fault) → IsSetupFault setup fault) }
        ensures other_version { (result ≡ Err StateFault.OtherVersion)
            ↔ IsSetup setup × (is_other_version bytes.now ≡ true) }
        ensures bad { (at : ℕ) → result ≡ Err (StateFault.Bad at) → IsBadStateAt setup bytes.now at }
        ensures only_bad { (at : ℕ) → IsSetup setup → is_other_version bytes.now ≡ false
            → IsBadStateAt setup bytes.now at
            → (result ≡ Err (StateFault.Bad at)) ⊎ (result ≡ Err StateFault.NoMemory) }
    {
        if let Err(fault) = setup.check() {
            return Err(StateFault::Setup(fault));
        }
        if is_other_version(bytes) {
            return Err(StateFault::OtherVersion);
        }
        load_version(alloc, setup, bytes)
    }

    /// The chipset of this setup whose state is at the front of the bytes, for those that have more behind it. Bad
    /// where a field is not whole or out of range: the bytes left then begin with the first such field.
    pub fn load_fields(alloc: Global, setup: Setup, fields: &mut Fields) -> Result<Chipset, Fault>
        requires fits { IsSetup setup }
        ensures loaded { LoadsChipset setup fields.old fields.new result }
    {
        law_same_map();
        fields.are_bytes();
        match read_whole(alloc, &setup, fields) {
            Ok(state) => Ok(Chipset { setup, state }),
            Err(fault) => Err(fault),
        }
    }
}

/// Reads the head, and all that a chipset of this setup holds.
#[tactic(auto, unfolding(crate::specs::ChipsetState::chipset_fields))]
fn read_whole(alloc: Global, setup: &Setup, fields: &mut Fields) -> Result<State, Fault>
    requires fits { IsSetup setup.now }
    ensures filled { Filled (λ state. record { setup = setup.now; state = bare_state state }) result fields.new
        (chipset_fields setup.now fields.old) }
    ensures mapped { IfOk result (λ state. IsMapped setup.now.cards state.registers.map) }
{
    head(fields, setup)?;
    let state = State::read_state(alloc, setup, fields)?;
    Ok(state)
}

/// The chipset of this setup whose state is all that is left of the bytes.
#[tactic(auto, using(crate::proofs::ChipsetLoads::read_alone_rules), unfolding(crate::specs::Alone::alone))]
fn read_alone(alloc: Global, setup: Setup, fields: &mut Fields) -> Result<Chipset, Fault>
    requires fits { IsSetup setup }
    ensures loaded { IfOk result (λ chipset. (chipset.setup ≡ setup) × IsChipset chipset
        × (chipset_bytes chipset ≡ fields.old)) }
    ensures exact { (chipset : Running) → chipset.setup ≡ setup → IsChipset chipset
        → fields.old ≡ chipset_bytes chipset → (result ≡ Ok chipset) ⊎ (result ≡ Err faults.NoMemory) }
    ensures filled { Filled bare_chipset result fields.new (alone (chipset_fields setup) fields.old) }
{
    let chipset = Chipset::load_fields(alloc, setup, fields)?;
    fields.end()?;
    Ok(chipset)
}

/// The chipset of this setup whose state the bytes are. Bad where they are of another version, too.
#[tactic(auto, using(crate::proofs::ChipsetLoads::bad_within, std::proofs::lemmas::Bool::Decides::nat_tests))]
fn load_version(alloc: Global, setup: Setup, bytes: &[u8]) -> Result<Chipset, StateFault>
    requires fits { IsSetup setup }
    ensures loaded { IfOk result (λ chipset. (chipset.setup ≡ setup) × IsChipset chipset
        × (chipset_bytes chipset ≡ bytes.now)) }
    ensures exact { (chipset : Running) → chipset.setup ≡ setup → IsChipset chipset
        → bytes.now ≡ chipset_bytes chipset → (result ≡ Ok chipset) ⊎ (result ≡ Err StateFault.NoMemory) }
    ensures bad { (at : ℕ) → result ≡ Err (StateFault.Bad at) → IsBadStateAt setup bytes.now at }
    ensures only_bad { (at : ℕ) → IsBadStateAt setup bytes.now at
        → (result ≡ Err (StateFault.Bad at)) ⊎ (result ≡ Err StateFault.NoMemory) }
    ensures only { IfErr result IsOfBytes }
{
    let mut fields = Fields::of(bytes);
    match read_alone(alloc, setup, &mut fields) {
        Ok(chipset) => Ok(chipset),
        Err(Fault::Bad) => Err(StateFault::Bad {
            at: bytes.len() - fields.len(),
        }),
        Err(Fault::NoMemory) => Err(StateFault::NoMemory),
    }
}

/// Does nothing: over one setup one state has one spelling, and one spelling is of one state.
pub fn law_one_state()
    ensures one { (saved loaded : Running) → IsChipset saved → IsChipset loaded → saved.setup ≡ loaded.setup
        → chipset_bytes saved ≡ chipset_bytes loaded → saved ≡ loaded }
{
    law_same_map();
}

/// Does nothing: a chipset that was loaded from the bytes of one that was saved, over its setup, is as each history
/// leaves it that left the saved one so, and as no other. So all that the calls of a chipset promise holds of it word
/// for word.
pub fn law_loaded_is_saved()
    ensures same { (saved loaded : Running) (history : List Entry) → IsChipset saved → IsChipset loaded
        → saved.setup ≡ loaded.setup → chipset_bytes saved ≡ chipset_bytes loaded
        → IsLeftBy loaded history ↔ IsLeftBy saved history }
{
    law_same_map();
}
