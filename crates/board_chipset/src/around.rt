//! The state of a chipset without the bytes of the DRAM, for a caller that puts those into a room of its own.

ghost use Rattle.std.specs.Prelude.{◌≡◌, ◌++◌, OnOk};
ghost use Rattle.pci_bars.specs.State.{contents_bytes};
ghost use Rattle.board_devices.specs.State.{devices_bytes};
ghost use Rattle.dram_store.specs.State.{dram_bytes};
ghost use Rattle.board_chipset.specs.Around.{after_dram, before_dram};
ghost use Rattle.board_chipset.specs.Chipset.{Running};
ghost use Rattle.board_chipset.specs.ChipsetState.{AreRegisters, IsChipset, IsWhole, chipset_bytes, head_bytes};
ghost use Rattle.board_chipset.specs.ChipsetState.{registers_bytes};
ghost use Rattle.board_chipset.specs.Kept.{IsSound};

use crate::chipset::Chipset;
use crate::setup::Setup;
use crate::state::State;
use crate::state_bytes::push_head;
use board_base::NoMemory;

impl State {
    /// Adds the head of a chipset of this setup, and the registers.
    fn save_before(&self, setup: &Setup, into: &mut Vec<u8>) -> Result<(), NoMemory>
        requires sound { IsSound setup.now self.now }
        ensures saved { OnOk result
            (into.new.items ≡ into.old.items ++ (head_bytes setup.now ++ registers_bytes self.now.registers)) }
        ensures sound { OnOk result (AreRegisters setup.now.cards self.now.registers) }
    {
        push_head(into, setup)?;
        self.registers.save_state(into)
    }

    /// Adds the bytes of the cards of this setup, and the devices.
    fn save_after(&self, setup: &Setup, into: &mut Vec<u8>) -> Result<(), NoMemory>
        requires sound { IsSound setup.now self.now }
        ensures saved { OnOk result (into.new.items
            ≡ into.old.items
            ++ (contents_bytes self.now.stores.contents ++ devices_bytes setup.now.disk self.now.devices)) }
        ensures whole { OnOk result (AreRegisters setup.now.cards self.now.registers → IsWhole setup.now self.now) }
    {
        self.stores.contents.save_state(into)?;
        self.devices.save_state(setup.disk(), into)
    }
}

impl Chipset {
    /// Adds what stands before the bytes of the DRAM in the state: the head, and the registers. After NoMemory some of
    /// it may have been added.
    pub fn save_before_dram(&self, into: &mut Vec<u8>) -> Result<(), NoMemory>
        ensures saved { OnOk result (into.new.items ≡ into.old.items ++ before_dram self.now) }
        ensures sound { OnOk result (AreRegisters self.now.setup.cards self.now.state.registers) }
    {
        self.state.save_before(&self.setup, into)
    }

    /// Adds what stands after them: the bytes of the cards, and the devices. After NoMemory some of it may have been
    /// added.
    pub fn save_after_dram(&self, into: &mut Vec<u8>) -> Result<(), NoMemory>
        ensures saved { OnOk result (into.new.items ≡ into.old.items ++ after_dram self.now) }
        ensures sound { OnOk result
            (AreRegisters self.now.setup.cards self.now.state.registers → IsChipset self.now) }
    {
        self.state.save_after(&self.setup, into)
    }
}

/// Does nothing: the state is what stands before the bytes of the DRAM, these, and what stands after them.
#[tactic(auto, using(crate::proofs::AroundDram::between))]
pub fn law_dram_between()
    ensures between { (chipset : Running) → chipset_bytes chipset
        ≡ before_dram chipset ++ (dram_bytes chipset.state.stores.dram ++ after_dram chipset) }
{}
