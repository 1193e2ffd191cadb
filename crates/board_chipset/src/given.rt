//! A chipset with bytes that a caller keeps itself, and its state without those of the disk.

ghost use Rattle.std.specs.Prelude.{◌≡◌, ◌≢◌, ◌↔◌, ◌++◌, true, length, IsErr, OnOk, OnErr};
ghost use Rattle.board_prelude.specs.{installed};
ghost use Rattle.pci_bars.specs.State.{contents_bytes};
ghost use Rattle.board_chipset.specs.Around.{after_dram};
ghost use Rattle.board_chipset.specs.ChipsetState.{AreRegisters, IsChipset, IsWhole, disk_size};
ghost use Rattle.board_chipset.specs.Given.{devices_left, disk_left, fitted_with, with_dram, with_fitted, with_sectors};
ghost use Rattle.board_chipset.specs.Kept.{IsSound};

use crate::chipset::Chipset;
use crate::setup::Setup;
use crate::state::State;
use crate::state_bytes::disk_size;
use board_base::NoMemory;
use thiserror::Error;

/// The refusal of bytes that are not as many as those in whose place they would stand.
#[derive(Clone, Copy, PartialEq, Eq, Debug, Error)]
#[error("not as many bytes as the memory or the disk has")]
pub struct OtherLength;

impl Setup {
    /// Replaces the bytes of the disk by as many, where one is fitted.
    fn refit(&mut self, bytes: &[u8])
        requires whole { length bytes.now ≡ disk_size self.old }
        ensures fitted { self.new ≡ fitted_with bytes.now self.old }
    {
        if let Some(disk) = &mut self.disk {
            disk.copy_from_slice(bytes);
        }
    }
}

impl Chipset {
    /// Replaces all bytes of the DRAM. Refused exactly where they are not as many as are installed; then nothing has
    /// changed. It takes no memory.
    #[tactic(auto, using(crate::proofs::LeftBytes::all_written, std::proofs::lemmas::Bool::Decides::nat_tests))]
    pub fn put_dram(&mut self, bytes: &[u8]) -> Result<(), OtherLength>
        ensures refused { IsErr result ↔ length bytes.now ≢ installed self.old.setup }
        ensures put { OnOk result (self.new ≡ with_dram bytes.now self.old) }
        ensures unchanged { OnErr result (self.new ≡ self.old) }
    {
        let dram = &mut self.state.stores.dram;
        if bytes.len() != dram.size() {
            return Err(OtherLength);
        }
        dram.write_bytes(0, bytes);
        Ok(())
    }

    /// Replaces the bytes that the disk was fitted with. Refused exactly where they are not as many, which are none
    /// without a disk; then nothing has changed. It takes no memory.
    #[tactic(auto, using(crate::proofs::LeftBytes::sound_as))]
    pub fn put_fitted(&mut self, bytes: &[u8]) -> Result<(), OtherLength>
        ensures refused { IsErr result ↔ length bytes.now ≢ disk_size self.old.setup }
        ensures put { OnOk result (self.new ≡ with_fitted bytes.now self.old) }
        ensures unchanged { OnErr result (self.new ≡ self.old) }
    {
        if bytes.len() != disk_size(&self.setup) as usize {
            return Err(OtherLength);
        }
        self.setup.refit(bytes);
        Ok(())
    }

    /// Replaces the bytes of all sectors of the disk, and leaves which of them are bad. Refused exactly where they are
    /// not as many, which are none without a disk; then nothing has changed. It takes no memory.
    pub fn put_sectors(&mut self, bytes: &[u8]) -> Result<(), OtherLength>
        ensures refused { IsErr result ↔ length bytes.now ≢ disk_size self.old.setup }
        ensures put { OnOk result (self.new ≡ with_sectors bytes.now self.old) }
        ensures unchanged { OnErr result (self.new ≡ self.old) }
    {
        if bytes.len() != disk_size(&self.setup) as usize {
            return Err(OtherLength);
        }
        self.state.devices.set_sectors(bytes);
        Ok(())
    }

    /// Adds what stands after the bytes of the DRAM, without those of the disk: zeros stand in their place. After
    /// NoMemory some of it may have been added.
    pub fn save_after_dram_left(&self, into: &mut Vec<u8>) -> Result<(), NoMemory>
        ensures saved { OnOk result (into.new.items ≡ into.old.items ++ after_dram (disk_left true self.now)) }
        ensures sound { OnOk result
            (AreRegisters self.now.setup.cards self.now.state.registers → IsChipset self.now) }
    {
        self.state.save_after_left(&self.setup, into)
    }
}

impl State {
    /// Adds the bytes of the cards of this setup, and the devices without the bytes of the disk.
    fn save_after_left(&self, setup: &Setup, into: &mut Vec<u8>) -> Result<(), NoMemory>
        requires sound { IsSound setup.now self.now }
        ensures saved { OnOk result (into.new.items
            ≡ into.old.items
            ++ (contents_bytes self.now.stores.contents ++ devices_left setup.now.disk self.now.devices)) }
        ensures whole { OnOk result (AreRegisters setup.now.cards self.now.registers → IsWhole setup.now self.now) }
    {
        self.stores.contents.save_state(into)?;
        let sectors = self.devices.sectors();
        self.devices.save_state(sectors, into)
    }
}
