//! The state of a chipset as bytes, out and in: the head, the registers, the bytes behind the addresses, and the
//! devices. The setup is not in them; the head has its sizes.

ghost use Rattle.std.specs.Prelude.{◌≡◌, ◌≤◌, ◌++◌, length, is_some, All, OnOk, IfOk};
ghost use Rattle.board_prelude.specs.{most_mib, IsCard, IsCardList, IsSetup, Setup as Fitting};
ghost use Rattle.byte_fields.specs.Fields.{Took, Filled, flag_byte};
ghost use Rattle.addr_decode.specs.AddressState.{address_fields};
ghost use Rattle.dram_store.specs.State.{dram_fields};
ghost use Rattle.pci_bars.specs.State.{contents_fields};
ghost use Rattle.config_regs.specs.State.{south_fields};
ghost use Rattle.map_builder.specs.State.{IsMapped, bare, mapped_fields};
ghost use Rattle.board_devices.specs.State.{devices_fields};
ghost use Rattle.board_chipset.specs.declared.state.State.{State as StateValue};
ghost use Rattle.board_chipset.specs.Kept.{AreSound, IsSound};
ghost use Rattle.board_chipset.specs.ChipsetState.{disk_size, size_bytes, head_bytes, size_fields, head_fields};
ghost use Rattle.board_chipset.specs.ChipsetState.{other_version_field, is_other_version, AreRegisters};
ghost use Rattle.board_chipset.specs.ChipsetState.{registers_bytes, bare_registers, registers_fields, AreStores};
ghost use Rattle.board_chipset.specs.ChipsetState.{stores_bytes, stores_fields, IsWhole, state_bytes, bare_state};
ghost use Rattle.board_chipset.specs.ChipsetState.{state_fields};

use crate::registers::Registers;
use crate::reset_control::ResetControl;
use crate::setup::Setup;
use crate::state::State;
use addr_decode::ConfAdd;
use board_base::NoMemory;
use board_devices::Devices;
use board_stores::Stores;
use byte_fields::{Bad, Fault, Fields, push_byte, push_bytes, push_half, push_word};
use config_regs::South;
use dram_store::Dram;
use map_builder::FlatMap;
use pci_bars::{CardSpec, Contents};
use std::alloc::Global;

/// What the bytes begin with.
const STATE_MARK: [u8; 8] = *b"BOARDSTA";
/// The version of the format.
const STATE_VERSION: u16 = 1;

// ---- the head

/// The memory in MiB.
fn mib(setup: &Setup) -> u16
    requires fits { IsSetup setup.now }
    ensures mib { result ≡ setup.now.mib }
{
    setup.mib as u16
}

/// How many cards there are.
fn card_count(setup: &Setup) -> u8
    requires fits { IsSetup setup.now }
    ensures count { result ≡ length setup.now.cards }
{
    setup.cards.len() as u8
}

/// Whether there is a disk, as 0 or 1.
fn has_disk(setup: &Setup) -> u8
    ensures flag { result ≡ flag_byte (is_some setup.now.disk) }
{
    u8::from(setup.disk.is_some())
}

/// The length of the ROM.
fn rom_size(setup: &Setup) -> u32
    requires fits { IsSetup setup.now }
    ensures size { result ≡ length setup.now.rom }
{
    setup.rom.len() as u32
}

/// The length of the disk, 0 where there is none.
pub(crate) fn disk_size(setup: &Setup) -> u32
    requires fits { IsSetup setup.now }
    ensures size { result ≡ disk_size setup.now }
{
    match &setup.disk {
        Some(disk) => disk.len() as u32,
        None => 0,
    }
}

/// Adds the sizes of a setup.
#[tactic(auto, unfolding(crate::specs::ChipsetState::size_bytes))]
fn push_sizes(into: &mut Vec<u8>, setup: &Setup) -> Result<(), NoMemory>
    requires fits { IsSetup setup.now }
    ensures added { OnOk result (into.new.items ≡ into.old.items ++ size_bytes setup.now) }
{
    push_half(into, mib(setup))?;
    push_bytes(into, &[card_count(setup), has_disk(setup)])?;
    push_word(into, rom_size(setup))?;
    push_word(into, disk_size(setup))
}

/// Adds the head.
#[tactic(auto, unfolding(crate::specs::ChipsetState::head_bytes))]
pub(crate) fn push_head(into: &mut Vec<u8>, setup: &Setup) -> Result<(), NoMemory>
    requires fits { IsSetup setup.now }
    ensures added { OnOk result (into.new.items ≡ into.old.items ++ head_bytes setup.now) }
{
    push_bytes(into, &STATE_MARK)?;
    push_half(into, STATE_VERSION)?;
    push_sizes(into, setup)
}

/// Goes past the sizes, which are those of the setup.
#[tactic(auto, unfolding(crate::specs::ChipsetState::size_fields))]
fn sizes(fields: &mut Fields, setup: &Setup) -> Result<(), Bad>
    requires fits { IsSetup setup.now }
    ensures took { Took (λ _. tt) result fields.new (size_fields setup.now fields.old) }
{
    fields.half(mib(setup), mib(setup))?;
    fields.byte(card_count(setup), card_count(setup))?;
    fields.byte(has_disk(setup), has_disk(setup))?;
    fields.word(rom_size(setup), rom_size(setup))?;
    fields.word(disk_size(setup), disk_size(setup))?;
    Ok(())
}

/// Goes past the head, which is that of the setup.
#[tactic(auto, unfolding(crate::specs::ChipsetState::head_fields))]
pub(crate) fn head(fields: &mut Fields, setup: &Setup) -> Result<(), Bad>
    requires fits { IsSetup setup.now }
    ensures took { Took (λ _. tt) result fields.new (head_fields setup.now fields.old) }
{
    fields.exactly(&STATE_MARK)?;
    fields.half(STATE_VERSION, STATE_VERSION)?;
    sizes(fields, setup)?;
    Ok(())
}

/// Reads the mark and a version, and gives whether it is another one.
#[tactic(auto, unfolding(crate::specs::ChipsetState::other_version_field))]
fn other_version(fields: &mut Fields) -> Result<bool, Bad>
    ensures took { Took (λ other. other) result fields.new (other_version_field fields.old) }
{
    fields.exactly(&STATE_MARK)?;
    let version = fields.half(0, u16::MAX)?;
    Ok(version != STATE_VERSION)
}

/// Whether bytes are the state of a chipset in another version of the format: they begin with its mark, and then have
/// another number.
#[tactic(auto, unfolding(crate::specs::ChipsetState::is_other_version))]
pub fn is_other_version(bytes: &[u8]) -> bool
    ensures other { result ≡ is_other_version bytes.now }
{
    let mut fields = Fields::of(bytes);
    match other_version(&mut fields) {
        Ok(other) => other,
        Err(_) => false,
    }
}

// ---- the registers

/// Reads the configuration address.
fn address(fields: &mut Fields) -> Result<ConfAdd, Bad>
    ensures took { Took (λ address. address) result fields.new (address_fields fields.old) }
{
    ConfAdd::load_state(fields)
}

/// Reads the map of these cards.
fn map(specs: &[CardSpec], fields: &mut Fields) -> Result<FlatMap, Bad>
    requires cards { IsCardList specs.now }
    ensures took { Took bare result fields.new (mapped_fields specs.now fields.old) }
    ensures mapped { IfOk result (λ map. IsMapped specs.now map) }
{
    FlatMap::load_state(specs, fields)
}

/// Reads the 82371SB's registers on which the map does not depend.
fn south(fields: &mut Fields) -> Result<South, Bad>
    ensures took { Took (λ south. south) result fields.new (south_fields fields.old) }
{
    South::load_state(fields)
}

impl Registers {
    /// Adds the registers.
    pub(crate) fn save_state(&self, into: &mut Vec<u8>) -> Result<(), NoMemory>
        ensures saved { OnOk result (into.new.items ≡ into.old.items ++ registers_bytes self.now) }
        ensures sound { OnOk result ((setup : Fitting) → AreSound setup self.now → AreRegisters setup.cards self.now) }
    {
        self.address.save_state(into)?;
        push_byte(into, self.control.read())?;
        self.map.save_state(into)?;
        self.south.save_state(into)
    }

    /// Reads the registers of a board with these cards.
    #[tactic(auto, unfolding(crate::specs::ChipsetState::registers_fields))]
    fn read_state(specs: &[CardSpec], fields: &mut Fields) -> Result<Registers, Bad>
        requires cards { IsCardList specs.now }
        ensures took { Took bare_registers result fields.new (registers_fields specs.now fields.old) }
        ensures mapped { IfOk result (λ registers. IsMapped specs.now registers.map) }
    {
        let address = address(fields)?;
        let control = ResetControl::holding(fields.byte(0, u8::MAX)?);
        let map = map(specs, fields)?;
        let south = south(fields)?;
        Ok(Registers {
            address,
            control,
            map,
            south,
        })
    }
}

// ---- the bytes behind the addresses

/// Adds the bytes of the DRAM, and those of the cards.
#[tactic(auto, unfolding(crate::specs::ChipsetState::stores_bytes))]
fn save_stores(stores: &Stores, into: &mut Vec<u8>) -> Result<(), NoMemory>
    ensures saved { OnOk result (into.new.items ≡ into.old.items ++ stores_bytes stores.now) }
    ensures sound { OnOk result ((setup : Fitting) (state : StateValue) → IsSound setup state
        → state.stores ≡ stores.now → AreStores setup stores.now) }
{
    stores.dram.save_state(into)?;
    stores.contents.save_state(into)
}

/// Reads a DRAM of so many MiB.
fn dram(alloc: Global, mib: u32, fields: &mut Fields) -> Result<Dram, Fault>
    requires some { 1 ≤ mib }
    requires most { mib ≤ most_mib }
    ensures filled { Filled (λ dram. dram) result fields.new (dram_fields mib fields.old) }
{
    Dram::load_state(alloc, mib, fields)
}

/// Reads the bytes behind the bases of these cards.
fn contents(alloc: Global, specs: &[CardSpec], fields: &mut Fields) -> Result<Contents, Fault>
    requires cards { All IsCard specs.now }
    ensures filled { Filled (λ contents. contents) result fields.new (contents_fields specs.now fields.old) }
{
    Contents::load_state(alloc, specs, fields)
}

/// Reads the bytes of the DRAM, and those of the cards.
#[tactic(auto, unfolding(crate::specs::ChipsetState::stores_fields))]
fn stores(alloc: Global, setup: &Setup, fields: &mut Fields) -> Result<Stores, Fault>
    requires fits { IsSetup setup.now }
    ensures filled { Filled (λ stores. stores) result fields.new (stores_fields setup.now fields.old) }
{
    let dram = dram(alloc, setup.mib, fields)?;
    let contents = contents(alloc, &setup.cards, fields)?;
    Ok(Stores { dram, contents })
}

// ---- the whole

/// Reads the devices.
fn devices(alloc: Global, setup: &Setup, fields: &mut Fields) -> Result<Devices, Fault>
    requires fits { IsSetup setup.now }
    ensures filled { Filled (λ devices. devices) result fields.new (devices_fields setup.now.disk fields.old) }
{
    Devices::load_state(alloc, setup.disk(), fields)
}

impl State {
    /// Adds all that a chipset of this setup holds.
    pub(crate) fn save_state(&self, setup: &Setup, into: &mut Vec<u8>) -> Result<(), NoMemory>
        requires sound { IsSound setup.now self.now }
        ensures saved { OnOk result (into.new.items ≡ into.old.items ++ state_bytes setup.now.disk self.now) }
        ensures whole { OnOk result (IsWhole setup.now self.now) }
    {
        self.registers.save_state(into)?;
        save_stores(&self.stores, into)?;
        self.devices.save_state(setup.disk(), into)
    }

    /// Reads all that a chipset of this setup holds.
    #[tactic(auto, unfolding(crate::specs::ChipsetState::state_fields))]
    pub(crate) fn read_state(
        alloc: Global,
        setup: &Setup,
        fields: &mut Fields,
    ) -> Result<State, Fault>
        requires fits { IsSetup setup.now }
        ensures filled { Filled bare_state result fields.new (state_fields setup.now fields.old) }
        ensures mapped { IfOk result (λ state. IsMapped setup.now.cards state.registers.map) }
    {
        let registers = Registers::read_state(&setup.cards, fields)?;
        let stores = stores(alloc, setup, fields)?;
        let devices = devices(alloc, setup, fields)?;
        Ok(State {
            registers,
            stores,
            devices,
        })
    }
}
