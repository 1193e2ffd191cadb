//! The state of the devices as bytes, out and in.

ghost use Rattle.std.specs.Prelude.{◌≡◌, ◌++◌, ℕ, List, Option, Some, OnOk, option_map};
ghost use Rattle.board_prelude.specs.{IsDisk};
ghost use Rattle.byte_fields.specs.Fields.{Took, Filled};
ghost use Rattle.byte_fields.specs.Loads.{LoadsWith, OneSpelling};
ghost use Rattle.pic_pair.specs.State.{pair_fields, lines_fields};
ghost use Rattle.pit_8254.specs.State.{pit_fields};
ghost use Rattle.cmos_clock.specs.State.{clock_fields};
ghost use Rattle.south_bridge.specs.RoutingState.{triggers_fields};
ghost use Rattle.ata_pio.specs.State.{IsDisk as IsDiskOver, disk_bytes, disk_fields};
ghost use Rattle.board_devices.specs.Devices.{HasDisk};
ghost use Rattle.board_devices.specs.State.{AreMachines, machines_bytes};
ghost use Rattle.board_devices.specs.State.{machines_fields, IsFittedDisk, fitted_bytes, fitted_fields, AreDevices};
ghost use Rattle.board_devices.specs.State.{devices_bytes, devices_fields};

use crate::devices::Devices;
use crate::plain::PlainPorts;
use ata_pio::Ata;
use board_base::NoMemory;
use byte_fields::{Bad, Fault, Fields};
use cmos_clock::Cmos;
use pic_pair::{Lines, PicPair};
use pit_8254::Pit;
use south_bridge::Elcr;
use std::alloc::Global;

/// Reads the pair.
fn pair(fields: &mut Fields) -> Result<PicPair, Bad>
    ensures took { Took (λ pair. pair) result fields.new (pair_fields fields.old) }
{
    PicPair::load_state(fields)
}

/// Reads the timer.
fn timer(fields: &mut Fields) -> Result<Pit, Bad>
    ensures took { Took (λ timer. timer) result fields.new (pit_fields fields.old) }
{
    Pit::load_state(fields)
}

/// Reads the clock.
fn clock(fields: &mut Fields) -> Result<Cmos, Bad>
    ensures took { Took (λ clock. clock) result fields.new (clock_fields fields.old) }
{
    Cmos::load_state(fields)
}

/// Reads the edge and level control.
fn triggers(fields: &mut Fields) -> Result<Elcr, Bad>
    ensures took { Took (λ triggers. triggers) result fields.new (triggers_fields fields.old) }
{
    Elcr::load_state(fields)
}

/// Reads levels.
fn lines(fields: &mut Fields) -> Result<Lines, Bad>
    ensures took { Took (λ lines. lines) result fields.new (lines_fields fields.old) }
{
    Lines::load_state(fields)
}

/// Reads a disk over its bytes as they were fitted.
fn disk_over(alloc: Global, fitted: &[u8], fields: &mut Fields) -> Result<Ata, Fault>
    requires fits { IsDisk (Some fitted.now) }
    ensures filled { Filled (λ disk. disk) result fields.new (disk_fields fitted.now fields.old) }
{
    Ata::load_state(alloc, fitted, fields)
}

/// Reads the disk, where one is fitted.
#[tactic(auto, unfolding(crate::specs::State::fitted_fields))]
fn fitted_disk(
    alloc: Global,
    fitted: Option<&[u8]>,
    fields: &mut Fields,
) -> Result<Option<Ata>, Fault>
    requires fits { IsDisk (option_map (λ bytes. bytes.now) fitted) }
    ensures filled { Filled (λ disk. disk) result fields.new
        (fitted_fields (option_map (λ bytes. bytes.now) fitted.entry) fields.old) }
{
    match fitted {
        Some(bytes) => {
            let disk = disk_over(alloc, bytes, fields)?;
            Ok(Some(disk))
        }
        None => Ok(None),
    }
}

/// Adds a disk over its bytes as they were fitted.
fn save_over(disk: &Ata, fitted: &[u8], into: &mut Vec<u8>) -> Result<(), NoMemory>
    requires same { HasDisk (Some fitted.now) (Some disk.now) }
    ensures saved { OnOk result (into.new.items ≡ into.old.items ++ disk_bytes fitted.now disk.now) }
    ensures sound { IsDiskOver fitted.now disk.now }
{
    let _ = disk.sectors();
    disk.save_state(fitted, into)
}

impl Devices {
    /// Adds the state. `fitted` are the bytes of the disk as it was fitted, where there is one: of its sectors those
    /// that differ are in the state.
    #[tactic(auto, using(crate::proofs::StateFormat::saving), unfolding(crate::specs::State::devices_bytes))]
    pub fn save_state(&self, fitted: Option<&[u8]>, into: &mut Vec<u8>) -> Result<(), NoMemory>
        requires disk { HasDisk (option_map (λ bytes. bytes.now) fitted) self.now.disk }
        ensures saved { OnOk result (into.new.items
            ≡ into.old.items ++ devices_bytes (option_map (λ bytes. bytes.now) fitted.entry) self.now) }
        ensures sound { OnOk result (AreDevices (option_map (λ bytes. bytes.now) fitted.entry) self.now) }
    {
        self.save_machines(into)?;
        self.save_disk(fitted, into)
    }

    /// The devices whose state over this disk as it was fitted is at the front of the bytes. Bad where a field is not
    /// whole or out of range: the bytes left then begin with the first such field.
    pub fn load_state(
        alloc: Global,
        fitted: Option<&[u8]>,
        fields: &mut Fields,
    ) -> Result<Devices, Fault>
        requires fits { IsDisk (option_map (λ bytes. bytes.now) fitted) }
        ensures loaded { LoadsWith (devices_fields (option_map (λ bytes. bytes.now) fitted.entry))
            (devices_bytes (option_map (λ bytes. bytes.now) fitted.entry))
            (AreDevices (option_map (λ bytes. bytes.now) fitted.entry)) fields.old fields.new result }
    {
        fields.are_bytes();
        Devices::read_state(alloc, fitted, fields)
    }

    /// Adds all but the disk.
    #[tactic(auto, using(std::proofs::lemmas::Bool::Decides::nat_tests))]
    fn save_machines(&self, into: &mut Vec<u8>) -> Result<(), NoMemory>
        ensures saved { OnOk result (into.new.items ≡ into.old.items ++ machines_bytes self.now) }
        ensures sound { OnOk result (AreMachines self.now) }
    {
        self.pair.save_state(into)?;
        self.timer.save_state(into)?;
        self.clock.save_state(into)?;
        self.triggers.save_state(into)?;
        self.plain.save_state(into)?;
        self.wires.save_state(into)?;
        self.irqs.save_state(into)
    }

    /// Adds the disk, where one is fitted.
    #[tactic(auto, unfolding(crate::specs::State::fitted_bytes))]
    fn save_disk(&self, fitted: Option<&[u8]>, into: &mut Vec<u8>) -> Result<(), NoMemory>
        requires disk { HasDisk (option_map (λ bytes. bytes.now) fitted) self.now.disk }
        ensures saved { OnOk result (into.new.items
            ≡ into.old.items ++ fitted_bytes (option_map (λ bytes. bytes.now) fitted.entry) self.now.disk) }
        ensures sound { IsFittedDisk (option_map (λ bytes. bytes.now) fitted.entry) self.now.disk }
    {
        match (&self.disk, fitted) {
            (Some(disk), Some(bytes)) => save_over(disk, bytes, into),
            _ => Ok(()),
        }
    }

    /// Reads the fields one after another. The disk is then absent.
    #[tactic(auto, unfolding(crate::specs::State::machines_fields))]
    fn read_machines(fields: &mut Fields) -> Result<Devices, Bad>
        ensures took { Took (λ devices. devices) result fields.new (machines_fields fields.old) }
    {
        let pair = pair(fields)?;
        let timer = timer(fields)?;
        let clock = clock(fields)?;
        let triggers = triggers(fields)?;
        let plain = PlainPorts::read_state(fields)?;
        let wires = lines(fields)?;
        let irqs = lines(fields)?;
        Ok(Devices {
            pair,
            timer,
            clock,
            disk: None,
            triggers,
            plain,
            wires,
            irqs,
        })
    }

    /// Reads the fields one after another.
    #[tactic(auto, unfolding(crate::specs::State::devices_fields))]
    fn read_state(
        alloc: Global,
        fitted: Option<&[u8]>,
        fields: &mut Fields,
    ) -> Result<Devices, Fault>
        requires fits { IsDisk (option_map (λ bytes. bytes.now) fitted) }
        ensures filled { Filled (λ devices. devices) result fields.new
            (devices_fields (option_map (λ bytes. bytes.now) fitted.entry) fields.old) }
    {
        let mut devices = Devices::read_machines(fields)?;
        devices.disk = fitted_disk(alloc, fitted, fields)?;
        Ok(devices)
    }
}

/// Over one disk as it was fitted one state has one spelling, and one spelling is of one state.
pub fn law_one_devices()
    ensures one { (fitted : Option (List ℕ)) → IsDisk fitted → OneSpelling (devices_bytes fitted) (AreDevices fitted) }
{}
