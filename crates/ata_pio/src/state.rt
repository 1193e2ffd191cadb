//! The state of a disk as bytes, out and in.

ghost use Rattle.std.specs.Prelude.{◌≡◌, ◌++◌, OnOk, IfOk, IsTrue, map, length, List, ℕ};
ghost use Rattle.byte_fields.specs.Fields.{Filled, flag_byte};
ghost use Rattle.byte_fields.specs.Loads.{LoadsWith, OneSpelling};
ghost use Rattle.device_spec.specs.Ata.State.{Disk, is_disk_length};
ghost use Rattle.ata_pio.specs.View.{medium_of};
ghost use Rattle.ata_pio.specs.State.{IsMedium, medium_bytes, medium_fields, flags_fields, count_of, IsDisk};
ghost use Rattle.ata_pio.specs.State.{disk_bytes, disk_fields};

use crate::ata::Ata;
use crate::controller::Controller;
use crate::sectors::{SECTOR_BYTES, Sectors};
use board_base::NoMemory;
use byte_fields::{Fault, Fields, push_flag, push_pages};
use std::alloc::Global;

/// Adds flags.
fn push_flags(into: &mut Vec<u8>, flags: &[bool]) -> Result<(), NoMemory>
    ensures added { OnOk result (into.new.items ≡ into.old.items ++ map flag_byte flags.now) }
{
    for flag in flags {
        push_flag(into, *flag)?;
    }
    Ok(())
}

/// Reads so many flags.
fn read_flags(alloc: Global, fields: &mut Fields, count: usize) -> Result<Vec<bool>, Fault>
    ensures filled { Filled (λ flags. flags.items) result fields.new (flags_fields count fields.old) }
    ensures count { IfOk result (λ flags. length flags.items ≡ count) }
{
    let mut flags = Vec::with_capacity(alloc, count)?;
    for _ in 0..count {
        let flag = fields.flag()?;
        flags.push(flag)?;
    }
    Ok(flags)
}

impl Sectors {
    /// Does nothing: its clause says that the sectors of a disk as long as this one are sound.
    fn is_sound(&self, fitted: &[u8])
        requires same { length fitted.now ≡ length (medium_of self.now).bytes }
        ensures size { IsTrue (is_disk_length (length fitted.now)) }
        ensures sound { IsMedium fitted.now (medium_of self.now) }
    {
        let _ = &self.bytes;
        let _ = &self.bad;
    }

    /// Adds the sectors that differ from those of the disk as fitted, and which are bad.
    fn save_state(&self, fitted: &[u8], into: &mut Vec<u8>) -> Result<(), NoMemory>
        requires same { length fitted.now ≡ length (medium_of self.now).bytes }
        ensures saved { OnOk result
            (into.new.items ≡ into.old.items ++ medium_bytes fitted.now (medium_of self.now)) }
    {
        push_pages(into, SECTOR_BYTES, fitted, &self.bytes)?;
        push_flags(into, &self.bad)
    }

    /// Reads the sectors over those of the disk as fitted, and which are bad.
    #[tactic(auto, unfolding(crate::specs::State::medium_fields))]
    fn read_state(alloc: Global, fitted: &[u8], fields: &mut Fields) -> Result<Sectors, Fault>
        requires size { IsTrue (is_disk_length (length fitted.now)) }
        ensures filled { Filled medium_of result fields.new (medium_fields fitted.now fields.old) }
        ensures count { IfOk result (λ sectors. length (medium_of sectors).bad ≡ count_of fitted.now) }
    {
        let mut bytes = fitted.to_vec(alloc)?;
        fields.pages(SECTOR_BYTES, &mut bytes)?;
        let bad = read_flags(alloc, fields, fitted.len() / SECTOR_BYTES)?;
        Ok(Sectors { bytes, bad })
    }
}

impl Ata {
    /// Adds the state over the disk as it was fitted, of which the caller keeps the bytes: they are as many as the disk
    /// has now. Only sectors that differ are in the state.
    pub fn save_state(&self, fitted: &[u8], into: &mut Vec<u8>) -> Result<(), NoMemory>
        requires same { length fitted.now ≡ length self.now.medium.bytes }
        ensures saved { OnOk result (into.new.items ≡ into.old.items ++ disk_bytes fitted.now self.now) }
        ensures sound { IsDisk fitted.now self.now }
    {
        self.sectors.is_sound(fitted);
        self.controller.is_sound(self.sectors.count());
        self.controller.save_state(into)?;
        self.sectors.save_state(fitted, into)
    }

    /// The disk whose state over these fitted bytes is at the front of the bytes. Bad where a field is not whole or out
    /// of range: the bytes left then begin with the first such field.
    pub fn load_state(alloc: Global, fitted: &[u8], fields: &mut Fields) -> Result<Ata, Fault>
        requires size { IsTrue (is_disk_length (length fitted.now)) }
        ensures loaded { LoadsWith (disk_fields fitted.now) (disk_bytes fitted.now) (IsDisk fitted.now) fields.old
            fields.new result }
    {
        fields.are_bytes();
        Ata::read_state(alloc, fitted, fields)
    }

    /// Reads the fields one after another.
    #[tactic(auto, unfolding(crate::specs::State::disk_fields))]
    fn read_state(alloc: Global, fitted: &[u8], fields: &mut Fields) -> Result<Ata, Fault>
        requires size { IsTrue (is_disk_length (length fitted.now)) }
        ensures filled { Filled (λ (disk : Disk). disk) result fields.new (disk_fields fitted.now fields.old) }
    {
        let controller = Controller::read_state(fields, (fitted.len() / SECTOR_BYTES) as u32)?;
        let sectors = Sectors::read_state(alloc, fitted, fields)?;
        Ok(Ata {
            sectors,
            controller,
        })
    }
}

/// Over one disk as fitted one state has one spelling, and one spelling is of one state.
#[tactic(auto, using(crate::proofs::StateFormats::one_disk))]
pub fn law_one_disk()
    ensures one { (fitted : List ℕ) → OneSpelling (disk_bytes fitted) (IsDisk fitted) }
{}
