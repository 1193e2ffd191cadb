//! A machine from its bytes.

ghost use Rattle.std.specs.Prelude.{◌≡◌, ◌<◌, ◌⊎◌, ◌++◌, ℕ, List, [], length, Ok, Err, IfOk, IfErr, true, false};
ghost use Rattle.byte_fields.specs.declared.fault.Fault.TheVariants.{NoMemory as Wanted};
ghost use Rattle.machine.specs.Fitted.{IsFitting, IsOtherVersion};
ghost use Rattle.machine.specs.Images.{IsLoadRefusal, IsSavedState, IsWritten, fitting_of, image_bytes};
ghost use Rattle.machine.specs.Machines.{Saved, without_roms};
ghost use Rattle.machine.specs.declared.refusal.Refusal.TheVariants.{BadImage, NoMemory, OtherVersion};
ghost use Rattle.uart_16550.specs.SerialState.{serial_bytes};

use crate::fitted::{Fitted, is_other_version, read_fitted};
use crate::identity::FittedIdentity;
use crate::machine::Machine;
use crate::refusal::Refusal;
use arrayvec::ArrayVec;
use board_chipset::Chipset;
use byte_fields::{Fault, Fields};
use std::alloc::Global;
use std::marker::Model;
use uart_16550::SerialBoard;

/// What an image has: a chipset with a serial port, and what its cards say that they are.
#[derive(Drop)]
struct Loaded {
    serial: SerialBoard<Chipset>,
    identities: ArrayVec<FittedIdentity, 8>,
}

impl Model for Loaded {
    ghost use Rattle.machine.specs.Machines.{Saved};

    ghost Value = { Saved };

    ghost view = { λ loaded. record { serial = loaded.serial; identities = loaded.identities.items } };
}

/// Writes bytes to the front of the room, where they fit, and says whether they do. Else nothing is written.
pub fn write_front(bytes: &[u8], into: &mut [u8]) -> bool
    ensures written { result ≡ true → IsWritten bytes.now into.old into.new }
    ensures past { result ≡ false → (into.new ≡ into.old) × (length into.old < length bytes.now) }
{
    if into.len() < bytes.len() {
        return false;
    }
    into[..bytes.len()].copy_from_slice(bytes);
    true
}

impl Machine {
    /// The machine whose bytes these are: equal to the one that was saved, so that all which holds of that one holds of
    /// it; but what expansion ROMs were given is not in the bytes, and is given again.
    /// Bytes that no machine wrote, but that are those of a state which one could go on from, give that one. Refused
    /// with `OtherVersion` where they begin as those of another version; with `BadImage` where they are those of no
    /// machine; and with `NoMemory` where there is none.
    pub fn load(alloc: Global, from: &[u8]) -> Result<Machine, Refusal>
        ensures loaded { IfOk result (λ machine. IsSavedState machine.saved × (from.now ≡ image_bytes machine.saved)
            × (machine.roms ≡ [])) }
        ensures exact { (saved : Saved) → IsSavedState saved → from.now ≡ image_bytes saved
            → (result ≡ Err NoMemory) ⊎ (result ≡ Ok (without_roms saved)) }
        ensures refused { IfErr result (IsLoadRefusal from.now) }
    {
        let mut fields = Fields::of(from);
        match read(alloc, &mut fields) {
            Ok(Loaded { serial, identities }) => Ok(Machine {
                serial,
                identities,
                roms: None,
            }),
            Err(Fault::NoMemory) => Err(Refusal::NoMemory),
            Err(Fault::Bad) => Err(why_bad(from)),
        }
    }
}

/// Why bytes are those of no machine.
fn why_bad(from: &[u8]) -> Refusal
    ensures cause { ((result ≡ BadImage) × ¬ IsOtherVersion from.now)
        ⊎ ((result ≡ OtherVersion) × IsOtherVersion from.now) }
{
    if is_other_version(from) {
        return Refusal::OtherVersion;
    }
    Refusal::BadImage
}

/// Reads what the machine is fitted with, and then its state, after which nothing follows.
#[tactic(auto, using(crate::proofs::Images::fitting_refused))]
fn read(alloc: Global, fields: &mut Fields) -> Result<Loaded, Fault>
    ensures loaded { IfOk result (λ saved. IsSavedState saved × (fields.old ≡ image_bytes saved)) }
    ensures exact { (saved : Saved) → IsSavedState saved → fields.old ≡ image_bytes saved
        → (result ≡ Err Wanted) ⊎ (result ≡ Ok saved) }
{
    match read_fitted(alloc, fields) {
        Ok(fitted) => read_last(alloc, fitted, fields),
        Err(fault) => Err(fault),
    }
}

/// Reads the state of a machine that is fitted so, after which nothing follows.
#[tactic(auto, using(std::proofs::lemmas::Grind::common_steps, crate::proofs::Images::last_refused))]
fn read_last(alloc: Global, fitted: Fitted, fields: &mut Fields) -> Result<Loaded, Fault>
    requires fits { IsFitting fitted }
    ensures loaded { IfOk result (λ saved. IsSavedState saved × (fitting_of saved ≡ fitted)
        × (fields.old ≡ serial_bytes saved.serial)) }
    ensures exact { (saved : Saved) → IsSavedState saved → fitting_of saved ≡ fitted
        → fields.old ≡ serial_bytes saved.serial → (result ≡ Err Wanted) ⊎ (result ≡ Ok saved) }
{
    match read_state(alloc, fitted, fields) {
        Ok(saved) => alone(saved, fields),
        Err(fault) => Err(fault),
    }
}

/// What was loaded, where nothing follows.
#[tactic(auto, using(crate::proofs::Images::not_ended))]
fn alone(saved: Loaded, fields: &mut Fields) -> Result<Loaded, Fault>
    ensures same { IfOk result (λ given. (given ≡ saved) × (fields.old ≡ [])) }
    ensures last { fields.old ≡ [] → result ≡ Ok saved }
{
    match fields.end() {
        Ok(()) => Ok(saved),
        Err(_) => Err(Fault::Bad),
    }
}

/// Reads the state of a machine that is fitted so.
fn read_state(alloc: Global, fitted: Fitted, fields: &mut Fields) -> Result<Loaded, Fault>
    requires fits { IsFitting fitted }
    ensures loaded { IfOk result (λ saved. IsSavedState saved × (fitting_of saved ≡ fitted)
        × (fields.old ≡ serial_bytes saved.serial ++ fields.new)) }
    ensures exact { (saved : Saved) (rest : List ℕ) → IsSavedState saved → fitting_of saved ≡ fitted
        → fields.old ≡ serial_bytes saved.serial ++ rest
        → (result ≡ Err Wanted) ⊎ ((result ≡ Ok saved) × (fields.new ≡ rest)) }
{
    let Fitted { setup, identities } = fitted;
    match SerialBoard::<Chipset>::load_fields(alloc, setup, fields) {
        Ok(serial) => Ok(Loaded { serial, identities }),
        Err(fault) => Err(fault),
    }
}
