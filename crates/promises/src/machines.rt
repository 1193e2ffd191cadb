//! Saved boards of the library for C, of the calls that save and load them.

ghost use Rattle.std.specs.Prelude.{◌≡◌, ◌⊎◌, ◌<◌, length, Ok, Err};
ghost use Rattle.machine.specs.Given.{left_of, without};
ghost use Rattle.machine.specs.Images.{IsSavedState, image_bytes};
ghost use Rattle.machine.specs.Machines.{Saved, without_roms};
ghost use Rattle.machine.specs.declared.refusal.Refusal.TheVariants.{NoMemory, NoRoom};
ghost use Rattle.promises.specs.Images.{IsTakenFor};

use machine::{Given, LeftOut, Machine, Refusal};
use std::alloc::Global;

/// The board whose bytes these are: equal to the one that was saved. What ROMs of cards were given is given again.
pub fn machine_as_saved(alloc: Global, bytes: &[u8]) -> Result<Machine, Refusal>
    ensures taken { (saved : Saved) → IsSavedState saved → bytes.now ≡ image_bytes saved →
        IsTakenFor (without_roms saved) NoMemory result }
{
    Machine::load(alloc, bytes)
}

/// Saves a board into a room, without what its monitor keeps, and loads it with that: it is the board that was saved,
/// unless memory ran out or the room is too short.
pub fn saved_and_loaded(
    alloc: Global,
    machine: &Machine,
    left: LeftOut,
    given: &Given,
    room: &mut [u8],
    count: &mut usize,
) -> Result<Machine, Refusal>
    ensures same { given.now ≡ left_of left machine.now.saved.serial.board →
        (result ≡ Ok (without_roms machine.now.saved)) ⊎ (result ≡ Err NoMemory)
        ⊎ ((result ≡ Err NoRoom) × (length room.old < length (image_bytes (without left machine.now.saved)))) }
{
    match machine.save(alloc, left, room, count) {
        Ok(()) => Machine::load_with(alloc, &room[..*count], given),
        Err(refusal) => Err(refusal),
    }
}
