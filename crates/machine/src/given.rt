//! A machine from bytes, with those that a monitor keeps itself.

ghost use Rattle.std.specs.Prelude.{◌≡◌, ◌⊎◌, [], Ok, Err, IfOk, IfErr, OnOk, OnErr};
ghost use Rattle.board_chipset.specs.ChipsetState.{disk_size};
ghost use Rattle.board_chipset.specs.Given.{dram_on, fitted_on, sectors_on, with_dram, with_fitted, with_sectors};
ghost use Rattle.board_spec.specs.Setup.{installed};
ghost use Rattle.machine.specs.Given.{AreAsMany, IsAsMany, IsGivenBoard, IsGivenRefusal, given_or, left_of};
ghost use Rattle.machine.specs.Given.{on_board, with_given, without};
ghost use Rattle.machine.specs.Images.{IsSavedState, image_bytes};
ghost use Rattle.machine.specs.Machines.{Saved, without_roms};
ghost use Rattle.machine.specs.declared.refusal.Refusal.TheVariants.{BadLength, NoMemory};
ghost use Rattle.machine.specs.declared.saved.LeftOut.{LeftOut as Left};

use crate::machine::Machine;
use crate::refusal::Refusal;
use board_chipset::{Chipset, OtherLength};
use std::alloc::Global;
use std::marker::Model;
use uart_16550::SerialBoard;

/// What a monitor gives beside an image: the bytes of the DRAM, of the disk as it was fitted, and of its sectors as
/// they stand. No bytes are none given.
#[derive(Drop)]
pub struct Given<'a> {
    pub dram: &'a [u8],
    pub fitted: &'a [u8],
    pub sectors: &'a [u8],
}

impl<'a> Model for Given<'a> {
    ghost use Rattle.machine.specs.Given.{Given as GivenBytes, given_of};

    ghost Value = { GivenBytes };

    ghost view = { λ given. given_of given.dram.now given.fitted.now given.sectors.now };
}

impl Machine {
    /// The machine whose bytes these are, as `load` gives it, with what is given in the place of its own bytes; which
    /// sectors are bad stays. So with the bytes that `save` left out it is the machine that was saved. Refused as `load`
    /// is; and with `BadLength` where the bytes are those of a machine, and those given are not as many as it has.
    pub fn load_with(alloc: Global, from: &[u8], given: &Given) -> Result<Machine, Refusal>
        ensures loaded { IfOk result (λ machine.
            (machine.roms ≡ []) × IsGivenBoard from.now given.now machine.saved) }
        ensures sound { IfOk result (λ machine. IsSavedState machine.saved) }
        ensures exact { (saved : Saved) → IsSavedState saved → from.now ≡ image_bytes saved
            → AreAsMany given.now saved.serial.board.setup → (result ≡ Err NoMemory)
            ⊎ (result ≡ Ok (without_roms (on_board (with_given given.now) saved))) }
        ensures back { (left : Left) (saved : Saved) → IsSavedState saved → from.now ≡ image_bytes (without left saved)
            → given.now ≡ left_of left saved.serial.board
            → (result ≡ Err NoMemory) ⊎ (result ≡ Ok (without_roms saved)) }
        ensures refused { IfErr result (IsGivenRefusal from.now given.now) }
    {
        match Machine::load(alloc, from) {
            Ok(machine) => with_given(machine, given),
            Err(why) => Err(why),
        }
    }
}

/// A machine with the bytes that are given.
fn with_given(machine: Machine, given: &Given) -> Result<Machine, Refusal>
    ensures given { IfOk result (λ it. (it ≡ record machine { saved = on_board (with_given given.now) machine.saved })
        × AreAsMany given.now machine.saved.serial.board.setup) }
    ensures refused { IfErr result (λ why. (why ≡ BadLength)
        × ¬ AreAsMany given.now machine.saved.serial.board.setup) }
{
    let Machine {
        mut serial,
        identities,
        roms,
    } = machine;
    match put_given(&mut serial, given) {
        Ok(()) => Ok(Machine {
            serial,
            identities,
            roms,
        }),
        Err(OtherLength) => Err(Refusal::BadLength),
    }
}

/// Puts in the bytes that are given. Where some are not as many as those in whose place they stand, others may have
/// been put in.
fn put_given(serial: &mut SerialBoard<Chipset>, given: &Given) -> Result<(), OtherLength>
    ensures put { OnOk result (serial.new ≡ record serial.old {
      board = with_given given.now serial.old.board;
    }) }
    ensures as_many { OnOk result (AreAsMany given.now serial.old.board.setup) }
    ensures refused { OnErr result (¬ AreAsMany given.now serial.old.board.setup) }
{
    put_dram(serial, given.dram)?;
    put_sectors(serial, given.sectors)?;
    put_fitted(serial, given.fitted)
}

/// Puts in the bytes of the DRAM, where they are given.
fn put_dram(serial: &mut SerialBoard<Chipset>, bytes: &[u8]) -> Result<(), OtherLength>
    ensures put { OnOk result (serial.new ≡ record serial.old {
      board = with_dram (given_or bytes.now (dram_on serial.old.board)) serial.old.board;
    }) }
    ensures as_many { OnOk result (IsAsMany bytes.now (installed serial.old.board.setup)) }
    ensures refused { OnErr result (¬ IsAsMany bytes.now (installed serial.old.board.setup)) }
{
    if bytes.is_empty() {
        return Ok(());
    }
    serial.put_dram(bytes)
}

/// Puts in the bytes of the sectors, where they are given.
fn put_sectors(serial: &mut SerialBoard<Chipset>, bytes: &[u8]) -> Result<(), OtherLength>
    ensures put { OnOk result (serial.new ≡ record serial.old {
      board = with_sectors (given_or bytes.now (sectors_on serial.old.board)) serial.old.board;
    }) }
    ensures as_many { OnOk result (IsAsMany bytes.now (disk_size serial.old.board.setup)) }
    ensures refused { OnErr result (¬ IsAsMany bytes.now (disk_size serial.old.board.setup)) }
{
    if bytes.is_empty() {
        return Ok(());
    }
    serial.put_sectors(bytes)
}

/// Puts in the bytes that the disk was fitted with, where they are given.
fn put_fitted(serial: &mut SerialBoard<Chipset>, bytes: &[u8]) -> Result<(), OtherLength>
    ensures put { OnOk result (serial.new ≡ record serial.old {
      board = with_fitted (given_or bytes.now (fitted_on serial.old.board)) serial.old.board;
    }) }
    ensures as_many { OnOk result (IsAsMany bytes.now (disk_size serial.old.board.setup)) }
    ensures refused { OnErr result (¬ IsAsMany bytes.now (disk_size serial.old.board.setup)) }
{
    if bytes.is_empty() {
        return Ok(());
    }
    serial.put_fitted(bytes)
}
