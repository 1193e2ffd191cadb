//! Opens a machine from numbers. All that it is asked for is looked at before anything is copied.

ghost use Rattle.std.specs.Prelude.{◌≡◌, ◌<◌, ℕ, List, [], length, IfOk, IfErr, IsSomeAnd, Some, option_map};
ghost use Rattle.board_spec.specs.Setup.{IsSetup};
ghost use Rattle.machine_records.specs.Cards.{identities_said};
ghost use Rattle.machine_records.specs.Openings.{IsOpenRefusal, IsOpenedWith, IsSetupRefusal, disk_of, setup_said};

use crate::card::{CardRecord, are_said, cards_of, few_cards, identities_of};
use crate::status::{BAD_CARDS, BAD_SIZE, NO_MEMORY, setup_status};
use board_chipset::{Chipset, Setup, check_sizes, is_memory_size};
use machine::Machine;
use std::alloc::{AllocError, Global};
use uart_16550::SerialBoard;

/// The most cards.
const MOST_CARDS: usize = 8;

/// A machine with these cards over copies of these bytes, as after power-on. A disk of no bytes is none. Refused with
/// `BAD_CARDS` where a record says no card; with `BAD_SIZE`, `BAD_CARDS`, `BAD_ROM` or `BAD_DISK` by the first of them
/// that no board can have; and with `NO_MEMORY` only where a board can have all of it. Of what none can have nothing is
/// copied.
#[tactic(auto, using(crate::proofs::Identities::few_opened))]
pub fn open(
    alloc: Global,
    mib: u32,
    cards: &[CardRecord],
    rom: &[u8],
    disk: &[u8],
) -> Result<Machine, u32>
    ensures fresh { IfOk result (λ machine. IsSomeAnd (setup_said mib cards.now rom.now disk.now)
        (IsOpenedWith machine.saved.serial)) }
    ensures identities { IfOk result (λ machine. machine.saved.identities ≡ identities_said cards.now) }
    ensures roms { IfOk result (λ machine. machine.roms ≡ []) }
    ensures refused { IfErr result (IsOpenRefusal (setup_said mib cards.now rom.now disk.now)) }
{
    match open_board(alloc, mib, cards, rom, disk) {
        Ok(serial) => Ok(Machine {
            serial,
            identities: identities_of(cards),
            roms: None,
        }),
        Err(status) => Err(status),
    }
}

/// The chipset of these cards, with a new serial port.
fn open_board(
    alloc: Global,
    mib: u32,
    cards: &[CardRecord],
    rom: &[u8],
    disk: &[u8],
) -> Result<SerialBoard<Chipset>, u32>
    ensures fresh { IfOk result (λ serial. IsSomeAnd (setup_said mib cards.now rom.now disk.now)
        (IsOpenedWith serial)) }
    ensures refused { IfErr result (IsOpenRefusal (setup_said mib cards.now rom.now disk.now)) }
{
    check(mib, cards, rom, disk)?;
    match copies(alloc, mib, cards, rom, disk) {
        Ok(Some(setup)) => opened(alloc, setup),
        Ok(None) => Err(BAD_CARDS),
        Err(_) => Err(NO_MEMORY),
    }
}

/// Tests what a board is to be opened with, without a copy. Refused with why.
fn check(mib: u32, cards: &[CardRecord], rom: &[u8], disk: &[u8]) -> Result<(), u32>
    ensures fits { IfOk result (λ _. IsSomeAnd (setup_said mib cards.now rom.now disk.now) IsSetup) }
    ensures refused { IfErr result (IsSetupRefusal (setup_said mib cards.now rom.now disk.now)) }
{
    if cards.len() > MOST_CARDS {
        return Err(too_many(mib, cards));
    }
    let Some(few) = few_cards(cards) else {
        return Err(BAD_CARDS);
    };
    match check_sizes(mib, &few, rom.len(), disk_length(disk)) {
        Ok(()) => Ok(()),
        Err(fault) => Err(setup_status(fault)),
    }
}

/// Why no board has more than eight cards.
#[tactic(auto, using(crate::proofs::Openings::many_cards))]
fn too_many(mib: u32, cards: &[CardRecord]) -> u32
    requires many { 8 < length cards.now }
    ensures refused { (rom disk : List ℕ) → IsSetupRefusal (setup_said mib cards.now rom disk) result }
{
    if !are_said(cards) {
        return BAD_CARDS;
    }
    if is_memory_size(mib) {
        return BAD_CARDS;
    }
    BAD_SIZE
}

/// The length of a disk. No bytes are no disk.
fn disk_length(disk: &[u8]) -> Option<usize>
    ensures length { result ≡ option_map (λ bytes. length bytes) (disk_of disk.now) }
{
    if disk.is_empty() {
        return None;
    }
    Some(disk.len())
}

/// The setup that copies of these make. None where a record says no card.
fn copies(
    alloc: Global,
    mib: u32,
    cards: &[CardRecord],
    rom: &[u8],
    disk: &[u8],
) -> Result<Option<Setup>, AllocError>
    ensures said { IfOk result (λ setup. setup ≡ setup_said mib cards.now rom.now disk.now) }
{
    let Some(cards) = cards_of(alloc, cards)? else {
        return Ok(None);
    };
    let rom = Vec::from_slice(alloc, rom)?;
    let disk = copy_disk(alloc, disk)?;
    Ok(Some(Setup {
        mib,
        cards,
        rom,
        disk,
    }))
}

/// A copy of a disk's bytes. No bytes are no disk.
fn copy_disk(alloc: Global, disk: &[u8]) -> Result<Option<Vec<u8>>, AllocError>
    ensures copy { IfOk result (λ copy. option_map (λ bytes. bytes.items) copy ≡ disk_of disk.now) }
{
    if disk.is_empty() {
        return Ok(None);
    }
    Ok(Some(Vec::from_slice(alloc, disk)?))
}

/// The chipset of a setup that a board can have, with a new serial port.
fn opened(alloc: Global, setup: Setup) -> Result<SerialBoard<Chipset>, u32>
    requires fits { IsSetup setup }
    ensures fresh { IfOk result (λ serial. IsOpenedWith serial setup) }
    ensures refused { IfErr result (IsOpenRefusal (Some setup)) }
{
    match Chipset::open_checked(alloc, setup) {
        Ok(chipset) => Ok(SerialBoard::open(chipset)),
        Err(fault) => Err(setup_status(fault)),
    }
}
