//! The bytes of cards and of their expansion ROMs, out and in without an access on the bus.

ghost use Rattle.std.specs.Prelude.{◌≡◌, length};
ghost use Rattle.machine_records.specs.CardBytes.{IsBaseRead, IsBaseUnread, IsBaseUnwritten, IsBaseWritten};
ghost use Rattle.machine_records.specs.CardBytes.{IsCardRead, IsCardWritten, IsPastBase};
ghost use Rattle.machine_records.specs.Statuses.{IsOutcome};

use crate::status::{OK, PAST_END, refusal_status};
use board_chipset::Chipset;
use machine::Machine;
use std::alloc::Global;
use uart_16550::SerialBoard;

/// The number of the base that is an expansion ROM.
pub(crate) const ROM_BASE: u8 = 6;

/// Fills `into` with the bytes of a base of a card, 0 to 5, or 6 for its expansion ROM, or 7 for the VGA window, from
/// an offset on, as reads give them. Refused with `PAST_END` where they do not all lie in it: a card or base that is
/// not there has none.
pub fn read_base(machine: &Machine, dev: u8, base: u8, off: u32, into: &mut [u8]) -> u32
    ensures outcome { IsOutcome result (IsBaseRead dev base off into.old into.new machine.now)
        (IsBaseUnread dev base off (length into.old) result machine.now) (into.new ≡ into.old) }
{
    if base != ROM_BASE {
        return read_card(machine.chipset(), dev, base, off, into);
    }
    match machine.read_rom(dev, off, into) {
        Ok(()) => OK,
        Err(why) => refusal_status(why),
    }
}

/// The same of a base that is no expansion ROM.
fn read_card(chipset: &Chipset, dev: u8, base: u8, off: u32, into: &mut [u8]) -> u32
    ensures outcome { IsOutcome result (IsCardRead chipset.now dev base off into.old into.new)
        (IsPastBase chipset.now dev base off (length into.old) result) (into.new ≡ into.old) }
{
    match chipset.card_bytes(dev, base, off, into) {
        Ok(()) => OK,
        Err(_) => PAST_END,
    }
}

/// Puts bytes into a base of a card from an offset on, or into its expansion ROM, where reads find them and no processor
/// writes. Refused with `PAST_END` as `read_base` is, and with `NO_MEMORY` only of a ROM into which no bytes were put
/// yet; then nothing has changed.
pub fn write_base(
    alloc: Global,
    machine: &mut Machine,
    dev: u8,
    base: u8,
    off: u32,
    bytes: &[u8],
) -> u32
    ensures outcome { IsOutcome result (IsBaseWritten dev base off bytes.now machine.old machine.new)
        (IsBaseUnwritten dev base off (length bytes.now) result machine.old) (machine.new ≡ machine.old) }
{
    if base != ROM_BASE {
        return write_card(&mut machine.serial, dev, base, off, bytes);
    }
    match machine.write_rom(alloc, dev, off, bytes) {
        Ok(()) => OK,
        Err(why) => refusal_status(why),
    }
}

/// The same of a base that is no expansion ROM.
fn write_card(serial: &mut SerialBoard<Chipset>, dev: u8, base: u8, off: u32, bytes: &[u8]) -> u32
    ensures outcome { IsOutcome result (IsCardWritten serial.old serial.new dev base off bytes.now)
        (IsPastBase serial.old.board dev base off (length bytes.now) result) (serial.new ≡ serial.old) }
{
    match serial.write_card(dev, base, off, bytes) {
        Ok(()) => OK,
        Err(_) => PAST_END,
    }
}
