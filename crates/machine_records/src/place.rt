//! What an access would reach, and when the timer's line next rises. Nothing in the chipset changes.

ghost use Rattle.std.specs.Prelude.{◌≡◌, IfSome, IsSomeAnd, Some, None, is_some};
ghost use Rattle.board_prelude.specs.{IsInRange};
ghost use Rattle.uart_16550.specs.declared.com1.Happening.TheVariants.{Happens};
ghost use Rattle.uart_16550.specs.Com1.{uart_access};
ghost use Rattle.machine_records.specs.Events.{asked_said};
ghost use Rattle.machine_records.specs.Places.{IsCycle, IsEventPlaced, IsAskedPlace, IsNotPlaced, IsRise, placed_by};
ghost use Rattle.machine_records.specs.Statuses.{IsOutcome};

use crate::event::{EventRecord, asked_of};
use crate::reply::{PartRecord, of_part, uart_part};
use crate::status::{NO_CYCLE, NO_EVENT, OK};
use board_chipset::Chipset;
use board_spec::{Event, Part};
use uart_16550::{Happening, is_for_uart};

/// Sets `part` to what would answer the access of a record, and what would deny it. Refused where the record asks
/// nothing (`NO_EVENT`), or no access of one bus cycle in range (`NO_CYCLE`).
pub fn decode(chipset: &Chipset, event: &EventRecord, part: &mut PartRecord) -> u32
    ensures outcome { IsOutcome result (IsSomeAnd (asked_said event.now) (IsAskedPlace chipset.now part.new))
        (IsNotPlaced chipset.now (asked_said event.now) result) (part.new ≡ part.old) }
{
    match asked_of(event) {
        Some(Happening::Comes(_)) => NO_CYCLE,
        Some(Happening::Happens(asked)) => placed(chipset, &asked, part),
        None => NO_EVENT,
    }
}

fn placed(chipset: &Chipset, asked: &Event, part: &mut PartRecord) -> u32
    ensures outcome { IsOutcome result (IsEventPlaced chipset.now part.new asked.now)
        (IsNotPlaced chipset.now (Some (Happens asked.now)) result) (part.new ≡ part.old) }
{
    match place_of(chipset, asked) {
        Some(place) => {
            *part = place;
            OK
        }
        None => NO_CYCLE,
    }
}

/// What would answer an access of one bus cycle, and what would deny it. None for another event, or one out of range.
fn place_of(chipset: &Chipset, asked: &Event) -> Option<PartRecord>
    ensures placed { IfSome result (λ said. IsEventPlaced chipset.now said asked.now) }
    ensures none { result ≡ None → ¬ (IsInRange chipset.now.setup asked.now × IsCycle asked.now) }
{
    if !chipset.is_in_range(asked) {
        return None;
    }
    chipset.holds_registers();
    match chipset.decode(asked) {
        Some(part) => Some(part_by(asked, part)),
        None => None,
    }
}

/// What would answer an access for which the chipset alone would have this part.
fn part_by(asked: &Event, part: Part) -> PartRecord
    ensures by { Some result ≡ placed_by (uart_access asked.now) (Some part) }
{
    if is_uart_access(asked) {
        return uart_part();
    }
    of_part(part)
}

/// Whether an event is an access that the UART of COM1 answers.
fn is_uart_access(asked: &Event) -> bool
    ensures uart { result ≡ is_some (uart_access asked.now) }
{
    match asked {
        Event::Port(access) => is_for_uart(access),
        _ => false,
    }
}

/// Sets `pulses` to the number of pulses of the timer's clock after which line 0 next rises. 0 where it never rises
/// unless something is written first.
pub fn read_rise(chipset: &Chipset, pulses: &mut u32)
    ensures rise { IsRise chipset.now pulses.new }
{
    *pulses = chipset.pulses_to_rise().unwrap_or(0);
}
