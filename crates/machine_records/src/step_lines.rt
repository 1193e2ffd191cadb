//! The interrupt lines over a step: their levels after it, and which of them rose in it.

ghost use Rattle.std.specs.Prelude.{◌≡◌, ◌≢◌, IfSome};
ghost use Rattle.board_prelude.specs.{Pulses};
ghost use Rattle.uart_16550.specs.declared.com1.Happening.TheVariants.{Happens};
ghost use Rattle.machine_records.specs.Events.{asked_said};
ghost use Rattle.machine_records.specs.Lines.{AreLinesOf};
ghost use Rattle.machine_records.specs.Replies.{with_lines};
ghost use Rattle.machine_records.specs.StepLines.{IsPulsed, risen};
ghost use Rattle.machine_records.specs.Statuses.{ok};

use crate::event::{EventRecord, asked_of};
use crate::lines::lines_of;
use crate::numbers::{LOOK_EVENT, MEMORY_EVENT, PORT_EVENT};
use crate::reply::ReplyRecord;
use crate::status::OK;
use board_chipset::Chipset;
use board_spec::Event;
use uart_16550::Happening;

/// Writes the levels of the lines after a step, and which of them rose in it, where the step was done. Before it they
/// were at `before`, and `is_pulsed` says whether OUT of counter 0 rose at one of its pulses.
#[inline(always)]
pub(crate) fn tell_lines(
    reply: &mut ReplyRecord,
    chipset: &Chipset,
    before: u16,
    is_pulsed: bool,
    status: u32,
)
    ensures lines { status ≡ ok → AreLinesOf chipset.now reply.new.lines }
    ensures told { status ≡ ok
        → reply.new ≡ with_lines reply.old reply.new.lines (risen before reply.new.lines is_pulsed) }
    ensures same { status ≢ ok → reply.new ≡ reply.old }
{
    if status == OK {
        reply.lines = lines_of(chipset);
        reply.rose = reply.lines & !before | u16::from(is_pulsed);
    }
}

/// Whether OUT of counter 0 rises at one of the pulses that a record asks for. What an instruction of a guest asks is no
/// pulse, so that its record is not read here.
#[tactic(auto, using(crate::proofs::StepPulses::quiet_records))]
#[inline(always)]
pub(crate) fn is_pulsed(chipset: &Chipset, event: &EventRecord) -> bool
    ensures pulsed { IfSome (asked_said event.now) (λ asked. IsPulsed chipset.now asked result) }
{
    match event.what {
        MEMORY_EVENT => false,
        PORT_EVENT => false,
        LOOK_EVENT => false,
        _ => is_asked_pulsed(chipset, event),
    }
}

/// The same of any record.
#[inline(never)]
fn is_asked_pulsed(chipset: &Chipset, event: &EventRecord) -> bool
    ensures pulsed { IfSome (asked_said event.now) (λ asked. IsPulsed chipset.now asked result) }
{
    match asked_of(event) {
        Some(Happening::Comes(_)) => false,
        Some(Happening::Happens(event)) => is_event_pulsed(chipset, &event),
        None => false,
    }
}

/// Whether OUT of counter 0 rises at one of an event's pulses.
fn is_event_pulsed(chipset: &Chipset, event: &Event) -> bool
    ensures pulsed { IsPulsed chipset.now (Happens event.now) result }
{
    match event {
        Event::Pulses(count) => rises_within(chipset, *count),
        _ => false,
    }
}

/// Whether OUT of counter 0 rises at one of the next so many pulses.
fn rises_within(chipset: &Chipset, count: u32) -> bool
    ensures pulsed { IsPulsed chipset.now (Happens (Pulses count)) result }
{
    match chipset.pulses_to_rise() {
        Some(first) => first <= count,
        None => false,
    }
}
