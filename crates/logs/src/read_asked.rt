//! The event of a line: that of a statement of a script, in range.

ghost use Rattle.std.specs.Prelude.{◌≡◌, ◌+◌, ◌↔◌, ℕ, IsTrue, MatchOption, nat_le};
ghost use Rattle.board_prelude.specs.{Event};
ghost use Rattle.scripts.specs.declared.item.Asked.{Asked};
ghost use Rattle.logs.specs.Asked.{IsPlacedEvent, IsEventOf, IsAsked};

use board_base::{Moment, WideAccess};
use board_spec::{Event, Stimulus};
use scripts::{Asked, Item, MomentFields, parse_item};

/// The first address past the last.
const END: u64 = 1 << 32;

/// The event of a stimulus, where its level is 0 or 1, and its number a byte if it has a level.
fn stimulus_event(stimulus: Stimulus, number: u32, level: u32) -> Option<Event>
    ensures event { MatchOption result
        ((event : Event) → ¬ IsEventOf (Asked.Stimulus stimulus number level) event)
        (IsEventOf (Asked.Stimulus stimulus number level)) }
{
    if level > 1 {
        return None;
    }
    if stimulus.has_level() && number > 0xFF {
        return None;
    }
    Some(stimulus.event(number, level == 1))
}

/// A moment of the calendar.
fn time_event(moment: MomentFields) -> Option<Event>
    ensures event { MatchOption result ((event : Event) → ¬ IsEventOf (Asked.Moment moment) event)
        (IsEventOf (Asked.Moment moment)) }
{
    let moment = Moment::new(
        moment.year,
        moment.month,
        moment.day,
        moment.hour,
        moment.minute,
        moment.second,
    )?;
    Some(Event::Time(moment))
}

/// Whether an access does not pass the last address.
fn is_within(access: &WideAccess) -> bool
    ensures within { result ≡ nat_le (access.now.addr + access.now.bytes) 0x1_0000_0000 }
{
    u64::from(access.addr) + u64::from(access.bytes) <= END
}

/// Whether an access is aligned, or ends within the addresses, and a moment is one of the calendar.
fn is_placed(event: Event) -> bool
    ensures placed { IsTrue result ↔ IsPlacedEvent event }
{
    match event {
        Event::Memory(access) => access.width.is_aligned(access.addr),
        Event::Wide(access) => is_within(&access),
        Event::Port(access) => access.width.is_aligned(u32::from(access.port)),
        Event::Time(moment) => moment.is_real(),
        _ => true,
    }
}

/// The event, where it is aligned, within the addresses or in the calendar, as `is_placed` says.
fn if_placed(event: Event) -> Option<Event>
    ensures event { MatchOption result ((other : Event) → ¬ IsEventOf (Asked.Event event) other)
        (IsEventOf (Asked.Event event)) }
{
    if is_placed(event) { Some(event) } else { None }
}

/// The event of a statement, where its numbers are in range.
fn event_asked(asked: Asked) -> Option<Event>
    ensures event { MatchOption result ((event : Event) → ¬ IsEventOf asked event) (IsEventOf asked) }
{
    match asked {
        Asked::Event(event) => if_placed(event),
        Asked::Moment(moment) => time_event(moment),
        Asked::Stimulus {
            stimulus,
            number,
            level,
        } => stimulus_event(stimulus, number, level),
    }
}

/// The number with its event, where that is in range.
fn numbered(seq: u32, asked: Asked) -> Option<(u32, Event)>
    ensures asked { MatchOption result ((event : Event) → ¬ IsEventOf asked event)
        (λ p. (p.0 ≡ seq) × IsEventOf asked p.1) }
{
    let event = event_asked(asked)?;
    Some((seq, event))
}

/// The number of a processor's entry and the event of `S STATEMENT`, which a script reads as processor and statement.
pub(crate) fn parse_numbered_event(version: u8, text: &[u8]) -> Option<(u32, Event)>
    ensures asked { MatchOption result ((seq : ℕ) (event : Event) → ¬ IsAsked version text.now seq event)
        (λ p. IsAsked version text.now p.0 p.1) }
{
    match parse_item(version, text)? {
        Item::Statement { actor, asked } => numbered(actor, asked),
        _ => None,
    }
}
