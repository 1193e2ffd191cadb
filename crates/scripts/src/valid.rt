//! Items with their numbers in range.

ghost use Rattle.std.specs.Prelude.{◌≡◌, ◌≤◌, ℕ, true, length, map, option_map, IfSome};
ghost use Rattle.board_prelude.specs.{list_all, option_map_or, IsCard, is_within, is_base_in_range, is_rom_in_range};
ghost use Rattle.board_prelude.specs.{is_moment, stimulus_form};
ghost use Rattle.pci_bars.specs.Bases.{base_of};
ghost use Rattle.script_spec.specs.Reasons.{is_card_in_range, is_event_in_range, is_event_placed, is_in_range};
ghost use Rattle.script_spec.specs.Reasons.{pulses_of_event};
ghost use Rattle.script_spec.specs.Items.{ask};
ghost use Rattle.scripts.specs.Items.{base_said, card_said, asked_said};
ghost use Rattle.scripts.specs.Valid.{in_case};

use crate::card::{BaseField, CardFields};
use crate::item::Asked;
use crate::moment::MomentFields;
use arrayvec::ArrayVec;
use board_base::Moment;
use board_spec::stimulus::{FIRST_CARD, LAST_CARD};
use board_spec::{Applied, Event, Statement, Stimulus};
use pci_bars::{BASE_COUNT, BaseSpec, CardSpec};

/// The powers of two of memory bases: 16 bytes to 16 MiB.
const LEAST_MEMORY_BITS: u32 = 4;

const MOST_MEMORY_BITS: u32 = 24;

/// The powers of two of I/O bases: 4 to 256 ports.
const LEAST_PORTS: u32 = 2;

const MOST_PORTS: u32 = 8;

/// The powers of two of expansion ROMs: 2 KiB to 16 MiB.
const LEAST_ROM: u32 = 11;

const MOST_ROM: u32 = 24;

/// One more than the last address.
const END: u64 = 0x1_0000_0000;

/// What a line says, with its numbers in range.
#[derive(Drop)]
pub(crate) enum ValidItem<'a> {
    Cpus(u8),
    Memory(u8),
    Rom(&'a [u8]),
    Disk(&'a [u8]),
    Card(CardSpec),
    Phase,
    Asked(Statement),
}

/// Whether a number lies in an interval, both ends included.
pub(crate) fn is_within(first: u32, last: u32, number: u32) -> bool
    ensures within { result ≡ is_within first last number }
{
    first <= number && number <= last
}

// ---- cards

/// A base of 16 bytes to 16 MiB, or of 4 to 256 ports.
fn valid_base(field: BaseField) -> Option<BaseSpec>
    ensures base { option_map base_of result ≡ in_case (is_base_in_range (base_said field)) (base_said field) }
{
    match field {
        BaseField::Memory(bits) => memory_base(bits),
        BaseField::Io(bits) => io_base(bits),
    }
}

fn memory_base(bits: u32) -> Option<BaseSpec>
    ensures base { option_map base_of result ≡ in_case (is_base_in_range (base_said (BaseField.Memory bits)))
        (base_said (BaseField.Memory bits)) }
{
    if is_within(LEAST_MEMORY_BITS, MOST_MEMORY_BITS, bits) {
        Some(BaseSpec::Memory(bits as u8))
    } else {
        None
    }
}

fn io_base(bits: u32) -> Option<BaseSpec>
    ensures base { option_map base_of result ≡ in_case (is_base_in_range (base_said (BaseField.Io bits)))
        (base_said (BaseField.Io bits)) }
{
    if is_within(LEAST_PORTS, MOST_PORTS, bits) {
        Some(BaseSpec::Io(bits as u8))
    } else {
        None
    }
}

/// All bases of a card, where each is in range.
fn valid_bases(fields: &[BaseField]) -> Option<ArrayVec<BaseSpec, BASE_COUNT>>
    requires few { length fields.now ≤ 6 }
    ensures bases { option_map (λ bases. map base_of bases.items) result
        ≡ in_case (list_all is_base_in_range (map base_said fields.now)) (map base_said fields.now) }
{
    let mut bases = ArrayVec::new();
    for field in fields {
        bases.push(valid_base(*field)?);
    }
    Some(bases)
}

/// The expansion ROM of 2 KiB to 16 MiB, or none. None where it is out of range.
fn valid_rom(rom: Option<u32>) -> Option<Option<u8>>
    ensures rom { result ≡ in_case (is_rom_in_range rom) rom }
{
    match rom {
        None => Some(None),
        Some(bits) => rom_bits(bits),
    }
}

fn rom_bits(bits: u32) -> Option<Option<u8>>
    ensures rom { result ≡ in_case (is_within 11 24 bits) (Some bits) }
{
    if is_within(LEAST_ROM, MOST_ROM, bits) {
        Some(Some(bits as u8))
    } else {
        None
    }
}

/// A card whose device, bases and expansion ROM are in range.
pub(crate) fn valid_card(fields: &CardFields) -> Option<CardSpec>
    requires few { length fields.now.bases.items ≤ 6 }
    ensures card { result ≡ in_case (is_card_in_range (card_said fields.now)) (card_said fields.now) }
    ensures fits { IfSome result IsCard }
{
    if !is_within(FIRST_CARD, LAST_CARD, fields.dev) {
        return None;
    }
    let bases = valid_bases(&fields.bases)?;
    let rom = valid_rom(fields.rom)?;
    Some(CardSpec {
        dev: fields.dev as u8,
        vga: fields.vga,
        bases,
        rom,
    })
}

// ---- events

/// Whether the calendar and the clock have this moment.
fn is_moment(moment: &Moment) -> bool
    ensures moment { result
        ≡ is_moment moment.now.year moment.now.month moment.now.day moment.now.hour moment.now.minute
        moment.now.second }
{
    let Moment {
        year,
        month,
        day,
        hour,
        minute,
        second,
        ..
    } = *moment;
    Moment::new(year, month, day, hour, minute, second).is_some()
}

/// Whether a stimulus has a number that it can have.
fn has_its_number(said: Option<Applied>) -> bool
    ensures in_range { result
        ≡ option_map_or (λ said. (stimulus_form said.stimulus).numbers said.number) said true }
{
    match said {
        Some(said) => said.stimulus.has_number(said.number),
        None => true,
    }
}

/// Whether the numbers of an event are in range.
#[inline(always)]
fn is_event_in_range(event: &Event) -> bool
    ensures in_range { result ≡ is_event_in_range event.now }
{
    match event {
        Event::Memory(_) | Event::Wide(_) | Event::Port(_) | Event::Look { .. } | Event::Ack =>
            true,
        Event::Time(moment) => is_moment(moment),
        _ => has_its_number(event.applied()),
    }
}

#[inline(always)]
fn event_in_range(event: Event) -> Option<Event>
    ensures event { result ≡ in_case (is_event_in_range event) event }
{
    if is_event_in_range(&event) {
        Some(event)
    } else {
        None
    }
}

fn valid_time(fields: MomentFields) -> Option<Event>
    ensures event { (actor : ℕ) → option_map (ask actor) result
        ≡ in_case (is_in_range (asked_said actor (Asked.Moment fields))) (asked_said actor (Asked.Moment fields)) }
{
    let moment = Moment::new(
        fields.year,
        fields.month,
        fields.day,
        fields.hour,
        fields.minute,
        fields.second,
    )?;
    Some(Event::Time(moment))
}

fn valid_stimulus(stimulus: Stimulus, number: u32, level: u32) -> Option<Event>
    ensures event { (actor : ℕ) → option_map (ask actor) result
        ≡ in_case (is_in_range (asked_said actor (Asked.Stimulus stimulus number level)))
        (asked_said actor (Asked.Stimulus stimulus number level)) }
{
    if !stimulus.has_number(number) || level > 1 {
        return None;
    }
    Some(stimulus.event(number, level == 1))
}

/// The event of a statement, where its numbers are in range.
#[inline(always)]
pub(crate) fn valid_event(asked: Asked) -> Option<Event>
    ensures event { (actor : ℕ) → option_map (ask actor) result
        ≡ in_case (is_in_range (asked_said actor asked)) (asked_said actor asked) }
{
    match asked {
        Asked::Event(event) => event_in_range(event),
        Asked::Moment(fields) => valid_time(fields),
        Asked::Stimulus {
            stimulus,
            number,
            level,
        } => valid_stimulus(stimulus, number, level),
    }
}

/// Whether the address or the port of an event is a multiple of the width, and a wide access ends at FFFFFFFFh or
/// below.
pub(crate) fn is_placed(event: &Event) -> bool
    ensures placed { result ≡ is_event_placed event.now }
{
    match event {
        Event::Memory(access) => access.addr % access.width.bytes() == 0,
        Event::Wide(access) => u64::from(access.addr) + u64::from(access.bytes) <= END,
        Event::Port(access) => u32::from(access.port) % access.width.bytes() == 0,
        _ => true,
    }
}

/// How many pulses an event has.
pub(crate) fn pulses_of(event: &Event) -> u32
    ensures pulses { result ≡ pulses_of_event event.now }
{
    match event {
        Event::Pulses(count) => *count,
        _ => 0,
    }
}
