//! Reads the steps of an image: which processor did which event.

ghost use Rattle.std.specs.Prelude.{◌≡◌, ◌≤◌, ◌-◌, ◌^◌, ◌%◌, ◌==◌, true, false, find, is_some, IfOk};
ghost use Rattle.board_prelude.specs.{w8, w16, w32, w64, bytes_of, Setup, days_in_month, stimulus_form};
ghost use Rattle.board_prelude.specs.{stimulus_of_code, option_map};
ghost use Rattle.board_image.specs.declared.tag.Tag.TheVariants as tags;
ghost use Rattle.byte_fields.specs.Fields.{Took, number_where, within};
ghost use Rattle.board_image.specs.EventFields.{kind_of, kind_field, width_of, width_field, tag_of, tag_field};
ghost use Rattle.board_image.specs.EventFields.{is_wide_size, is_wide_place, most_value, memory_fields, port_fields};
ghost use Rattle.board_image.specs.EventFields.{wide_fields, look_fields, moment_fields, can_have, applied_fields};
ghost use Rattle.board_image.specs.EventFields.{event_fields, step_fields};

use crate::tag::Tag;
use board_base::{Access, Kind, Moment, PortAccess, WideAccess, Width};
use board_spec::{Event, Statement, Stimulus};
use byte_fields::{Bad, Fields};
use pci_bars::CardSpec;

/// The highest number of a processor.
const LAST_ACTOR: u8 = 7;
/// The years of a moment.
const FIRST_YEAR: u16 = 1980;

const LAST_YEAR: u16 = 2099;

/// The kind of access that a byte stands for.
fn kind_of(byte: u8) -> Option<Kind>
    ensures said { result ≡ kind_of byte }
{
    match byte {
        0 => Some(Kind::Fetch),
        1 => Some(Kind::Read),
        2 => Some(Kind::Write),
        _ => None,
    }
}

/// The width that a byte stands for.
fn width_of(byte: u8) -> Option<Width>
    ensures said { result ≡ width_of byte }
{
    match byte {
        1 => Some(Width::One),
        2 => Some(Width::Two),
        4 => Some(Width::Four),
        _ => None,
    }
}

/// The tag that a byte stands for.
fn tag_of(byte: u8) -> Option<Tag>
    ensures said { result ≡ tag_of byte }
{
    match byte {
        1 => Some(Tag::Memory),
        2 => Some(Tag::Port),
        3 => Some(Tag::Look),
        4 => Some(Tag::Ack),
        6 => Some(Tag::Time),
        10 => Some(Tag::Wide),
        _ => stimulus_of(byte),
    }
}

fn stimulus_of(byte: u8) -> Option<Tag>
    ensures said { result ≡ option_map (λ one. tags.Stimulus one) (stimulus_of_code byte) }
{
    match Stimulus::of_code(byte) {
        Some(one) => Some(Tag::Stimulus(one)),
        None => None,
    }
}

fn kind(fields: &mut Fields) -> Result<Kind, Bad>
    ensures took { Took (λ kind. kind) result fields.new (kind_field fields.old) }
{
    fields.byte_of(kind_of)
}

fn width(fields: &mut Fields) -> Result<Width, Bad>
    ensures took { Took (λ width. width) result fields.new (width_field fields.old) }
{
    fields.byte_of(width_of)
}

fn tag(fields: &mut Fields) -> Result<Tag, Bad>
    ensures took { Took (λ tag. tag) result fields.new (tag_field fields.old) }
{
    fields.byte_of(tag_of)
}

/// Reads an address that is a multiple of a width.
fn aligned_addr(fields: &mut Fields, width: Width) -> Result<u32, Bad>
    ensures took { Took (λ n. n) result fields.new
        (number_where w32 (λ addr. addr % bytes_of width == 0) fields.old) }
{
    let addr = u32::from_le_bytes(fields.front()?);
    fields.past(4, width.is_aligned(addr))?;
    Ok(addr)
}

/// Reads a port that is a multiple of a width.
fn aligned_port(fields: &mut Fields, width: Width) -> Result<u16, Bad>
    ensures took { Took (λ n. n) result fields.new
        (number_where w16 (λ port. port % bytes_of width == 0) fields.old) }
{
    let port = u16::from_le_bytes(fields.front()?);
    fields.past(2, width.is_aligned(port.into()))?;
    Ok(port)
}

/// Reads the value of an access.
fn value(fields: &mut Fields, writes: bool, width: Width) -> Result<u32, Bad>
    ensures took { Took (λ n. n) result fields.new (within w32 0 (most_value writes (bytes_of width)) fields.old) }
{
    let most = if writes { width.largest() } else { 0 };
    fields.word(0, most)
}

/// Reads an access to memory.
#[tactic(auto, unfolding(crate::specs::EventFields::memory_fields))]
fn memory(fields: &mut Fields) -> Result<Access, Bad>
    ensures took { Took (λ access. access) result fields.new (memory_fields fields.old) }
{
    let kind = kind(fields)?;
    let smm = fields.flag()?;
    let width = width(fields)?;
    let addr = aligned_addr(fields, width)?;
    let value = value(fields, kind.is_write(), width)?;
    Ok(Access {
        kind,
        addr,
        width,
        smm,
        value,
    })
}

/// Reads an access to a port.
#[tactic(auto, unfolding(crate::specs::EventFields::port_fields))]
fn port(fields: &mut Fields) -> Result<PortAccess, Bad>
    ensures took { Took (λ access. access) result fields.new (port_fields fields.old) }
{
    let write = fields.flag()?;
    let width = width(fields)?;
    let port = aligned_port(fields, width)?;
    let value = value(fields, write, width)?;
    Ok(PortAccess {
        write,
        port,
        width,
        value,
    })
}

/// Reads the size of a wide access.
fn wide_size(fields: &mut Fields) -> Result<u8, Bad>
    ensures took { Took (λ n. n) result fields.new (number_where w8 is_wide_size fields.old) }
    ensures size { IfOk result (λ bytes. is_wide_size bytes ≡ true) }
{
    let bytes = u8::from_le_bytes(fields.front()?);
    fields.past(1, matches!(bytes, 2 | 4 | 8))?;
    Ok(bytes)
}

/// Reads the address of a wide access.
fn wide_addr(fields: &mut Fields, bytes: u8) -> Result<u32, Bad>
    requires size { is_wide_size bytes ≡ true }
    ensures took { Took (λ n. n) result fields.new (number_where w32 (is_wide_place bytes) fields.old) }
{
    let addr = u32::from_le_bytes(fields.front()?);
    let last = addr.checked_add(u32::from(bytes) - 1);
    let is_wide = bytes == 8 || addr % u32::from(bytes) != 0;
    fields.past(4, is_wide && last.is_some())?;
    Ok(addr)
}

/// The largest value of a wide access.
fn largest(bytes: u8) -> u64
    requires size { is_wide_size bytes ≡ true }
    ensures largest { result ≡ 256 ^ bytes - 1 }
{
    match bytes {
        2 => u16::MAX.into(),
        4 => u32::MAX.into(),
        _ => u64::MAX,
    }
}

/// Reads the value of a wide access.
fn wide_value(fields: &mut Fields, writes: bool, bytes: u8) -> Result<u64, Bad>
    requires size { is_wide_size bytes ≡ true }
    ensures took { Took (λ n. n) result fields.new (within w64 0 (most_value writes bytes) fields.old) }
{
    let most = if writes { largest(bytes) } else { 0 };
    fields.long(most)
}

/// Reads a wide access.
#[tactic(auto, unfolding(crate::specs::EventFields::wide_fields))]
fn wide(fields: &mut Fields) -> Result<WideAccess, Bad>
    ensures took { Took (λ access. access) result fields.new (wide_fields fields.old) }
{
    let kind = kind(fields)?;
    let smm = fields.flag()?;
    let bytes = wide_size(fields)?;
    let addr = wide_addr(fields, bytes)?;
    let value = wide_value(fields, kind.is_write(), bytes)?;
    Ok(WideAccess {
        kind,
        bytes,
        smm,
        addr,
        value,
    })
}

/// Reads a look.
#[tactic(auto, unfolding(crate::specs::EventFields::look_fields))]
fn look(fields: &mut Fields) -> Result<Event, Bad>
    ensures took { Took (λ event. event) result fields.new (look_fields fields.old) }
{
    let kind = kind(fields)?;
    let smm = fields.flag()?;
    let addr = fields.word(0, u32::MAX)?;
    Ok(Event::Look { kind, addr, smm })
}

/// Reads a day that the month has.
fn day(fields: &mut Fields, year: u16, month: u8) -> Result<u8, Bad>
    requires year_low { 1980 ≤ year }
    requires year_high { year ≤ 2099 }
    requires month_low { 1 ≤ month }
    requires month_high { month ≤ 12 }
    ensures took { Took (λ n. n) result fields.new (within w8 1 (days_in_month year month) fields.old) }
{
    let day = u8::from_le_bytes(fields.front()?);
    fields.past(1, Moment::new(year, month, day, 0, 0, 0).is_some())?;
    Ok(day)
}

/// Reads a moment.
#[tactic(auto, unfolding(crate::specs::EventFields::moment_fields))]
fn moment(fields: &mut Fields) -> Result<Moment, Bad>
    ensures took { Took (λ moment. moment) result fields.new (moment_fields fields.old) }
{
    let year = fields.half(FIRST_YEAR, LAST_YEAR)?;
    let month = fields.byte(1, 12)?;
    let day = day(fields, year, month)?;
    let hour = fields.byte(0, 23)?;
    let minute = fields.byte(0, 59)?;
    let second = fields.byte(0, 59)?;
    Ok(Moment::new(year, month, day, hour, minute, second).unwrap())
}

/// Whether there is a card at a device number.
fn has_card(cards: &[CardSpec], dev: u32) -> bool
    ensures card { result ≡ is_some (find (λ card. card.dev == dev) cards.now) }
{
    cards.iter().any(|card| u32::from(card.dev) == dev)
}

/// Whether a stimulus can have this number on a board with these cards.
fn can_have(cards: &[CardSpec], one: Stimulus, number: u32) -> bool
    ensures number { (setup : Setup) → setup.cards ≡ cards.now → result ≡ can_have setup one number }
{
    match one {
        Stimulus::Wire => has_card(cards, number),
        _ => one.has_number(number),
    }
}

/// Reads the number of a stimulus, in one byte.
fn byte_number(fields: &mut Fields, cards: &[CardSpec], one: Stimulus) -> Result<u8, Bad>
    ensures took { (setup : Setup) → setup.cards ≡ cards.now
        → Took (λ n. n) result fields.new (number_where w8 (can_have setup one) fields.old) }
{
    let number = u8::from_le_bytes(fields.front()?);
    fields.past(1, can_have(cards, one, number.into()))?;
    Ok(number)
}

/// Reads the number of a stimulus, in four bytes.
fn word_number(fields: &mut Fields, cards: &[CardSpec], one: Stimulus) -> Result<u32, Bad>
    ensures took { (setup : Setup) → setup.cards ≡ cards.now
        → Took (λ n. n) result fields.new (number_where w32 (can_have setup one) fields.old) }
{
    let number = u32::from_le_bytes(fields.front()?);
    fields.past(4, can_have(cards, one, number))?;
    Ok(number)
}

/// Reads a stimulus that has a level.
#[tactic(auto, unfolding(crate::specs::EventFields::applied_fields))]
fn level_applied(fields: &mut Fields, cards: &[CardSpec], one: Stimulus) -> Result<Event, Bad>
    ensures took { (setup : Setup) → setup.cards ≡ cards.now
        → Took (λ event. event) result fields.new (applied_fields setup one true fields.old) }
{
    let number = byte_number(fields, cards, one)?;
    let on = fields.flag()?;
    Ok(one.event(number.into(), on))
}

/// Reads a stimulus that has none.
#[tactic(auto, unfolding(crate::specs::EventFields::applied_fields))]
fn number_applied(fields: &mut Fields, cards: &[CardSpec], one: Stimulus) -> Result<Event, Bad>
    requires plain { (stimulus_form one).has_level ≡ false }
    ensures took { (setup : Setup) → setup.cards ≡ cards.now
        → Took (λ event. event) result fields.new (applied_fields setup one false fields.old) }
{
    let number = word_number(fields, cards, one)?;
    Ok(one.event(number, false))
}

/// Reads what a stimulus gives.
fn applied(fields: &mut Fields, cards: &[CardSpec], one: Stimulus) -> Result<Event, Bad>
    ensures took { (setup : Setup) → setup.cards ≡ cards.now
        → Took (λ event. event) result fields.new
        (applied_fields setup one (stimulus_form one).has_level fields.old) }
{
    if one.has_level() {
        level_applied(fields, cards, one)
    } else {
        number_applied(fields, cards, one)
    }
}

/// Reads the fields after a tag, of a board with these cards.
#[tactic(auto, unfolding(crate::specs::EventFields::event_fields))]
fn event(fields: &mut Fields, cards: &[CardSpec], tag: Tag) -> Result<Event, Bad>
    ensures took { (setup : Setup) → setup.cards ≡ cards.now
        → Took (λ event. event) result fields.new (event_fields setup tag fields.old) }
{
    match tag {
        Tag::Memory => Ok(Event::Memory(memory(fields)?)),
        Tag::Port => Ok(Event::Port(port(fields)?)),
        Tag::Look => look(fields),
        Tag::Ack => Ok(Event::Ack),
        Tag::Time => Ok(Event::Time(moment(fields)?)),
        Tag::Wide => Ok(Event::Wide(wide(fields)?)),
        Tag::Stimulus(one) => applied(fields, cards, one),
    }
}

/// Reads a step of a board with these cards.
#[tactic(auto, unfolding(crate::specs::EventFields::step_fields))]
pub(crate) fn step(fields: &mut Fields, cards: &[CardSpec]) -> Result<Statement, Bad>
    ensures took { (setup : Setup) → setup.cards ≡ cards.now
        → Took (λ step. step) result fields.new (step_fields setup fields.old) }
{
    let actor = fields.byte(0, LAST_ACTOR)?;
    let tag = tag(fields)?;
    let event = event(fields, cards, tag)?;
    Ok(Statement { actor, event })
}
