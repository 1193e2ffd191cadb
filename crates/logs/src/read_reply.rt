//! The reply that a line says, by its event.

ghost use Rattle.std.specs.Prelude.{◌≡◌, ◌≤◌, ◌<◌, ◌^◌, ◌∷◌, ℕ, false, length, IfSome};
ghost use Rattle.board_prelude.specs.{Reply, is_write, parts_of, outside_answer, space, value_bytes, reply_text};
ghost use Rattle.board_prelude.specs.{answers_outside};
ghost use Rattle.script_spec.specs.Grammar.{IsDecimal, IsEventForm};
ghost use Rattle.script_spec.specs.WellFormed.{IsReplyValue, IsBusReply, IsWideReply, IsLookReply, HasShape};
ghost use Rattle.script_spec.specs.Numbers.{parse_decimal};
ghost use Rattle.script_spec.specs.Replies.{parse_no_value, parse_value, parse_bus_reply, parts_with, parse_wide_reply};
ghost use Rattle.script_spec.specs.Replies.{parse_reply, parse_spaced_reply, IsNarrow, bus_reply, look_reply};
ghost use Rattle.script_spec.specs.Replies.{parse_look_reply};

use crate::read_target::{parse_area, parse_denial, parse_target};
use crate::read_wide::{parse_parts, part_count, parts_length};
use board_base::{Dev, Target, WideAccess};
use board_spec::{Event, Look, Parts, Reply};
use scripts::{Fields, parse_decimal, parse_hex};

/// The most parts of a wide access.
const MOST_PARTS: u32 = 4;

// ---- values

/// No value, which is `-`.
fn parse_no_value(field: &[u8]) -> Option<Option<u64>>
    ensures value { result ≡ parse_no_value field.now }
    ensures none { IfSome result (λ value. value ≡ None) }
{
    match field {
        b"-" => Some(None),
        _ => None,
    }
}

/// A value has two digits for each byte of the access.
fn parse_read_value(bytes: u32, field: &[u8]) -> Option<Option<u64>>
    requires few { bytes ≤ 8 }
    ensures value { result ≡ parse_value false bytes field.now }
    ensures fits { IfSome result (IsReplyValue false bytes) }
{
    let value = parse_hex(2 * bytes as usize, field)?;
    Some(Some(value))
}

/// The value of a reply, of `bytes` bytes, which only an access that reads has.
fn parse_value(writes: bool, bytes: u32, field: &[u8]) -> Option<Option<u64>>
    requires few { bytes ≤ 8 }
    ensures value { result ≡ parse_value writes bytes field.now }
    ensures fits { IfSome result (IsReplyValue writes bytes) }
{
    if writes {
        parse_no_value(field)
    } else {
        parse_read_value(bytes, field)
    }
}

/// The same value, which fits 32 bits.
fn narrowed(value: Option<u64>) -> Option<u32>
    requires small { IfSome value (λ v. v < 2 ^ 32) }
    ensures same { result ≡ value }
{
    match value {
        Some(value) => Some(value as u32),
        None => None,
    }
}

// ---- the shapes

/// What answered an access with a value, or none, and what denied it, by their words.
#[tactic(auto, using(script_spec::proofs::ReplyBack::narrow_value), unfolding(script_spec::specs::Replies::bus_reply))]
fn bus_reply(writes: bool, bytes: u32, value: &[u8], target: &[u8], denial: &[u8]) -> Option<Reply>
    requires few { bytes ≤ 4 }
    ensures reply { result ≡ bus_reply writes bytes value.now target.now denial.now }
    ensures shape { IfSome result (IsBusReply writes bytes) }
{
    let value = parse_value(writes, bytes, value)?;
    let target = parse_target(target)?;
    let denial = parse_denial(denial)?;
    Some(Reply::Bus {
        value: narrowed(value),
        target,
        denial,
    })
}

/// `VALUE TARGET DENIAL`.
#[tactic(auto, unfolding(script_spec::specs::Replies::parse_bus_reply))]
fn parse_bus_reply(writes: bool, bytes: u32, words: Fields<'_>) -> Option<Reply>
    requires few { bytes ≤ 4 }
    ensures reply { result ≡ parse_bus_reply writes bytes words.entry }
    ensures shape { IfSome result (IsBusReply writes bytes) }
{
    let (value, words) = words.next()?;
    let (target, words) = words.next()?;
    let denial = words.only()?;
    bus_reply(writes, bytes, value, target, denial)
}

/// The reply with these parts, where the access has as many.
fn parts_with(access: &WideAccess, value: Option<u64>, parts: Parts) -> Option<Reply>
    requires bytes { access.now.bytes ≤ 8 }
    ensures reply { result ≡ parts_with access.now value parts }
{
    let count = part_count(MOST_PARTS, u64::from(access.addr), u64::from(access.bytes));
    if parts_length(&parts) == count {
        Some(Reply::Parts { value, parts })
    } else {
        None
    }
}

/// `VALUE`, and `TARGET DENIAL` for each part.
#[tactic(auto, unfolding(script_spec::specs::Replies::parse_wide_reply))]
fn parse_wide_reply(access: &WideAccess, words: Fields<'_>) -> Option<Reply>
    requires bytes { access.now.bytes ≤ 8 }
    ensures reply { result ≡ parse_wide_reply access.now words.entry }
    ensures shape { IfSome result
        (IsWideReply (is_write access.now.kind) access.now.bytes (length (parts_of access.now))) }
{
    let (value, words) = words.next()?;
    let value = parse_value(access.kind.is_write(), u32::from(access.bytes), value)?;
    let parts = parse_parts(words)?;
    parts_with(access, value, parts)
}

/// A number of map writes, a decimal.
#[tactic(auto, using(script_spec::proofs::ReplyBack::decimal_below))]
fn parse_map_version(field: &[u8]) -> Option<u32>
    ensures version { result ≡ parse_decimal field.now }
    ensures below { IfSome result IsDecimal }
{
    parse_decimal(field)
}

/// What a look saw, by its words.
#[tactic(auto, unfolding(script_spec::specs::Replies::look_reply))]
fn look_reply(version: &[u8], lo: &[u8], hi: &[u8], area: &[u8]) -> Option<Reply>
    ensures reply { result ≡ look_reply version.now lo.now hi.now area.now }
    ensures shape { IfSome result IsLookReply }
{
    let version = parse_map_version(version)?;
    let lo = parse_hex(8, lo)?;
    let hi = parse_hex(8, hi)?;
    let area = parse_area(area)?;
    Some(Reply::Saw(Look {
        version,
        lo: lo as u32,
        hi: hi as u32,
        area,
    }))
}

/// `VERSION LO HI AREA`.
#[tactic(auto, unfolding(script_spec::specs::Replies::parse_look_reply))]
fn parse_look_reply(words: Fields<'_>) -> Option<Reply>
    ensures reply { result ≡ parse_look_reply words.entry }
    ensures shape { IfSome result IsLookReply }
{
    let (version, words) = words.next()?;
    let (lo, words) = words.next()?;
    let (hi, words) = words.next()?;
    let area = words.only()?;
    look_reply(version, lo, hi, area)
}

/// The reply to an event from outside the bus, whatever its line says.
fn outside(dev: Dev) -> Reply
    ensures reply { result ≡ outside_answer dev }
{
    Reply::Bus {
        value: None,
        target: Target::Device(dev),
        denial: None,
    }
}

/// What answers an event from outside the bus: the clock, if it is no stimulus.
fn answers_outside(event: &Event) -> Dev
    ensures answers { result ≡ answers_outside event.now }
{
    match event.applied() {
        Some(said) => said.stimulus.answers(),
        None => Dev::Clock,
    }
}

/// The reply to an event, by its words.
#[tactic(auto, unfolding(script_spec::specs::Replies::parse_reply))]
fn parse_reply(event: &Event, words: Fields<'_>) -> Option<Reply>
    requires bytes { IsNarrow event.now }
    ensures reply { result ≡ parse_reply event.now words.entry }
    ensures shape { IfSome result (HasShape event.now) }
{
    match event {
        Event::Memory(access) => parse_bus_reply(
            access.kind.is_write(),
            access.width.bytes(),
            words,
        ),
        Event::Wide(access) => parse_wide_reply(access, words),
        Event::Port(access) => parse_bus_reply(access.write, access.width.bytes(), words),
        Event::Look { .. } => parse_look_reply(words),
        Event::Ack => parse_bus_reply(false, 1, words),
        _ => Some(outside(answers_outside(event))),
    }
}

/// The reply by the fields of the text after `=`, of which the first is empty.
#[tactic(auto, unfolding(script_spec::specs::Replies::parse_spaced_reply))]
fn parse_spaced_reply(event: &Event, fields: Fields<'_>) -> Option<Reply>
    requires bytes { IsNarrow event.now }
    ensures reply { result ≡ parse_spaced_reply event.now fields.entry }
    ensures shape { IfSome result (HasShape event.now) }
{
    let (_, words) = fields.next()?;
    parse_reply(event, words)
}

/// The reply to an event, by the text after `=`. Any reply that the event can have is read from its text.
pub(crate) fn parse_reply_text(event: &Event, text: &[u8]) -> Option<Reply>
    requires bytes { IsNarrow event.now }
    ensures shape { IfSome result (HasShape event.now) }
    ensures found { (version : ℕ) (reply : Reply) → IsEventForm version event.now → HasShape event.now reply
        → text.now ≡ space ∷ reply_text (value_bytes event.now) reply → result ≡ Some reply }
{
    let fields = Fields::of(text);
    parse_spaced_reply(event, fields)
}
