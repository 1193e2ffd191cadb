//! The event of a statement, read from the fields of its line after the processor's number.

ghost use Rattle.std.specs.Prelude.{◌≡◌, ◌*◌, ◌<◌, ◌^◌, option_map, IfSome};
ghost use Rattle.board_base.specs.Access.{bytes_of};
ghost use Rattle.script_spec.specs.Numbers.{parse_hex};
ghost use Rattle.script_spec.specs.Events.{IsSize, parse_width, quad_size, parse_size, width_with, is_wide};
ghost use Rattle.script_spec.specs.Events.{memory_event, parse_kind, parse_smm, parse_read, parse_write, parse_in};
ghost use Rattle.script_spec.specs.Events.{parse_out, parse_look, parse_ack, parse_number, parse_two_numbers};
ghost use Rattle.script_spec.specs.Events.{parse_given, read_event, write_event, in_event, out_event, look_event};

use crate::fields::Fields;
use crate::item::is_word;
use crate::numbers::{parse_decimal, parse_hex};
use board_base::{Access, Kind, PortAccess, WideAccess, Width};
use board_spec::{Event, Stimulus};

/// The width of an access to a port.
fn parse_width(field: &[u8]) -> Option<Width>
    ensures width { result ≡ parse_width field.now }
{
    match field {
        b"b" => Some(Width::One),
        b"w" => Some(Width::Two),
        b"d" => Some(Width::Four),
        _ => None,
    }
}

/// Eight bytes, which version 2 has.
fn quad_size(version: u8) -> Option<u8>
    ensures size { result ≡ quad_size version }
{
    if version == 2 { Some(8) } else { None }
}

/// The number of bytes of an access to memory.
#[inline(always)]
fn parse_size(version: u8, field: &[u8]) -> Option<u8>
    ensures size { result ≡ parse_size version field.now }
    ensures known { IfSome result (IsSize version) }
{
    match field {
        b"b" => Some(1),
        b"w" => Some(2),
        b"d" => Some(4),
        b"q" => quad_size(version),
        _ => None,
    }
}

fn parse_kind(field: &[u8]) -> Option<Kind>
    ensures kind { result ≡ parse_kind field.now }
{
    match field {
        b"f" => Some(Kind::Fetch),
        b"r" => Some(Kind::Read),
        b"w" => Some(Kind::Write),
        _ => None,
    }
}

/// Whether the access is made in system management mode, by the fields after the others.
#[tactic(auto, unfolding(script_spec::specs::Events::parse_smm))]
fn parse_smm(flags: Fields<'_>) -> Option<bool>
    ensures smm { result ≡ parse_smm flags.entry }
{
    let Some((flag, later)) = flags.next() else {
        return Some(false);
    };
    later.end()?;
    if is_word(flag, "smm") {
        Some(true)
    } else {
        None
    }
}

/// The width of `bytes` bytes, 1, 2 or 4.
fn width_with(bytes: u8) -> Width
    ensures width { result ≡ width_with bytes }
{
    match bytes {
        1 => Width::One,
        2 => Width::Two,
        _ => Width::Four,
    }
}

/// Whether an access is a wide one: version 2 has those, of 8 bytes or not aligned.
fn is_wide(version: u8, bytes: u8, addr: u32) -> bool
    requires size { IsSize version bytes }
    ensures wide { result ≡ is_wide version bytes addr }
{
    if version != 2 {
        return false;
    }
    match bytes {
        1 => false,
        2 => addr % 2 != 0,
        4 => addr % 4 != 0,
        _ => true,
    }
}

/// An access to memory of `bytes` bytes.
#[inline(always)]
#[tactic(auto, unfolding(script_spec::specs::Events::memory_event))]
fn memory_event(version: u8, kind: Kind, bytes: u8, addr: u32, value: u64, smm: bool) -> Event
    requires size { IsSize version bytes }
    requires value { value < 16 ^ (2 * bytes) }
    ensures event { result ≡ memory_event version kind bytes addr value smm }
{
    if is_wide(version, bytes, addr) {
        return Event::Wide(WideAccess {
            kind,
            addr,
            bytes,
            smm,
            value,
        });
    }
    Event::Memory(Access {
        kind,
        addr,
        width: width_with(bytes),
        smm,
        value: value as u32,
    })
}

/// An address has eight digits.
fn parse_address(field: &[u8]) -> Option<u32>
    ensures address { result ≡ parse_hex 8 field.now }
{
    let addr = parse_hex(8, field)?;
    Some(addr as u32)
}

/// A port has four digits.
fn parse_port(field: &[u8]) -> Option<u16>
    ensures port { result ≡ parse_hex 4 field.now }
{
    let port = parse_hex(4, field)?;
    Some(port as u16)
}

/// A read or a fetch, by its size and its address.
#[inline(always)]
#[tactic(auto, unfolding(script_spec::specs::Events::read_event))]
pub(crate) fn read_event(
    version: u8,
    kind: Kind,
    size: &[u8],
    addr: &[u8],
    smm: bool,
) -> Option<Event>
    ensures event { result ≡ read_event version kind size.now addr.now smm }
{
    let bytes = parse_size(version, size)?;
    let addr = parse_address(addr)?;
    Some(memory_event(version, kind, bytes, addr, 0, smm))
}

/// `W ADDR` and the flag, after the word for a read or a fetch.
#[tactic(auto, unfolding(script_spec::specs::Events::parse_read))]
pub(crate) fn parse_read(version: u8, kind: Kind, words: Fields<'_>) -> Option<Event>
    ensures event { result ≡ parse_read version kind words.entry }
{
    let (size, words) = words.next()?;
    let (addr, words) = words.next()?;
    let smm = parse_smm(words)?;
    read_event(version, kind, size, addr, smm)
}

/// A write, by its size, its address and its value.
#[inline(always)]
#[tactic(auto, unfolding(script_spec::specs::Events::write_event))]
pub(crate) fn write_event(
    version: u8,
    size: &[u8],
    addr: &[u8],
    value: &[u8],
    smm: bool,
) -> Option<Event>
    ensures event { result ≡ write_event version size.now addr.now value.now smm }
{
    let bytes = parse_size(version, size)?;
    let addr = parse_address(addr)?;
    let value = parse_hex(2 * bytes as usize, value)?;
    Some(memory_event(version, Kind::Write, bytes, addr, value, smm))
}

/// `W ADDR VALUE` and the flag, after the word for a write.
#[tactic(auto, unfolding(script_spec::specs::Events::parse_write))]
pub(crate) fn parse_write(version: u8, words: Fields<'_>) -> Option<Event>
    ensures event { result ≡ parse_write version words.entry }
{
    let (size, words) = words.next()?;
    let (addr, words) = words.next()?;
    let (value, words) = words.next()?;
    let smm = parse_smm(words)?;
    write_event(version, size, addr, value, smm)
}

/// A read from a port, by its width and its number.
#[inline(always)]
#[tactic(auto, unfolding(script_spec::specs::Events::in_event))]
pub(crate) fn in_event(width: &[u8], port: &[u8]) -> Option<Event>
    ensures event { result ≡ in_event width.now port.now }
{
    let width = parse_width(width)?;
    let port = parse_port(port)?;
    Some(Event::Port(PortAccess {
        write: false,
        port,
        width,
        value: 0,
    }))
}

/// `W PORT`, after `in`.
#[tactic(auto, unfolding(script_spec::specs::Events::parse_in))]
pub(crate) fn parse_in(words: Fields<'_>) -> Option<Event>
    ensures event { result ≡ parse_in words.entry }
{
    let (width, words) = words.next()?;
    let port = words.only()?;
    in_event(width, port)
}

/// The value of an access to a port has two digits for each byte of its width.
fn parse_value(width: Width, field: &[u8]) -> Option<u32>
    ensures value { result ≡ parse_hex (2 * bytes_of width) field.now }
{
    let value = parse_hex(2 * width.bytes() as usize, field)?;
    Some(value as u32)
}

/// A write to a port, by its width, its number and its value.
#[inline(always)]
#[tactic(auto, unfolding(script_spec::specs::Events::out_event))]
pub(crate) fn out_event(width: &[u8], port: &[u8], value: &[u8]) -> Option<Event>
    ensures event { result ≡ out_event width.now port.now value.now }
{
    let width = parse_width(width)?;
    let port = parse_port(port)?;
    let value = parse_value(width, value)?;
    Some(Event::Port(PortAccess {
        write: true,
        port,
        width,
        value,
    }))
}

/// `W PORT VALUE`, after `out`.
#[tactic(auto, unfolding(script_spec::specs::Events::parse_out))]
pub(crate) fn parse_out(words: Fields<'_>) -> Option<Event>
    ensures event { result ≡ parse_out words.entry }
{
    let (width, words) = words.next()?;
    let (port, words) = words.next()?;
    let value = words.only()?;
    out_event(width, port, value)
}

/// A look, by its kind and its address.
#[inline(always)]
#[tactic(auto, unfolding(script_spec::specs::Events::look_event))]
pub(crate) fn look_event(kind: &[u8], addr: &[u8], smm: bool) -> Option<Event>
    ensures event { result ≡ look_event kind.now addr.now smm }
{
    let kind = parse_kind(kind)?;
    let addr = parse_address(addr)?;
    Some(Event::Look { kind, addr, smm })
}

/// `K ADDR` and the flag, after `look`.
#[tactic(auto, unfolding(script_spec::specs::Events::parse_look))]
pub(crate) fn parse_look(words: Fields<'_>) -> Option<Event>
    ensures event { result ≡ parse_look words.entry }
{
    let (kind, words) = words.next()?;
    let (addr, words) = words.next()?;
    let smm = parse_smm(words)?;
    look_event(kind, addr, smm)
}

/// `ack` has no more fields.
#[tactic(auto, unfolding(script_spec::specs::Events::parse_ack))]
pub(crate) fn parse_ack(words: Fields<'_>) -> Option<Event>
    ensures event { result ≡ parse_ack words.entry }
{
    words.end()?;
    Some(Event::Ack)
}

/// The decimal that is the only field.
#[tactic(auto, unfolding(script_spec::specs::Events::parse_number))]
pub(crate) fn parse_number(words: Fields<'_>) -> Option<u32>
    ensures number { result ≡ parse_number words.entry }
{
    let field = words.only()?;
    parse_decimal(field)
}

#[tactic(auto, unfolding(script_spec::specs::Events::parse_two_numbers))]
fn parse_two_numbers(words: Fields<'_>) -> Option<(u32, u32)>
    ensures numbers { result ≡ parse_two_numbers words.entry }
{
    let (first, words) = words.next()?;
    let second = words.only()?;
    let first = parse_decimal(first)?;
    let second = parse_decimal(second)?;
    Some((first, second))
}

fn parse_only_number(words: Fields<'_>) -> Option<(u32, u32)>
    ensures numbers { result ≡ option_map (λ number. (number, 0)) (parse_number words.entry) }
{
    let number = parse_number(words)?;
    Some((number, 0))
}

/// The number of a stimulus, and its level, which is 0 where it has none.
#[tactic(auto, unfolding(script_spec::specs::Events::parse_given))]
pub(crate) fn parse_given(stimulus: Stimulus, words: Fields<'_>) -> Option<(u32, u32)>
    ensures given { result ≡ parse_given stimulus words.entry }
{
    if stimulus.has_level() {
        parse_two_numbers(words)
    } else {
        parse_only_number(words)
    }
}
