//! Writes the steps of an image: which processor did which event.

ghost use Rattle.std.specs.Prelude.{◌≡◌, ◌++◌, ◌∷◌, map, flat_map, IfOk, OnOk};
ghost use Rattle.board_prelude.specs.{w32, to_le_bytes, bytes_of, statement_of};
ghost use Rattle.board_image.specs.ImageBytes.{flag_byte, kind_byte, memory_bytes, wide_bytes, port_bytes, look_bytes};
ghost use Rattle.board_image.specs.ImageBytes.{moment_bytes, applied_bytes, field_bytes, step_bytes};

use crate::tag::Tag;
use access_history::Entries;
use board_base::{Access, Kind, Moment, NoMemory, PortAccess, WideAccess, Width};
use board_spec::{Applied, Entry, Event};
use std::alloc::Global;

/// The most bytes of a step: those of a wide access, with its processor and its tag.
const STEP_ROOM: usize = 17;

/// The number of a kind of access.
fn kind_byte(kind: Kind) -> u8
    ensures byte { result ≡ kind_byte kind }
{
    match kind {
        Kind::Fetch => 0,
        Kind::Read => 1,
        Kind::Write => 2,
    }
}

/// The number of bytes of an access.
fn width_byte(width: Width) -> u8
    ensures byte { result ≡ bytes_of width }
{
    width.bytes() as u8
}

/// Adds a number of 4 bytes.
pub(crate) fn push_word(out: &mut Vec<u8>, value: u32) -> Result<(), NoMemory>
    ensures added { OnOk result (out.new.items ≡ out.old.items ++ to_le_bytes w32 value) }
{
    out.extend_from_slice(&value.to_le_bytes())?;
    Ok(())
}

/// Adds what the fields of an access to memory begin with: the kind, the flag, the number of bytes, and the address.
fn push_front(
    out: &mut Vec<u8>,
    kind: Kind,
    smm: bool,
    bytes: u8,
    addr: u32,
) -> Result<(), NoMemory>
    ensures added { OnOk result (out.new.items
        ≡ out.old.items ++ (kind_byte kind ∷ flag_byte smm ∷ bytes ∷ to_le_bytes w32 addr)) }
{
    out.extend_from_slice(&[kind_byte(kind), u8::from(smm), bytes])?;
    push_word(out, addr)
}

/// Adds the fields of an access to memory.
#[tactic(auto, unfolding(crate::specs::ImageBytes::memory_bytes))]
fn push_memory(out: &mut Vec<u8>, access: &Access) -> Result<(), NoMemory>
    ensures added { OnOk result (out.new.items ≡ out.old.items ++ memory_bytes access.now) }
{
    let width = width_byte(access.width);
    push_front(out, access.kind, access.smm, width, access.addr)?;
    push_word(out, access.value)
}

/// Adds the fields of a wide access.
#[tactic(auto, unfolding(crate::specs::ImageBytes::wide_bytes))]
fn push_wide(out: &mut Vec<u8>, access: &WideAccess) -> Result<(), NoMemory>
    ensures added { OnOk result (out.new.items ≡ out.old.items ++ wide_bytes access.now) }
{
    push_front(out, access.kind, access.smm, access.bytes, access.addr)?;
    out.extend_from_slice(&access.value.to_le_bytes())?;
    Ok(())
}

/// Adds the fields of an access to a port.
#[tactic(auto, unfolding(crate::specs::ImageBytes::port_bytes))]
fn push_port(out: &mut Vec<u8>, access: &PortAccess) -> Result<(), NoMemory>
    ensures added { OnOk result (out.new.items ≡ out.old.items ++ port_bytes access.now) }
{
    out.extend_from_slice(&[u8::from(access.write), width_byte(access.width)])?;
    out.extend_from_slice(&access.port.to_le_bytes())?;
    push_word(out, access.value)
}

/// Adds the fields of a look.
#[tactic(auto, unfolding(crate::specs::ImageBytes::look_bytes))]
fn push_look(out: &mut Vec<u8>, kind: Kind, addr: u32, smm: bool) -> Result<(), NoMemory>
    ensures added { OnOk result (out.new.items ≡ out.old.items ++ look_bytes kind addr smm) }
{
    out.extend_from_slice(&[kind_byte(kind), u8::from(smm)])?;
    push_word(out, addr)
}

/// Adds the fields of a moment.
#[tactic(auto, unfolding(crate::specs::ImageBytes::moment_bytes))]
fn push_moment(out: &mut Vec<u8>, moment: &Moment) -> Result<(), NoMemory>
    ensures added { OnOk result (out.new.items ≡ out.old.items ++ moment_bytes moment.now) }
{
    out.extend_from_slice(&moment.year.to_le_bytes())?;
    let Moment {
        month,
        day,
        hour,
        minute,
        second,
        ..
    } = *moment;
    out.extend_from_slice(&[month, day, hour, minute, second])?;
    Ok(())
}

/// Adds the fields of an event.
#[tactic(auto, unfolding(crate::specs::ImageBytes::field_bytes))]
fn push_fields(out: &mut Vec<u8>, event: &Event) -> Result<(), NoMemory>
    ensures added { OnOk result (out.new.items ≡ out.old.items ++ field_bytes event.now) }
{
    match event {
        Event::Memory(access) => push_memory(out, access),
        Event::Wide(access) => push_wide(out, access),
        Event::Port(access) => push_port(out, access),
        Event::Look { kind, addr, smm } => push_look(out, *kind, *addr, *smm),
        Event::Time(moment) => push_moment(out, moment),
        _ => match event.applied() {
            Some(said) => push_applied(out, said),
            None => Ok(()),
        },
    }
}

/// Adds what a stimulus gives: its number, and its level where it has one.
fn push_applied(out: &mut Vec<u8>, said: Applied) -> Result<(), NoMemory>
    ensures added { OnOk result (out.new.items ≡ out.old.items ++ applied_bytes said) }
{
    if said.stimulus.has_level() {
        out.extend_from_slice(&[(said.number % 256) as u8, u8::from(said.on)])?;
        return Ok(());
    }
    push_word(out, said.number)
}

/// Adds an entry as a step: its processor and its event.
fn push_step(out: &mut Vec<u8>, entry: &Entry) -> Result<(), NoMemory>
    ensures added { OnOk result (out.new.items ≡ out.old.items ++ step_bytes (statement_of entry.now)) }
{
    out.extend_from_slice(&[entry.actor, Tag::of_event(&entry.event).byte()])?;
    push_fields(out, &entry.event)
}

/// The bytes of all steps.
pub(crate) fn steps_piece(alloc: Global, entries: &Entries<'_>) -> Result<Vec<u8>, NoMemory>
    ensures bytes { IfOk result (λ piece. piece.items ≡ flat_map step_bytes (map statement_of entries.now)) }
{
    let room = entries.len().saturating_mul(STEP_ROOM);
    let mut piece = Vec::with_capacity(alloc, room)?;
    for i in 0..entries.len() {
        push_step(&mut piece, &entries.entry(i))?;
    }
    Ok(piece)
}
