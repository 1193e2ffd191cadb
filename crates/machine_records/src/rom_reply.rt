//! The bytes that expansion ROMs of cards were given, over the record of a reply.

ghost use Rattle.std.specs.Prelude.{◌≡◌, ◌<◌, ◌≤◌, IfSome, Some, length};
ghost use Rattle.board_prelude.specs.{byte, bytes_of, from_le_bytes, longest_at, w64};
ghost use Rattle.machine.specs.Roms.{roms_in};
ghost use Rattle.machine_records.specs.RomReplies.{byte_by, byte_told, bytes_told, is_given, part_of, reads_given};
ghost use Rattle.machine_records.specs.RomReplies.{with_roms};

use crate::card_bytes::ROM_BASE;
use crate::event::EventRecord;
use crate::numbers::CARD_TARGET;
use crate::reply::{PartRecord, ReplyRecord};
use machine::Roms;

/// Puts the bytes that expansion ROMs were given into the record of a reply.
#[tactic(auto, using(crate::proofs::RomParts::none_with))]
pub(crate) fn fit_roms(roms: &Option<Roms>, event: &EventRecord, reply: &mut ReplyRecord)
    ensures fitted { reply.new ≡ with_roms (roms_in roms.now) event.now reply.old }
{
    if let Some(roms) = roms {
        fit_given(roms, event, reply);
    }
}

/// Puts them in the place of those that the board gives, where one of the ROMs answered a read. Every other reply stays
/// as it is.
fn fit_given(roms: &Roms, event: &EventRecord, reply: &mut ReplyRecord)
    ensures fitted { reply.new ≡ with_roms roms.now event.now reply.old }
{
    if reads_given(roms, reply) {
        reply.value = value_told(roms, event, reply);
    }
}

/// Whether a reply is to a read that one of the ROMs answered, or a part of which it did.
fn reads_given(roms: &Roms, reply: &ReplyRecord) -> bool
    ensures reads { result ≡ reads_given roms.now reply.now }
{
    reply.has_value == 1
        && (is_given(roms, &reply.part0)
            || is_given(roms, &reply.part1)
            || is_given(roms, &reply.part2)
            || is_given(roms, &reply.part3))
}

/// Whether one of the ROMs answered this part.
fn is_given(roms: &Roms, part: &PartRecord) -> bool
    ensures given { result ≡ is_given roms.now part.now }
{
    part.target == CARD_TARGET && part.base == ROM_BASE && roms.is_given(part.unit)
}

/// The value with their bytes.
fn value_told(roms: &Roms, event: &EventRecord, reply: &ReplyRecord) -> u64
    ensures value { result ≡ from_le_bytes w64 (bytes_told roms.now event.now reply.now) }
{
    u64::from_le_bytes([
        byte_told(roms, event, reply, 0),
        byte_told(roms, event, reply, 1),
        byte_told(roms, event, reply, 2),
        byte_told(roms, event, reply, 3),
        byte_told(roms, event, reply, 4),
        byte_told(roms, event, reply, 5),
        byte_told(roms, event, reply, 6),
        byte_told(roms, event, reply, 7),
    ])
}

/// Byte `place`, 0 to 7, of the value.
#[tactic(auto, unfolding(crate::specs::RomReplies::byte_told))]
fn byte_told(roms: &Roms, event: &EventRecord, reply: &ReplyRecord, place: usize) -> u8
    requires place { place < 8 }
    ensures byte { result ≡ byte_told roms.now event.now reply.now place }
{
    let parts = [reply.part0, reply.part1, reply.part2, reply.part3];
    let old = old_byte(reply, place);
    match part_of(&parts, event.addr, event.bytes, place) {
        Some((part, at)) => byte_by(roms, &part, at, old),
        None => old,
    }
}

/// The same as the board told it.
fn old_byte(reply: &ReplyRecord, place: usize) -> u8
    requires place { place < 8 }
    ensures byte { result ≡ byte reply.now.value place }
{
    reply.value.to_le_bytes()[place]
}

/// Byte `at` of a part, where it was `old`.
fn byte_by(roms: &Roms, part: &PartRecord, at: usize, old: u8) -> u8
    requires few { at < 8 }
    ensures byte { result ≡ byte_by roms.now (Some (part.now, at)) old }
{
    if is_given(roms, part) {
        roms.byte(part.unit, part.offset as usize + at, old)
    } else {
        old
    }
}

/// Which part moved byte `place` of so many from an address on, and which of its bytes it is.
#[tactic(auto, using(crate::proofs::RomParts::part_here, crate::proofs::RomParts::part_later, crate::proofs::RomParts::no_part_left))]
fn part_of(parts: &[PartRecord], addr: u32, bytes: u8, place: usize) -> Option<(PartRecord, usize)>
    requires few { length parts.now ≤ 4 }
    requires place { place < 8 }
    ensures part { result ≡ part_of parts.now addr bytes 0 place }
    ensures few { IfSome result (λ by. by.1 < 8) }
{
    let mut before = 0;
    for part in parts {
        let left = usize::from(bytes).saturating_sub(before);
        let after = before + bytes_at(addr as usize + before, left);
        if place < after {
            return Some((*part, place - before));
        }
        before = after;
    }
    None
}

/// How many bytes the next cycle moves of so many that are left from an address on.
fn bytes_at(addr: usize, left: usize) -> usize
    ensures bytes { result ≡ bytes_of (longest_at addr left) }
    ensures few { result ≤ 4 }
{
    if addr % 4 == 0 && left >= 4 {
        return 4;
    }
    if addr % 2 == 0 && left >= 2 {
        return 2;
    }
    1
}
