//! The log's line of an event and its reply.

ghost use Rattle.std.specs.Prelude.{◌≡◌, ◌≢◌, ◌<◌, ◌⊎◌, length, IfOk, IsSomeAnd};
ghost use Rattle.std.specs.String.{string_bytes};
ghost use Rattle.machine.specs.Images.{IsWritten};
ghost use Rattle.machine_records.specs.Statuses.{ok, no_room};
ghost use Rattle.machine_records.specs.LogLines.{entry_recorded, whole_line, IsLineRefusal};

use crate::event::{EventRecord, event_of};
use crate::reply::ReplyRecord;
use crate::reply_back::reply_recorded;
use crate::status::{NO_EVENT, NO_MEMORY, NO_REPLY, NO_ROOM, OK};
use board_base::NoMemory;
use board_spec::Entry;
use logs::push_line;
use machine::write_front;
use std::alloc::Global;

/// Line `number` of the log, with its line feed.
fn line_of(alloc: Global, number: u64, entry: &Entry) -> Result<String, NoMemory>
    ensures line { IfOk result (λ line. string_bytes line ≡ whole_line number entry.now) }
{
    let mut line = String::new(alloc);
    push_line(&mut line, number, entry)?;
    Ok(line)
}

/// Writes line `number` of a log, with its line feed, of the entry of a processor, the number of its statement, an
/// event and its reply, and counts its bytes. Refused with `NO_EVENT` or `NO_REPLY` where a record
/// says none, and with `NO_ROOM` where the line does not fit: then its bytes are counted. `NO_MEMORY` may come
/// where both say something.
#[tactic(auto, unfolding(crate::specs::LogLines::entry_recorded))]
pub fn write_line(
    alloc: Global,
    event: &EventRecord,
    reply: &ReplyRecord,
    number: u64,
    processor: u8,
    statement: u32,
    into: &mut [u8],
    bytes: &mut usize,
) -> u32
    ensures done { result ≡ ok → IsSomeAnd (entry_recorded processor statement event.now reply.now)
        (λ entry. IsWritten (whole_line number entry) into.old into.new) }
    ensures refused { result ≢ ok → IsLineRefusal (entry_recorded processor statement event.now reply.now)
        event.now number (length into.old) result }
    ensures unwritten { result ≢ ok → into.new ≡ into.old }
    ensures counted { ((result ≡ ok) ⊎ (result ≡ no_room)) →
        IsSomeAnd (entry_recorded processor statement event.now reply.now)
        (λ entry. bytes.new ≡ length (whole_line number entry)) }
    ensures uncounted { result ≢ ok → result ≢ no_room → bytes.new ≡ bytes.old }
{
    let Some(event) = event_of(event) else {
        return NO_EVENT;
    };
    let Some(reply) = reply_recorded(reply) else {
        return NO_REPLY;
    };
    let entry = Entry {
        actor: processor,
        seq: statement,
        event,
        reply,
    };
    let Ok(line) = line_of(alloc, number, &entry) else {
        return NO_MEMORY;
    };
    *bytes = line.len();
    if write_front(line.as_bytes(), into) {
        OK
    } else {
        NO_ROOM
    }
}
