//! The log's line of an event and its reply.

ghost use Rattle.std.specs.Prelude.{◌≡◌, ◌≢◌, ◌⊎◌, length, IsSomeAnd};
ghost use Rattle.machine.specs.Images.{IsWritten};
ghost use Rattle.machine_records.specs.LogLines.{IsLineRefusal, entry_recorded, whole_line};
ghost use Rattle.machine_records.specs.Statuses.{no_room, ok};

use machine_records::{EventRecord, ReplyRecord, write_line};
use std::alloc::Global;

/// Writes line `number` of a log, with its line feed, of the entry of a processor, the number of its statement, an
/// event and its reply, and counts its bytes. Refused with `NO_EVENT` or `NO_REPLY` where a record
/// says none, and with `NO_ROOM` where the line does not fit: then its bytes are counted. `NO_MEMORY` may come
/// where both say something.
#[unsafe(no_mangle)]
pub extern "C" fn board_text(
    alloc: Global,
    event: &EventRecord,
    reply: &ReplyRecord,
    number: u64,
    processor: u8,
    statement: u32,
    into: &mut [u8],
    bytes: &mut usize,
) -> u32
    ensures done { result ≡ ok → IsSomeAnd (entry_recorded processor statement event.now reply.now)
        (λ entry. IsWritten (whole_line number entry) into.old into.new) }
    ensures refused { result ≢ ok → IsLineRefusal (entry_recorded processor statement event.now reply.now)
        event.now number (length into.old) result }
    ensures unwritten { result ≢ ok → into.new ≡ into.old }
    ensures counted { ((result ≡ ok) ⊎ (result ≡ no_room))
        → IsSomeAnd (entry_recorded processor statement event.now reply.now)
        (λ entry. bytes.new ≡ length (whole_line number entry)) }
    ensures uncounted { result ≢ ok → result ≢ no_room → bytes.new ≡ bytes.old }
{
    write_line(
        alloc, event, reply, number, processor, statement, into, bytes,
    )
}
