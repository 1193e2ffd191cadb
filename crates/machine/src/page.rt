//! A page of memory in a room, of which the front is kept and zeros follow.

ghost use Rattle.std.specs.Prelude.{◌≡◌, ◌+◌, ◌≤◌, length, replicate, bytes_eq};
ghost use Rattle.byte_fields.specs.Pages.{memory_page, memory_bytes};
ghost use Rattle.machine.specs.Room.{IsPutAt, page_of};

use crate::room::put;
use byte_fields::MEMORY_PAGE;

/// What tells a page of zeros, and what stands before any other.
const ZEROS: [u8; 1] = [0];

const BYTES: [u8; 1] = [1];

/// Whether all bytes of the page are zeros.
fn is_zero(kept: &[u8], zeros: &[u8]) -> bool
    requires within { length kept.now ≤ memory_page }
    requires zeros { zeros.now ≡ replicate memory_page 0 }
    ensures zero { result ≡ bytes_eq (page_of kept.now) (replicate memory_page 0) }
{
    kept == &zeros[..kept.len()]
}

/// How many bytes spell the page.
#[tactic(auto, using(crate::proofs::Pages::told_size))]
pub(crate) fn page_size(kept: &[u8], zeros: &[u8]) -> usize
    requires within { length kept.now ≤ memory_page }
    requires zeros { zeros.now ≡ replicate memory_page 0 }
    ensures size { result ≡ length (memory_bytes (page_of kept.now)) }
{
    if is_zero(kept, zeros) {
        return ZEROS.len();
    }
    BYTES.len() + MEMORY_PAGE
}

/// Puts what spells the page into the room from a place on, and returns where it ends.
#[tactic(auto, using(crate::proofs::Pages::told_size, crate::proofs::Pages::rest_length))]
pub(crate) fn put_page(into: &mut [u8], at: usize, kept: &[u8], zeros: &[u8]) -> usize
    requires within { length kept.now ≤ memory_page }
    requires zeros { zeros.now ≡ replicate memory_page 0 }
    requires room { at + length (memory_bytes (page_of kept.now)) ≤ length into.old }
    ensures put { IsPutAt at (memory_bytes (page_of kept.now)) into.old into.new }
    ensures end { result ≡ at + length (memory_bytes (page_of kept.now)) }
    ensures size { length into.new ≡ length into.old }
{
    if is_zero(kept, zeros) {
        return put(into, at, &ZEROS);
    }
    let start = put(into, at, &BYTES);
    let end = put(into, start, kept);
    put(into, end, &zeros[kept.len()..])
}
