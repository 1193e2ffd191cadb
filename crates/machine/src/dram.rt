//! The state of the DRAM in a room, as `Dram::save_state` adds it to bytes.

ghost use Rattle.std.specs.Prelude.{◌≡◌, ◌+◌, ◌*◌, ◌≤◌, length, take, drop, IfSome, None};
ghost use Rattle.byte_fields.specs.Pages.{memory_page};
ghost use Rattle.dram_store.specs.State.{dram_bytes};
ghost use Rattle.machine.specs.Room.{IsInstalled, IsPutAt, page_of};

use crate::page::{page_size, put_page};
use byte_fields::MEMORY_PAGE;
use dram_store::Dram;

/// How many pages a MiB has.
const MIB_PAGES: usize = 0x10_0000 / MEMORY_PAGE;

/// The bytes of a page that are kept, from its first on: those after them are 0. None past the installed memory.
fn kept_of(dram: &Dram, page: usize) -> Option<&[u8]>
    ensures none { result ≡ None → length dram.now ≤ page * memory_page }
    ensures some { IfSome result (λ _. (page + 1) * memory_page ≤ length dram.now) }
    ensures within { IfSome result (λ kept. length kept.now ≤ memory_page) }
    ensures bytes { IfSome result (λ kept. take memory_page (drop (page * memory_page) dram.now) ≡ page_of kept.now) }
{
    match dram.kept(page / MIB_PAGES) {
        Some(kept) => Some(part_of(kept, page % MIB_PAGES * MEMORY_PAGE)),
        None => None,
    }
}

/// At most a page of bytes, from a place on.
fn part_of(kept: &[u8], at: usize) -> &[u8]
    ensures part { result.now ≡ take memory_page (drop at kept.now) }
{
    let from = at.min(kept.len());
    let rest = &kept[from..];
    &rest[..rest.len().min(MEMORY_PAGE)]
}

/// How many bytes the state of the DRAM has.
pub fn dram_size(dram: &Dram) -> usize
    requires few { IsInstalled dram.now }
    ensures size { result ≡ length (dram_bytes dram.now) }
    ensures most { result ≤ 2 * length dram.now }
{
    let zeros = [0; MEMORY_PAGE];
    let mut size = 0;
    let mut page = 0;
    while let Some(kept) = kept_of(dram, page) {
        size += page_size(kept, &zeros);
        page += 1;
    }
    size
}

/// Puts the state of the DRAM into the room from a place on, and returns where it ends.
pub fn put_dram(into: &mut [u8], at: usize, dram: &Dram) -> usize
    requires few { IsInstalled dram.now }
    requires room { at + length (dram_bytes dram.now) ≤ length into.old }
    ensures put { IsPutAt at (dram_bytes dram.now) into.old into.new }
    ensures end { result ≡ at + length (dram_bytes dram.now) }
{
    let zeros = [0; MEMORY_PAGE];
    let mut end = at;
    let mut page = 0;
    while let Some(kept) = kept_of(dram, page) {
        end = put_page(into, end, kept, &zeros);
        page += 1;
    }
    end
}
