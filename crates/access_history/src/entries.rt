//! The entries of a history, or some of them that stand together.

ghost use Rattle.std.specs.Prelude.{◌≡◌, ◌<◌, ◌≤◌, ◌-◌, length, take, drop, slice_index_or};
ghost use Rattle.board_prelude.specs.{Entry as AnEntry};

use crate::packed::PackedEntry;
use board_spec::{Entry, Part};
use std::marker::Model;

/// The entries of a history, or some of them that stand together. Contracts see the list, the oldest first.
#[derive(Drop)]
pub struct Entries<'a> {
    entries: &'a [PackedEntry],
    parts: &'a [Part],
}

impl<'a> Model for Entries<'a> {
    ghost use Rattle.std.specs.Prelude.{List, length};
    ghost use Rattle.board_prelude.specs.{Entry};
    ghost use Rattle.access_history.specs.Packed.{AreWithin, entries_in};

    ghost Value = { List Entry };

    ghost view = { λ some. entries_in some.parts.now some.entries.now };

    ghost invariant = { λ some. AreWithin (length some.parts.now) some.entries.now };
}

impl<'a> Entries<'a> {
    ghost use Rattle.access_history.specs.Packed.{AreWithin, entries_in};

    /// Entries whose parts stand in the list.
    pub(crate) fn new(entries: &'a [PackedEntry], parts: &'a [Part]) -> Entries<'a>
        requires within { AreWithin (length parts.now) entries.now }
        ensures entries { result ≡ entries_in parts.now entries.now }
    {
        Entries { entries, parts }
    }

    /// How many entries there are.
    pub fn len(&self) -> usize
        ensures length { result ≡ length self.now }
    {
        self.entries.len()
    }

    /// The entry at a place, counted from 0.
    pub fn entry(&self, i: usize) -> Entry
        requires within { i < length self.now }
        ensures entry { (other : AnEntry) → slice_index_or self.now i other ≡ result }
    {
        let entries = self.entries;
        entries[i].entry(self.parts)
    }

    /// The entries from a place on.
    pub fn from(&self, start: usize) -> Entries<'a>
        requires within { start ≤ length self.now }
        ensures entries { result ≡ drop start self.now }
    {
        Entries::new(&self.entries[start..], self.parts)
    }

    /// The entries before a place.
    pub fn before(&self, end: usize) -> Entries<'a>
        requires within { end ≤ length self.now }
        ensures entries { result ≡ take end self.now }
    {
        Entries::new(&self.entries[..end], self.parts)
    }
}
