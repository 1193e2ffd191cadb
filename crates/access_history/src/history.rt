//! A list of entries with room that was reserved for more.

ghost use Rattle.std.specs.Prelude.{◌≡◌, ◌+◌, ◌-◌, ◌<◌, ◌≤◌, [], ◌∷◌, length, max, reverse, slice_get, Some, OnOk};
ghost use Rattle.std.specs.Prelude.{OnErr};

use crate::entries::Entries;
use crate::packed::PackedEntry;
use board_base::NoMemory;
use board_spec::{Entry, Event, Part, Reply};
use std::alloc::Global;
use std::marker::Model;

/// The most parts that an entry has.
const MOST_PARTS: usize = 4;

/// A history. Contracts see its entries, the newest first, and how many more it has room for.
#[derive(Drop)]
pub struct History {
    entries: Vec<PackedEntry>,
    /// The parts of the wide accesses, in the order of their entries.
    parts: Vec<Part>,
    spare: u32,
}

impl Model for History {
    ghost use Rattle.std.specs.Prelude.{reverse, vec_capacity};
    ghost use Rattle.access_history.specs.Packed.{IsHistory, entries_in};
    ghost use Rattle.access_history.specs.Past.{Past};

    ghost Value = { Past };

    ghost view = { λ history. record {
      entries = reverse (entries_in history.parts.items history.entries.items);
      spare = history.spare;
    } };

    ghost invariant = { λ history. IsHistory history.entries.items history.parts.items history.spare
        (vec_capacity history.entries) (vec_capacity history.parts) };
}

impl History {
    ghost use Rattle.board_spec.specs.Limits.{entry_limit};
    ghost use Rattle.access_history.specs.Past.{Past};

    /// A history without entries, and without room for any.
    pub fn new(alloc: Global) -> History
        ensures empty { result ≡ record { entries = []; spare = 0 } }
    {
        History {
            entries: Vec::new(alloc),
            parts: Vec::new(alloc),
            spare: 0,
        }
    }

    /// Makes room for at least `n` more entries, where the history with them stays below 4,000,000. Refused for want of
    /// memory; then it is as before.
    pub fn reserve(&mut self, n: u32) -> Result<(), NoMemory>
        requires { length self.old.entries + n < entry_limit }
        ensures ok { OnOk result (self.new ≡ record self.old { spare = max self.old.spare n }) }
        ensures err { OnErr result (self.new ≡ self.old) }
    {
        if n > self.spare {
            self.entries.reserve(n as usize)?;
            self.parts.reserve(MOST_PARTS * n as usize)?;
            self.spare = n;
        }
        Ok(())
    }

    /// Adds an entry, the newest, in the room that was reserved. It takes no memory.
    pub fn push(&mut self, entry: &Entry)
        requires { 1 ≤ self.old.spare }
        ensures pushed { self.new ≡ record { entries = entry.now ∷ self.old.entries; spare = self.old.spare - 1 } }
    {
        self.add(entry.actor, entry.seq, &entry.event, &entry.reply);
    }

    /// Adds the entry of these parts, as `push` does.
    #[inline]
    pub fn add(&mut self, actor: u8, seq: u32, event: &Event, reply: &Reply)
        requires { 1 ≤ self.old.spare }
        ensures pushed { self.new ≡ record {
          entries = record { actor = actor; seq = seq; event = event.now; reply = reply.now } ∷ self.old.entries;
          spare = self.old.spare - 1;
        } }
    {
        let packed = PackedEntry::keep(&mut self.parts, actor, seq, event, reply);
        self.entries.push(packed).unwrap();
        self.spare -= 1;
    }

    /// How many entries there are. With the room for more they stay below 4,000,000.
    pub fn len(&self) -> u32
        ensures length { result ≡ length self.now.entries }
        ensures room { length self.now.entries + self.now.spare < entry_limit }
    {
        self.entries.len() as u32
    }

    /// How many more entries there is room for.
    pub fn spare(&self) -> u32
        ensures spare { result ≡ self.now.spare }
    {
        self.spare
    }

    /// The entry at a place, counted from 0, the oldest first.
    pub fn entry(&self, i: u32) -> Entry
        requires { i < length self.now.entries }
        ensures entry { slice_get (reverse self.now.entries) i ≡ Some result }
    {
        self.entries[i as usize].entry(&self.parts)
    }

    /// All entries, the oldest first.
    pub fn entries(&self) -> Entries<'_>
        ensures entries { result ≡ reverse self.now.entries }
    {
        Entries::new(&self.entries, &self.parts)
    }
}
