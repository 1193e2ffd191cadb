//! An entry of the history of a run, in few bytes.

ghost use Rattle.std.specs.Prelude.{◌≡◌, List, length};
ghost use Rattle.board_prelude.specs.{Entry as AnEntry};
ghost use Rattle.run_order.specs.Over.{IsPlacedBelow, entry_of};

use access_history::Entries;
use board_base::Kind;
use board_spec::{Entry, Event, Look, Reply};

/// An entry of the history of a run, in few bytes.
#[derive(Clone, Copy, PartialEq, Eq, Debug)]
pub enum RunEntry {
    /// It went through the bus turn: the bus's history has its event and its reply, at this place, counted from 0.
    Bus {
        actor: u8,
        seq: u32,
        place: u32,
    },
    /// A look at the published map.
    Look {
        actor: u8,
        seq: u32,
        kind: Kind,
        smm: bool,
        addr: u32,
        look: Look,
    },
}

impl RunEntry {
    /// Its processor.
    #[inline]
    pub(crate) fn actor(&self) -> u8
        ensures actor { (bus : List AnEntry) → result ≡ (entry_of bus self.now).actor }
    {
        match self {
            RunEntry::Bus { actor, .. } => *actor,
            RunEntry::Look { actor, .. } => *actor,
        }
    }

    /// The whole entry, over the bus's history with the oldest entry first.
    pub fn over(&self, bus: &Entries<'_>) -> Entry
        requires within { IsPlacedBelow (length bus.now) self.now }
        ensures entry { result ≡ entry_of bus.now self.now }
    {
        match *self {
            RunEntry::Bus { actor, seq, place } => {
                let entry = bus.entry(place as usize);
                Entry {
                    actor,
                    seq,
                    ..entry
                }
            }
            RunEntry::Look {
                actor,
                seq,
                kind,
                smm,
                addr,
                look,
            } => Entry {
                actor,
                seq,
                event: Event::Look { kind, addr, smm },
                reply: Reply::Saw(look),
            },
        }
    }
}
