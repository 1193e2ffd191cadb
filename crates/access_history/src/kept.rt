//! A history may be shared by turns.

ghost use Rattle.std.specs.Prelude.{reverse};

use crate::{Entry, History};
use bus_turn::Kept;

impl Kept for History {
    type Entry = Entry;

    type Fixed = ();

    ghost entries = { λ history. reverse history.entries };

    ghost actor = { λ entry. entry.actor };

    ghost fixed = { λ _. tt };

    fn count(&self) -> u32 {
        self.len()
    }
}
