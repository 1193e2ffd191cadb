//! The processors of the entries of a history.

ghost use Rattle.std.specs.Prelude.{◌≡◌, ◌<◌, ℕ, List, length, slice_index_or};

use access_history::Entries;

/// The processor of each entry of a history, that of the oldest first. Contracts see the list.
pub trait Actors {
    // The processors.
    ghost actors: { Self → List ℕ };

    /// How many entries there are.
    fn len(&self) -> usize
        ensures length { result ≡ length (actors self.now) };

    /// The processor of the entry at a place, counted from 0.
    fn actor(&self, i: usize) -> u8
        requires within { i < length (actors self.now) }
        ensures actor { (other : ℕ) → slice_index_or (actors self.now) i other ≡ result };
}

impl Actors for Entries<'_> {
    ghost use Rattle.std.specs.Prelude.{map};

    ghost actors = { λ some. map (λ entry. entry.actor) some };

    fn len(&self) -> usize {
        Entries::len(self)
    }

    fn actor(&self, i: usize) -> u8 {
        self.entry(i).actor
    }
}

/// A byte for each entry.
impl Actors for &[u8] {
    ghost actors = { λ bytes. bytes.now };

    fn len(&self) -> usize {
        <[u8]>::len(self)
    }

    fn actor(&self, i: usize) -> u8 {
        self[i]
    }
}
