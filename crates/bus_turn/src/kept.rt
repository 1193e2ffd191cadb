//! What a value must be to be shared by turns.
ghost use Rattle.std.specs.Prelude.{◌≡◌, ℕ, List, length};

/// A value that stands for the list of its entries, the oldest first, and for a fixed part that no turn changes.
pub trait Kept {
    /// One entry of the list.
    type Entry;

    /// What the fixed part is made of. No value of it need ever be made.
    type Fixed;

    // The entries, the oldest first.
    ghost entries: { Self → List Self.Entry };

    // The number of the caller that added an entry.
    ghost actor: { Self.Entry → ℕ };

    // What no turn changes.
    ghost fixed: { Self → Self.Fixed };

    /// How many entries there are.
    fn count(&self) -> u32
        ensures count { result ≡ length (entries self.now) };
}
