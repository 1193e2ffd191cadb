//! How much a script may ask of a board, and how much a board keeps, where more than one crate rests on it.

/// The most statements of a script.
pub const MOST_STATEMENTS: usize = 250_000;

/// A history has fewer entries than this, and so fewer map writes.
pub const ENTRY_LIMIT: u32 = 4_000_000;

/// How many numbers processors can have.
pub const ACTORS: usize = 256;
