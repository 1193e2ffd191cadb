//! Which way words move.

ghost use Rattle.std.specs.Prelude.{◌≡◌};
ghost use Rattle.bus_master.specs.States.{direction_to};
ghost use Rattle.bus_master.specs.Transfer.{kind_of};

use board_base::Kind;

/// From the disk to memory, or from memory to the disk.
#[derive(Clone, Copy, PartialEq, Eq)]
pub(crate) enum Direction {
    ToMemory,
    ToDisk,
}

impl Direction {
    /// The direction to memory, or that to the disk.
    pub(crate) fn of(to_memory: bool) -> Direction
        ensures direction { result ≡ direction_to to_memory }
    {
        if to_memory {
            Direction::ToMemory
        } else {
            Direction::ToDisk
        }
    }

    /// Whether words go from the disk to memory.
    pub(crate) fn is_to_memory(self) -> bool
        ensures direction { direction_to result ≡ self }
    {
        match self {
            Direction::ToMemory => true,
            Direction::ToDisk => false,
        }
    }

    /// What the bus master does with memory.
    pub(crate) fn kind(self) -> Kind
        ensures kind { result ≡ kind_of self }
    {
        match self {
            Direction::ToMemory => Kind::Write,
            Direction::ToDisk => Kind::Read,
        }
    }
}
