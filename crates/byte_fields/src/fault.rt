//! Why fields were not read.

ghost use Rattle.std.specs.Prelude.{◌≡◌};

use std::alloc::{AllocError, AllocFailed};

/// The field at the front of the bytes is bad.
#[derive(Clone, Copy, PartialEq, Eq, Debug)]
pub struct Bad;

/// Why fields were not read.
#[derive(Clone, Copy, PartialEq, Eq, Debug)]
pub enum Fault {
    /// The field at the front of the bytes is bad.
    Bad,
    /// There was no memory.
    NoMemory,
}

impl From<Bad> for Fault {
    ghost use Rattle.byte_fields.specs.declared.fault.Fault.{Fault};

    ghost from_gives = { λ _ fault. fault ≡ Fault.Bad };

    fn from(_: Bad) -> Fault {
        Fault::Bad
    }
}

impl From<AllocError> for Fault {
    ghost use Rattle.byte_fields.specs.declared.fault.Fault.{Fault};

    ghost from_gives = { λ _ fault. fault ≡ Fault.NoMemory };

    fn from(_: AllocError) -> Fault {
        Fault::NoMemory
    }
}

impl<T: Drop> From<AllocFailed<T>> for Fault {
    ghost use Rattle.byte_fields.specs.declared.fault.Fault.{Fault};

    ghost from_gives = { λ _ fault. fault ≡ Fault.NoMemory };

    fn from(_: AllocFailed<T>) -> Fault {
        Fault::NoMemory
    }
}
