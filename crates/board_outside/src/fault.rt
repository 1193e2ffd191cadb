//! What can keep a shelf or a sink from its answer.

ghost use Rattle.std.specs.Prelude.{◌≡◌};

use std::alloc::AllocError;

/// A fetch from a shelf failed, and the shelf counted it.
#[derive(Clone, Copy, PartialEq, Eq, Debug)]
pub struct Failed;

/// A sink did not take a piece.
#[derive(Clone, Copy, PartialEq, Eq, Debug)]
pub enum PutFault {
    /// The sink failed, and counted it.
    Failed,
    /// There was no memory for the piece.
    NoMemory,
}

impl From<AllocError> for PutFault {
    ghost use Rattle.board_outside.specs.declared.fault.PutFault.TheVariants.{NoMemory};

    ghost from_gives = { λ _ fault. fault ≡ NoMemory };

    fn from(_error: AllocError) -> PutFault {
        PutFault::NoMemory
    }
}
