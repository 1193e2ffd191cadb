//! Why a script could not be read.
ghost use Rattle.std.specs.Prelude.{◌≡◌};
ghost use Rattle.scripts.specs.Faults.{number_of};

use std::alloc::AllocError;
use thiserror::Error;

/// Why a line is refused, the least reason first.
#[derive(Clone, Copy)]
pub(crate) enum Reason {
    /// Line 1 is not `board 1` or `board 2`.
    NoVersion,
    /// It has more than 120 bytes.
    TooLong,
    /// It has none of the forms of the version.
    NoForm,
    /// A line of the setup after the first phase, or a statement before it.
    Misplaced,
    /// A line of the setup of its kind, for cards of its device, came before.
    Repeated,
    /// The first phase, or the end without one, where the setup is not whole.
    NoSetup,
    /// A number is out of range, or the calendar has no such moment.
    OutOfRange,
    /// An address or a port is no multiple of the width, or a wide access passes FFFFFFFFh.
    NotPlaced,
    /// There is no such processor, or no card at the device.
    NotThere,
    /// There are too many statements, phases or pulses, or too much memory behind the bases.
    PastLimit,
}

impl Reason {
    /// The number of the reason, 1 to 10.
    pub(crate) fn number(self) -> u8
        ensures number { result ≡ number_of self }
    {
        match self {
            Reason::NoVersion => 1,
            Reason::TooLong => 2,
            Reason::NoForm => 3,
            Reason::Misplaced => 4,
            Reason::Repeated => 5,
            Reason::NoSetup => 6,
            Reason::OutOfRange => 7,
            Reason::NotPlaced => 8,
            Reason::NotThere => 9,
            Reason::PastLimit => 10,
        }
    }
}

/// Why a script could not be read.
#[derive(Clone, Copy, PartialEq, Eq, Debug, Error)]
pub enum ScriptFault {
    /// The first bad line, from 1 on, and the least reason for it. The end counts as a line.
    #[error("line {line} is bad for reason {why}")]
    Bad { line: u32, why: u8 },
    /// There was no memory.
    #[error("out of memory")]
    NoMemory,
}

impl ScriptFault {
    /// A line is refused for this reason.
    pub(crate) fn at(line: u32, reason: Reason) -> ScriptFault
        ensures fault { result ≡ ScriptFault.Bad line (number_of reason) }
    {
        ScriptFault::Bad {
            line,
            why: reason.number(),
        }
    }
}

impl From<AllocError> for ScriptFault {
    ghost use Rattle.scripts.specs.declared.fault.ScriptFault.{ScriptFault};

    ghost from_gives = { λ _ fault. fault ≡ ScriptFault.NoMemory };

    fn from(_: AllocError) -> ScriptFault {
        ScriptFault::NoMemory
    }
}
