//! Why a log was not checked to its end.

ghost use Rattle.std.specs.Prelude.{◌≡◌};

use board_base::NoMemory;
use thiserror::Error;

/// Why bytes were not found to be a log of a script.
#[derive(Clone, Copy, PartialEq, Eq, Debug, Error)]
pub enum CheckFault {
    /// The first line, from 1, that no log of the script has after the same lines. A line that is missing or has no
    /// line feed counts, and so does one past the end.
    #[error("the log differs at line {line}")]
    Differs { line: u32 },
    /// There was no memory.
    #[error("out of memory")]
    NoMemory,
}

impl From<NoMemory> for CheckFault {
    ghost use Rattle.log_check.specs.declared.fault.CheckFault.{CheckFault};

    ghost from_gives = { λ _ fault. fault ≡ CheckFault.NoMemory };

    fn from(_: NoMemory) -> CheckFault {
        CheckFault::NoMemory
    }
}
