//! Why a log could not be read.

use board_base::NoMemory;
use std::alloc::{AllocError, AllocFailed};
use thiserror::Error;

/// Why a log could not be read.
#[derive(Clone, Copy, PartialEq, Eq, Debug, Error)]
pub enum LogFault {
    /// No log begins with the lines up to this one, which is the first such line. Lines count from 1.
    #[error("line {line} is none of a log")]
    Bad { line: u32 },
    /// There was no memory.
    #[error("there was no memory for the log")]
    NoMemory,
}

impl From<NoMemory> for LogFault {
    ghost use Rattle.std.specs.Prelude.{◌≡◌};
    ghost use Rattle.logs.specs.declared.fault.LogFault.{LogFault};

    ghost from_gives = { λ _ fault. fault ≡ LogFault.NoMemory };

    fn from(_: NoMemory) -> LogFault {
        LogFault::NoMemory
    }
}

impl From<AllocError> for LogFault {
    ghost use Rattle.std.specs.Prelude.{◌≡◌};
    ghost use Rattle.logs.specs.declared.fault.LogFault.{LogFault};

    ghost from_gives = { λ _ fault. fault ≡ LogFault.NoMemory };

    fn from(_: AllocError) -> LogFault {
        LogFault::NoMemory
    }
}

impl<T: Drop> From<AllocFailed<T>> for LogFault {
    ghost use Rattle.std.specs.Prelude.{◌≡◌};
    ghost use Rattle.logs.specs.declared.fault.LogFault.{LogFault};

    ghost from_gives = { λ _ fault. fault ≡ LogFault.NoMemory };

    fn from(_: AllocFailed<T>) -> LogFault {
        LogFault::NoMemory
    }
}
