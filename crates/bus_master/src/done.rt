//! How a transfer ends.

ghost use Rattle.std.specs.Prelude.{◌≡◌};
ghost use Rattle.bus_master.specs.Transfer.{status_bits};

use board_base::Denial;

/// Why a transfer ended.
#[derive(Clone, Copy, PartialEq, Eq, Debug)]
pub enum End {
    /// The last word was also the end of the last region.
    Exact,
    /// The table goes on after the last word.
    Longer,
    /// The last region ended, and words remain.
    Shorter,
    /// Nobody answers at this address.
    Abort { addr: u32, denial: Denial },
    /// This sector does not exist or is bad.
    Sector { lba: u32 },
}

impl End {
    /// Bits 2 to 0 of the status, which show an end: interrupt, error, active.
    pub fn status_bits(self) -> u8
        ensures bits { result ≡ status_bits self }
    {
        match self {
            End::Exact => 0b100,
            End::Longer => 0b101,
            End::Shorter => 0b000,
            End::Abort { .. } | End::Sector { .. } => 0b010,
        }
    }
}

/// How a transfer ended, and how many bytes it moved.
#[derive(Clone, Copy, PartialEq, Eq, Debug)]
pub struct Done {
    pub end: End,
    pub moved: u32,
}
