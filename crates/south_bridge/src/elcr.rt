//! The edge/level control registers of the PIIX3, ports 4D0h and 4D1h.
//!
//! | port | lines   | reset | writable | effect of a bit at 1                                    |
//! |------|---------|-------|----------|---------------------------------------------------------|
//! | 4D0h | 0 to 7  | 00h   | F8       | its line is level triggered; 0, 1 and 2 never are       |
//! | 4D1h | 8 to 15 | 00h   | DE       | its line is level triggered; 8 and 13 never are         |
ghost use Rattle.std.specs.Prelude.{◌≡◌};
ghost use Rattle.device_spec.specs.Elcr.{trigger_byte, triggers_after_write, triggers_at_reset};

use board_base::bits::merged;
use std::marker::Model;

/// The bits of 4D0h that can be written: lines 0, 1 and 2 stay edge triggered.
const WRITABLE_LOW: u8 = 0xF8;
/// The bits of 4D1h that can be written: lines 8 and 13 stay edge triggered.
const WRITABLE_HIGH: u8 = 0xDE;

/// The edge/level control registers: a bit at 1 makes its line level triggered. `board_example::pic` has an example.
#[derive(Drop)]
pub struct Elcr {
    pub(crate) low: u8,
    pub(crate) high: u8,
}

impl Model for Elcr {
    ghost use Rattle.device_spec.specs.Elcr.{Triggers};

    ghost Value = { Triggers };

    ghost view = { λ elcr. record { low = elcr.low; high = elcr.high } };
}

impl Elcr {
    /// The registers after a reset, with each line edge triggered.
    pub fn new() -> Elcr
        ensures edges { result ≡ triggers_at_reset }
    {
        Elcr { low: 0, high: 0 }
    }

    /// The byte of lines 8 to 15 (4D1h) where `high`, else that of lines 0 to 7 (4D0h).
    pub fn read(&self, high: bool) -> u8
        ensures byte { result ≡ trigger_byte self.now high }
    {
        if high { self.high } else { self.low }
    }

    /// Writes the byte of lines 8 to 15 (4D1h) where `high`, else that of lines 0 to 7 (4D0h).
    pub fn write(&mut self, high: bool, byte: u8)
        ensures written { self.new ≡ triggers_after_write self.old high byte }
    {
        if high {
            self.high = merged(WRITABLE_HIGH, self.high, byte);
        } else {
            self.low = merged(WRITABLE_LOW, self.low, byte);
        }
    }

    /// Makes each line edge triggered.
    pub fn reset(&mut self)
        ensures edges { self.new ≡ triggers_at_reset }
    {
        *self = Elcr::new();
    }
}
