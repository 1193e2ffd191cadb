//! The programmable attribute map registers, PAM0 to PAM6 (82441FX).
ghost use Rattle.std.specs.Prelude.{◌≡◌, ◌≤◌, ℕ};
ghost use Rattle.board_prelude.specs.{One, Store, Setup, reset_byte, changed_byte, Bytes, is_shadowed, bridge};
ghost use Rattle.host_bridge.specs.Pam.{IsPamOffset, IsPamOf, pam_byte};

use crate::window::Window;
use board_base::Kind;
use board_spec::bits::merged;
use board_spec::offset::PAM0;
use std::marker::Model;

/// What each register holds after a reset: every window is closed.
pub const PAM_RESET: u8 = 0x00;
/// The bits of each register that can be written. PAM0 governs one window, by its high nibble.
const WRITABLE: [u8; 7] = [0x30, 0x33, 0x33, 0x33, 0x33, 0x33, 0x33];

/// The seven PAM registers. Contracts see the list of their bytes.
#[derive(Drop)]
pub struct Pam {
    bytes: [u8; 7],
}

impl Model for Pam {
    ghost use Rattle.std.specs.Prelude.{ℕ, List};

    ghost Value = { List ℕ };

    ghost view = { λ pam. pam.bytes };
}

impl Pam {
    /// The registers after a reset: every window is closed.
    pub fn new() -> Pam
        ensures reset { (setup : Setup) → IsPamOf (reset_byte setup) result }
    {
        Pam {
            bytes: [PAM_RESET; 7],
        }
    }

    /// The register at an offset from PAM0 to PAM6.
    pub fn read(&self, off: u8) -> u8
        requires offset { IsPamOffset off }
        ensures byte { result ≡ pam_byte self.now off }
    {
        self.bytes[usize::from(off - PAM0)]
    }

    /// Writes the register at an offset from PAM0 to PAM6. Reserved bits stay 0.
    pub fn write(&mut self, off: u8, byte: u8)
        requires offset { IsPamOffset off }
        ensures written { (setup : Setup) (bytes : Bytes) → IsPamOf bytes self.old
            → IsPamOf (λ reg. changed_byte setup (Store (bridge off) One byte) reg (bytes reg)) self.new }
    {
        store_pam(&mut self.bytes, off, byte);
    }

    /// Closes every window.
    pub fn reset(&mut self)
        ensures reset { (setup : Setup) → IsPamOf (reset_byte setup) self.new }
    {
        *self = Pam::new();
    }

    /// Whether a window is open for a kind of access, which then reaches DRAM at its own address.
    pub fn opens(&self, window: &Window, kind: Kind) -> bool
        ensures shadowed { (bytes : Bytes) (addr : ℕ) → IsPamOf bytes self.now
            → window.now.lo ≤ addr → addr ≤ window.now.hi → result ≡ is_shadowed bytes addr kind }
    {
        opens(&self.bytes, window, kind)
    }
}

/// Whether seven PAM registers that stand as plain bytes open a window for a kind of access.
#[inline(always)]
pub fn opens(pam: &[u8; 7], window: &Window, kind: Kind) -> bool
    ensures shadowed { (bytes : Bytes) (addr : ℕ) → IsPamOf bytes pam.now
        → window.now.lo ≤ addr → addr ≤ window.now.hi → result ≡ is_shadowed bytes addr kind }
{
    window.is_opened_by(pam[usize::from(window.off - PAM0)], kind)
}

/// Stores a byte in one of seven PAM registers that stand as plain bytes, by its offset from PAM0 to PAM6. Reserved
/// bits stay as they were.
pub fn store_pam(pam: &mut [u8; 7], off: u8, byte: u8)
    requires offset { IsPamOffset off }
    ensures stored { (setup : Setup) (bytes : Bytes) → IsPamOf bytes pam.old
        → IsPamOf (λ reg. changed_byte setup (Store (bridge off) One byte) reg (bytes reg)) pam.new }
{
    let at = usize::from(off - PAM0);
    pam[at] = merged(WRITABLE[at], pam[at], byte);
}
