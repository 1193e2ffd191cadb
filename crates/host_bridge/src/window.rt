//! The thirteen windows between C0000h and FFFFFh, and the PAM register of each.
ghost use Rattle.std.specs.Prelude.{◌≡◌, ◌≤◌, ◌↔◌, ℕ, false, IsNone, IfSome};
ghost use Rattle.board_prelude.specs.{pam_register, is_high_window, nibble, is_open, is_shadow_range, bridge};
ghost use Rattle.host_bridge.specs.Windows.{last_window, first_address, last_address, register_offset};

use board_base::Kind;
use board_spec::bits::is_set;
use board_spec::offset::PAM0;
use board_spec::range::{EXPANSION_RANGE, SYSTEM_BIOS};

/// The offset of the second PAM register. From here on each governs two windows, where PAM0 governs
/// the last window alone.
const PAM1: u8 = PAM0 + 1;

/// How many bytes each window has but the last, the system BIOS.
pub const WINDOW_SIZE: u32 = 0x4000;
/// The number of the last window.
const LAST: u8 = 12;

/// The bit of a window's nibble that sends reads and fetches to DRAM.
const READ_ENABLE: u32 = 0;
/// The bit of a window's nibble that sends writes to DRAM.
const WRITE_ENABLE: u32 = 1;

/// A window: its number, its first and last address, and the offset of its PAM register. Numbers 0 to
/// 11 have 16 KiB each from C0000h on, and number 12 is F0000h to FFFFFh.
#[derive(Clone, Copy)]
pub struct Window {
    pub index: u8,
    pub lo: u32,
    pub hi: u32,
    pub off: u8,
    ghost numbered: { index ≤ last_window },
    ghost first: { lo ≡ first_address index },
    ghost last: { hi ≡ last_address index },
    ghost register: { off ≡ register_offset index },
}

impl Window {
    /// Whether a byte of this window's PAM register opens it for a kind of access.
    #[inline(always)]
    pub(crate) fn is_opened_by(&self, pam: u8, kind: Kind) -> bool
        ensures opened { (addr : ℕ) → self.now.lo ≤ addr → addr ≤ self.now.hi
            → result ≡ is_open (nibble pam (is_high_window addr)) kind }
    {
        let enables = u32::from(self.enables(pam));
        match kind {
            Kind::Fetch | Kind::Read => is_set(enables, READ_ENABLE),
            Kind::Write => is_set(enables, WRITE_ENABLE),
        }
    }

    /// The nibble of the PAM register that governs this window.
    fn enables(&self, pam: u8) -> u8
        ensures nibble { (addr : ℕ) → self.now.lo ≤ addr → addr ≤ self.now.hi
            → result ≡ nibble pam (is_high_window addr) }
    {
        if self.is_high() { pam >> 4 } else { pam & 0x0F }
    }

    /// Whether the high nibble of the PAM register governs this window.
    fn is_high(&self) -> bool
        ensures high { (addr : ℕ) → self.now.lo ≤ addr → addr ≤ self.now.hi → result ≡ is_high_window addr }
    {
        self.index == LAST || self.index % 2 == 1
    }
}

/// The window of an address. None outside C0000h to FFFFFh.
pub fn window_of(addr: u32) -> Option<Window>
    ensures none { IsNone result ↔ (is_shadow_range addr ≡ false) }
    ensures within { IfSome result (λ window. (window.lo ≤ addr) × (addr ≤ window.hi)) }
    ensures register { IfSome result (λ window. bridge window.off ≡ pam_register addr) }
{
    if SYSTEM_BIOS.contains(addr) {
        return Some(Window {
            index: LAST,
            lo: SYSTEM_BIOS.first,
            hi: SYSTEM_BIOS.last,
            off: PAM0,
        });
    }
    if !EXPANSION_RANGE.contains(addr) {
        return None;
    }
    let index = (addr - EXPANSION_RANGE.first) / WINDOW_SIZE;
    let lo = EXPANSION_RANGE.first + index * WINDOW_SIZE;
    Some(Window {
        index: index as u8,
        lo,
        hi: lo + (WINDOW_SIZE - 1),
        off: PAM1 + (index / 2) as u8,
    })
}
