//! The reset control register, port 0CF9h of the 82371SB.

ghost use Rattle.std.specs.Prelude.{◌≡◌, ◌<◌, ◌↔◌, true, Some};
ghost use Rattle.board_prelude.specs.{Port, control_written, is_hard_value, control_after};
ghost use Rattle.board_chipset.specs.Resets.{reset_by, reset_by_written};

use board_base::{PortAccess, Width};
use board_spec::Event;
use board_spec::bits::is_set;
use board_spec::port::RESET_CONTROL;
use std::marker::Model;

/// The number of the bit whose rise resets.
const RESET_CPU: u32 = 2;
/// The number of the bit by which that reset is a hard one.
const SYSTEM_RESET: u32 = 1;
/// The bits that the register keeps.
const KEPT: u8 = 0x06;

/// A reset that a write of reset control makes: none, one of the processor alone, or one of the whole board.
#[derive(Clone, Copy, PartialEq, Eq, Debug)]
pub enum ResetKind {
    None,
    Soft,
    Hard,
}

impl ResetKind {
    /// Whether it resets the whole board.
    pub fn is_hard(self) -> bool
        ensures hard { (result ≡ true) ↔ (self ≡ ResetKind.Hard) }
    {
        matches!(self, ResetKind::Hard)
    }
}

/// The reset control register. Contracts see its byte, of which bits 2 and 1 are kept.
#[derive(Drop)]
pub struct ResetControl {
    byte: u8,
}

impl Model for ResetControl {
    ghost use Rattle.std.specs.Prelude.{ℕ};

    ghost Value = { ℕ };

    ghost view = { λ control. control.byte };
}

impl ResetControl {
    /// The register after a reset: 0.
    pub fn new() -> ResetControl
        ensures zero { result ≡ 0 }
    {
        ResetControl { byte: 0 }
    }

    /// The register that holds this byte.
    pub(crate) fn holding(byte: u8) -> ResetControl
        ensures byte { result ≡ byte }
    {
        ResetControl { byte }
    }

    /// The byte of the register.
    pub fn read(&self) -> u8
        ensures byte { result ≡ self.now }
        ensures small { self.now < 256 }
    {
        self.byte
    }

    /// Writes the register. Returns whether that makes a hard reset: where bits 2 and 1 are written as 1 and bit 2 was
    /// 0. A hard reset leaves the register at 0.
    pub fn write(&mut self, byte: u8) -> bool
        ensures hard { result ≡ is_hard_value self.old byte }
        ensures byte { self.new ≡ control_after self.old (Some byte) }
    {
        let hard = self.resets(byte.into());
        self.byte = if hard { 0 } else { byte & KEPT };
        hard
    }

    /// The reset that a write of this value would make: where bit 2 rises, a hard one with bit 1 and else a soft one.
    pub fn reset_by(&self, value: u32) -> ResetKind
        ensures kind { result ≡ reset_by self.now value }
    {
        if !is_set(value, RESET_CPU) || is_set(self.byte.into(), RESET_CPU) {
            return ResetKind::None;
        }
        if is_set(value, SYSTEM_RESET) {
            return ResetKind::Hard;
        }
        ResetKind::Soft
    }

    /// Whether a write of this value would make a hard reset.
    pub fn resets(&self, value: u32) -> bool
        ensures hard { result ≡ is_hard_value self.now value }
    {
        is_set(value, RESET_CPU)
            && is_set(value, SYSTEM_RESET)
            && !is_set(self.byte.into(), RESET_CPU)
    }
}

/// The reset that an event would make, with reset control as it stands.
pub fn reset_of(control: &ResetControl, event: &Event) -> ResetKind
    ensures kind { result ≡ reset_by_written control.now (control_written event.now) }
{
    match event {
        Event::Port(access) => reset_of_access(control, access),
        _ => ResetKind::None,
    }
}

/// The reset that an access at a port would make.
pub fn reset_of_access(control: &ResetControl, access: &PortAccess) -> ResetKind
    ensures kind { result ≡ reset_by_written control.now (control_written (Port access.now)) }
{
    if access.write && access.port == RESET_CONTROL && access.width == Width::One {
        return control.reset_by(access.value);
    }
    ResetKind::None
}
