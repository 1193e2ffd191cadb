//! Laws of the devices, the interrupt lines and the 8259A pair after a history.

ghost use Rattle.board_spec.specs.DeviceLaws.{FirstLevels};
ghost use Rattle.board_laws.specs.DeviceLaws.{LineHasDriver, LinesStay, OthersStay, PulsesAdd, UndrivenLines};
ghost use Rattle.board_laws.specs.DeviceLaws.{WireReachesLine};
ghost use Rattle.board_laws.specs.ResetLaws.{HardResetKeeps, HardResetResets};
ghost use Rattle.board_laws.specs.SystemPortLaw.{SystemPortByBits};

use device_spec::laws::{pulses_add_up, reserved_lines_rest};

/// Without a hard reset an entry changes only the device that its reply names.
#[tactic(auto, using(crate::proofs::DeviceProofs::others_stay))]
pub fn law_others_stay()
    ensures stay { OthersStay }
{}

/// The interrupt lines: which stay, which are never driven, and how a board begins.
pub fn law_lines()
    ensures stay { LinesStay }
    ensures undriven { UndrivenLines }
    ensures first { FirstLevels }
{
    reserved_lines_rest();
}

/// A line is at 1 where a card's INTA# is that is routed to it, and else only by the device of the line.
#[tactic(auto, using(crate::proofs::DeviceProofs::wire_reaches_line, crate::proofs::DeviceProofs::line_has_driver))]
pub fn law_wires()
    ensures reaches { WireReachesLine }
    ensures driver { LineHasDriver }
{}

/// What a read of port 61h gives, bit by bit.
#[tactic(auto, using(std::proofs::lemmas::Bool::Decides::nat_tests))]
pub fn law_system_port()
    ensures bits { SystemPortByBits }
{}

/// Pulses add up.
pub fn law_pulses()
    ensures add { PulsesAdd }
{
    pulses_add_up();
}

/// A hard reset puts every register and device in its reset state, and keeps DRAM, the cards' bytes and the
/// levels from outside.
pub fn law_hard_reset()
    ensures resets { HardResetResets }
    ensures keeps { HardResetKeeps }
{}
