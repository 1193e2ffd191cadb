//! The log's text of every kind of target and event.

ghost use Rattle.board_examples.specs.Targets.{DeviceLinesLogged, MemoryLinesLogged};

/// The devices.
#[tactic(auto, using(crate::proofs::CheckedLogRuns::logged))]
pub fn device_lines_logged()
    ensures log { DeviceLinesLogged }
{}

/// Memory, parts and looks.
#[tactic(auto, using(crate::proofs::CheckedLogRuns::logged))]
pub fn memory_lines_logged()
    ensures log { MemoryLinesLogged }
{}
