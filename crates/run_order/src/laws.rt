//! The laws of the places. Each function does nothing: its clause is the law.

ghost use Rattle.run_order.specs.PhaseRun.{AnswersAreBlind, PhaseRuns};

use board_spec::laws::devices::law_memory_leaves_devices;

/// No answer depends on the looks before it, nor on how the entries before it are numbered.
pub fn law_blind_answers()
    ensures blind { AnswersAreBlind }
{
    law_memory_leaves_devices();
}

/// With the looks of a phase placed, the history of a run stays legal and that of the bus, and has one phase more, in
/// which each look is in its place.
pub fn law_phase_runs()
    ensures runs { PhaseRuns }
{
    law_blind_answers();
}
