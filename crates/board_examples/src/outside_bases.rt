//! Bases whose bytes the board does not keep.

ghost use Rattle.board_examples.specs.OutsideBases.{OutsideBaseRead};

/// 256 MiB that decode as a base in memory, give ones, and keep nothing.
#[tactic(auto, using(crate::proofs::LookRuns::looks))]
pub fn outside_base()
    ensures history { OutsideBaseRead }
{}
