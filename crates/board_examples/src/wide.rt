//! Accesses that are not aligned, or have 8 bytes.

ghost use Rattle.board_examples.specs.Wide.{CutInParts, CutInPartsLogged, OverSmram, OverSmramLogged, PastTheMemory};

/// A wide access is cut into aligned parts, each with its own target and denial.
#[tactic(auto, using(crate::proofs::Histories::histories, crate::proofs::CheckedLogRuns::logged))]
pub fn cut_in_parts()
    ensures history { CutInParts }
    ensures log { CutInPartsLogged }
{}

/// A word of which one byte lies in locked SMRAM.
#[tactic(auto, using(crate::proofs::Histories::histories, crate::proofs::CheckedLogRuns::logged))]
pub fn over_smram()
    ensures history { OverSmram }
    ensures log { OverSmramLogged }
{}

/// DRAM that is not installed, below the top.
#[tactic(auto, using(crate::proofs::Histories::histories))]
pub fn past_the_memory()
    ensures history { PastTheMemory }
{}
