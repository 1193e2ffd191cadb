//! Worked examples of the UART: each function does nothing, and its clause is the example.

ghost use Rattle.library_examples.specs.Serial.{EachPort, LoopedLeavesEmpty, QueueBorders, SentLeavesEmpty};

/// A byte that is written to THR leaves it empty, in loopback and out of it.
#[tactic(auto, using(crate::proofs::SerialRuns::serial))]
pub fn written_leaves_empty()
    ensures looped { LoopedLeavesEmpty }
    ensures sent { SentLeavesEmpty }
{}

/// How many bytes wait, with FIFOs and without.
#[tactic(auto, using(crate::proofs::SerialRuns::serial))]
pub fn queue_borders()
    ensures waits { QueueBorders }
{}

/// The ports of COM1, from 3F8h to 3FFh.
#[tactic(auto, using(crate::proofs::SerialRuns::serial))]
pub fn each_port()
    ensures ports { EachPort }
{}
