//! Worked examples of records, by the numbers of `board.h`: each function does nothing, and its clause is the example.

ghost use Rattle.library_examples.specs.Records.{MemorySaid, OthersSaid, RecordBorders, TimeSaid};

/// What records of accesses to memory say.
#[tactic(auto, using(crate::proofs::RecordRuns::records))]
pub fn memory_said()
    ensures events { MemorySaid }
{}

/// What records of every other kind say.
#[tactic(auto, using(crate::proofs::RecordRuns::records))]
pub fn others_said()
    ensures events { OthersSaid }
{}

/// What the digits of a moment say.
#[tactic(auto, using(crate::proofs::RecordRuns::records))]
pub fn time_said()
    ensures events { TimeSaid }
{}

/// The last numbers that go where a record says them, and the first that do not.
#[tactic(auto, using(crate::proofs::RecordRuns::records))]
pub fn record_borders()
    ensures borders { RecordBorders }
{}
