//! Worked examples of refusals: each function does nothing, and its clause is the example.

ghost use Rattle.library_examples.specs.Refusals.{EachRefusal};

/// Why no bytes of a sector are told.
#[tactic(auto, using(crate::proofs::RefusalRuns::each_refusal))]
pub fn each_refusal()
    ensures causes { EachRefusal }
{}
