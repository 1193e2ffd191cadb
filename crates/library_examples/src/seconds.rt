//! Worked examples of a second of the clock: each function does nothing, and its clause is the example.

ghost use Rattle.library_examples.specs.Seconds.{MomentsShown, SecondsPass};

/// What the registers of the clock say, in each of their forms.
#[tactic(auto, using(crate::proofs::SecondRuns::seconds))]
pub fn moments_shown()
    ensures shown { MomentsShown }
{}

/// What comes a second later.
#[tactic(auto, using(crate::proofs::SecondRuns::seconds))]
pub fn seconds_pass()
    ensures pass { SecondsPass }
{}
