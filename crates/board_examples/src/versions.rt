//! Map writes, and histories that break the lock law.

ghost use Rattle.board_examples.specs.Versions.{UnseenWrites, SeenWrites, AccessBreaksLock, PartBreaksLock};
ghost use Rattle.board_examples.specs.Versions.{LookBreaksLock, WordBreaksLock};

/// Which writes raise the version of the map.
#[tactic(auto, using(crate::proofs::Histories::versions))]
pub fn map_writes_counted()
    ensures unseen { UnseenWrites }
    ensures seen { SeenWrites }
{}

/// The lock law refuses each way to name SMRAM from outside SMM.
#[tactic(auto, using(crate::proofs::Histories::versions))]
pub fn lock_law_broken()
    ensures access { AccessBreaksLock }
    ensures part { PartBreaksLock }
    ensures look { LookBreaksLock }
    ensures word { WordBreaksLock }
{}
