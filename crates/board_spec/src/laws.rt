//! Laws of the definitions. Each function does nothing: its clause is the law.

ghost use Rattle.board_spec.specs.Laws.{LegalKeepsLock, OneFlatMap, OneReplay, SomeReplay};
ghost use Rattle.board_spec.specs.PartLaws.{CutIntoParts};

pub mod devices;

/// Two flat maps of the same registers are one list of ranges.
pub fn law_one_flat_map()
    ensures one { OneFlatMap }
{}

/// Once DLCK is set, nothing outside SMM reaches SMRAM until a hard reset, in every legal history.
#[tactic(auto, using(crate::proofs::LockLaws::legal_keeps_lock))]
pub fn law_lock()
    ensures kept { LegalKeepsLock }
{}

/// Every list of statements has a replay, and only one.
#[tactic(auto, using(crate::proofs::ReplayLaws::some_replay, crate::proofs::ReplayLaws::one_replay))]
pub fn law_one_replay()
    ensures some { SomeReplay }
    ensures one { OneReplay }
{}

/// A wide access is cut into two to four aligned accesses that follow one another and make up its value.
pub fn law_parts()
    ensures cut { CutIntoParts }
{}
