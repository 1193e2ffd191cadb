//! The registers after a reset.

ghost use Rattle.board_examples.specs.Resets.{BridgesAfterReset, CardsAfterReset};

/// Every writable register of the bridges and of two cards, read before it is written.
#[tactic(auto, using(crate::proofs::Histories::histories))]
pub fn registers_after_reset()
    ensures bridges { BridgesAfterReset }
    ensures cards { CardsAfterReset }
{}
