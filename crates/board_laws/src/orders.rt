//! Laws of the orders in which a script may run.

ghost use Rattle.board_spec.specs.OrderLaws.{BegunGoesOn, BegunIsBounded, CompleteIsBegun, CompleteIsWhole};
ghost use Rattle.board_spec.specs.OrderLaws.{FrontIsBegun, ReplayIsComplete, WholeIsComplete};

/// The replay of a script is one of its complete histories.
#[tactic(auto, using(board_spec::proofs::OrderLawProofs::replay_is_complete))]
pub fn law_replay_is_complete()
    ensures complete { ReplayIsComplete }
{}

/// A history is begun where it is complete, and where a longer one is begun.
#[tactic(auto, using(board_spec::proofs::OrderLawProofs::complete_is_begun, board_spec::proofs::OrderLawProofs::front_is_begun))]
pub fn law_begun()
    ensures complete { CompleteIsBegun }
    ensures front { FrontIsBegun }
{}

/// A legal history that is begun and not complete goes on.
#[tactic(auto, using(board_spec::proofs::GoesOnProofs::begun_goes_on))]
pub fn law_goes_on()
    ensures goes_on { BegunGoesOn }
{}

/// A begun history has at most as many entries as the script has statements, and as many where it is complete.
#[tactic(auto, using(board_spec::proofs::OrderLengths::begun_is_bounded, board_spec::proofs::OrderLengths::whole_is_complete, board_spec::proofs::OrderLengths::complete_is_whole))]
pub fn law_begun_by_length()
    ensures bounded { BegunIsBounded }
    ensures complete { WholeIsComplete }
    ensures whole { CompleteIsWhole }
{}
