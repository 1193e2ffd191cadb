//! Replays of a script that need no history: what counts is the board that they leave.

ghost use Rattle.std.specs.Prelude.{◌≡◌, ◌+◌, ◌++◌, ◌<◌, [], List, length};
ghost use Rattle.board_prelude.specs.{Statement as AStatement, entry_limit};
ghost use Rattle.board_core.specs.Steps.{AreInRange};
ghost use Rattle.board_core.specs.Kept.{HasPlayed};
ghost use Rattle.script_spec.specs.ScriptRange.{IsInRangeScript, statements_in};
ghost use Rattle.scripts.specs.Script.{said_of};
ghost use Rattle.command_texts.specs.Fresh.{IsFreshFor};
ghost use Rattle.command_texts.specs.Plays.{HasDone};

use board_core::{Board, Replay};
use board_spec::Statement;
use scripts::Script;

/// Does the statements of a phase in their order.
#[tactic(auto, using(crate::proofs::PlayLemmas::done_answered, std::proofs::lemmas::Bool::Decides::nat_tests))]
fn play_phase(replay: &mut Replay, phase: &[Statement])
    requires in_range { AreInRange replay.old.chipset.setup phase.now }
    requires few { replay.old.count + length phase.now < entry_limit }
    ensures setup { replay.new.chipset.setup ≡ replay.old.chipset.setup }
    ensures count { replay.new.count ≡ replay.old.count + length phase.now }
    ensures done { (said : List AStatement) → HasDone replay.old said → HasDone replay.new (said ++ phase.now) }
{
    for statement in phase {
        replay.answer(statement.actor, &statement.event);
    }
}

/// Does the statements of a script in the order of its file. Nothing was played before.
fn play_script(replay: &mut Replay, script: &Script)
    requires in_range { IsInRangeScript (said_of script.now) }
    requires cards { replay.old.chipset.setup.cards ≡ (said_of script.now).cards }
    requires fresh { HasPlayed replay.old [] }
    ensures setup { replay.new.chipset.setup ≡ replay.old.chipset.setup }
    ensures done { HasDone replay.new (statements_in (said_of script.now)) }
{
    for phase in &script.phases {
        play_phase(replay, phase);
    }
}

/// The board after the replay of a script, without the history of it, for which it takes no memory.
pub(crate) fn played(board: Board, script: &Script) -> Replay
    requires fresh { IsFreshFor (said_of script.now) board }
    ensures setup { result.chipset.setup ≡ board.setup }
    ensures done { HasDone result (statements_in (said_of script.now)) }
{
    let mut replay = board.into_replay();
    play_script(&mut replay, script);
    replay
}
