//! The log of a replay: each line is written as its statement is done, and no history is kept.

ghost use Rattle.std.specs.Prelude.{◌≡◌, ◌+◌, ◌++◌, ◌<◌, ℕ, List, [], length, string_bytes, IfOk, OnOk};
ghost use Rattle.board_prelude.specs.{Statement as AStatement, entry_limit};
ghost use Rattle.board_core.specs.Steps.{AreInRange};
ghost use Rattle.board_core.specs.Kept.{HasPlayed};
ghost use Rattle.script_spec.specs.ScriptRange.{IsInRangeScript, statements_in};
ghost use Rattle.scripts.specs.Script.{said_of};
ghost use Rattle.command_texts.specs.Fresh.{IsFreshFor};
ghost use Rattle.command_texts.specs.Replays.{IsReplayText};
ghost use Rattle.command_texts.specs.ReplayLog.{HasLog};

use board_base::NoMemory;
use board_core::{Board, Replay};
use board_spec::Statement;
use board_spec::laws::law_lock;
use log_check::statement_count;
use logs::{Text, push_heading, push_parts_line};
use scripts::Script;
use std::alloc::Global;

/// The room for a line, in bytes. Most have fewer.
const LINE_ROOM: usize = 64;

/// Does the statements of a phase in their order, and appends the line of each entry.
#[tactic(auto, using(crate::proofs::ReplayLogs::log_answered, std::proofs::lemmas::Bool::Decides::nat_tests))]
fn push_phase(text: &mut String, replay: &mut Replay, phase: &[Statement]) -> Result<(), NoMemory>
    requires in_range { AreInRange replay.old.chipset.setup phase.now }
    requires few { replay.old.count + length phase.now < entry_limit }
    ensures setup { replay.new.chipset.setup ≡ replay.old.chipset.setup }
    ensures count { OnOk result (replay.new.count ≡ replay.old.count + length phase.now) }
    ensures log { (version : ℕ) (said : List AStatement) → HasLog version replay.old said (string_bytes text.old)
        → OnOk result (HasLog version replay.new (said ++ phase.now) (string_bytes text.new)) }
{
    for statement in phase {
        let reply = replay.answer(statement.actor, &statement.event);
        let n = u64::from(replay.count());
        let seq = replay.last_of(statement.actor);
        push_parts_line(text, n, statement.actor, seq, &statement.event, &reply)?;
    }
    Ok(())
}

/// Writes the log of a script's replay to an empty text. Nothing was played before.
fn push_replay(text: &mut String, replay: &mut Replay, script: &Script) -> Result<(), NoMemory>
    requires in_range { IsInRangeScript (said_of script.now) }
    requires cards { replay.old.chipset.setup.cards ≡ (said_of script.now).cards }
    requires fresh { HasPlayed replay.old [] }
    requires empty { string_bytes text.old ≡ [] }
    ensures setup { replay.new.chipset.setup ≡ replay.old.chipset.setup }
    ensures log { OnOk result (HasLog (said_of script.now).version replay.new (statements_in (said_of script.now))
        (string_bytes text.new)) }
{
    push_heading(text, script.version)?;
    for phase in &script.phases {
        push_phase(text, replay, phase)?;
    }
    Ok(())
}

/// An empty text with room for the log of a script, so that it need not grow where no line is longer than most.
fn text_for(alloc: Global, script: &Script) -> Result<String, NoMemory>
    requires in_range { IsInRangeScript (said_of script.now) }
    ensures empty { IfOk result (λ text. string_bytes text ≡ []) }
{
    let lines = statement_count(&script.phases) as usize;
    let text = String::with_capacity(alloc, lines.saturating_add(1).saturating_mul(LINE_ROOM))?;
    Ok(text)
}

/// The log of a script's replay on its board, which keeps no history meanwhile.
#[tactic(auto, using(std::proofs::lemmas::Bool::Decides::nat_tests))]
pub fn log_of_replay(alloc: Global, board: Board, script: &Script) -> Result<Text, NoMemory>
    requires fresh { IsFreshFor (said_of script.now) board }
    ensures text { IfOk result (λ text. IsReplayText board.setup (said_of script.now) text) }
{
    let mut replay = board.into_replay();
    let mut text = text_for(alloc, script)?;
    push_replay(&mut text, &mut replay, script)?;
    law_lock();
    Text::whole(alloc, text)
}
