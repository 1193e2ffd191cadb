//! Runs of scripts on threads.

ghost use Rattle.std.specs.Prelude.{◌≡◌, [], All, reverse, IfOk, IsTrue};
ghost use Rattle.board_prelude.specs.{IsLegal, IsCompleteFor};
ghost use Rattle.run_order.specs.Places.{AreAllInPlace};
ghost use Rattle.script_spec.specs.ScriptRange.{IsInRangeScript};
ghost use Rattle.scripts.specs.Script.{said_of};
ghost use Rattle.command_texts.specs.Fresh.{IsFreshFor};
ghost use Rattle.board_commands.specs.Texts.{IsRunText};

use board_base::NoMemory;
use board_core::Board;
use board_outside::Gate;
use board_spec::Statement;
use board_spec::laws::law_lock;
use command_texts::log_of_replay;
use logs::Text;
use phase_threads::{EndedRun, run_phases};
use scripts::Script;
use std::alloc::Global;
use std::sync::Wait;
use std::thread::Threads;

/// Runs a script on a fresh board with its cards: in each phase every processor does its statements on a thread of its
/// own, and calls the gate before and after each. A phase begins when the one before has ended. The history is legal
/// and has the statements of each phase, each look in its place. A phase's statements are given back when it has ended.
pub fn run_script<R: Threads + Wait + Sync, G: Gate>(
    rt: &R,
    alloc: Global,
    board: Board,
    script: Script,
    gate: &G,
) -> Result<EndedRun, NoMemory>
    requires in_range { IsInRangeScript (said_of script) }
    requires cards { board.setup.cards ≡ (said_of script).cards }
    requires fresh { board.entries ≡ [] }
    ensures legal { IfOk result (λ history. IsLegal board.setup history.entries) }
    ensures complete { IfOk result (λ history. IsCompleteFor (said_of script).phases history.entries) }
    ensures places { IfOk result (λ history. AreAllInPlace board.setup
        (reverse (said_of script).phases) history.entries) }
{
    run_phases(rt, alloc, board, script.cpus, script.phases, gate)
}

/// The processor of a script's first statement, and 0 where there is none.
fn first_actor(phases: &[Vec<Statement>]) -> u8 {
    for phase in phases {
        if let Some(first) = phase.first() {
            return first.actor;
        }
    }
    0
}

/// Whether all statements of a phase are of one processor.
fn is_by(phase: &[Statement], actor: u8) -> bool
    ensures by { IsTrue result → All (λ statement. statement.actor ≡ actor) phase.now }
{
    phase.iter().all(|statement| statement.actor == actor)
}

/// Whether all statements of a script are of one processor.
fn are_by(phases: &[Vec<Statement>], actor: u8) -> bool
    ensures by { IsTrue result → All (λ phase. All (λ statement. statement.actor ≡ actor) phase.items) phases.now }
{
    phases.iter().all(|phase| is_by(phase, actor))
}

/// The log of a run of a script whose statements are all of one processor: that of its replay, since nobody else acts
/// meanwhile. No gate is called.
fn log_of_one(alloc: Global, board: Board, script: &Script, actor: u8) -> Result<Text, NoMemory>
    requires fresh { IsFreshFor (said_of script.now) board }
    requires one { All (All (λ statement. statement.actor ≡ actor)) (said_of script.now).phases }
    ensures text { IfOk result (λ text. IsRunText board.setup (said_of script.now) text) }
{
    log_of_replay(alloc, board, script)
}

/// The log of a run of a script. As many threads write it as the script has processors, where more than one has
/// statements.
#[tactic(auto, using(std::proofs::lemmas::Bool::Decides::nat_tests))]
pub(crate) fn log_of_run<R: Threads + Wait + Sync, G: Gate>(
    rt: &R,
    alloc: Global,
    board: Board,
    script: Script,
    gate: &G,
) -> Result<Text, NoMemory>
    requires in_range { IsInRangeScript (said_of script) }
    requires cards { board.setup.cards ≡ (said_of script).cards }
    requires fresh { board.entries ≡ [] }
    ensures text { IfOk result (λ text. IsRunText board.setup (said_of script) text) }
{
    let only = first_actor(&script.phases);
    if are_by(&script.phases, only) {
        return log_of_one(alloc, board, &script, only);
    }
    let (version, cpus) = (script.version, script.cpus);
    let ended = run_script(rt, alloc, board, script, gate)?;
    let text = ended.log(rt, alloc, cpus, version)?;
    law_lock();
    Ok(text)
}
