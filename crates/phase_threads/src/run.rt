//! A script's phases, one after another.

ghost use Rattle.std.specs.Prelude.{◌≡◌, ◌<◌, ◌≤◌, ℕ, List, [], All, false, length, map, reverse, flat_map, IfOk};
ghost use Rattle.board_prelude.specs.{Entry as AnEntry, IsCardList, IsLegal, IsCompleteFor, entries_by};
ghost use Rattle.board_prelude.specs.{most_statements};
ghost use Rattle.run_order.specs.PhaseRun.{bare};
ghost use Rattle.run_order.specs.Places.{AreAllInPlace};
ghost use Rattle.phase_threads.specs.Placed.{entries_of, IsUpTo};
ghost use Rattle.phase_threads.specs.Jobs.{IsStatement, AreTold, CanDoPhase, GrowsBy, HasNoLook, HasRun, TakesIn};

use crate::alone::{only_actor, run_alone};
use crate::ended::EndedRun;
use crate::jobs::{
    begin, end, first_works, has_looks, is_refused, lines_of, next_works, run_jobs, works_of,
};
use crate::placing::Placing;
use crate::worker::Work;
use board_base::NoMemory;
use board_core::{Board, Steps, UnrecordedBoard};
use board_live::Live;
use board_outside::Gate;
use board_spec::Statement;
use run_order::laws::law_phase_runs;
use std::alloc::Global;
use std::sync::Wait;
use std::thread::Threads;

/// A board between two phases, and what its processors did in the last.
#[derive(Drop)]
pub(crate) struct Run {
    pub board: UnrecordedBoard,
    pub works: Vec<Work>,
}

/// Runs a phase: shares the board among the workers, and takes it back when all have ended.
fn run_workers<R: Threads + Wait + Sync, G: Gate>(
    rt: &R,
    alloc: Global,
    run: Run,
    phase: &[Statement],
    keeps: bool,
    gate: &G,
) -> Result<Run, NoMemory>
    requires can { CanDoPhase run phase.now }
    requires plain { keeps ≡ false → HasNoLook phase.now }
    ensures goes_on { IfOk result (GrowsBy phase.now run) }
    ensures run { IfOk result (λ next. (own : ℕ → List AnEntry) → AreTold own run.works.items
        → HasRun own run.board next.board phase.now next.works.items) }
{
    let Run { board, works } = run;
    let mut works = next_works(alloc, phase, keeps, works)?;
    let mut jobs = Vec::with_capacity(alloc, works.len())?;
    let Ok((live, mut cpus)) = Live::open(rt, alloc, board, works.len() as u8) else {
        jobs.destroy_empty();
        return Err(NoMemory);
    };
    begin(&mut cpus, &mut works, &mut jobs);
    run_jobs(rt, &live, phase, gate, &mut jobs);
    let refused = is_refused(&jobs);
    end(jobs, &mut cpus, &mut works);
    let board = live.close(rt, cpus);
    if refused {
        return Err(NoMemory);
    }
    Ok(Run { board, works })
}

/// Runs a phase: by one processor, where all its statements are of one, else by all.
fn run_any<R: Threads + Wait + Sync, G: Gate>(
    rt: &R,
    alloc: Global,
    run: Run,
    phase: &[Statement],
    gate: &G,
) -> Result<Run, NoMemory>
    requires can { CanDoPhase run phase.now }
    ensures goes_on { IfOk result (GrowsBy phase.now run) }
    ensures run { IfOk result (λ next. (own : ℕ → List AnEntry) → AreTold own run.works.items
        → HasRun own run.board next.board phase.now next.works.items) }
{
    let keeps = has_looks(phase);
    match only_actor(phase) {
        Some(actor) => run_alone(rt, alloc, run, actor, phase, keeps, gate),
        None => run_workers(rt, alloc, run, phase, keeps, gate),
    }
}

/// Runs a phase, and adds what it did to the order of the run. The memory of its statements is given back before.
fn run_phase<R: Threads + Wait + Sync, G: Gate>(
    rt: &R,
    alloc: Global,
    run: Run,
    phase: Vec<Statement>,
    gate: &G,
    placing: &mut Placing,
) -> Result<Run, NoMemory>
    requires cards { IsCardList run.board.setup.cards }
    requires can { CanDoPhase run phase.items }
    requires legal { IsLegal run.board.setup (entries_of placing.old.order run.board.entries) }
    requires same { bare (entries_of placing.old.order run.board.entries) ≡ bare run.board.entries }
    requires up_to { IsUpTo placing.old.order run.board.entries }
    requires told { AreTold (λ actor. entries_by actor (entries_of placing.old.order run.board.entries))
        run.works.items }
    ensures setup { IfOk result (λ next. next.board.setup ≡ run.board.setup) }
    ensures goes_on { IfOk result (GrowsBy phase.items run) }
    ensures takes_in { IfOk result (λ next. TakesIn phase.items run.board next.board next.works.items
        (entries_of placing.old.order run.board.entries) (entries_of placing.new.order next.board.entries)) }
    ensures up_to { IfOk result (λ next. IsUpTo placing.new.order next.board.entries) }
{
    let version = run.board.map().version();
    let opened = run.board.actors().len();
    let run = run_any(rt, alloc, run, &phase, gate)?;
    drop(phase);
    let actors = run.board.actors();
    placing.add(alloc, version, opened, actors, works_of(&run.works))?;
    law_phase_runs();
    Ok(run)
}

/// How many statements there are in all.
#[tactic(auto, using(crate::proofs::Phases::few_so_far))]
fn statements_in(phases: &[Vec<Statement>]) -> u32
    requires few { length (flat_map (λ phase. phase.items) phases.now) ≤ most_statements }
    ensures count { result ≡ length (flat_map (λ phase. phase.items) phases.now) }
{
    let mut count = 0;
    for statements in phases {
        count += statements.len() as u32;
    }
    count
}

/// The end of a run, with the order as far as it came.
fn ended(alloc: Global, run: Run, placing: Placing) -> Result<EndedRun, NoMemory>
    requires up_to { IsUpTo placing.order run.board.entries }
    requires actors { All (λ entry. entry.actor < length run.works.items)
        (entries_of placing.order run.board.entries) }
    requires told { AreTold (λ actor. entries_by actor (entries_of placing.order run.board.entries)) run.works.items }
    ensures entries { IfOk result (λ ended. ended.entries ≡ entries_of placing.order run.board.entries) }
{
    let Run { board, works } = run;
    let lines = lines_of(alloc, works)?;
    Ok(EndedRun::new(board, placing.order, lines))
}

/// Runs the phases of a script on a fresh board, with 1 to 8 processors. In each phase every processor does its own
/// statements on a thread of its own; the gate is called before and after each. The result has the history of the
/// run: it is legal, and has each phase's statements, with each look in its place. Refused for want of memory.
pub fn run_phases<R: Threads + Wait + Sync, G: Gate>(
    rt: &R,
    alloc: Global,
    board: Board,
    cpus: u8,
    phases: Vec<Vec<Statement>>,
    gate: &G,
) -> Result<EndedRun, NoMemory>
    requires fresh { board.entries ≡ [] }
    requires cards { IsCardList board.setup.cards }
    requires some { 1 ≤ cpus }
    requires few { cpus ≤ 8 }
    requires in_range { All (λ phase. All (IsStatement board.setup cpus) phase.items) phases.items }
    requires statements { length (flat_map (λ phase. phase.items) phases.items) ≤ most_statements }
    ensures legal { IfOk result (λ history. IsLegal board.setup history.entries) }
    ensures complete { IfOk result (λ history. IsCompleteFor (map (λ phase. phase.items) phases.items)
        history.entries) }
    ensures places { IfOk result (λ history. AreAllInPlace board.setup
        (reverse (map (λ phase. phase.items) phases.items)) history.entries) }
{
    let mut board = UnrecordedBoard::new(alloc, board.into_replay());
    let most = statements_in(&phases);
    board.reserve(most)?;
    let works = first_works(alloc, cpus)?;
    let mut run = Run { board, works };
    let mut placing = Placing {
        most: most as usize,
        order: None,
    };
    for phase in phases {
        run = run_phase(rt, alloc, run, phase, gate, &mut placing)?;
    }
    ended(alloc, run, placing)
}
