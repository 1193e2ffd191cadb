//! The workers of a phase: each has a caller of the shared board.

ghost use Rattle.std.specs.Prelude.{◌≡◌, ◌<◌, ◌≤◌, ℕ, [], All, false, length, map, reverse, slice_index, vec_capacity};
ghost use Rattle.std.specs.Prelude.{IfOk, IsTrue, IsFalse};
ghost use Rattle.std.specs.List.{AllZip};
ghost use Rattle.std.specs.Thread.{IsSync};
ghost use Rattle.board_prelude.specs.{events_by};
ghost use Rattle.run_order.specs.Placing.{is_look};
ghost use Rattle.phase_threads.specs.Works.{page};
ghost use Rattle.phase_threads.specs.Jobs.{CanRun, Runs, AreDue, HasNoLook, done_in, pages_in};

use crate::worker::Work;
use board_base::NoMemory;
use board_core::UnrecordedBoard;
use board_live::{Cpu, Live};
use board_outside::Gate;
use board_spec::limits::ACTORS;
use board_spec::{Event, Statement};
use run_log::Lines;
use run_order::Works;
use std::alloc::Global;
use std::sync::Wait;
use std::thread::{Threads, join_mut};

/// A worker, with the caller that it has in a phase.
pub(crate) struct Job {
    pub cpu: Cpu<UnrecordedBoard>,
    pub work: Work,
    /// There was no memory for one of its statements.
    pub refused: bool,
}

impl Job {
    /// Does the statements of one processor.
    fn run<R: Wait, G: Gate>(
        &mut self,
        live: &Live<UnrecordedBoard>,
        rt: &R,
        phase: &[Statement],
        gate: &G,
    )
        requires can { CanRun live.now phase.now self.old }
        ensures runs { Runs live.now phase.now self.old self.new }
    {
        self.refused = self.work.run(&mut self.cpu, live, rt, phase, gate).is_err();
    }
}

/// Whether none of these workers has a statement in the phase.
fn are_idle(jobs: &[Job]) -> bool
    ensures idle { IsTrue result → All (λ job. job.work.due ≡ 0) jobs.now }
{
    jobs.iter().all(|job| job.work.due == 0)
}

/// Does a phase: each worker that has statements in it on a thread of its own, of which the calling thread is one. The
/// others stay as they are. All have ended when it returns.
#[cycle(halves)]
pub(crate) fn run_jobs<R: Threads + Wait + Sync, G: Gate>(
    rt: &R,
    live: &Live<UnrecordedBoard>,
    phase: &[Statement],
    gate: &G,
    jobs: &mut [Job],
)
    requires some { 0 < length jobs.old }
    requires can { All (CanRun live.now phase.now) jobs.old }
    ensures runs { AllZip (Runs live.now phase.now) jobs.old jobs.new }
{
    if jobs.len() == 1 {
        jobs[0].run(live, rt, phase, gate);
        return;
    }
    let (low, high) = jobs.split_at_mut(jobs.len() / 2);
    if are_idle(low) {
        run_jobs(rt, live, phase, gate, high);
    } else if are_idle(high) {
        run_jobs(rt, live, phase, gate, low);
    } else {
        run_both(rt, live, phase, gate, low, high);
    }
}

/// Does a phase, the first workers on another thread and the rest on this one.
#[cycle(halves)]
fn run_both<R: Threads + Wait + Sync, G: Gate>(
    rt: &R,
    live: &Live<UnrecordedBoard>,
    phase: &[Statement],
    gate: &G,
    low: &mut [Job],
    high: &mut [Job],
)
    requires some_low { 0 < length low.old }
    requires some_high { 0 < length high.old }
    requires can_low { All (CanRun live.now phase.now) low.old }
    requires can_high { All (CanRun live.now phase.now) high.old }
    ensures low { AllZip (Runs live.now phase.now) low.old low.new }
    ensures high { AllZip (Runs live.now phase.now) high.old high.new }
{
    join_mut(
        rt,
        &mut ||
            requires { IsSync R.row × IsSync G.row × (0 < length low.now) × All (CanRun live.now phase.now) low.now }
            ensures { AllZip (Runs live.entry.now phase.entry.now) low.entry.now low.exit.now }
        { run_jobs(rt, live, phase, gate, low) },
        &mut ||
            requires { IsSync R.row × IsSync G.row × (0 < length high.now) × All (CanRun live.now phase.now) high.now }
            ensures { AllZip (Runs live.entry.now phase.entry.now) high.entry.now high.exit.now }
        { run_jobs(rt, live, phase, gate, high) },
    );
}

/// Whether an event is a look.
fn is_look(event: &Event) -> bool
    ensures look { result ≡ is_look event.now }
{
    match event {
        Event::Look { .. } => true,
        _ => false,
    }
}

/// Whether a statement of a phase is a look.
pub(crate) fn has_looks(phase: &[Statement]) -> bool
    ensures none { IsFalse result → HasNoLook phase.now }
{
    phase.iter().any(|statement| is_look(&statement.event))
}

/// How many statements each processor has in a phase.
fn own_in(phase: &[Statement]) -> [usize; ACTORS]
    ensures own { (actor : ℕ) → actor < 256 → slice_index result actor ≡ length (events_by actor phase.now) }
{
    let mut counts = [0_usize; ACTORS];
    for statement in phase {
        counts[usize::from(statement.actor)] += 1;
    }
    counts
}

/// The work of each of `cpus` processors before the first phase.
pub(crate) fn first_works(alloc: Global, cpus: u8) -> Result<Vec<Work>, NoMemory>
    ensures count { IfOk result (λ works. length works.items ≡ cpus) }
    ensures none { IfOk result (λ works. All (λ work. page work ≡ ([], 0)) works.items) }
{
    let mut works = Vec::with_capacity(alloc, usize::from(cpus))?;
    for _ in 0..cpus {
        works.push(Work {
            lines: Lines::new(alloc),
            asked: 0,
            done: Vec::new(alloc),
            keeps: false,
            due: 0,
        })?;
    }
    Ok(works)
}

/// The work of each processor in the next phase. What it does is kept where `keeps` says so, and there is room for it.
pub(crate) fn next_works(
    alloc: Global,
    phase: &[Statement],
    keeps: bool,
    works: Vec<Work>,
) -> Result<Vec<Work>, NoMemory>
    requires few { length works.items ≤ 8 }
    ensures pages { IfOk result (λ next. pages_in next.items ≡ pages_in works.items) }
    ensures empty { IfOk result (λ next. All (λ work. work.done.items ≡ []) next.items) }
    ensures keeps { IfOk result (λ next. All (λ work. work.keeps ≡ keeps) next.items) }
    ensures due { IfOk result (λ next. AreDue phase.now next.items) }
{
    let own = own_in(phase);
    let mut next = Vec::with_capacity(alloc, works.len())?;
    for work in works {
        let due = own[next.len()];
        let work = work.for_phase(alloc, keeps, due)?;
        next.push(work)?;
    }
    Ok(next)
}

/// The lines of each processor, from processor 0 on.
pub(crate) fn lines_of(alloc: Global, works: Vec<Work>) -> Result<Vec<Lines>, NoMemory>
    ensures lines { IfOk result (λ lines. lines.items ≡ map (λ work. work.lines) works.items) }
{
    let mut all = Vec::with_capacity(alloc, works.len())?;
    for work in works {
        let Work { lines, .. } = work;
        all.push(lines)?;
    }
    Ok(all)
}

/// Gives each caller its work. What is left has room for as many.
pub(crate) fn begin(
    cpus: &mut Vec<Cpu<UnrecordedBoard>>,
    works: &mut Vec<Work>,
    jobs: &mut Vec<Job>,
)
    requires same { length works.old.items ≡ length cpus.old.items }
    requires none { jobs.old.items ≡ [] }
    requires room { length cpus.old.items ≤ vec_capacity jobs.old }
    ensures cpus { map (λ job. job.cpu) (reverse jobs.new.items) ≡ cpus.old.items }
    ensures works { map (λ job. job.work) (reverse jobs.new.items) ≡ works.old.items }
    ensures left { (cpus.new.items ≡ []) × (works.new.items ≡ []) }
    ensures cpus_room { length cpus.old.items ≤ vec_capacity cpus.new }
    ensures works_room { length cpus.old.items ≤ vec_capacity works.new }
{
    while let Some(cpu) = cpus.pop() {
        let work = works.pop().unwrap();
        let job = Job {
            cpu,
            work,
            refused: false,
        };
        jobs.push(job).unwrap();
    }
}

/// Takes the callers and the works back.
pub(crate) fn end(jobs: Vec<Job>, cpus: &mut Vec<Cpu<UnrecordedBoard>>, works: &mut Vec<Work>)
    requires none { (cpus.old.items ≡ []) × (works.old.items ≡ []) }
    requires cpus_room { length jobs.items ≤ vec_capacity cpus.old }
    requires works_room { length jobs.items ≤ vec_capacity works.old }
    ensures cpus { map (λ job. job.cpu) (reverse jobs.items) ≡ cpus.new.items }
    ensures works { map (λ job. job.work) (reverse jobs.items) ≡ works.new.items }
{
    let mut jobs = jobs;
    while let Some(job) = jobs.pop() {
        let Job {
            cpu,
            work,
            refused: _refused,
        } = job;
        cpus.push(cpu).unwrap();
        works.push(work).unwrap();
    }
    jobs.destroy_empty();
}

/// Whether a worker was refused memory.
pub(crate) fn is_refused(jobs: &[Job]) -> bool
    ensures none { IsFalse result → All (λ job. job.refused ≡ false) jobs.now }
{
    jobs.iter().any(|job| job.refused)
}

/// What each processor did, from processor 0 on.
pub(crate) fn works_of(works: &[Work]) -> Works<'_>
    requires few { length works.now ≤ 8 }
    ensures done { map (λ done. done.now) result.items ≡ done_in works.now }
{
    let mut all = Works::new();
    for work in works {
        all.push(&work.done);
    }
    all
}
