//! A worker of a phase: it does the statements of one processor.

ghost use Rattle.std.specs.Prelude.{◌≡◌, ◌+◌, ◌++◌, ◌<◌, ◌≤◌, List, [], ◌∷◌, All, false, length, OnOk, IfOk};
ghost use Rattle.board_prelude.specs.{Entry as AnEntry, Event as AnEvent, IsInRange, entries_by, events_by};
ghost use Rattle.board_prelude.specs.{map_writes_of, most_statements};
ghost use Rattle.run_order.specs.declared.done.Done.{Done};
ghost use Rattle.run_order.specs.Placing.{event_of, is_look};
ghost use Rattle.run_order.specs.Trace.{IsDone};
ghost use Rattle.phase_threads.specs.Works.{HasDone, IsTold, page, page_of};

use crate::caller::Caller;
use board_base::NoMemory;
use board_outside::Gate;
use board_spec::{Entry, Event, Reply, Statement};
use run_log::Lines;
use run_order::Done;
use std::alloc::Global;
use std::sync::Wait;

/// A worker's part of a run.
#[derive(Drop)]
pub struct Work {
    /// The lines of its processor's entries so far.
    pub lines: Lines,
    /// How many statements it was given so far.
    pub asked: u32,
    /// What it did in this phase, where somebody looks in it.
    pub done: Vec<Done>,
    /// Whether somebody looks in this phase.
    pub keeps: bool,
    /// How many statements its processor has in this phase.
    pub due: usize,
}

/// Does one statement: a look at the published map, and all else through the bus turn.
fn do_statement<C: Caller, R: Wait>(
    cpu: &mut C,
    shared: &C::Shared,
    rt: &R,
    event: &Event,
) -> Result<(Done, Reply), NoMemory>
    requires own { C.is_of shared.now cpu.old }
    requires event { IsInRange (C.setup cpu.old) event.now }
    requires room { length (entries_by (C.number cpu.old) (C.seen cpu.old)) < most_statements }
    ensures own { C.is_of shared.now cpu.new }
    ensures number { C.number cpu.new ≡ C.number cpu.old }
    ensures setup { C.setup cpu.new ≡ C.setup cpu.old }
    ensures fixed { C.fixed cpu.new ≡ C.fixed cpu.old }
    ensures mine { OnOk result (length (entries_by (C.number cpu.old) (C.seen cpu.new))
        ≤ length (entries_by (C.number cpu.old) (C.seen cpu.old)) + 1) }
    ensures said { IfOk result (λ did. event_of did.0 ≡ event.now) }
    ensures told { IfOk result (λ did. IsTold event.now did.1 did.0
        (entries_by (C.number cpu.old) (C.seen cpu.old)) (entries_by (C.number cpu.old) (C.seen cpu.new))) }
    ensures done { IfOk result (λ did. (opened : List AnEntry) (before : List Done)
        → IsDone (C.setup cpu.old) (C.number cpu.old) opened before (C.seen cpu.old) (C.known cpu.old)
        → IsDone (C.setup cpu.old) (C.number cpu.old) opened (did.0 ∷ before) (C.seen cpu.new) (C.known cpu.new)) }
{
    match event {
        Event::Look { kind, addr, smm } => {
            let look = cpu.look(*addr, *kind, *smm);
            let done = Done::Looked {
                kind: *kind,
                addr: *addr,
                smm: *smm,
                look,
            };
            Ok((done, Reply::Saw(look)))
        }
        _ => {
            let reply = cpu.bus(shared, rt, event)?;
            let done = Done::Went {
                event: *event,
                version: cpu.version(),
            };
            Ok((done, reply))
        }
    }
}

impl Work {
    /// The work of the same processor in the next phase, in which it has `due` statements: there is room for them.
    pub(crate) fn for_phase(self, alloc: Global, keeps: bool, due: usize) -> Result<Work, NoMemory>
        ensures lines { IfOk result (λ next. page next ≡ page self) }
        ensures empty { IfOk result (λ next. next.done.items ≡ []) }
        ensures keeps { IfOk result (λ next. next.keeps ≡ keeps) }
        ensures due { IfOk result (λ next. next.due ≡ due) }
    {
        let Work {
            mut lines,
            asked,
            ..
        } = self;
        lines.reserve(due)?;
        let mut done = Vec::new(alloc);
        if keeps {
            done.reserve(due)?;
        }
        Ok(Work {
            lines,
            asked,
            done,
            keeps,
            due,
        })
    }

    /// Does one statement of its processor's, and writes its line when the turn is given back. The gate is called
    /// before and after.
    fn do_one<C: Caller, R: Wait, G: Gate>(
        &mut self,
        cpu: &mut C,
        shared: &C::Shared,
        rt: &R,
        event: &Event,
        gate: &G,
    ) -> Result<(), NoMemory>
        requires own { C.is_of shared.now cpu.old }
        requires event { IsInRange (C.setup cpu.old) event.now }
        requires room { length (entries_by (C.number cpu.old) (C.seen cpu.old)) < most_statements }
        requires few { self.old.asked < most_statements }
        requires plain { self.old.keeps ≡ false → is_look event.now ≡ false }
        ensures own { C.is_of shared.now cpu.new }
        ensures number { C.number cpu.new ≡ C.number cpu.old }
        ensures setup { C.setup cpu.new ≡ C.setup cpu.old }
        ensures fixed { C.fixed cpu.new ≡ C.fixed cpu.old }
        ensures keeps { self.new.keeps ≡ self.old.keeps }
        ensures mine { OnOk result (length (entries_by (C.number cpu.old) (C.seen cpu.new))
            ≤ length (entries_by (C.number cpu.old) (C.seen cpu.old)) + 1) }
        ensures asked { OnOk result (self.new.asked ≡ self.old.asked + 1) }
        ensures done { OnOk result ((opened own : List AnEntry) (events : List AnEvent)
            → HasDone (C.setup cpu.old) (C.number cpu.old) opened events own self.old.keeps self.old (C.seen cpu.old)
            (C.known cpu.old)
            → HasDone (C.setup cpu.old) (C.number cpu.old) opened (events ++ event.now ∷ []) own self.old.keeps
            self.new (C.seen cpu.new) (C.known cpu.new)) }
    {
        let actor = cpu.number();
        self.asked += 1;
        let seq = self.asked;
        gate.before(actor, seq);
        let did = do_statement(cpu, shared, rt, event);
        gate.after(actor, seq);
        let (done, reply) = did?;
        self.lines.push(&Entry {
            actor,
            seq,
            event: *event,
            reply,
        })?;
        if self.keeps {
            self.done.push(done)?;
        }
        Ok(())
    }

    /// Does all statements of the caller's processor in a phase, in their order.
    pub fn run<C: Caller, R: Wait, G: Gate>(
        &mut self,
        cpu: &mut C,
        shared: &C::Shared,
        rt: &R,
        phase: &[Statement],
        gate: &G,
    ) -> Result<(), NoMemory>
        requires own { C.is_of shared.now cpu.old }
        requires known { C.known cpu.old ≡ map_writes_of (C.setup cpu.old) (C.seen cpu.old) }
        requires in_range { All (λ statement. IsInRange (C.setup cpu.old) statement.event) phase.now }
        requires plain { self.old.keeps ≡ false → All (λ statement. is_look statement.event ≡ false) phase.now }
        requires empty { self.old.done.items ≡ [] }
        requires room { length (entries_by (C.number cpu.old) (C.seen cpu.old)) + length phase.now ≤ most_statements }
        requires few { self.old.asked + length phase.now ≤ most_statements }
        ensures own { C.is_of shared.now cpu.new }
        ensures number { C.number cpu.new ≡ C.number cpu.old }
        ensures setup { C.setup cpu.new ≡ C.setup cpu.old }
        ensures fixed { C.fixed cpu.new ≡ C.fixed cpu.old }
        ensures done { OnOk result ((own : List AnEntry) → page self.old ≡ page_of own
            → HasDone (C.setup cpu.old) (C.number cpu.old) (C.seen cpu.old) (events_by (C.number cpu.old) phase.now) own
            self.old.keeps self.new (C.seen cpu.new) (C.known cpu.new)) }
        ensures mine { OnOk result (length (entries_by (C.number cpu.old) (C.seen cpu.new))
            ≤ length (entries_by (C.number cpu.old) (C.seen cpu.old)) + length phase.now) }
        ensures asked { OnOk result (self.new.asked ≤ self.old.asked + length phase.now) }
    {
        let number = cpu.number();
        for statement in phase {
            if statement.actor == number {
                self.do_one(cpu, shared, rt, &statement.event, gate)?;
            }
        }
        Ok(())
    }
}
