//! How far the next rise of OUT is. It is found as a run of pulses is made, by jumps over quiet pulses and a period.
ghost use Rattle.std.specs.Prelude.{◌≡◌, ◌+◌, ◌*◌, ◌<◌, ◌≤◌, IfSome};
ghost use Rattle.pit_8254.specs.Quiet.{most_count};
ghost use Rattle.pit_8254.specs.Runs.{IsSettled};
ghost use Rattle.pit_8254.specs.NextRise.{IsFirstRise, IsNextPulseEdge};

use super::Counter;
use super::running::{EVERY_PULSE, Run};
use board_base::Steps;
use std::sync::ledger::Ledger;

/// The next pulse that changes more than CE: how many pulses it and those before it are, and whether OUT rises at it.
#[derive(Clone, Copy)]
pub struct Edge {
    pub pulses: u32,
    pub rises: bool,
}

impl Counter {
    /// How many pulses until OUT next rises, with the gate at this level: at the first single pulse, or as
    /// `settled_to_rise` finds. None where it never does.
    pub(crate) fn pulses_to_rise<L: Ledger>(&self, gate: bool, steps: &mut Steps<L>) -> Option<u32>
        ensures rise { IsFirstRise gate self.now result }
        ensures bound { IfSome result (λ n. n ≤ 2 * most_count + 1) }
        ensures steps { steps.new ≤ steps.old + 3 }
    {
        let mut counter = self.copy();
        let run = counter.step(gate, Run { left: 1, rose: 0 }, steps);
        if run.rose > 0 {
            return Some(1);
        }
        let more = counter.settled_to_rise(gate, steps)?;
        Some(1 + more)
    }

    /// The same after a pulse. Where OUT does not rise at the next edge and is then 1, a period begins, at whose end
    /// it rises; otherwise it rises at the edge after that, or never.
    fn settled_to_rise<L: Ledger>(&mut self, gate: bool, steps: &mut Steps<L>) -> Option<u32>
        requires settled { IsSettled self.old.mode gate self.old }
        ensures rise { IsFirstRise gate self.old result }
        ensures bound { IfSome result (λ n. n ≤ 2 * most_count) }
        ensures steps { steps.new ≤ steps.old + 2 }
    {
        let periodic = self.mode.is_periodic();
        let near = self.next_edge(gate, steps)?;
        if near.rises {
            return Some(near.pulses);
        }
        if periodic && self.out {
            return Some(near.pulses + self.in_use);
        }
        let far = self.next_edge(gate, steps)?;
        if far.rises {
            return Some(near.pulses + far.pulses);
        }
        None
    }

    /// Goes on past the quiet pulses to the next edge. None where all pulses that come are quiet.
    #[tactic(auto, using(crate::proofs::Rising::never, crate::proofs::Rising::few_quiet, crate::proofs::Edges::edge_is))]
    fn next_edge<L: Ledger>(&mut self, gate: bool, steps: &mut Steps<L>) -> Option<Edge>
        ensures edge { IsNextPulseEdge gate self.old self.new result }
        ensures bound { IfSome result (λ edge. edge.pulses ≤ most_count) }
        ensures element { self.new.element ≤ most_count }
        ensures steps { steps.new ≤ steps.old + 1 }
    {
        let quiet = self.quiet_pulses(gate);
        if quiet == EVERY_PULSE {
            return None;
        }
        let was = self.out;
        self.pass_quietly(gate, quiet);
        self.pulse(gate, steps);
        Some(Edge {
            pulses: quiet + 1,
            rises: self.out && !was,
        })
    }

    /// A copy of the counter.
    fn copy(&self) -> Counter
        ensures copy { result ≡ self.now }
    {
        Counter {
            element: self.element,
            count: self.count,
            in_use: self.in_use,
            mode: self.mode,
            access: self.access,
            notation: self.notation,
            null_count: self.null_count,
            out: self.out,
            count_latch: self.count_latch,
            status_latch: self.status_latch,
            reads_high: self.reads_high,
            low_written: self.low_written,
            load_asked: self.load_asked,
            started: self.started,
            stopped: self.stopped,
            expired: self.expired,
            trigger: self.trigger,
        }
    }
}
