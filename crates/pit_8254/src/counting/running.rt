//! Many pulses of a counter at once: those that change nothing but CE, and whole periods, are counted and not made.
ghost use Rattle.std.specs.Prelude.{ℕ, ◌≡◌, ◌+◌, ◌-◌, ◌<◌, ◌≤◌, ◌⊎◌, true, false};
ghost use Rattle.device_spec.specs.Pit.{TerminalCount, OneShot, SoftwareStrobe, HardwareStrobe, is_periodic, half_end};
ghost use Rattle.device_spec.specs.Pit.{pulse};
ghost use Rattle.device_spec.specs.PitLaws.{pulses_of};
ghost use Rattle.pit_8254.specs.Quiet.{is_due, counts, pulses_in_half, counted_quietly, quiet_pulses, lowered};
ghost use Rattle.pit_8254.specs.Quiet.{element_after, after_quiet, rise, rises_of, IsQuiet};
ghost use Rattle.pit_8254.specs.Runs.{IsPart, HasRoom, IsSettled, IsAtPeriod};
ghost use Rattle.pit_8254.specs.View.{notation_view};

use super::Counter;
use crate::word::{CountNotation, CountingMode};
use board_base::Steps;
use std::sync::ledger::Ledger;

/// The most pulses that can be asked for at once.
pub(super) const EVERY_PULSE: u32 = u32::MAX;

impl Counter {
    /// How many of the pulses that come next change nothing but CE, with the gate at this level.
    #[tactic(auto, using(crate::proofs::Quiet::are_quiet), unfolding(crate::specs::Quiet::quiet_pulses))]
    pub(super) fn quiet_pulses(&self, gate: bool) -> u32
        ensures number { result ≡ quiet_pulses gate self.now }
        ensures quiet { (k : ℕ) → k < result → IsQuiet gate (pulses_of gate k self.now) }
    {
        if self.trigger || self.is_due() {
            return 0;
        }
        if self.counts(gate) {
            return self.counted_quietly();
        }
        EVERY_PULSE
    }

    /// Whether the next pulse loads, or sets OUT to 1 again after a strobe.
    fn is_due(&self) -> bool
        ensures due { result ≡ is_due self.now.mode self.now }
    {
        match self.mode {
            CountingMode::TerminalCount => self.load_asked && !self.stopped,
            CountingMode::OneShot => false,
            CountingMode::RateGenerator | CountingMode::SquareWave => self.load_asked,
            CountingMode::SoftwareStrobe => self.load_asked || !self.out,
            CountingMode::HardwareStrobe => !self.out,
        }
    }

    /// Whether a pulse that is not due counts, with the gate at this level.
    fn counts(&self, gate: bool) -> bool
        ensures counts { result ≡ counts self.now.mode gate self.now }
    {
        match self.mode {
            CountingMode::TerminalCount => !self.stopped && self.is_counting(gate),
            CountingMode::OneShot | CountingMode::HardwareStrobe => self.started,
            _ => self.is_counting(gate),
        }
    }

    /// How many pulses come before the end of the count, the half or the period that a counter counts; all of
    /// them once the count has ended.
    fn counted_quietly(&self) -> u32
        ensures number { result ≡ counted_quietly self.now.mode self.now }
    {
        match self.mode {
            CountingMode::TerminalCount | CountingMode::OneShot => self.pulses_to_end(self.out),
            CountingMode::RateGenerator => self.element.saturating_sub(2),
            CountingMode::SquareWave => self.pulses_in_half(),
            _ => self.pulses_to_end(self.expired),
        }
    }

    /// How many pulses come before the one that takes CE to 0; all of them where the count has ended.
    fn pulses_to_end(&self, ended: bool) -> u32
        ensures ended { ended ≡ true → result ≡ 0xFFFF_FFFF }
        ensures counting { ended ≡ false → result ≡ self.now.element - 1 }
    {
        if ended {
            EVERY_PULSE
        } else {
            self.element.saturating_sub(1)
        }
    }

    /// How often CE goes down by 2 before it is at the end of a half. An odd CE passes 2 by.
    fn pulses_in_half(&self) -> u32
        ensures number { result ≡ pulses_in_half (half_end self.now) self.now.element }
    {
        let element = self.element;
        if self.half_end() == 0 {
            return element / 2 + element % 2;
        }
        if element % 2 == 0 && element > 0 {
            element / 2 - 1
        } else {
            EVERY_PULSE
        }
    }

    /// Takes CE down by this many quiet pulses.
    #[tactic(auto, unfolding(crate::specs::Quiet::after_quiet))]
    pub(super) fn pass_quietly(&mut self, gate: bool, pulses: u32)
        ensures state { self.new ≡ after_quiet gate pulses self.old }
    {
        if self.counts(gate) {
            self.element = self.element_after(pulses);
        }
    }

    /// CE after this many quiet pulses.
    fn element_after(&self, pulses: u32) -> u32
        ensures element { result ≡ element_after self.now.mode self.now.notation pulses self.now.element }
    {
        match self.mode {
            CountingMode::SquareWave => self.element.saturating_sub(pulses.saturating_mul(2)),
            _ => self.notation.lowered(self.element, pulses),
        }
    }
}

/// A run of pulses: how many are left, and how often OUT rose at those that came.
#[derive(Clone, Copy)]
pub struct Run {
    pub left: u32,
    pub rose: u32,
}

impl Counter {
    /// Passes the quiet pulses that come next, as many as are left.
    fn skip(&mut self, gate: bool, run: Run) -> Run
        ensures part { IsPart gate self.old self.new run result }
        ensures left { result.left ≡ run.left - quiet_pulses gate self.old }
    {
        let pulses = run.left.min(self.quiet_pulses(gate));
        self.pass_quietly(gate, pulses);
        Run {
            left: run.left - pulses,
            rose: run.rose,
        }
    }

    /// Makes one pulse of those that are left.
    #[tactic(auto, using(crate::proofs::Settled::pulse_settles, std::proofs::lemmas::Bool::Decides::nat_tests))]
    pub(super) fn step<L: Ledger>(&mut self, gate: bool, run: Run, steps: &mut Steps<L>) -> Run
        requires some { 0 < run.left }
        requires room { HasRoom run }
        ensures part { IsPart gate self.old self.new run result }
        ensures left { result.left ≡ run.left - 1 }
        ensures settled { IsSettled self.new.mode gate self.new }
        ensures steps { steps.new ≡ steps.old + 1 }
    {
        let was = self.out;
        self.pulse(gate, steps);
        Run {
            left: run.left - 1,
            rose: run.rose + rise(was, self.out),
        }
    }

    /// Passes the quiet pulses that come next and makes one more, while pulses are left.
    #[tactic(auto, using(crate::proofs::Runs::parts))]
    fn advance<L: Ledger>(&mut self, gate: bool, run: Run, steps: &mut Steps<L>) -> Run
        requires room { HasRoom run }
        ensures part { IsPart gate self.old self.new run result }
        ensures left { result.left ≡ run.left - (quiet_pulses gate self.old + 1) }
        ensures steps { steps.new ≤ steps.old + 1 }
    {
        let run = self.skip(gate, run);
        if run.left == 0 {
            return run;
        }
        self.step(gate, run, steps)
    }

    /// The rest of a run in modes 0 and 1: to the end of the count, and on with OUT at 1.
    #[tactic(auto, using(crate::proofs::Runs::parts, crate::proofs::Edges::edge_is, crate::proofs::Edges::ends))]
    fn run_to_end<L: Ledger>(&mut self, gate: bool, run: Run, steps: &mut Steps<L>) -> Run
        requires settled { IsSettled self.old.mode gate self.old }
        requires mode { (self.old.mode ≡ TerminalCount) ⊎ (self.old.mode ≡ OneShot) }
        requires room { HasRoom run }
        ensures part { IsPart gate self.old self.new run result }
        ensures done { result.left ≡ 0 }
        ensures steps { steps.new ≤ steps.old + 1 }
    {
        let run = self.advance(gate, run, steps);
        self.skip(gate, run)
    }

    /// The rest of a run in modes 4 and 5: to the strobe, past it, and on with OUT at 1.
    #[tactic(auto, using(crate::proofs::Runs::parts, crate::proofs::Edges::edge_is, crate::proofs::Edges::strobes))]
    fn run_past_strobe<L: Ledger>(&mut self, gate: bool, run: Run, steps: &mut Steps<L>) -> Run
        requires settled { IsSettled self.old.mode gate self.old }
        requires mode { (self.old.mode ≡ SoftwareStrobe) ⊎ (self.old.mode ≡ HardwareStrobe) }
        requires room { HasRoom run }
        ensures part { IsPart gate self.old self.new run result }
        ensures done { result.left ≡ 0 }
        ensures steps { steps.new ≤ steps.old + 2 }
    {
        let run = self.advance(gate, run, steps);
        let run = self.advance(gate, run, steps);
        self.skip(gate, run)
    }

    /// The rest of a run in modes 2 and 3: to the next period, whole periods, and the part of one that is left.
    #[tactic(auto, using(crate::proofs::Runs::parts))]
    fn run_periods<L: Ledger>(&mut self, gate: bool, run: Run, steps: &mut Steps<L>) -> Run
        requires settled { IsSettled self.old.mode gate self.old }
        requires mode { is_periodic self.old.mode ≡ true }
        requires room { HasRoom run }
        ensures part { IsPart gate self.old self.new run result }
        ensures done { result.left ≡ 0 }
        ensures steps { steps.new ≤ steps.old + 3 }
    {
        let run = self.run_to_period(gate, run, steps);
        if run.left == 0 {
            return run;
        }
        let run = self.pass_periods(gate, run);
        self.run_in_period(gate, run, steps)
    }

    /// Goes on to the load that begins the next period, while pulses are left.
    #[tactic(auto, using(crate::proofs::Runs::parts, crate::proofs::Edges::edge_is, crate::proofs::Edges::comes))]
    fn run_to_period<L: Ledger>(&mut self, gate: bool, run: Run, steps: &mut Steps<L>) -> Run
        requires settled { IsSettled self.old.mode gate self.old }
        requires mode { is_periodic self.old.mode ≡ true }
        requires room { HasRoom run }
        ensures part { IsPart gate self.old self.new run result }
        ensures arrives { 0 < result.left → IsAtPeriod gate self.new }
        ensures steps { steps.new ≤ steps.old + 2 }
    {
        let run = self.advance(gate, run, steps);
        let begins = self.out();
        if begins {
            return run;
        }
        self.advance(gate, run, steps)
    }

    /// Whole periods leave the counter as it was, and OUT rises once in each.
    fn pass_periods(&self, gate: bool, run: Run) -> Run
        requires at_period { IsAtPeriod gate self.now }
        requires room { HasRoom run }
        ensures part { IsPart gate self.now self.now run result }
        ensures less { result.left < self.now.in_use }
    {
        Run {
            left: run.left % self.in_use,
            rose: run.rose + run.left / self.in_use,
        }
    }

    /// Part of a period, from its first pulse on.
    #[tactic(auto, using(crate::proofs::Runs::parts, crate::proofs::Edges::edge_is, crate::proofs::Edges::period_ends))]
    fn run_in_period<L: Ledger>(&mut self, gate: bool, run: Run, steps: &mut Steps<L>) -> Run
        requires at_period { IsAtPeriod gate self.old }
        requires less { run.left < self.old.in_use }
        requires room { HasRoom run }
        ensures part { IsPart gate self.old self.new run result }
        ensures done { result.left ≡ 0 }
        ensures steps { steps.new ≤ steps.old + 1 }
    {
        let run = self.advance(gate, run, steps);
        self.skip(gate, run)
    }

    /// Runs this many pulses with the gate at this level, in at most four steps, and returns how often OUT rose.
    #[tactic(auto, using(crate::proofs::Runs::no_pulses, crate::proofs::Runs::parts))]
    pub(crate) fn pulses<L: Ledger>(&mut self, gate: bool, pulses: u32, steps: &mut Steps<L>) -> u32
        ensures state { self.new ≡ pulses_of gate pulses self.old }
        ensures rose { result ≡ rises_of gate pulses self.old }
        ensures steps { steps.new ≤ steps.old + 4 }
    {
        let run = Run {
            left: pulses,
            rose: 0,
        };
        if pulses == 0 {
            return 0;
        }
        let run = self.step(gate, run, steps);
        self.run_on(gate, run, steps).rose
    }

    /// The rest of a run, after a pulse.
    fn run_on<L: Ledger>(&mut self, gate: bool, run: Run, steps: &mut Steps<L>) -> Run
        requires settled { IsSettled self.old.mode gate self.old }
        requires room { HasRoom run }
        ensures part { IsPart gate self.old self.new run result }
        ensures done { result.left ≡ 0 }
        ensures steps { steps.new ≤ steps.old + 3 }
    {
        match self.mode {
            CountingMode::TerminalCount | CountingMode::OneShot => {
                self.run_to_end(gate, run, steps)
            }
            CountingMode::SoftwareStrobe | CountingMode::HardwareStrobe => {
                self.run_past_strobe(gate, run, steps)
            }
            CountingMode::RateGenerator | CountingMode::SquareWave => {
                self.run_periods(gate, run, steps)
            }
        }
    }
}

/// 1 where OUT rises from one level to another.
fn rise(before: bool, after: bool) -> u32
    ensures rise { result ≡ rise before after }
    ensures most { result ≤ 1 }
{
    if after && !before { 1 } else { 0 }
}

impl CountNotation {
    /// CE less a number, where 0 becomes M - 1.
    fn lowered(self, element: u32, pulses: u32) -> u32
        ensures element { result ≡ lowered (notation_view self) pulses element }
    {
        if element < pulses {
            self.modulus() - 1 - (pulses - element - 1) % self.modulus()
        } else {
            element - pulses
        }
    }
}
