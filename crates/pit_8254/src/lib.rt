//! The 8254 programmable interval timer: three counters and a control word register, at ports 40h to 43h.
//!
//! | port       | read                             | write                                             |
//! |------------|----------------------------------|---------------------------------------------------|
//! | 40h to 42h | counter 0, 1 or 2: its count, or | a byte of its count                               |
//! |            | what a command latched           |                                                   |
//! | 43h        | FFh                              | control word, of bits 7 and 6 for a counter:      |
//! |            |                                  | 5 and 4 its bytes, 3 to 1 its mode, 0 BCD; with   |
//! |            |                                  | 5 and 4 at 0 a counter latch; 7 and 6 at 1: a     |
//! |            |                                  | read-back of the counters of bits 3 to 1          |
//!
//! `device_spec` describes the chip in the terms of its datasheet, and each call of a `Pit` is one step of it.
#![tactic(auto)]

ghost use Rattle.std.specs.Prelude.{◌≡◌, ◌+◌, ◌*◌, ◌<◌, ◌≤◌, IfSome};
ghost use Rattle.device_spec.specs.Pit.{IsTimerPort, reset, port_read, port_write, read_back_chosen, write_control};
ghost use Rattle.device_spec.specs.Pit.{set_gate2, out_of, pulses, rises};
ghost use Rattle.pit_8254.specs.Quiet.{most_count};
ghost use Rattle.pit_8254.specs.NextRise.{IsNextRise};

mod counting;
mod latch;
mod state;
mod word;

use board_base::Steps;
use board_base::bits::is_set;
pub use counting::Counter;
pub use device_spec::port::{CONTROL_WORD, COUNTER_0, COUNTER_1, COUNTER_2};
pub use state::law_one_pit;
use std::marker::{Brand, Model};
use std::sync::ledger::{Blank, Ledger};

/// The bits of a read-back command that choose counters 0, 1 and 2.
const CHOOSES_0: u32 = 1;

const CHOOSES_1: u32 = 2;

const CHOOSES_2: u32 = 3;

/// The 8254: three counters, of which contracts see the state of the datasheet's machine.
///
/// The gates of counters 0 and 1 are always 1. `board_example::pit` has an example.
#[derive(Drop)]
pub struct Pit {
    counter0: Counter,
    counter1: Counter,
    counter2: Counter,
    gate2: bool,
}

impl Model for Pit {
    ghost use Rattle.device_spec.specs.Pit.{PitState};

    ghost Value = { PitState };

    ghost view = { λ p. record {
      counter0 = p.counter0;
      counter1 = p.counter1;
      counter2 = p.counter2;
      gate2 = p.gate2;
    } };
}

/// How often OUT of counter 0 rose in some pulses, and its level after them.
#[derive(Clone, Copy, Debug, PartialEq, Eq)]
pub struct Rises {
    pub rose: u32,
    pub out0: bool,
}

impl Pit {
    /// A timer at reset, with the gate of counter 2 at 0.
    #[tactic(auto, unfolding(device_spec::specs::Pit::reset))]
    pub fn new() -> Pit
        ensures state { result ≡ reset }
    {
        Pit {
            counter0: Counter::new(),
            counter1: Counter::new(),
            counter2: Counter::new(),
            gate2: false,
        }
    }

    /// Puts the timer back to its reset state.
    pub fn reset(&mut self)
        ensures state { self.new ≡ reset }
    {
        *self = Pit::new();
    }

    /// A read of a byte at one of ports 40h to 43h.
    #[tactic(auto, unfolding(device_spec::specs::Pit::port_read))]
    pub fn port_read(&mut self, port: u16) -> u8
        requires { IsTimerPort port }
        ensures byte { result ≡ (port_read port self.old).0 }
        ensures state { self.new ≡ (port_read port self.old).1 }
    {
        match port {
            COUNTER_0 => self.counter0.read(),
            COUNTER_1 => self.counter1.read(),
            COUNTER_2 => self.counter2.read(),
            _ => 0xFF,
        }
    }

    /// A write of a byte at one of ports 40h to 43h.
    #[tactic(auto, unfolding(device_spec::specs::Pit::port_write))]
    pub fn port_write(&mut self, port: u16, byte: u8)
        requires { IsTimerPort port }
        ensures state { self.new ≡ port_write port byte self.old }
    {
        match port {
            COUNTER_0 => self.counter0.write(byte),
            COUNTER_1 => self.counter1.write(byte),
            COUNTER_2 => self.counter2.write(byte),
            _ => self.write_control(byte),
        }
    }

    /// A control word: SC 0 to 2 names the counter, SC 3 is read-back.
    #[tactic(auto, unfolding(device_spec::specs::Pit::write_control))]
    fn write_control(&mut self, word: u8)
        ensures state { self.new ≡ write_control word self.old }
    {
        match word / 64 {
            0 => self.counter0.control(word),
            1 => self.counter1.control(word),
            2 => self.counter2.control(word),
            _ => self.read_back_chosen(word),
        }
    }

    /// A read-back command, whose bits 3 to 1 choose counters 2 to 0.
    #[tactic(auto, unfolding(device_spec::specs::Pit::read_back_chosen))]
    fn read_back_chosen(&mut self, word: u8)
        ensures state { self.new ≡ read_back_chosen word self.old }
    {
        if is_set(word.into(), CHOOSES_0) {
            self.counter0.read_back(word);
        }
        if is_set(word.into(), CHOOSES_1) {
            self.counter1.read_back(word);
        }
        if is_set(word.into(), CHOOSES_2) {
            self.counter2.read_back(word);
        }
    }

    /// Sets the level of the gate of counter 2, which bit 0 of port 61h drives.
    #[tactic(auto, unfolding(device_spec::specs::Pit::set_gate2))]
    pub fn gate2(&mut self, on: bool)
        ensures state { self.new ≡ set_gate2 on self.old }
    {
        if on && !self.gate2 {
            self.counter2.gate_rises();
        }
        if !on && self.gate2 {
            self.counter2.gate_falls();
        }
        self.gate2 = on;
    }

    /// Runs the clock for `n` pulses, and returns how often OUT of counter 0 rose and its level after them.
    pub fn pulses(&mut self, n: u32) -> Rises
        ensures state { self.new ≡ pulses n self.old }
        ensures rose { result.rose ≡ rises n self.old }
        ensures out0 { result.out0 ≡ self.new.counter0.out }
    {
        self.pulses_by::<Brand>(n, Blank::new(1))
    }

    /// Runs the clock for `n` pulses, with a new counter of steps, which `blank` makes.
    fn pulses_by<L: Ledger>(&mut self, n: u32, blank: Blank) -> Rises
        requires name { blank.name ≡ L.name }
        requires parts { blank.parts ≡ L.parts }
        requires some_part { 0 < L.parts }
        ensures state { self.new ≡ pulses n self.old }
        ensures rose { result.rose ≡ rises n self.old }
        ensures out0 { result.out0 ≡ self.new.counter0.out }
    {
        let mut steps = Steps::<L>::new(blank);
        self.pulses_counted(n, &mut steps)
    }

    /// Runs the clock for `n` pulses as `pulses` does, in at most four steps a counter whatever `n` is.
    #[tactic(auto, using(crate::proofs::Runs::rises_are, crate::proofs::Runs::apart))]
    pub fn pulses_counted<L: Ledger>(&mut self, n: u32, steps: &mut Steps<L>) -> Rises
        ensures state { self.new ≡ pulses n self.old }
        ensures rose { result.rose ≡ rises n self.old }
        ensures out0 { result.out0 ≡ self.new.counter0.out }
        ensures steps { steps.new ≤ steps.old + 12 }
    {
        let rose = self.counter0.pulses(true, n, steps);
        let _ = self.counter1.pulses(true, n, steps);
        let _ = self.counter2.pulses(self.gate2, n, steps);
        Rises {
            rose,
            out0: self.counter0.out(),
        }
    }

    /// How many pulses until OUT of counter 0 next rises, if nothing is written before: at the last of them it goes
    /// from 0 to 1, and at none before it. None where it never does. At most 131,073: twice the largest count, and one.
    pub fn pulses_to_rise(&self) -> Option<u32>
        ensures rise { IsNextRise self.now result }
        ensures bound { IfSome result (λ n. n ≤ 2 * most_count + 1) }
    {
        self.pulses_to_rise_by::<Brand>(Blank::new(1))
    }

    /// The same, with a new counter of steps, which `blank` makes.
    fn pulses_to_rise_by<L: Ledger>(&self, blank: Blank) -> Option<u32>
        requires name { blank.name ≡ L.name }
        requires parts { blank.parts ≡ L.parts }
        requires some_part { 0 < L.parts }
        ensures rise { IsNextRise self.now result }
        ensures bound { IfSome result (λ n. n ≤ 2 * most_count + 1) }
    {
        let mut steps = Steps::<L>::new(blank);
        self.pulses_to_rise_counted(&mut steps)
    }

    /// How many pulses until OUT of counter 0 next rises, as `pulses_to_rise` says, in at most three steps however
    /// many they are.
    #[tactic(auto, using(crate::proofs::Rising::next_rise))]
    pub fn pulses_to_rise_counted<L: Ledger>(&self, steps: &mut Steps<L>) -> Option<u32>
        ensures rise { IsNextRise self.now result }
        ensures bound { IfSome result (λ n. n ≤ 2 * most_count + 1) }
        ensures steps { steps.new ≤ steps.old + 3 }
    {
        self.counter0.pulses_to_rise(true, steps)
    }

    /// The level of OUT of counter 0, 1 or 2.
    #[tactic(auto, unfolding(device_spec::specs::Pit::out_of))]
    pub fn out(&self, counter: u8) -> bool
        requires { counter < 3 }
        ensures level { result ≡ out_of counter self.now }
    {
        match counter {
            0 => self.counter0.out(),
            1 => self.counter1.out(),
            _ => self.counter2.out(),
        }
    }
}
