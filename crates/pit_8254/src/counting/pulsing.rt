//! One pulse of a counter's clock, mode by mode.
ghost use Rattle.std.specs.Prelude.{◌≡◌, ◌+◌, true, false};
ghost use Rattle.device_spec.specs.Pit.{TerminalCount, OneShot, RateGenerator, SquareWave, SoftwareStrobe};
ghost use Rattle.device_spec.specs.Pit.{HardwareStrobe, load, load_with, count_down, count_to_end, count_to_reload};
ghost use Rattle.device_spec.specs.Pit.{half_end, count_half, count_to_strobe, is_counting, pulse_by_mode, pulse};

use super::Counter;
use crate::word::CountingMode;
use board_base::Steps;
use std::sync::ledger::Ledger;

impl Counter {
    /// One pulse of the counter's clock with its gate at this level, by the datasheet's description of its mode. It
    /// counts as one step.
    #[tactic(auto, unfolding(device_spec::specs::Pit::pulse, device_spec::specs::Pit::pulse_by_mode))]
    pub fn pulse<L: Ledger>(&mut self, gate: bool, steps: &mut Steps<L>)
        ensures state { self.new ≡ pulse gate self.old }
        ensures step { steps.new ≡ steps.old + 1 }
    {
        steps.tick();
        let triggered = self.trigger && self.count.is_some();
        self.trigger = false;
        match self.mode {
            CountingMode::TerminalCount => self.pulse_terminal_count(gate),
            CountingMode::OneShot => self.pulse_one_shot(triggered),
            CountingMode::RateGenerator => self.pulse_rate_generator(gate, triggered),
            CountingMode::SquareWave => self.pulse_square_wave(gate, triggered),
            CountingMode::SoftwareStrobe => self.pulse_software_strobe(gate),
            CountingMode::HardwareStrobe => self.pulse_hardware_strobe(triggered),
        }
    }

    /// A pulse in mode 0: OUT is 0 until the count ends.
    #[tactic(auto, unfolding(device_spec::specs::Pit::pulse_by_mode))]
    fn pulse_terminal_count(&mut self, gate: bool)
        ensures state { self.new ≡ pulse_by_mode TerminalCount gate false self.old }
    {
        if self.stopped {
            return;
        }
        if self.load_asked {
            self.load();
        } else if self.is_counting(gate) {
            self.count_to_end();
        }
    }

    /// A pulse in mode 1: OUT is 0 from the trigger until the count ends, whatever the gate.
    #[tactic(auto, unfolding(device_spec::specs::Pit::pulse_by_mode))]
    fn pulse_one_shot(&mut self, triggered: bool)
        ensures state { self.new ≡ pulse_by_mode OneShot true triggered self.old }
    {
        if triggered {
            self.load_with(false);
        } else if self.started {
            self.count_to_end();
        }
    }

    /// A pulse in mode 2: OUT is 0 for one pulse of each period.
    #[tactic(auto, unfolding(device_spec::specs::Pit::pulse_by_mode))]
    fn pulse_rate_generator(&mut self, gate: bool, triggered: bool)
        ensures state { self.new ≡ pulse_by_mode RateGenerator gate triggered self.old }
    {
        if self.load_asked || triggered {
            self.load_with(true);
        } else if self.is_counting(gate) {
            self.count_to_reload();
        }
    }

    /// A pulse in mode 3: OUT is 1 for half of each period, and 0 for the other.
    #[tactic(auto, unfolding(device_spec::specs::Pit::pulse_by_mode))]
    fn pulse_square_wave(&mut self, gate: bool, triggered: bool)
        ensures state { self.new ≡ pulse_by_mode SquareWave gate triggered self.old }
    {
        if self.load_asked || triggered {
            self.load_with(true);
        } else if self.is_counting(gate) {
            self.count_half();
        }
    }

    /// A pulse in mode 4: OUT is 0 for the one pulse at which the count ends.
    #[tactic(auto, unfolding(device_spec::specs::Pit::pulse_by_mode))]
    fn pulse_software_strobe(&mut self, gate: bool)
        ensures state { self.new ≡ pulse_by_mode SoftwareStrobe gate false self.old }
    {
        self.out = true;
        if self.load_asked {
            self.load();
        } else if self.is_counting(gate) {
            self.count_to_strobe();
        }
    }

    /// A pulse in mode 5: as in mode 4, where the trigger loads in place of a written count, whatever the gate.
    #[tactic(auto, unfolding(device_spec::specs::Pit::pulse_by_mode))]
    fn pulse_hardware_strobe(&mut self, triggered: bool)
        ensures state { self.new ≡ pulse_by_mode HardwareStrobe true triggered self.old }
    {
        self.out = true;
        if triggered {
            self.load();
        } else if self.started {
            self.count_to_strobe();
        }
    }

    /// Whether the counter was started and its gate, at this level, lets it count.
    pub(super) fn is_counting(&self, gate: bool) -> bool
        ensures counting { result ≡ is_counting gate self.now }
    {
        self.started && gate
    }

    /// Loads the count written last, which starts the counter; in mode 3 the even number at or below it.
    #[tactic(auto, unfolding(device_spec::specs::Pit::load))]
    fn load(&mut self)
        ensures state { self.new ≡ load self.old }
    {
        let Some(count) = self.count else {
            return;
        };
        self.element = self.mode.first_element(count);
        self.in_use = count;
        self.null_count = false;
        self.load_asked = false;
        self.started = true;
        self.expired = false;
    }

    /// Loads, and sets OUT to a level.
    fn load_with(&mut self, level: bool)
        ensures state { self.new ≡ load_with level self.old }
    {
        self.load();
        self.out = level;
    }

    /// Counts: CE less 1, where 0 becomes M - 1.
    #[tactic(auto, unfolding(device_spec::specs::Pit::count_down))]
    fn count_down(&mut self)
        ensures state { self.new ≡ count_down self.old }
    {
        self.element = match self.element {
            0 => self.notation.modulus() - 1,
            element => element - 1,
        };
    }

    /// Counts, and sets OUT to 1 where 0 is reached.
    #[tactic(auto, unfolding(device_spec::specs::Pit::count_to_end))]
    fn count_to_end(&mut self)
        ensures state { self.new ≡ count_to_end self.old }
    {
        self.count_down();
        if self.element == 0 {
            self.out = true;
        }
    }

    /// Counts, and sets OUT to 0 where 1 is reached; from 1 it loads.
    #[tactic(auto, unfolding(device_spec::specs::Pit::count_to_reload))]
    fn count_to_reload(&mut self)
        ensures state { self.new ≡ count_to_reload self.old }
    {
        if self.element == 1 {
            self.load_with(true);
            return;
        }
        self.count_down();
        if self.element == 1 {
            self.out = false;
        }
    }

    /// Takes CE down by 2; at the end of a half OUT flips and the counter loads.
    #[tactic(auto, unfolding(device_spec::specs::Pit::count_half))]
    fn count_half(&mut self)
        ensures state { self.new ≡ count_half self.old }
    {
        if self.element == self.half_end() {
            self.load_with(!self.out);
        } else {
            self.element = self.element.saturating_sub(2);
        }
    }

    /// The value of CE at which a half ends: with an odd count the first half is a pulse longer.
    pub(super) fn half_end(&self) -> u32
        ensures end { result ≡ half_end self.now }
    {
        if self.out && self.in_use % 2 == 1 {
            0
        } else {
            2
        }
    }

    /// Counts, and sets OUT to 0 where 0 is reached for the first time since the load.
    #[tactic(auto, unfolding(device_spec::specs::Pit::count_to_strobe))]
    fn count_to_strobe(&mut self)
        ensures state { self.new ≡ count_to_strobe self.old }
    {
        self.count_down();
        if self.element == 0 && !self.expired {
            self.out = false;
            self.expired = true;
        }
    }
}
