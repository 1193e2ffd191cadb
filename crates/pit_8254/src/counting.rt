//! One counter: what a control word, a read, a write and the gate do to it.
ghost use Rattle.std.specs.Prelude.{◌≡◌, ◌≤◌, Some};
ghost use Rattle.device_spec.specs.Pit.{programmed, reset_counter, element_bytes, status_byte, latch_count};
ghost use Rattle.device_spec.specs.Pit.{latch_status, control, read_back, read_live, read, count_of_bytes, complete};
ghost use Rattle.device_spec.specs.Pit.{take_low, take_byte, write, gate_rises, gate_falls};
ghost use Rattle.pit_8254.specs.View.{mode_view, access_view, notation_view, latch_view};
ghost use Rattle.pit_8254.specs.Quiet.{least_count};

mod pulsing;
mod rising;
mod running;

use crate::latch::CountLatch;
use crate::word::{ByteAccess, CountNotation, CountingMode};
use board_base::bits::is_set;
use std::marker::Model;

/// The bits of a read-back command that are 1 where the count, or the status, is not latched.
const NO_COUNT: u32 = 5;

const NO_STATUS: u32 = 4;

/// One counter of the 8254: its counting element, the count written to it, its latches and its OUT.
#[derive(Drop)]
pub struct Counter {
    pub(crate) element: u32,
    pub(crate) count: Option<u32>,
    pub(crate) in_use: u32,
    pub(crate) mode: CountingMode,
    pub(crate) access: ByteAccess,
    pub(crate) notation: CountNotation,
    pub(crate) null_count: bool,
    pub(crate) out: bool,
    pub(crate) count_latch: CountLatch,
    pub(crate) status_latch: Option<u8>,
    pub(crate) reads_high: bool,
    pub(crate) low_written: Option<u8>,
    pub(crate) load_asked: bool,
    pub(crate) started: bool,
    pub(crate) stopped: bool,
    pub(crate) expired: bool,
    pub(crate) trigger: bool,
}

impl Model for Counter {
    ghost use Rattle.device_spec.specs.Pit.{CounterState};
    ghost use Rattle.pit_8254.specs.View.{mode_view, access_view, notation_view, latch_view};
    ghost use Rattle.pit_8254.specs.Quiet.{HasCount, IsBounded};

    ghost Value = { CounterState };

    ghost view = { λ c. record {
      element = c.element;
      count = c.count;
      in_use = c.in_use;
      mode = mode_view c.mode;
      access = access_view c.access;
      notation = notation_view c.notation;
      null_count = c.null_count;
      out = c.out;
      count_latch = latch_view c.count_latch;
      status_latch = c.status_latch;
      reads_high = c.reads_high;
      low_written = c.low_written;
      load_asked = c.load_asked;
      started = c.started;
      stopped = c.stopped;
      expired = c.expired;
      trigger = c.trigger;
    } };

    ghost invariant = { λ c.
        HasCount (mode_view c.mode) c.count c.load_asked c.started × IsBounded c.element c.in_use c.count };
}

impl Counter {
    /// A counter after a control word.
    #[tactic(auto, unfolding(device_spec::specs::Pit::programmed))]
    pub(crate) fn programmed(
        access: ByteAccess,
        mode: CountingMode,
        notation: CountNotation,
    ) -> Counter
        ensures state { result ≡ programmed (access_view access) (mode_view mode) (notation_view notation) }
    {
        Counter {
            element: 0,
            count: None,
            in_use: 0,
            mode,
            access,
            notation,
            null_count: true,
            out: !mode.is_terminal_count(),
            count_latch: CountLatch::Empty,
            status_latch: None,
            reads_high: false,
            low_written: None,
            load_asked: false,
            started: false,
            stopped: false,
            expired: false,
            trigger: false,
        }
    }

    /// A counter at reset: as after a control word with RW 3, mode 3, binary.
    pub fn new() -> Counter
        ensures state { result ≡ reset_counter }
    {
        Counter::programmed(
            ByteAccess::LowThenHigh,
            CountingMode::SquareWave,
            CountNotation::Binary,
        )
    }

    /// The level of OUT.
    pub(crate) fn out(&self) -> bool
        ensures level { result ≡ self.now.out }
    {
        self.out
    }

    /// A control word for this counter: the counter latch command, or one that programs it from the start.
    #[tactic(auto, unfolding(device_spec::specs::Pit::control))]
    pub(crate) fn control(&mut self, word: u8)
        ensures state { self.new ≡ control word self.old }
    {
        match ByteAccess::of_word(word) {
            None => self.latch_count(),
            Some(access) => {
                *self = Counter::programmed(
                    access,
                    CountingMode::of_word(word),
                    CountNotation::of_word(word),
                );
            }
        }
    }

    /// A read-back command for this counter: bit 5 at 0 latches the count, bit 4 at 0 the status.
    #[tactic(auto, unfolding(device_spec::specs::Pit::read_back))]
    pub(crate) fn read_back(&mut self, word: u8)
        ensures state { self.new ≡ read_back word self.old }
    {
        if !is_set(word.into(), NO_COUNT) {
            self.latch_count();
        }
        if !is_set(word.into(), NO_STATUS) {
            self.latch_status();
        }
    }

    /// Latches CE, unless a count is latched already.
    #[tactic(auto, unfolding(device_spec::specs::Pit::latch_count))]
    fn latch_count(&mut self)
        ensures state { self.new ≡ latch_count self.old }
    {
        if let CountLatch::Empty = self.count_latch {
            self.count_latch = self.element_bytes();
        }
    }

    /// The bytes of CE that a latch holds, in the order of reading.
    #[tactic(auto, unfolding(device_spec::specs::Pit::element_bytes))]
    fn element_bytes(&self) -> CountLatch
        ensures bytes { latch_view result ≡ element_bytes self.now }
    {
        let low = self.notation.low_byte(self.element);
        let high = self.notation.high_byte(self.element);
        match self.access {
            ByteAccess::LowByte => CountLatch::OneByte(low),
            ByteAccess::HighByte => CountLatch::OneByte(high),
            ByteAccess::LowThenHigh => CountLatch::TwoBytes(low, high),
        }
    }

    /// Latches the status, unless a status is latched already.
    #[tactic(auto, unfolding(device_spec::specs::Pit::latch_status))]
    fn latch_status(&mut self)
        ensures state { self.new ≡ latch_status self.old }
    {
        if self.status_latch.is_none() {
            self.status_latch = Some(self.status_byte());
        }
    }

    /// The status byte: OUT, null count, RW, mode and BCD from bit 7 down.
    #[tactic(auto, unfolding(device_spec::specs::Pit::status_byte))]
    fn status_byte(&self) -> u8
        ensures byte { result ≡ status_byte self.now }
    {
        let out = if self.out { 128 } else { 0 };
        let null_count = if self.null_count { 64 } else { 0 };
        out + null_count
            + 16 * self.access.number()
            + 2 * self.mode.number()
            + self.notation.number()
    }

    /// A read of the counter's port: a latched status, else a latched count, else CE live.
    #[tactic(auto, unfolding(device_spec::specs::Pit::read))]
    pub(crate) fn read(&mut self) -> u8
        ensures byte { result ≡ (read self.old).0 }
        ensures state { self.new ≡ (read self.old).1 }
    {
        if let Some(status) = self.status_latch {
            self.status_latch = None;
            return status;
        }
        match self.count_latch {
            CountLatch::Empty => self.read_live(),
            CountLatch::OneByte(byte) => {
                self.count_latch = CountLatch::Empty;
                byte
            }
            CountLatch::TwoBytes(low, high) => {
                self.count_latch = CountLatch::OneByte(high);
                low
            }
        }
    }

    /// A read of CE with no latch held, by RW 3 low and high in turn.
    #[tactic(auto, unfolding(device_spec::specs::Pit::read_live))]
    fn read_live(&mut self) -> u8
        ensures byte { result ≡ (read_live self.old).0 }
        ensures state { self.new ≡ (read_live self.old).1 }
    {
        let low = self.notation.low_byte(self.element);
        let high = self.notation.high_byte(self.element);
        match self.access {
            ByteAccess::LowByte => low,
            ByteAccess::HighByte => high,
            ByteAccess::LowThenHigh => {
                let is_high = self.reads_high;
                self.reads_high = !is_high;
                if is_high { high } else { low }
            }
        }
    }

    /// A write of a byte at the counter's port; in mode 0 it sets OUT to 0.
    #[tactic(auto, unfolding(device_spec::specs::Pit::write))]
    pub(crate) fn write(&mut self, byte: u8)
        ensures state { self.new ≡ write byte self.old }
    {
        if self.mode.is_terminal_count() {
            self.out = false;
        }
        self.take_byte(byte);
    }

    /// Takes a byte of a count, by RW the low one, the high one, or both in turn.
    #[tactic(auto, unfolding(device_spec::specs::Pit::take_byte))]
    fn take_byte(&mut self, byte: u8)
        ensures state { self.new ≡ take_byte byte self.old }
    {
        match self.access {
            ByteAccess::LowByte => self.complete(byte, 0),
            ByteAccess::HighByte => self.complete(0, byte),
            ByteAccess::LowThenHigh => match self.low_written {
                None => self.take_low(byte),
                Some(low) => self.complete(low, byte),
            },
        }
    }

    /// Takes the low byte of two; in mode 0 the counter stops until the high one.
    #[tactic(auto, unfolding(device_spec::specs::Pit::take_low))]
    fn take_low(&mut self, byte: u8)
        ensures state { self.new ≡ take_low byte self.old }
    {
        self.low_written = Some(byte);
        self.stopped = self.mode.is_terminal_count();
    }

    /// Takes a complete count, which is null until it is loaded.
    #[tactic(auto, unfolding(device_spec::specs::Pit::complete))]
    fn complete(&mut self, low: u8, high: u8)
        ensures state { self.new ≡ complete low high self.old }
    {
        self.count = Some(self.count_of_bytes(low, high));
        self.null_count = true;
        self.low_written = None;
        self.load_asked = self.load_asked || self.mode.asks_for_load(self.started);
        self.stopped = false;
    }

    /// The count that two bytes ask for: 0 is M, and in a periodic mode 1 is taken as 2.
    #[tactic(auto, unfolding(device_spec::specs::Pit::count_of_number))]
    fn count_of_bytes(&self, low: u8, high: u8) -> u32
        ensures count { result ≡ count_of_bytes self.now.mode self.now.notation low high }
        ensures least { least_count self.now.mode ≤ result }
        ensures most { result ≤ 65536 }
    {
        let notation = self.notation;
        let number = notation.byte_value(low) + notation.byte_values() * notation.byte_value(high);
        match number {
            0 => notation.modulus(),
            1 if self.mode.is_periodic() => 2,
            _ => number,
        }
    }

    /// A rise of the gate, which is a trigger in modes 1, 2, 3 and 5.
    #[tactic(auto, unfolding(device_spec::specs::Pit::gate_rises))]
    pub(crate) fn gate_rises(&mut self)
        ensures state { self.new ≡ gate_rises self.old }
    {
        self.trigger = self.trigger || self.mode.is_triggered_by_gate();
    }

    /// A fall of the gate, which sets OUT to 1 in modes 2 and 3.
    #[tactic(auto, unfolding(device_spec::specs::Pit::gate_falls))]
    pub(crate) fn gate_falls(&mut self)
        ensures state { self.new ≡ gate_falls self.old }
    {
        self.out = self.out || self.mode.is_periodic();
    }
}
