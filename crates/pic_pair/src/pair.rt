//! The master and the slave.
ghost use Rattle.std.specs.Prelude.{◌≡◌, ◌<◌, is_some, Some, None};
ghost use Rattle.device_spec.specs.Pic.{interrupt, acknowledged_if};
ghost use Rattle.device_spec.specs.Pair.{chip_answer, master_inputs, pair_at_reset, levels_at_power_on, settled};
ghost use Rattle.device_spec.specs.Pair.{pair_after_lines, is_slave_port, is_odd_port, pair_written, pair_after_write};
ghost use Rattle.device_spec.specs.Pair.{port_byte, pair_read, pair_after_read, answer_at, answer_of};
ghost use Rattle.device_spec.specs.Pair.{pair_acknowledged, pair_after_acknowledge};
ghost use Rattle.pic_pair.specs.Lines.{heard_lines};
ghost use Rattle.pic_pair.specs.View.{answer_shown};

use crate::chip::{CASCADE, Pic};
use crate::level_set::LevelSet;
use crate::lines::Lines;
use board_base::bits::is_set;
use std::marker::Model;

/// The line of the timer, which is 1 at power-on.
const TIMER_LINE: u8 = 0;

/// The number of the master, and that of the slave.
const MASTER: u8 = 0;

const SLAVE: u8 = 1;
/// The level of a spurious answer.
const SPURIOUS: u8 = 7;
/// The bit of a port that chooses the slave.
const SLAVE_PORT: u32 = 7;
/// The bit of a port that is the chip's input A0.
const ODD_PORT: u32 = 0;

/// The answer to an acknowledge: the vector, the chip that gave it, 0 the master and 1 the slave, and
/// whether it is spurious.
#[derive(Clone, Copy, PartialEq, Eq, Debug)]
pub struct Ack {
    pub vector: u8,
    pub chip: u8,
    pub spurious: bool,
}

/// The 8259A pair: the master at ports 20h and 21h, and the slave at A0h and A1h on its input 2. `board_example::pic`
/// has an example.
#[derive(Drop)]
pub struct PicPair {
    pub(crate) master: Pic,
    pub(crate) slave: Pic,
}

impl Model for PicPair {
    ghost use Rattle.std.specs.Prelude.{◌≡◌, true, false};
    ghost use Rattle.device_spec.specs.Pair.{Pair};

    ghost Value = { Pair };

    ghost view = { λ pair. record { master = pair.master; slave = pair.slave } };

    ghost invariant = { λ pair. (pair.master.has_slave ≡ true) × (pair.slave.has_slave ≡ false) };
}

impl PicPair {
    /// The pair at power-on, with line 0 at 1 and all others at 0.
    pub fn new() -> PicPair
        ensures power_on { result ≡ pair_at_reset levels_at_power_on }
    {
        PicPair::at_reset(&Lines::low().with(TIMER_LINE, true))
    }

    /// Resets both chips, with the sixteen lines at these levels.
    pub fn reset(&mut self, levels: Lines)
        ensures reset { self.new ≡ pair_at_reset levels }
    {
        *self = PicPair::at_reset(&levels);
    }

    /// Reads one of the four ports. A read that polls acknowledges a level of that chip.
    pub fn port_read(&mut self, port: u16) -> u8
        ensures byte { result ≡ port_byte self.old port }
        ensures after { self.new ≡ pair_after_read self.old port }
    {
        let byte = self.read_chip(port);
        self.settle();
        byte
    }

    /// Writes one of the four ports.
    pub fn port_write(&mut self, port: u16, byte: u8)
        ensures written { self.new ≡ pair_after_write self.old port byte }
    {
        self.write_chip(port, byte);
        self.settle();
    }

    /// Gives the sixteen lines their levels. Bit k of `elcr` says that line k is level triggered.
    pub fn lines(&mut self, levels: Lines, elcr: u16)
        ensures lines { self.new ≡ pair_after_lines self.old levels elcr }
    {
        let [low_triggers, high_triggers] = elcr.to_le_bytes();
        self.master.set_inputs(
            master_inputs(levels.masters()),
            master_inputs(LevelSet::from_byte(low_triggers)),
        );
        self.slave
            .set_inputs(levels.slaves(), LevelSet::from_byte(high_triggers));
        self.settle();
    }

    /// The levels of the sixteen lines as they reached the pair last: bit k is that of line k. Line 2 reaches no input, so
    /// that its bit is 0.
    pub fn heard(&self) -> u16
        ensures levels { result ≡ heard_lines self.now }
    {
        u16::from_le_bytes([self.master.inputs.byte(), self.slave.inputs.byte()])
    }

    /// Whether the master's INT is 1, which requests an interrupt of the processor.
    pub fn pending(&self) -> bool
        ensures pending { result ≡ is_some (interrupt self.now.master) }
    {
        self.master.interrupt().is_some()
    }

    /// Acknowledges the requested interrupt; where none is requested, the answer is spurious.
    #[tactic(auto, unfolding(device_spec::specs::Pair::answer_of, device_spec::specs::Pair::pair_after_acknowledge))]
    pub fn acknowledge(&mut self) -> Ack
        ensures answer { answer_shown result ≡ answer_of self.old }
        ensures after { self.new ≡ pair_after_acknowledge self.old }
    {
        match self.master.interrupt() {
            Some(level) => {
                let ack = self.acknowledge_level(level);
                self.settle();
                ack
            }
            None => spurious_answer(MASTER, &self.master),
        }
    }

    /// Acknowledges a level of the master, and the slave where it is its own.
    fn acknowledge_level(&mut self, level: u8) -> Ack
        requires { level < 8 }
        ensures answer { answer_shown result ≡ answer_at self.old (Some level) }
        ensures after { self.new ≡ pair_acknowledged self.old level }
    {
        self.master.acknowledge(level);
        if level == CASCADE {
            acknowledge_slave(&mut self.slave)
        } else {
            answer(MASTER, &self.master, level)
        }
    }

    /// Reads a port of one chip.
    fn read_chip(&mut self, port: u16) -> u8
        ensures byte { result ≡ port_byte self.old port }
        ensures after { self.new ≡ pair_read self.old port }
    {
        if is_slave_port(port) {
            self.slave.read(is_odd_port(port))
        } else {
            self.master.read(is_odd_port(port))
        }
    }

    /// Writes a port of one chip.
    fn write_chip(&mut self, port: u16, byte: u8)
        ensures written { self.new ≡ pair_written self.old port byte }
    {
        if is_slave_port(port) {
            self.slave.write(is_odd_port(port), byte);
        } else {
            self.master.write(is_odd_port(port), byte);
        }
    }

    /// The pair after a reset, with its lines at these levels.
    fn at_reset(levels: &Lines) -> PicPair
        ensures reset { result ≡ pair_at_reset levels.now }
    {
        PicPair {
            master: Pic::new(true, master_inputs(levels.masters())),
            slave: Pic::new(false, levels.slaves()),
        }
    }

    /// Latches the slave's INT at input 2 of the master, where it is 1.
    fn settle(&mut self)
        ensures settled { self.new ≡ settled self.old }
    {
        if self.slave.interrupt().is_some() {
            self.master.latch_slave();
        }
    }
}

/// Whether a port is the slave's.
fn is_slave_port(port: u16) -> bool
    ensures slave { result ≡ is_slave_port port }
{
    is_set(port.into(), SLAVE_PORT)
}

/// Whether a port is the odd one of its chip.
fn is_odd_port(port: u16) -> bool
    ensures odd { result ≡ is_odd_port port }
{
    is_set(port.into(), ODD_PORT)
}

/// Takes away line 2, which reaches no input.
fn master_inputs(mut lines: LevelSet) -> LevelSet
    ensures inputs { result ≡ master_inputs lines }
{
    lines.remove(CASCADE);
    lines
}

/// Acknowledges the slave, which the master has chosen.
fn acknowledge_slave(slave: &mut Pic) -> Ack
    ensures answer { answer_shown result ≡ chip_answer 1 slave.old (interrupt slave.old) }
    ensures after { slave.new ≡ acknowledged_if slave.old (interrupt slave.old) }
    ensures wired { slave.new.has_slave ≡ slave.old.has_slave }
{
    match slave.interrupt() {
        Some(level) => {
            slave.acknowledge(level);
            answer(SLAVE, slave, level)
        }
        None => spurious_answer(SLAVE, slave),
    }
}

/// The answer of a chip for a level.
fn answer(number: u8, chip: &Pic, level: u8) -> Ack
    requires { level < 8 }
    ensures answer { answer_shown result ≡ chip_answer number chip.now (Some level) }
{
    Ack {
        vector: chip.vector(level),
        chip: number,
        spurious: false,
    }
}

/// The spurious answer of a chip.
fn spurious_answer(number: u8, chip: &Pic) -> Ack
    ensures answer { answer_shown result ≡ chip_answer number chip.now None }
{
    Ack {
        vector: chip.vector(SPURIOUS),
        chip: number,
        spurious: true,
    }
}
