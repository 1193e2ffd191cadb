//! One 8259A interrupt controller.
//!
//! | port | read                                  | write                                               |
//! |------|---------------------------------------|-----------------------------------------------------|
//! | even | what OCW3 chose: the levels pending   | ICW1 where bit 4 is 1, OCW3 where bits 4 and 3 are  |
//! |      | or those in service; a poll           | 0 and 1, else OCW2: ends of interrupt, priorities   |
//! | odd  | the mask; a poll                      | ICW2 to ICW4 while they are awaited, else OCW1      |
ghost use Rattle.std.specs.Prelude.{◌≡◌, ◌+◌, ◌++◌, ◌<◌, ◌&&◌, ◌||◌, not, IfSome, slice_index, false};
ghost use Rattle.device_spec.specs.Levels.{with_level, levels_where};
ghost use Rattle.device_spec.specs.Pic.{acknowledged_if, byte_polled, is_complete, chip_at_reset, chip_after_inputs};
ghost use Rattle.device_spec.specs.Pic.{pending, priority_order, is_blocking, blocks_itself, is_requested, request};
ghost use Rattle.device_spec.specs.Pic.{interrupt, acknowledged, chip_after_icw1, first_blocking, chip_after_ocw2};
ghost use Rattle.device_spec.specs.Pic.{chip_after_ocw3, chip_after_odd_write, chip_after_write, byte_read};
ghost use Rattle.device_spec.specs.Pic.{chip_after_read, ended};
ghost use Rattle.pic_pair.specs.View.{awaited_words, cascade_words, mode_words};

use crate::level_set::LevelSet;
use crate::priority::{LEVEL_COUNT, first_of, level_at};
use board_base::bits::is_set;
use std::marker::Model;

/// The input of the master to which the slave is wired.
pub const CASCADE: u8 = 2;
/// The level of lowest priority after a reset or ICW1.
const LAST_LEVEL: u8 = 7;

/// ICW1: the bit that marks it among the words of the even port.
const ICW1: u32 = 4;
/// ICW1: the chip is alone, so that ICW3 does not come.
const SINGLE: u32 = 1;
/// ICW1: ICW4 is to come.
const NEEDS_ICW4: u32 = 0;
/// ICW2: the bits that give the base of the vectors.
const VECTOR_BASE: u8 = 0xF8;
/// ICW4: automatic end of interrupt.
const AUTO_EOI: u32 = 1;
/// ICW4: special fully nested mode.
const FULLY_NESTED: u32 = 4;

/// OCW2: the bits that name a level.
const LEVEL_BITS: u8 = 7;
/// OCW2: where its command, the bits R, SL and EOI, begins.
const COMMAND: u8 = 5;
/// The commands of OCW2.
const NON_SPECIFIC_EOI: u8 = 0b001;

const SPECIFIC_EOI: u8 = 0b011;

const ROTATE_ON_NON_SPECIFIC_EOI: u8 = 0b101;

const ROTATE_ON_SPECIFIC_EOI: u8 = 0b111;

const SET_ROTATE_IN_AUTO_EOI: u8 = 0b100;

const CLEAR_ROTATE_IN_AUTO_EOI: u8 = 0b000;

const SET_PRIORITY: u8 = 0b110;

/// OCW3: the bit that marks it, where that of ICW1 is 0.
const OCW3: u32 = 3;
/// OCW3: special mask mode is to be taken from `SPECIAL_MASK`.
const ENABLE_SPECIAL_MASK: u32 = 6;
/// OCW3: special mask mode.
const SPECIAL_MASK: u32 = 5;
/// OCW3: the next read polls.
const POLL: u32 = 2;
/// OCW3: what a read gives is to be taken from `READ_IN_SERVICE`.
const READ_REGISTER: u32 = 1;
/// OCW3: a read gives the levels in service.
const READ_IN_SERVICE: u32 = 0;

/// What a poll adds to the level that it found.
const POLLED: u8 = 0x80;

/// The initialisation command words that are awaited.
#[derive(Clone, Copy)]
pub enum Awaited {
    /// None: the odd port takes the mask.
    Nothing,
    /// ICW2, then ICW3 unless `single`, and ICW4 where `mode`.
    Vector { single: bool, mode: bool },
    /// ICW3, then ICW4 where `mode`.
    Cascade { mode: bool },
    /// ICW4.
    Mode,
}

/// One 8259A: its registers, the levels of its inputs and its modes.
#[derive(Drop)]
pub struct Pic {
    pub(crate) has_slave: bool,
    pub(crate) base: u8,
    pub(crate) masked: LevelSet,
    pub(crate) in_service: LevelSet,
    pub(crate) latches: LevelSet,
    pub(crate) inputs: LevelSet,
    pub(crate) triggers: LevelSet,
    pub(crate) awaited: Awaited,
    pub(crate) is_ready: bool,
    pub(crate) auto_eoi: bool,
    pub(crate) fully_nested: bool,
    pub(crate) rotates: bool,
    pub(crate) special_mask: bool,
    pub(crate) lowest: u8,
    pub(crate) polls: bool,
    pub(crate) reads_in_service: bool,
}

impl Model for Pic {
    ghost use Rattle.std.specs.Prelude.{◌≤◌, ◌<◌};
    ghost use Rattle.device_spec.specs.Pic.{Chip};

    ghost Value = { Chip };

    ghost use Rattle.pic_pair.specs.View.{awaited_words};

    ghost view = { λ pic. record {
      has_slave = pic.has_slave;
      base = pic.base;
      masked = pic.masked;
      in_service = pic.in_service;
      latches = pic.latches;
      inputs = pic.inputs;
      triggers = pic.triggers;
      awaited = awaited_words pic.awaited;
      is_ready = pic.is_ready;
      auto_eoi = pic.auto_eoi;
      fully_nested = pic.fully_nested;
      rotates = pic.rotates;
      special_mask = pic.special_mask;
      lowest = pic.lowest;
      polls = pic.polls;
      reads_in_service = pic.reads_in_service;
    } };

    ghost invariant = { λ pic. (pic.base ≤ 248) × (pic.lowest < 8) };
}

impl Pic {
    /// A chip after a reset, with its inputs at these levels; the master `has_slave`.
    pub fn new(has_slave: bool, inputs: LevelSet) -> Pic
        ensures reset { result ≡ chip_at_reset has_slave inputs }
    {
        Pic {
            has_slave,
            base: 0,
            masked: LevelSet::empty(),
            in_service: LevelSet::empty(),
            latches: LevelSet::empty(),
            inputs,
            triggers: LevelSet::empty(),
            awaited: Awaited::Nothing,
            is_ready: false,
            auto_eoi: false,
            fully_nested: false,
            rotates: false,
            special_mask: false,
            lowest: LAST_LEVEL,
            polls: false,
            reads_in_service: false,
        }
    }

    /// Gives the inputs their levels, with those that are level triggered: rises are latched.
    pub fn set_inputs(&mut self, inputs: LevelSet, triggers: LevelSet)
        ensures inputs { self.new ≡ chip_after_inputs self.old inputs triggers }
    {
        let rises = inputs.difference(&self.inputs);
        let falls = self.inputs.difference(&inputs);
        self.latches = self.latches.union(&rises).difference(&falls);
        self.inputs = inputs;
        self.triggers = triggers;
    }

    /// Latches the slave's request at the input to which it is wired.
    pub fn latch_slave(&mut self)
        ensures latched { self.new ≡ record self.old { latches = with_level self.old.latches 2 } }
    {
        self.latches.insert(CASCADE);
    }

    /// The level that the output INT stands for, where it is 1.
    pub fn interrupt(&self) -> Option<u8>
        ensures interrupt { result ≡ interrupt self.now }
        ensures level { IfSome result (λ level. level < 8) }
    {
        if self.is_ready { self.request() } else { None }
    }

    /// The vector of a level.
    pub fn vector(&self, level: u8) -> u8
        requires { level < 8 }
        ensures vector { result ≡ self.now.base + level }
    {
        self.base + level
    }

    /// Takes a level into service, or with automatic end of interrupt only clears its latch.
    pub fn acknowledge(&mut self, level: u8)
        requires { level < 8 }
        ensures acknowledged { self.new ≡ acknowledged self.old level }
    {
        self.latches.remove(level);
        if !self.auto_eoi {
            self.in_service.insert(level);
        } else if self.rotates {
            self.lowest = level;
        }
    }

    /// Reads the even or the odd port.
    #[tactic(auto, unfolding(device_spec::specs::Pic::byte_read, device_spec::specs::Pic::chip_after_read))]
    pub fn read(&mut self, is_odd: bool) -> u8
        ensures byte { result ≡ byte_read self.old is_odd }
        ensures after { self.new ≡ chip_after_read self.old }
        ensures wired { self.new.has_slave ≡ self.old.has_slave }
    {
        if self.polls {
            return self.poll();
        }
        if is_odd {
            self.masked.byte()
        } else if self.reads_in_service {
            self.in_service.byte()
        } else {
            self.pending().byte()
        }
    }

    /// Writes the even or the odd port.
    #[tactic(auto, unfolding(device_spec::specs::Pic::chip_after_write))]
    pub fn write(&mut self, is_odd: bool, byte: u8)
        ensures written { self.new ≡ chip_after_write self.old is_odd byte }
        ensures wired { self.new.has_slave ≡ self.old.has_slave }
    {
        if is_odd {
            self.write_odd(byte);
        } else if is_set(byte.into(), ICW1) {
            self.initialise(byte);
        } else if is_set(byte.into(), OCW3) {
            self.operate_modes(byte);
        } else {
            self.operate(byte >> COMMAND, byte & LEVEL_BITS);
        }
    }

    /// A read that polls: acknowledges the request and gives its level with bit 7 set, or 0 where there is none.
    fn poll(&mut self) -> u8
        ensures byte { result ≡ byte_polled (interrupt self.old) }
        ensures after { self.new ≡ record (acknowledged_if self.old (interrupt self.old)) { polls = false } }
        ensures wired { self.new.has_slave ≡ self.old.has_slave }
    {
        match self.interrupt() {
            Some(level) => {
                self.acknowledge(level);
                self.polls = false;
                POLLED + level
            }
            None => {
                self.polls = false;
                0
            }
        }
    }

    /// The levels that request service.
    fn pending(&self) -> LevelSet
        ensures pending { result ≡ pending self.now }
    {
        let high = self.inputs.intersection(&self.triggers);
        let latched = self.latches.difference(&self.triggers);
        high.union(&latched)
    }

    /// The level at a place in the order from the highest priority to the lowest.
    fn level_at(&self, place: u8) -> u8
        requires place { place < 8 }
        ensures level { result ≡ slice_index (priority_order self.now.lowest) place }
        ensures small { result < 8 }
    {
        level_at(self.lowest, place)
    }

    /// Whether a level in service blocks those after it.
    fn is_blocking(&self, level: u8) -> bool
        requires { level < 8 }
        ensures blocking { result ≡ is_blocking self.now level }
    {
        self.in_service.contains(level) && !(self.special_mask && self.masked.contains(level))
    }

    /// Whether a level in service blocks itself: not that of a slave in special fully nested mode.
    fn blocks_itself(&self, level: u8) -> bool
        requires { level < 8 }
        ensures blocking { result ≡ blocks_itself self.now level }
    {
        self.is_blocking(level) && !(self.fully_nested && self.has_slave && level == CASCADE)
    }

    /// The levels that are pending and not masked.
    fn requested(&self) -> LevelSet
        ensures requested { result ≡ levels_where (is_requested self.now) }
    {
        self.pending().difference(&self.masked)
    }

    /// Whether a level is one of those requested, and not blocked by itself.
    #[tactic(auto, using(crate::proofs::ChipLemmas::requested_has))]
    fn asks(&self, requested: &LevelSet, level: u8) -> bool
        requires level { level < 8 }
        requires requested { requested.now ≡ levels_where (is_requested self.now) }
        ensures asks { result ≡ (is_requested self.now level && not (blocks_itself self.now level)) }
    {
        requested.contains(level) && !self.blocks_itself(level)
    }

    /// The first level that can be selected. Where none is requested, none is searched for.
    #[tactic(auto, using(crate::proofs::ChipLemmas::none_requested))]
    fn request(&self) -> Option<u8>
        ensures request { result ≡ request self.now }
        ensures level { IfSome result (λ level. level < 8) }
    {
        let requested = self.requested();
        if requested.is_empty() {
            return None;
        }
        self.first_selectable(&requested)
    }

    /// The first level that can be selected, of those requested.
    #[tactic(auto, using(crate::proofs::ChipLemmas::search_laws))]
    fn first_selectable(&self, requested: &LevelSet) -> Option<u8>
        requires requested { requested.now ≡ levels_where (is_requested self.now) }
        ensures request { result ≡ request self.now }
        ensures level { IfSome result (λ level. level < 8) }
    {
        for place in 0..LEVEL_COUNT {
            let level = self.level_at(place);
            if self.asks(requested, level) {
                return Some(level);
            }
            if self.is_blocking(level) {
                return None;
            }
        }
        None
    }

    /// The levels in service that block those after them: in special mask mode not those that are masked.
    fn blocking(&self) -> LevelSet
        ensures blocking { result ≡ levels_where (is_blocking self.now) }
    {
        if self.special_mask {
            self.in_service.difference(&self.masked)
        } else {
            self.in_service.difference(&LevelSet::empty())
        }
    }

    /// The first level that blocks others, which is the one that a non-specific end of interrupt ends.
    fn first_blocking(&self) -> Option<u8>
        ensures first { result ≡ first_blocking self.now }
        ensures level { IfSome result (λ level. level < 8) }
    {
        first_of(&self.blocking(), self.lowest)
    }

    /// ICW1: clears the masks, the levels in service, the latches and the modes, and awaits ICW2.
    fn initialise(&mut self, byte: u8)
        ensures initialised { self.new ≡ chip_after_icw1 self.old byte }
    {
        self.masked = LevelSet::empty();
        self.in_service = LevelSet::empty();
        self.latches = LevelSet::empty();
        self.awaited = Awaited::Vector {
            single: is_set(byte.into(), SINGLE),
            mode: is_set(byte.into(), NEEDS_ICW4),
        };
        self.auto_eoi = false;
        self.fully_nested = false;
        self.rotates = false;
        self.special_mask = false;
        self.lowest = LAST_LEVEL;
        self.polls = false;
        self.reads_in_service = false;
    }

    /// OCW2: ends of interrupts, and priorities. Command 010b does nothing.
    fn operate(&mut self, command: u8, level: u8)
        requires { level < 8 }
        ensures operated { self.new ≡ chip_after_ocw2 self.old command level }
        ensures wired { self.new.has_slave ≡ self.old.has_slave }
    {
        match command {
            NON_SPECIFIC_EOI => self.end(false, self.first_blocking()),
            SPECIFIC_EOI => self.end(false, Some(level)),
            ROTATE_ON_NON_SPECIFIC_EOI => self.end(true, self.first_blocking()),
            ROTATE_ON_SPECIFIC_EOI => self.end(true, Some(level)),
            SET_ROTATE_IN_AUTO_EOI => self.rotates = true,
            CLEAR_ROTATE_IN_AUTO_EOI => self.rotates = false,
            SET_PRIORITY => self.lowest = level,
            _ => {}
        }
    }

    /// Takes a level out of service, and makes it the lowest where the priorities rotate.
    fn end(&mut self, rotates: bool, level: Option<u8>)
        requires { IfSome level (λ level. level < 8) }
        ensures ended { self.new ≡ ended rotates self.old level }
        ensures wired { self.new.has_slave ≡ self.old.has_slave }
    {
        if let Some(level) = level {
            self.in_service.remove(level);
            if rotates {
                self.lowest = level;
            }
        }
    }

    /// OCW3: special mask mode, poll, and what a read gives.
    fn operate_modes(&mut self, byte: u8)
        ensures operated { self.new ≡ chip_after_ocw3 self.old byte }
    {
        self.polls = is_set(byte.into(), POLL) || self.polls;
        if is_set(byte.into(), ENABLE_SPECIAL_MASK) {
            self.special_mask = is_set(byte.into(), SPECIAL_MASK);
        }
        if is_set(byte.into(), READ_REGISTER) {
            self.reads_in_service = is_set(byte.into(), READ_IN_SERVICE);
        }
    }

    /// The word that is awaited, or else the mask.
    fn write_odd(&mut self, byte: u8)
        ensures written { self.new ≡ chip_after_odd_write self.old self.old.awaited byte }
        ensures wired { self.new.has_slave ≡ self.old.has_slave }
    {
        match self.awaited {
            Awaited::Nothing => self.masked = LevelSet::from_byte(byte),
            Awaited::Vector { single, mode } => {
                self.base = byte & VECTOR_BASE;
                self.await_words(Awaited::after_vector(single, mode));
            }
            Awaited::Cascade { mode } => self.await_words(Awaited::after_cascade(mode)),
            Awaited::Mode => {
                self.auto_eoi = is_set(byte.into(), AUTO_EOI);
                self.fully_nested = is_set(byte.into(), FULLY_NESTED);
                self.await_words(Awaited::Nothing);
            }
        }
    }

    /// Awaits these words; where there are none, a sequence is complete and the chip is ready.
    fn await_words(&mut self, awaited: Awaited)
        ensures awaits { self.new ≡ record self.old {
          awaited = awaited_words awaited;
          is_ready = self.old.is_ready || is_complete (awaited_words awaited);
        } }
    {
        if let Awaited::Nothing = awaited {
            self.is_ready = true;
        }
        self.awaited = awaited;
    }
}

impl Awaited {
    /// The words awaited after ICW2.
    fn after_vector(single: bool, mode: bool) -> Awaited
        ensures words { awaited_words result ≡ cascade_words single ++ mode_words mode }
    {
        if single {
            Awaited::after_cascade(mode)
        } else {
            Awaited::Cascade { mode }
        }
    }

    /// The words awaited after ICW3.
    fn after_cascade(mode: bool) -> Awaited
        ensures words { awaited_words result ≡ mode_words mode }
    {
        if mode {
            Awaited::Mode
        } else {
            Awaited::Nothing
        }
    }
}
