//! The state of the timer as bytes, out and in.

ghost use Rattle.std.specs.Prelude.{◌≡◌, ◌++◌, ◌<◌, ◌≤◌, OnOk, IfOk};
ghost use Rattle.byte_fields.specs.Fields.{Took, IsWithin};
ghost use Rattle.byte_fields.specs.Loads.{Loads, OneSpelling};
ghost use Rattle.pit_8254.specs.Quiet.{least_count};
ghost use Rattle.pit_8254.specs.View.{mode_view, access_view, notation_view, latch_view};
ghost use Rattle.pit_8254.specs.State.{AreCounts, AreFlags, word_bytes, word_of, word_fields, access_of, counts_bytes};
ghost use Rattle.pit_8254.specs.State.{counts_of, counts_fields, latch_bytes, latch_fields, IsLatch, latches_bytes};
ghost use Rattle.pit_8254.specs.State.{latches_of, latches_fields, flags_bytes, flags_of, flags_fields, word_view};
ghost use Rattle.pit_8254.specs.State.{counts_view, latches_view, flags_view, IsCounter, counter_bytes, counter_fields};
ghost use Rattle.pit_8254.specs.State.{IsPit, pit_bytes, pit_fields};

use crate::Pit;
use crate::counting::Counter;
use crate::latch::CountLatch;
use crate::word::{ByteAccess, CountNotation, CountingMode};
use board_base::NoMemory;
use byte_fields::{
    Bad, Fields, push_bytes, push_flag, push_optional_byte, push_optional_word, push_word,
};

/// The largest count: 65,536, which is 0 as it is written.
const MOST_COUNT: u32 = 65_536;

/// The largest number of a mode, of RW and of BCD.
const LAST_MODE: u8 = 5;

const LAST_ACCESS: u8 = 3;

const DECIMAL: u8 = 1;

/// What a control word said: the mode, RW and BCD.
#[derive(Clone, Copy)]
struct Word {
    mode: CountingMode,
    access: ByteAccess,
    notation: CountNotation,
}

/// CE, the count in use, and the count written last.
#[derive(Clone, Copy)]
struct Counts {
    element: u32,
    in_use: u32,
    count: Option<u32>,
}

/// What is latched, and what of a count is half read or written.
#[derive(Clone, Copy)]
struct Latches {
    count_latch: CountLatch,
    status_latch: Option<u8>,
    reads_high: bool,
    low_written: Option<u8>,
}

/// The flags.
#[derive(Clone, Copy)]
struct Flags {
    null_count: bool,
    out: bool,
    load_asked: bool,
    started: bool,
    stopped: bool,
    expired: bool,
    trigger: bool,
}

/// The RW of a number from 1 to 3.
fn access_of(number: u8) -> ByteAccess
    ensures access { access_view result ≡ access_of number }
{
    match number {
        1 => ByteAccess::LowByte,
        2 => ByteAccess::HighByte,
        _ => ByteAccess::LowThenHigh,
    }
}

/// Whether a byte is there, and the byte, 0 where it is absent.
fn optional_bytes(byte: Option<u8>) -> [u8; 2]
    ensures sound { IsWithin 0 255 byte }
{
    match byte {
        Some(byte) => [1, byte],
        None => [0, 0],
    }
}

impl CountLatch {
    /// How many bytes are to be read, and these two bytes, 0 where there are fewer.
    fn bytes(self) -> [u8; 3]
        ensures bytes { result ≡ latch_bytes (latch_view self) }
        ensures sound { IsLatch (latch_view self) }
    {
        match self {
            CountLatch::Empty => [0, 0, 0],
            CountLatch::OneByte(byte) => [1, byte, 0],
            CountLatch::TwoBytes(low, high) => [2, low, high],
        }
    }

    /// Reads how many bytes are to be read, and these.
    #[tactic(auto, unfolding(crate::specs::State::latch_fields))]
    fn read(fields: &mut Fields) -> Result<CountLatch, Bad>
        ensures took { Took latch_view result fields.new (latch_fields fields.old) }
    {
        let size = fields.byte(0, 2)?;
        let first = fields.byte(0, if 0 < size { u8::MAX } else { 0 })?;
        let second = fields.byte(0, if 1 < size { u8::MAX } else { 0 })?;
        match size {
            0 => Ok(CountLatch::Empty),
            1 => Ok(CountLatch::OneByte(first)),
            _ => Ok(CountLatch::TwoBytes(first, second)),
        }
    }
}

impl Word {
    /// Reads the mode, RW and BCD.
    #[tactic(auto, unfolding(crate::specs::State::word_fields))]
    fn read(fields: &mut Fields) -> Result<Word, Bad>
        ensures took { Took word_view result fields.new (word_fields fields.old) }
    {
        let mode = fields.byte(0, LAST_MODE)?;
        let access = fields.byte(1, LAST_ACCESS)?;
        let notation = fields.byte(0, DECIMAL)?;
        Ok(Word {
            mode: CountingMode::of_number(mode),
            access: access_of(access),
            notation: CountNotation::of_word(notation),
        })
    }
}

impl Counts {
    /// Reads CE, the count in use, and the count written last, of a counter in this mode.
    #[tactic(auto, unfolding(crate::specs::State::counts_fields))]
    fn read(fields: &mut Fields, mode: CountingMode) -> Result<Counts, Bad>
        ensures took { Took counts_view result fields.new (counts_fields (mode_view mode) fields.old) }
        ensures bounded { IfOk result (λ counts. AreCounts (mode_view mode) (counts_view counts)) }
    {
        let element = fields.word(0, MOST_COUNT)?;
        let in_use = fields.word(0, MOST_COUNT)?;
        let count = fields.optional_word(mode.least_count(), MOST_COUNT)?;
        Ok(Counts {
            element,
            in_use,
            count,
        })
    }
}

impl CountingMode {
    /// The least count of a mode: 2 where a counter loads again at each end, else 1.
    fn least_count(self) -> u32
        ensures least { result ≡ least_count (mode_view self) }
    {
        if self.is_periodic() { 2 } else { 1 }
    }
}

impl Latches {
    /// Reads what is latched or half written.
    #[tactic(auto, unfolding(crate::specs::State::latches_fields))]
    fn read(fields: &mut Fields) -> Result<Latches, Bad>
        ensures took { Took latches_view result fields.new (latches_fields fields.old) }
    {
        let count_latch = CountLatch::read(fields)?;
        let status_latch = fields.optional_byte()?;
        let reads_high = fields.flag()?;
        let low_written = fields.optional_byte()?;
        Ok(Latches {
            count_latch,
            status_latch,
            reads_high,
            low_written,
        })
    }
}

impl Flags {
    /// Reads seven flags.
    #[tactic(auto, unfolding(crate::specs::State::flags_fields))]
    fn read(fields: &mut Fields, has_count: bool) -> Result<Flags, Bad>
        ensures took { Took flags_view result fields.new (flags_fields has_count fields.old) }
        ensures allowed { IfOk result (λ flags. AreFlags has_count (flags_view flags)) }
    {
        let null_count = fields.flag()?;
        let out = fields.flag()?;
        let load_asked = fields.flag_where(has_count)?;
        let started = fields.flag_where(has_count)?;
        let stopped = fields.flag()?;
        let expired = fields.flag()?;
        let trigger = fields.flag()?;
        Ok(Flags {
            null_count,
            out,
            load_asked,
            started,
            stopped,
            expired,
            trigger,
        })
    }
}

impl Counter {
    /// Does nothing: its clause says that the state of each counter is sound.
    fn is_sound(&self)
        ensures sound { IsCounter self.now }
    {
        let _ = self.count_latch.bytes();
        let _ = optional_bytes(self.status_latch);
        let _ = optional_bytes(self.low_written);
    }

    /// The bytes of the mode, RW and BCD.
    fn word(&self) -> [u8; 3]
        ensures bytes { result ≡ word_bytes (word_of self.now) }
    {
        [
            self.mode.number(),
            self.access.number(),
            self.notation.number(),
        ]
    }

    /// Adds CE, the count in use, and the count written last.
    fn save_counts(&self, into: &mut Vec<u8>) -> Result<(), NoMemory>
        ensures saved { OnOk result (into.new.items ≡ into.old.items ++ counts_bytes (counts_of self.now)) }
    {
        push_word(into, self.element)?;
        push_word(into, self.in_use)?;
        push_optional_word(into, self.count)
    }

    /// Adds what is latched or half written.
    fn save_latches(&self, into: &mut Vec<u8>) -> Result<(), NoMemory>
        ensures saved { OnOk result (into.new.items ≡ into.old.items ++ latches_bytes (latches_of self.now)) }
    {
        push_bytes(into, &self.count_latch.bytes())?;
        push_optional_byte(into, self.status_latch)?;
        push_flag(into, self.reads_high)?;
        push_optional_byte(into, self.low_written)
    }

    /// The bytes of the flags.
    fn flags(&self) -> [u8; 7]
        ensures bytes { result ≡ flags_bytes (flags_of self.now) }
    {
        [
            u8::from(self.null_count),
            u8::from(self.out),
            u8::from(self.load_asked),
            u8::from(self.started),
            u8::from(self.stopped),
            u8::from(self.expired),
            u8::from(self.trigger),
        ]
    }

    /// Adds the 31 bytes of a counter.
    fn save_state(&self, into: &mut Vec<u8>) -> Result<(), NoMemory>
        ensures saved { OnOk result (into.new.items ≡ into.old.items ++ counter_bytes self.now) }
    {
        push_bytes(into, &self.word())?;
        self.save_counts(into)?;
        self.save_latches(into)?;
        push_bytes(into, &self.flags())
    }

    /// Reads the fields one after another.
    #[tactic(auto, unfolding(crate::specs::State::counter_fields))]
    fn read_state(fields: &mut Fields) -> Result<Counter, Bad>
        ensures took { Took (λ counter. counter) result fields.new (counter_fields fields.old) }
    {
        let word = Word::read(fields)?;
        let counts = Counts::read(fields, word.mode)?;
        let latches = Latches::read(fields)?;
        let flags = Flags::read(fields, counts.count.is_some())?;
        Ok(Counter {
            element: counts.element,
            count: counts.count,
            in_use: counts.in_use,
            mode: word.mode,
            access: word.access,
            notation: word.notation,
            null_count: flags.null_count,
            out: flags.out,
            count_latch: latches.count_latch,
            status_latch: latches.status_latch,
            reads_high: latches.reads_high,
            low_written: latches.low_written,
            load_asked: flags.load_asked,
            started: flags.started,
            stopped: flags.stopped,
            expired: flags.expired,
            trigger: flags.trigger,
        })
    }
}

impl Pit {
    /// Adds the 94 bytes of the state: counters 0 to 2, and the gate of counter 2.
    pub fn save_state(&self, into: &mut Vec<u8>) -> Result<(), NoMemory>
        ensures saved { OnOk result (into.new.items ≡ into.old.items ++ pit_bytes self.now) }
        ensures sound { IsPit self.now }
    {
        self.counter0.is_sound();
        self.counter1.is_sound();
        self.counter2.is_sound();
        self.counter0.save_state(into)?;
        self.counter1.save_state(into)?;
        self.counter2.save_state(into)?;
        push_flag(into, self.gate2)
    }

    /// The timer whose state is at the front of the bytes. Refused where a field is not whole or out of range: the
    /// bytes left then begin with the first such field.
    pub fn load_state(fields: &mut Fields) -> Result<Pit, Bad>
        ensures loaded { Loads pit_fields pit_bytes IsPit fields.old fields.new result }
    {
        fields.are_bytes();
        Pit::read_state(fields)
    }

    /// Reads the fields one after another.
    #[tactic(auto, unfolding(crate::specs::State::pit_fields))]
    fn read_state(fields: &mut Fields) -> Result<Pit, Bad>
        ensures took { Took (λ pit. pit) result fields.new (pit_fields fields.old) }
    {
        let counter0 = Counter::read_state(fields)?;
        let counter1 = Counter::read_state(fields)?;
        let counter2 = Counter::read_state(fields)?;
        let gate2 = fields.flag()?;
        Ok(Pit {
            counter0,
            counter1,
            counter2,
            gate2,
        })
    }
}

/// One state has one spelling, and one spelling is of one state.
pub fn law_one_pit()
    ensures one { OneSpelling pit_bytes IsPit }
{}
