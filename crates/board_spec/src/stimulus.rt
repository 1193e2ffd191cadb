//! What the world outside does to the board where one number says it, and for some a level: a table with a line a
//! stimulus, which readers and writers of scripts, logs, images and records go by.

ghost use Rattle.std.specs.Prelude.{◌≡◌, ◌<◌, ◌^◌, true};
ghost use Rattle.board_spec.specs.InRange.{is_free_line};
ghost use Rattle.board_spec.specs.Stimuli.{stimulus_form, stimulus_of_word, stimulus_of_code, event_applied, applied};
ghost use Rattle.board_spec.specs.Stimuli.{applied_by};

use crate::event::Event;
use board_base::Dev;

/// The most pulses of one statement.
pub const MOST_PULSES_AT_ONCE: u32 = 1_000_000;
/// The last sector of the largest disk.
pub const LAST_SECTOR: u32 = 0xFFFF;
/// The first device number that a card can have.
pub const FIRST_CARD: u32 = 2;
/// The last device number that a card can have.
pub const LAST_CARD: u32 = 9;

/// What the world outside does, by a number and for some a level.
#[derive(Clone, Copy, PartialEq, Eq, Debug)]
pub enum Stimulus {
    /// Pulses of the 8254's clock input: how many.
    Pulses,
    /// INTA# of a card takes a level: its device number.
    Wire,
    /// An interrupt request line takes a level: its number.
    Line,
    /// A sector of the disk goes bad: its number.
    BadSector,
}

/// A stimulus with the number that it gives, and its level, which is `false` where it has none.
#[derive(Clone, Copy, PartialEq, Eq, Debug)]
pub struct Applied {
    pub stimulus: Stimulus,
    pub number: u32,
    pub on: bool,
}

impl Stimulus {
    /// All of them.
    pub const ALL: [Stimulus; 4] = [
        Stimulus::Pulses,
        Stimulus::Wire,
        Stimulus::Line,
        Stimulus::BadSector,
    ];

    /// Its word in scripts and logs.
    pub fn word(self) -> &'static str
        ensures word { result.now ≡ (stimulus_form self).word }
    {
        match self {
            Stimulus::Pulses => "pulse",
            Stimulus::Wire => "wire",
            Stimulus::Line => "irq",
            Stimulus::BadSector => "bad",
        }
    }

    /// Its number in images and in records.
    pub fn code(self) -> u8
        ensures code { result ≡ (stimulus_form self).code }
    {
        match self {
            Stimulus::Pulses => 5,
            Stimulus::Wire => 7,
            Stimulus::Line => 8,
            Stimulus::BadSector => 9,
        }
    }

    /// Whether a level follows its number.
    pub fn has_level(self) -> bool
        ensures level { result ≡ (stimulus_form self).has_level }
    {
        matches!(self, Stimulus::Wire | Stimulus::Line)
    }

    /// What answers it.
    pub fn answers(self) -> Dev
        ensures answers { result ≡ (stimulus_form self).answers }
    {
        match self {
            Stimulus::Pulses => Dev::Pit,
            Stimulus::Wire | Stimulus::Line => Dev::Wires,
            Stimulus::BadSector => Dev::Ata,
        }
    }

    /// Whether a script can give it this number.
    pub fn has_number(self, number: u32) -> bool
        ensures number { result ≡ (stimulus_form self).numbers number }
    {
        match self {
            Stimulus::Pulses => (1..=MOST_PULSES_AT_ONCE).contains(&number),
            Stimulus::Wire => (FIRST_CARD..=LAST_CARD).contains(&number),
            Stimulus::Line => is_free_line(number),
            Stimulus::BadSector => number <= LAST_SECTOR,
        }
    }

    /// The one with a word of a script or a log. None exactly where there is none.
    pub fn of_word(word: &[u8]) -> Option<Stimulus>
        ensures found { result ≡ stimulus_of_word word.now }
    {
        Stimulus::ALL
            .iter()
            .copied()
            .find(|one| word == one.word().as_bytes())
    }

    /// The one with a number of an image or a record. None exactly where there is none.
    pub fn of_code(code: u8) -> Option<Stimulus>
        ensures found { result ≡ stimulus_of_code code }
    {
        Stimulus::ALL.iter().copied().find(|one| code == one.code())
    }

    /// The event that it is with this number, which is a byte where it has a level.
    pub fn event(self, number: u32, on: bool) -> Event
        requires byte { (stimulus_form self).has_level ≡ true → number < 2 ^ 8 }
        ensures event { result ≡ event_applied self number on }
    {
        match self {
            Stimulus::Pulses => Event::Pulses(number),
            Stimulus::Wire => Event::Wire {
                dev: number as u8,
                on,
            },
            Stimulus::Line => Event::Line {
                irq: number as u8,
                on,
            },
            Stimulus::BadSector => Event::BadSector(number),
        }
    }
}

/// Whether an interrupt request line is one that the world outside sets: not that of the timer, the cascade, the clock,
/// the coprocessor or the disk.
pub fn is_free_line(irq: u32) -> bool
    ensures free { result ≡ is_free_line irq }
{
    matches!(irq, 1 | 3..=7 | 9..=12 | 15)
}

fn apply(stimulus: Stimulus, number: u32, on: bool) -> Applied
    ensures applied { result ≡ applied stimulus number on }
{
    Applied {
        stimulus,
        number,
        on,
    }
}

impl Event {
    /// The stimulus that it applies. None for an access, a look, an acknowledge and a moment.
    pub fn applied(&self) -> Option<Applied>
        ensures applied { result ≡ applied_by self.now }
    {
        match *self {
            Event::Pulses(count) => Some(apply(Stimulus::Pulses, count, false)),
            Event::Wire { dev, on } => Some(apply(Stimulus::Wire, dev.into(), on)),
            Event::Line { irq, on } => Some(apply(Stimulus::Line, irq.into(), on)),
            Event::BadSector(sector) => Some(apply(Stimulus::BadSector, sector, false)),
            _ => None,
        }
    }
}
