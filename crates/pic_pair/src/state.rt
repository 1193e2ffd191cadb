//! The states of the pair and of the interrupt lines as bytes, out and in.

ghost use Rattle.std.specs.Prelude.{◌≡◌, ◌++◌, ◌<◌, OnOk, IfOk};
ghost use Rattle.byte_fields.specs.Fields.{Took};
ghost use Rattle.byte_fields.specs.Loads.{Loads, OneSpelling};
ghost use Rattle.pic_pair.specs.View.{awaited_words};
ghost use Rattle.pic_pair.specs.State.{awaited_byte, words_of, sets_of, modes_of, sets_bytes, modes_bytes, sets_fields};
ghost use Rattle.pic_pair.specs.State.{modes_fields, IsChip, chip_bytes, chip_fields, IsPair, pair_bytes, pair_fields};
ghost use Rattle.pic_pair.specs.State.{AreLines, lines_bytes, lines_fields};

use crate::chip::{Awaited, Pic};
use crate::level_set::LevelSet;
use crate::lines::Lines;
use crate::pair::PicPair;
use crate::priority::LEVEL_COUNT;
use board_base::NoMemory;
use board_base::bits::is_set;
use byte_fields::{Bad, Fields, push_byte, push_bytes};

/// The bits of the words that are awaited.
const ICW2: u32 = 2;

const ICW3: u32 = 1;

const ICW4: u32 = 0;

/// The largest byte of the words that are awaited.
const ALL_WORDS: u8 = 7;

/// The largest base of vectors.
const LAST_BASE: u8 = 248;

/// The sets of levels of a chip.
#[derive(Drop)]
struct Sets {
    masked: LevelSet,
    in_service: LevelSet,
    latches: LevelSet,
    inputs: LevelSet,
    triggers: LevelSet,
}

/// The modes of a chip.
#[derive(Drop)]
struct Modes {
    is_ready: bool,
    auto_eoi: bool,
    fully_nested: bool,
    rotates: bool,
    special_mask: bool,
    polls: bool,
    reads_in_service: bool,
}

impl Awaited {
    /// The byte with a bit for each word that is awaited.
    #[tactic(auto, unfolding(crate::specs::State::awaited_byte))]
    fn byte(self) -> u8
        ensures byte { result ≡ awaited_byte (awaited_words self) }
        ensures words { awaited_words self ≡ words_of result }
        ensures small { result < 8 }
    {
        match self {
            Awaited::Nothing => 0,
            Awaited::Mode => 1,
            Awaited::Cascade { mode: false } => 2,
            Awaited::Cascade { mode: true } => 3,
            Awaited::Vector {
                single: true,
                mode: false,
            } => 4,
            Awaited::Vector {
                single: true,
                mode: true,
            } => 5,
            Awaited::Vector {
                single: false,
                mode: false,
            } => 6,
            Awaited::Vector {
                single: false,
                mode: true,
            } => 7,
        }
    }

    /// The words whose bits a byte has.
    fn of_byte(byte: u8) -> Awaited
        ensures words { awaited_words result ≡ words_of byte }
    {
        let mode = is_set(byte.into(), ICW4);
        let cascade = is_set(byte.into(), ICW3);
        if is_set(byte.into(), ICW2) {
            return Awaited::Vector {
                single: !cascade,
                mode,
            };
        }
        if cascade {
            return Awaited::Cascade { mode };
        }
        if mode {
            Awaited::Mode
        } else {
            Awaited::Nothing
        }
    }
}

impl Sets {
    /// Reads five sets, each any byte.
    #[tactic(auto, unfolding(crate::specs::State::sets_fields))]
    fn read(fields: &mut Fields) -> Result<Sets, Bad>
        ensures took { Took (λ sets. sets) result fields.new (sets_fields fields.old) }
    {
        let masked = fields.byte(0, u8::MAX)?;
        let in_service = fields.byte(0, u8::MAX)?;
        let latches = fields.byte(0, u8::MAX)?;
        let inputs = fields.byte(0, u8::MAX)?;
        let triggers = fields.byte(0, u8::MAX)?;
        Ok(Sets {
            masked: LevelSet::from_byte(masked),
            in_service: LevelSet::from_byte(in_service),
            latches: LevelSet::from_byte(latches),
            inputs: LevelSet::from_byte(inputs),
            triggers: LevelSet::from_byte(triggers),
        })
    }
}

impl Modes {
    /// Reads seven flags.
    #[tactic(auto, unfolding(crate::specs::State::modes_fields))]
    fn read(fields: &mut Fields) -> Result<Modes, Bad>
        ensures took { Took (λ modes. modes) result fields.new (modes_fields fields.old) }
    {
        let is_ready = fields.flag()?;
        let auto_eoi = fields.flag()?;
        let fully_nested = fields.flag()?;
        let rotates = fields.flag()?;
        let special_mask = fields.flag()?;
        let polls = fields.flag()?;
        let reads_in_service = fields.flag()?;
        Ok(Modes {
            is_ready,
            auto_eoi,
            fully_nested,
            rotates,
            special_mask,
            polls,
            reads_in_service,
        })
    }
}

impl Pic {
    /// The bytes of the sets of levels.
    fn sets(&self) -> [u8; 5]
        ensures bytes { result ≡ sets_bytes (sets_of self.now) }
    {
        [
            self.masked.byte(),
            self.in_service.byte(),
            self.latches.byte(),
            self.inputs.byte(),
            self.triggers.byte(),
        ]
    }

    /// The bytes of the modes.
    fn modes(&self) -> [u8; 7]
        ensures bytes { result ≡ modes_bytes (modes_of self.now) }
    {
        [
            u8::from(self.is_ready),
            u8::from(self.auto_eoi),
            u8::from(self.fully_nested),
            u8::from(self.rotates),
            u8::from(self.special_mask),
            u8::from(self.polls),
            u8::from(self.reads_in_service),
        ]
    }

    /// Does nothing: its clause says that the state of each chip is sound.
    fn is_sound(&self)
        ensures sound { IsChip self.now.has_slave self.now }
    {
        self.masked.has_eight();
        self.in_service.has_eight();
        self.latches.has_eight();
        self.inputs.has_eight();
        self.triggers.has_eight();
        let _ = self.awaited.byte();
    }

    /// Adds the 15 bytes of a chip.
    fn save_state(&self, into: &mut Vec<u8>) -> Result<(), NoMemory>
        ensures saved { OnOk result (into.new.items ≡ into.old.items ++ chip_bytes self.now) }
    {
        push_byte(into, self.base)?;
        push_bytes(into, &self.sets())?;
        push_byte(into, self.awaited.byte())?;
        push_bytes(into, &self.modes())?;
        push_byte(into, self.lowest)
    }

    /// Reads the fields one after another.
    #[tactic(auto, unfolding(crate::specs::State::chip_fields))]
    fn read_state(fields: &mut Fields, has_slave: bool) -> Result<Pic, Bad>
        ensures took { Took (λ chip. chip) result fields.new (chip_fields has_slave fields.old) }
        ensures wired { IfOk result (λ chip. chip.has_slave ≡ has_slave) }
    {
        let base = fields.byte(0, LAST_BASE)?;
        let sets = Sets::read(fields)?;
        let awaited = Awaited::of_byte(fields.byte(0, ALL_WORDS)?);
        let modes = Modes::read(fields)?;
        let lowest = fields.byte(0, LEVEL_COUNT - 1)?;
        Ok(Pic {
            has_slave,
            base,
            masked: sets.masked,
            in_service: sets.in_service,
            latches: sets.latches,
            inputs: sets.inputs,
            triggers: sets.triggers,
            awaited,
            is_ready: modes.is_ready,
            auto_eoi: modes.auto_eoi,
            fully_nested: modes.fully_nested,
            rotates: modes.rotates,
            special_mask: modes.special_mask,
            lowest,
            polls: modes.polls,
            reads_in_service: modes.reads_in_service,
        })
    }
}

impl PicPair {
    /// Adds the 30 bytes of the state: the master's, and then the slave's.
    pub fn save_state(&self, into: &mut Vec<u8>) -> Result<(), NoMemory>
        ensures saved { OnOk result (into.new.items ≡ into.old.items ++ pair_bytes self.now) }
        ensures sound { IsPair self.now }
    {
        self.master.is_sound();
        self.slave.is_sound();
        self.master.save_state(into)?;
        self.slave.save_state(into)
    }

    /// The pair whose state is at the front of the bytes. Refused where a field is not whole or out of range: the bytes
    /// left then begin with the first such field.
    pub fn load_state(fields: &mut Fields) -> Result<PicPair, Bad>
        ensures loaded { Loads pair_fields pair_bytes IsPair fields.old fields.new result }
    {
        fields.are_bytes();
        PicPair::read_state(fields)
    }

    /// Reads the fields one after another.
    #[tactic(auto, unfolding(crate::specs::State::pair_fields))]
    fn read_state(fields: &mut Fields) -> Result<PicPair, Bad>
        ensures took { Took (λ pair. pair) result fields.new (pair_fields fields.old) }
    {
        let master = Pic::read_state(fields, true)?;
        let slave = Pic::read_state(fields, false)?;
        Ok(PicPair { master, slave })
    }
}

impl Lines {
    /// Adds the 2 bytes of the levels: a bit for each of lines 0 to 7, and for each of lines 8 to 15.
    pub fn save_state(&self, into: &mut Vec<u8>) -> Result<(), NoMemory>
        ensures saved { OnOk result (into.new.items ≡ into.old.items ++ lines_bytes self.now) }
        ensures sound { AreLines self.now }
    {
        self.are_sixteen();
        let low = self.masters().byte();
        let high = self.slaves().byte();
        push_bytes(into, &[low, high])
    }

    /// The levels whose bytes are at the front. Refused where a byte is not there: the bytes left then begin with it.
    pub fn load_state(fields: &mut Fields) -> Result<Lines, Bad>
        ensures loaded { Loads lines_fields lines_bytes AreLines fields.old fields.new result }
    {
        fields.are_bytes();
        Lines::read_state(fields)
    }

    /// Reads the fields one after another.
    #[tactic(auto, unfolding(crate::specs::State::lines_fields))]
    fn read_state(fields: &mut Fields) -> Result<Lines, Bad>
        ensures took { Took (λ lines. lines) result fields.new (lines_fields fields.old) }
    {
        let low = fields.byte(0, u8::MAX)?;
        let high = fields.byte(0, u8::MAX)?;
        Ok(Lines::of_bytes(low, high))
    }
}

/// One state has one spelling, and one spelling is of one state.
pub fn law_one_pair()
    ensures one { OneSpelling pair_bytes IsPair }
{}

/// One state of the lines has one spelling, and one spelling is of one state.
pub fn law_one_lines()
    ensures one { OneSpelling lines_bytes AreLines }
{}
