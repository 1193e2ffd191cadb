//! Whether an item can stand after those before it, and the least reason if not.

ghost use Rattle.std.specs.Prelude.{◌≡◌, ◌≤◌, ◌<◌, ◌+◌, ◌&&◌, ◌||◌, nat_lt, true, is_some, ℕ, List, length, sum_by};
ghost use Rattle.std.specs.Prelude.{IfOk, IsTrue};
ghost use Rattle.board_prelude.specs.{list_any, most_statements, most_pulses, IsCard, memory_size};
ghost use Rattle.script_spec.specs.Grammar.{Item as Said, SetCpus, SetMemory, SetRom, SetDisk, FitCard, BeginPhase};
ghost use Rattle.script_spec.specs.Grammar.{Ask, IsForm};
ghost use Rattle.script_spec.specs.Reasons.{is_phase, is_setup, is_repeated, has_card, is_card_there, pulses_of_event};
ghost use Rattle.scripts.specs.Items.{card_said, asked_said, line_said};
ghost use Rattle.scripts.specs.Valid.{item_said, IsValid};
ghost use Rattle.scripts.specs.Reading.{is_below, IsReadingOf, IsWithinLimits, Judges, Stands};

use crate::card::CardFields;
use crate::fault::Reason;
use crate::item::{Asked, Item};
use crate::reading::Reading;
use crate::valid::{ValidItem, is_placed, is_within, pulses_of, valid_card, valid_event};
use board_spec::limits::MOST_STATEMENTS;
use board_spec::{Event, Statement};
use pci_bars::CardSpec;

/// The most processors.
const MOST_CPUS: u32 = 8;

/// The most memory, in MiB.
const MOST_MIB: u32 = 64;

/// The most phases of a script.
const MOST_PHASES: usize = 1_000;

/// The most pulses of all statements together.
const MOST_PULSES: u32 = 100_000_000;

/// The most bytes of memory behind the bases of all cards together, which is 64 MiB.
const MOST_MEMORY: u32 = 0x400_0000;

/// How many bytes of memory the bases of a card decode.
pub(crate) fn memory_of_card(card: &CardSpec) -> u32
    requires card { IsCard card.now }
    ensures memory { result ≡ sum_by memory_size card.now.bases }
    ensures most { result ≤ 0x600_0000 }
{
    let mut memory = 0;
    for base in card.bases.as_slice() {
        memory += base.memory_size();
    }
    memory
}

impl Reading {
    fn has_phase(&self) -> bool
        ensures phase { (items : List Said) → IsReadingOf items self.now → result ≡ list_any is_phase items }
    {
        !self.phases.is_empty()
    }

    fn has_setup(&self) -> bool
        ensures setup { result ≡ (is_some self.now.cpus && is_some self.now.mib && is_some self.now.rom) }
    {
        self.cpus.is_some() && self.mib.is_some() && self.rom.is_some()
    }

    fn has_card(&self, dev: u32) -> bool
        ensures card { (items : List Said) → IsReadingOf items self.now → result ≡ has_card items dev }
    {
        self.cards.iter().any(|card| u32::from(card.dev) == dev)
    }

    fn has_processor(&self, actor: u32) -> bool
        ensures processor { result ≡ is_below actor self.now.cpus }
        ensures byte { IsTrue result → actor < 256 }
    {
        match self.cpus {
            Some(cpus) => actor < u32::from(cpus),
            None => false,
        }
    }

    /// Whether the card that an event names is there.
    fn has_card_of(&self, event: &Event) -> bool
        ensures there { (items : List Said) → IsReadingOf items self.now → result ≡ is_card_there items event.now }
    {
        match event {
            Event::Wire { dev, .. } => self.has_card(u32::from(*dev)),
            _ => true,
        }
    }

    /// Refuses a line of the setup after the first phase, or where one of its kind came before.
    #[tactic(auto, using(crate::proofs::Reasons::setup_rules))]
    fn validate_setup(&self, came: bool) -> Result<(), Reason>
        ensures judged { (items : List Said) (item : Said) → IsReadingOf items self.now → is_setup item ≡ true
            → is_repeated items item ≡ came → Stands items item result }
    {
        if self.has_phase() {
            return Err(Reason::Misplaced);
        }
        if came {
            return Err(Reason::Repeated);
        }
        Ok(())
    }

    #[tactic(auto, using(crate::proofs::Reasons::number_rules))]
    fn validate_cpus(&self, count: u32) -> Result<u8, Reason>
        ensures judged { (items : List Said) → IsReadingOf items self.now
            → Judges SetCpus items (SetCpus count) result }
    {
        self.validate_setup(self.cpus.is_some())?;
        if is_within(1, MOST_CPUS, count) {
            Ok(count as u8)
        } else {
            Err(Reason::OutOfRange)
        }
    }

    #[tactic(auto, using(crate::proofs::Reasons::number_rules))]
    fn validate_memory(&self, mib: u32) -> Result<u8, Reason>
        ensures judged { (items : List Said) → IsReadingOf items self.now
            → Judges SetMemory items (SetMemory mib) result }
    {
        self.validate_setup(self.mib.is_some())?;
        if is_within(1, MOST_MIB, mib) {
            Ok(mib as u8)
        } else {
            Err(Reason::OutOfRange)
        }
    }

    fn validate_rom(&self) -> Result<(), Reason>
        ensures judged { (items : List Said) (name : List ℕ) → IsReadingOf items self.now
            → Judges (λ done. SetRom name) items (SetRom name) result }
    {
        self.validate_setup(self.rom.is_some())
    }

    fn validate_disk(&self) -> Result<(), Reason>
        ensures judged { (items : List Said) (name : List ℕ) → IsReadingOf items self.now
            → Judges (λ done. SetDisk name) items (SetDisk name) result }
    {
        self.validate_setup(self.disk.is_some())
    }

    fn validate_card(&self, fields: &CardFields) -> Result<CardSpec, Reason>
        requires few { length fields.now.bases.items ≤ 6 }
        requires limits { IsWithinLimits self.now }
        ensures judged { (items : List Said) → IsReadingOf items self.now
            → Judges FitCard items (FitCard (card_said fields.now)) result }
        ensures fits { IfOk result IsCard }
    {
        self.validate_setup(self.has_card(fields.dev))?;
        let Some(card) = valid_card(fields) else {
            return Err(Reason::OutOfRange);
        };
        if self.memory + memory_of_card(&card) > MOST_MEMORY {
            return Err(Reason::PastLimit);
        }
        Ok(card)
    }

    #[tactic(auto, using(crate::proofs::Reasons::phase_rules))]
    fn validate_phase(&self) -> Result<(), Reason>
        ensures judged { (items : List Said) → IsReadingOf items self.now
            → Judges (λ done. BeginPhase) items BeginPhase result }
    {
        if !self.has_setup() {
            return Err(Reason::NoSetup);
        }
        if self.phases.len() == MOST_PHASES {
            return Err(Reason::PastLimit);
        }
        Ok(())
    }

    /// Whether one statement more passes a limit.
    fn is_past_limit(&self, event: &Event) -> bool
        requires limits { IsWithinLimits self.now }
        requires few { pulses_of_event event.now ≤ 1_000_000 }
        ensures past { result ≡ (nat_lt most_statements (self.now.statements + 1)
            || nat_lt most_pulses (pulses_of_event event.now + self.now.pulses)) }
    {
        self.statements == MOST_STATEMENTS as u32 || self.pulses + pulses_of(event) > MOST_PULSES
    }

    #[inline(always)]
    pub(crate) fn validate_statement(&self, actor: u32, asked: Asked) -> Result<Statement, Reason>
        requires limits { IsWithinLimits self.now }
        ensures judged { (items : List Said) → IsReadingOf items self.now
            → Judges Ask items (asked_said actor asked) result }
        ensures few { IfOk result (λ statement. pulses_of_event statement.event ≤ 1_000_000) }
    {
        if !self.has_phase() {
            return Err(Reason::Misplaced);
        }
        let Some(event) = valid_event(asked) else {
            return Err(Reason::OutOfRange);
        };
        if !is_placed(&event) {
            return Err(Reason::NotPlaced);
        }
        if !self.has_processor(actor) {
            return Err(Reason::NotThere);
        }
        if !self.has_card_of(&event) {
            return Err(Reason::NotThere);
        }
        if self.is_past_limit(&event) {
            return Err(Reason::PastLimit);
        }
        Ok(Statement {
            actor: actor as u8,
            event,
        })
    }

    /// The item of a line, where it can stand after those before it, and otherwise the least reason to refuse it.
    pub(crate) fn validate<'a>(&self, version: u8, item: Item<'a>) -> Result<ValidItem<'a>, Reason>
        requires form { IsForm version (line_said item) }
        requires limits { IsWithinLimits self.now }
        ensures judged { (items : List Said) → IsReadingOf items self.now
            → Judges item_said items (line_said item.entry) result }
        ensures valid { IfOk result IsValid }
    {
        match item {
            Item::Cpus(count) => Ok(ValidItem::Cpus(self.validate_cpus(count)?)),
            Item::Memory(mib) => Ok(ValidItem::Memory(self.validate_memory(mib)?)),
            Item::Rom(name) => {
                self.validate_rom()?;
                Ok(ValidItem::Rom(name))
            }
            Item::Disk(name) => {
                self.validate_disk()?;
                Ok(ValidItem::Disk(name))
            }
            Item::Card(fields) => Ok(ValidItem::Card(self.validate_card(&fields)?)),
            Item::Phase => {
                self.validate_phase()?;
                Ok(ValidItem::Phase)
            }
            Item::Statement { actor, asked } => {
                Ok(ValidItem::Asked(self.validate_statement(actor, asked)?))
            }
        }
    }
}
