//! What an item adds to what is kept of the lines before it.

ghost use Rattle.std.specs.Prelude.{◌≡◌, ◌≤◌, ◌++◌, [], ◌∷◌, List, length, nat_lt, OnOk};
ghost use Rattle.board_prelude.specs.{position_or_len, Statement, IsCard};
ghost use Rattle.script_spec.specs.Grammar.{SetCpus, SetMemory, SetRom, SetDisk, FitCard, BeginPhase, Ask, IsName};
ghost use Rattle.script_spec.specs.Reasons.{pulses_of_event};
ghost use Rattle.script_spec.specs.Phases.{lists_of};
ghost use Rattle.scripts.specs.Valid.{item_said, IsValid};
ghost use Rattle.scripts.specs.Reading.{IsWithinLimits, Takes};

use crate::name::Name;
use crate::reading::Reading;
use crate::reason::memory_of_card;
use crate::valid::{ValidItem, pulses_of};
use board_spec::Statement;
use pci_bars::CardSpec;
use std::alloc::{AllocError, Global};

/// The place of the first card of a device above this one, or the end.
fn index_for_card(cards: &[CardSpec], dev: u8) -> usize
    ensures place { result ≡ position_or_len (λ other. nat_lt dev other.dev) cards.now }
    ensures within { result ≤ length cards.now }
{
    cards
        .iter()
        .position(|other| dev < other.dev)
        .unwrap_or(cards.len())
}

/// Adds a statement to the last phase, where there is one.
#[tactic(auto, using(std::proofs::lemmas::Bool::Decides::nat_tests, crate::proofs::TakenPhases::last_longer))]
fn push_statement(phases: &mut Vec<Vec<Statement>>, statement: Statement) -> Result<(), AllocError>
    ensures phases { OnOk result ((front : List (List Statement)) (last : List Statement) →
        lists_of phases.old.items ≡ front ++ last ∷ [] →
        lists_of phases.new.items ≡ front ++ (last ++ statement ∷ []) ∷ []) }
{
    match phases.last_mut() {
        Some(phase) => {
            phase.push(statement)?;
            Ok(())
        }
        None => Ok(()),
    }
}

impl Reading {
    #[tactic(auto, using(crate::proofs::TakenSetup::cpus_taken))]
    fn take_cpus(&mut self, count: u8)
        ensures taken { Takes self.old (SetCpus count) self.new }
    {
        self.cpus = Some(count);
    }

    fn take_memory(&mut self, mib: u8)
        ensures taken { Takes self.old (SetMemory mib) self.new }
    {
        self.mib = Some(mib);
    }

    fn take_rom(&mut self, alloc: Global, name: &[u8]) -> Result<(), AllocError>
        requires name { IsName name.now }
        ensures taken { OnOk result (Takes self.old (SetRom name.now) self.new) }
    {
        let name = Name::new(alloc, name)?;
        self.rom = Some(name);
        Ok(())
    }

    fn take_disk(&mut self, alloc: Global, name: &[u8]) -> Result<(), AllocError>
        requires name { IsName name.now }
        ensures taken { OnOk result (Takes self.old (SetDisk name.now) self.new) }
    {
        let name = Name::new(alloc, name)?;
        self.disk = Some(name);
        Ok(())
    }

    fn take_card(&mut self, card: CardSpec) -> Result<(), AllocError>
        requires card { IsCard card }
        requires limits { IsWithinLimits self.old }
        ensures taken { OnOk result (Takes self.old (FitCard card) self.new) }
    {
        let place = index_for_card(&self.cards, card.dev);
        self.memory += memory_of_card(&card);
        self.cards.insert(place, card)?;
        Ok(())
    }

    #[tactic(auto, using(std::proofs::lemmas::Bool::Decides::nat_tests, crate::proofs::TakenPhases::phase_taken))]
    fn take_phase(&mut self, alloc: Global) -> Result<(), AllocError>
        ensures taken { OnOk result (Takes self.old BeginPhase self.new) }
    {
        self.phases.push(Vec::new(alloc))?;
        Ok(())
    }

    #[inline(always)]
    pub(crate) fn take_statement(&mut self, statement: Statement) -> Result<(), AllocError>
        requires few { pulses_of_event statement.event ≤ 1_000_000 }
        requires limits { IsWithinLimits self.old }
        ensures taken { OnOk result (Takes self.old (Ask statement) self.new) }
    {
        self.statements += 1;
        self.pulses += pulses_of(&statement.event);
        push_statement(&mut self.phases, statement)
    }

    /// Takes an item that there is no reason to refuse.
    pub(crate) fn take(&mut self, alloc: Global, item: ValidItem<'_>) -> Result<(), AllocError>
        requires valid { IsValid item }
        requires limits { IsWithinLimits self.old }
        ensures taken { OnOk result (Takes self.old (item_said item.entry) self.new) }
    {
        match item {
            ValidItem::Cpus(count) => {
                self.take_cpus(count);
                Ok(())
            }
            ValidItem::Memory(mib) => {
                self.take_memory(mib);
                Ok(())
            }
            ValidItem::Rom(name) => self.take_rom(alloc, name),
            ValidItem::Disk(name) => self.take_disk(alloc, name),
            ValidItem::Card(card) => self.take_card(card),
            ValidItem::Phase => self.take_phase(alloc),
            ValidItem::Asked(statement) => self.take_statement(statement),
        }
    }
}
