//! What is kept of the lines of a script so far.

ghost use Rattle.std.specs.Prelude.{◌≡◌, [], List, true, false, IfOk, IfErr};
ghost use Rattle.script_spec.specs.Grammar.{Item};
ghost use Rattle.script_spec.specs.Reasons.{lacks_setup};
ghost use Rattle.script_spec.specs.ScriptText.{IsSaidBy};
ghost use Rattle.scripts.specs.Reading.{IsReadingOf};
ghost use Rattle.scripts.specs.Script.{said_of};
ghost use Rattle.scripts.specs.declared.fault.Reason.{Reason};

use crate::fault::Reason;
use crate::name::Name;
use crate::script::Script;
use board_spec::Statement;
use pci_bars::CardSpec;
use std::alloc::Global;

/// What is kept of the lines so far: the setup, with the cards in rising order of device and the bytes of memory
/// behind their bases, how many statements and pulses there were, and the phases.
#[derive(Drop)]
pub(crate) struct Reading {
    pub cpus: Option<u8>,
    pub mib: Option<u8>,
    pub rom: Option<Name>,
    pub disk: Option<Name>,
    pub cards: Vec<CardSpec>,
    pub memory: u32,
    pub statements: u32,
    pub pulses: u32,
    pub phases: Vec<Vec<Statement>>,
}

impl Reading {
    /// No line was read.
    pub(crate) fn new(alloc: Global) -> Reading
        ensures empty { IsReadingOf [] result }
    {
        Reading {
            cpus: None,
            mib: None,
            rom: None,
            disk: None,
            cards: Vec::new(alloc),
            memory: 0,
            statements: 0,
            pulses: 0,
            phases: Vec::new(alloc),
        }
    }

    /// What all lines say together. Refused where the setup is not whole.
    pub(crate) fn finish(self, version: u8) -> Result<Script, Reason>
        ensures said { IfOk result (λ script. (said_of script).version ≡ version) }
        ensures whole { IfOk result (λ script. (items : List Item) → IsReadingOf items self →
            (lacks_setup items ≡ false) × IsSaidBy (said_of script) items) }
        ensures reason { IfErr result (λ reason. reason ≡ Reason.NoSetup) }
        ensures lacks { IfErr result (λ reason. (items : List Item) → IsReadingOf items self
            → lacks_setup items ≡ true) }
    {
        let Reading {
            cpus,
            mib,
            rom,
            disk,
            cards,
            phases,
            ..
        } = self;
        let Some(cpus) = cpus else {
            return Err(Reason::NoSetup);
        };
        let Some(mib) = mib else {
            return Err(Reason::NoSetup);
        };
        let Some(rom) = rom else {
            return Err(Reason::NoSetup);
        };
        Ok(Script {
            version,
            cpus,
            mib: u32::from(mib),
            rom,
            disk,
            cards,
            phases,
        })
    }
}
