//! Expansion ROMs.

ghost use Rattle.board_examples.specs.Roms.{ExpansionRom, ExpansionRomLogged, ShutBeforeUnselected};

/// An expansion ROM answers where both of its enables are set.
#[tactic(auto, using(crate::proofs::LookRuns::looks, crate::proofs::CheckedLogRuns::logged))]
pub fn expansion_rom()
    ensures history { ExpansionRom }
    ensures log { ExpansionRomLogged }
{}

/// Who denies an address that nobody answers.
#[tactic(auto, using(crate::proofs::Histories::histories))]
pub fn shut_before_unselected()
    ensures history { ShutBeforeUnselected }
{}
