//! Accesses to ports that reach nobody.

ghost use Rattle.board_examples.specs.Ports.{NobodySelected, WordsAtBytePorts, WordsAtChips, BasePastThePorts};
ghost use Rattle.board_examples.specs.Ports.{ShutOverDevices, BasesByNumber};

/// Functions, devices and buses that are not there.
#[tactic(auto, using(crate::proofs::Histories::histories))]
pub fn nobody_selected()
    ensures history { NobodySelected }
{}

/// Words at the ports of a byte.
#[tactic(auto, using(crate::proofs::Histories::histories))]
pub fn words_at_byte_ports()
    ensures history { WordsAtBytePorts }
{}

/// Words and doublewords at the ports of the 8259A pair, the 8254, the keyboard controller and edge and level control.
#[tactic(auto, using(crate::proofs::Histories::devices))]
pub fn words_at_chips()
    ensures history { WordsAtChips }
{}

/// A card's ports above FFFFh.
#[tactic(auto, using(crate::proofs::Histories::histories))]
pub fn base_past_the_ports()
    ensures history { BasePastThePorts }
{}

/// A card's shut base over the ports of a disk that is not there, and over those of the clock.
#[tactic(auto, using(crate::proofs::Histories::histories))]
pub fn shut_over_devices()
    ensures history { ShutOverDevices }
{}

/// The I/O bases of one card, each by its number.
#[tactic(auto, using(crate::proofs::Histories::histories))]
pub fn bases_by_number()
    ensures history { BasesByNumber }
{}
