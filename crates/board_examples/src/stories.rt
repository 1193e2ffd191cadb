//! Stories of whole boards.

ghost use Rattle.board_examples.specs.Stories.{ExtendedBios, LowerBios, HoleBorders, RowBorders, OpenAndClosed};
ghost use Rattle.board_examples.specs.Stories.{ResetControlWritten, AddressInWords, CardPorts, PortsUnderXbcs};
ghost use Rattle.board_examples.specs.Stories.{BasesInOrder};

/// The ranges of the BIOS ROM, each at its borders.
#[tactic(auto, using(crate::proofs::Histories::histories))]
pub fn bios_ranges()
    ensures extended { ExtendedBios }
    ensures lower { LowerBios }
{}

/// The two holes at their borders.
#[tactic(auto, using(crate::proofs::Histories::histories))]
pub fn hole_borders()
    ensures history { HoleBorders }
{}

/// Rows of DRAM whose boundaries do not rise.
#[tactic(auto, using(crate::proofs::Histories::histories))]
pub fn row_borders()
    ensures history { RowBorders }
{}

/// SMRAM with DOPEN and DCLS both set.
#[tactic(auto, using(crate::proofs::Histories::histories))]
pub fn open_and_closed()
    ensures history { OpenAndClosed }
{}

/// Which writes to reset control reset.
#[tactic(auto, using(crate::proofs::Histories::histories))]
pub fn reset_control_written()
    ensures history { ResetControlWritten }
{}

/// No word and no byte reaches the configuration address.
#[tactic(auto, using(crate::proofs::Histories::histories))]
pub fn address_in_words()
    ensures history { AddressInWords }
{}

/// The ports of a card, shut, open and moved after a hard reset, which keeps their bytes.
#[tactic(auto, using(crate::proofs::Histories::histories))]
pub fn card_ports()
    ensures history { CardPorts }
{}

/// A card at the ports of the keyboard controller and of the clock.
#[tactic(auto, using(crate::proofs::Histories::histories))]
pub fn ports_under_xbcs()
    ensures history { PortsUnderXbcs }
{}

/// The bases of one card and its VGA window at one address.
#[tactic(auto, using(crate::proofs::Histories::histories))]
pub fn bases_in_order()
    ensures history { BasesInOrder }
{}
