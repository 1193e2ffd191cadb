//! The registers of each function, written with ones and read back.

ghost use Rattle.board_examples.specs.Masks.{HostWritten, IsaWritten, IdeWritten, CardWritten, VgaWritten};
ghost use Rattle.board_examples.specs.Masks.{FunctionsToldApart};

/// The 82441FX.
#[tactic(auto, using(crate::proofs::Histories::histories))]
pub fn host_written()
    ensures history { HostWritten }
{}

/// The ISA bridge of the 82371SB.
#[tactic(auto, using(crate::proofs::Histories::histories))]
pub fn isa_written()
    ensures history { IsaWritten }
{}

/// The IDE function of the 82371SB.
#[tactic(auto, using(crate::proofs::Histories::histories))]
pub fn ide_written()
    ensures history { IdeWritten }
{}

/// A card with bases and an expansion ROM, and a VGA card without.
#[tactic(auto, using(crate::proofs::Histories::histories))]
pub fn cards_written()
    ensures full { CardWritten }
    ensures bare { VgaWritten }
{}

/// Bytes and words go to their own offsets, and what is not there answers nothing.
#[tactic(auto, using(crate::proofs::Histories::histories))]
pub fn functions_told_apart()
    ensures history { FunctionsToldApart }
{}
