//! Worked examples of the bytes of an image: each function does nothing, and its clause is the example.

ghost use Rattle.library_examples.specs.Images.{CardFieldBorders, HeadBorders, OutsideKept, PortsKept};

/// A base for ports has bit 7 of its number set, and is read back.
#[tactic(auto, using(crate::proofs::ImageRuns::images))]
pub fn ports_kept()
    ensures card { PortsKept }
{}

/// A base of which the board keeps no bytes has bit 6 of its number set, and is read back.
#[tactic(auto, using(crate::proofs::ImageRuns::images))]
pub fn outside_kept()
    ensures card { OutsideKept }
{}

/// The last numbers of the head and of a card that are good, and the first that are bad.
#[tactic(auto, using(crate::proofs::ImageRuns::images))]
pub fn field_borders()
    ensures head { HeadBorders }
    ensures card { CardFieldBorders }
{}
