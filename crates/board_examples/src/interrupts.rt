//! The interrupt lines, and what a hard reset leaves of the devices.

ghost use Rattle.board_examples.specs.Interrupts.{EachPulse, GatedCounter, ClockInterrupts, DiskInterrupts};
ghost use Rattle.board_examples.specs.Interrupts.{SharedWires, FreeLines, DevicesOverReset, MaskBeforeIcw1};
ghost use Rattle.board_examples.specs.Interrupts.{DiskOverReset};

/// The levels after each single pulse reach the pair.
#[tactic(auto, using(crate::proofs::Histories::devices))]
pub fn each_pulse()
    ensures history { EachPulse }
{}

/// Counter 2 counts while its gate is open.
#[tactic(auto, using(crate::proofs::Histories::devices))]
pub fn gated_counter()
    ensures history { GatedCounter }
{}

/// Updates of the clock.
#[tactic(auto, using(crate::proofs::Histories::devices))]
pub fn clock_interrupts()
    ensures history { ClockInterrupts }
{}

/// A command of the disk.
#[tactic(auto, using(crate::proofs::Histories::devices))]
pub fn disk_interrupts()
    ensures history { DiskInterrupts }
{}

/// Wires that share a route.
#[tactic(auto, using(crate::proofs::Histories::devices))]
pub fn shared_wires()
    ensures history { SharedWires }
{}

/// Each line that `irq` sets.
#[tactic(auto, using(crate::proofs::Histories::devices))]
pub fn free_lines()
    ensures history { FreeLines }
{}

/// A hard reset of the devices.
#[tactic(auto, using(crate::proofs::Histories::devices))]
pub fn devices_over_reset()
    ensures history { DevicesOverReset }
{}

/// The mask of each chip, read before the chip is initialised.
#[tactic(auto, using(crate::proofs::Histories::devices))]
pub fn mask_before_icw1()
    ensures history { MaskBeforeIcw1 }
{}

/// A hard reset of the disk.
#[tactic(auto, using(crate::proofs::Histories::devices))]
pub fn disk_over_reset()
    ensures history { DiskOverReset }
{}
