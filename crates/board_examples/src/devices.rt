//! The 8259A pair, the 8254, port 61h and the clock.

ghost use Rattle.board_examples.specs.Devices.{TimerLatched, SystemPort, FallenLine, NestedInterrupts, Polled};
ghost use Rattle.board_examples.specs.Devices.{RoutedWire, ClockTold};

/// Status and count of a counter are latched and read, and the counter goes on.
#[tactic(auto, using(crate::proofs::Histories::devices))]
pub fn timer_latched()
    ensures history { TimerLatched }
{}

/// Port 61h: one bit flips after each read.
#[tactic(auto, using(crate::proofs::Histories::devices))]
pub fn system_port()
    ensures history { SystemPort }
{}

/// A line falls before the acknowledge, and the spurious answer leaves the master's level 2 in service.
#[tactic(auto, using(crate::proofs::Histories::devices))]
pub fn fallen_line()
    ensures history { FallenLine }
{}

/// A higher level interrupts a lower one.
#[tactic(auto, using(crate::proofs::Histories::devices))]
pub fn nested_interrupts()
    ensures history { NestedInterrupts }
{}

/// A read that polls.
#[tactic(auto, using(crate::proofs::Histories::devices))]
pub fn polled()
    ensures history { Polled }
{}

/// A card's wire is routed to a line that is level triggered.
#[tactic(auto, using(crate::proofs::Histories::devices))]
pub fn routed_wire()
    ensures history { RoutedWire }
{}

/// The clock is given a moment, in 24-hour and in 12-hour form.
#[tactic(auto, using(crate::proofs::Histories::devices))]
pub fn clock_told()
    ensures history { ClockTold }
{}
