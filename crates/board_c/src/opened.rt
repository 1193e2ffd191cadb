//! A machine on the heap, as a handle has it.

use machine::Machine;
use std::marker::Model;

/// A machine as a handle has it. In contracts it is `Some`; `None` stands for a closed handle.
#[derive(Drop)]
pub struct Opened {
    pub machine: Machine,
}

impl Model for Opened {
    ghost use Rattle.std.specs.Prelude.{Option, Some};
    ghost use Rattle.machine.specs.Machines.{MachineState};

    ghost Value = { Option MachineState };

    ghost view = { λ opened. Some opened.machine };
}
