//! What the devices of the board do: `specs/` has a machine for each, after its datasheet, and the crates of the
//! devices prove that their code does what the machine does. `laws` proves of the machines what code above stands on.
#![tactic(auto)]

pub mod laws;
pub mod port;

/// How many interrupt lines the two 8259As have.
pub const LINE_COUNT: usize = 16;
