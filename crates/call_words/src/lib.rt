//! The words of a line and the numbers in them, for the programs of the gate that read rows.
#![tactic(auto)]

mod numbers;

pub use numbers::{byte, bytes_of, decimal, long, number, port, port_access, width, word};
