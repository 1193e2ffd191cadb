//! Where the looks of `run` stand in its history. In a phase of `run` each processor is a worker: its looks are
//! answered by the published map, and all else goes through the bus turn, whose history has no looks. After the phase
//! each look is put directly after the later of its processor's previous statement and the map write whose count is
//! the look's version; looks in the same place stand in order of processor, and each processor's in its own order.
#![tactic(auto)]

mod actors;
mod done;
mod entry;
pub mod laws;
mod next;
mod order;

pub use actors::Actors;
pub use done::Done;
pub use entry::RunEntry;
pub use order::{RunOrder, Works, has_looks};
