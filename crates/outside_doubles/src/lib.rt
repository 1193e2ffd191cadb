//! Shelves and sinks in memory for tests: they fail where they are told to, and move few bytes a call.
#![tactic(auto)]

mod calls;
mod memory_shelf;
mod memory_sink;
mod slow_shelf;
mod slow_sink;

pub use memory_shelf::MemShelf;
pub use memory_sink::MemSink;
pub use slow_shelf::SlowShelf;
pub use slow_sink::SlowSink;
