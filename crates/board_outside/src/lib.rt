//! The outside of a board: files that it reads, where its texts go, and what watches a run.
#![tactic(auto)]

mod fault;
mod memory_shelf;
mod memory_sink;
mod outside;
mod pieces;

pub use fault::{Failed, PutFault};
pub use memory_shelf::SafeShelf;
pub use memory_sink::SafeSink;
pub use outside::{Gate, QuietGate, Shelf, Sink};
pub use pieces::{append_piece, copy_piece, find_file, front, keep_name};
