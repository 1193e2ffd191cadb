//! The log of a run. Each processor writes the lines of its own statements as it does them, without their numbers, which
//! are not known before each look is in its place. When the run has ended its lines are put together in the order of
//! the entries, each with its number before it.
#![tactic(auto)]

mod counts;
mod join;
mod lines;
mod pieces;

pub use lines::Lines;
pub use pieces::log_of_lines;
