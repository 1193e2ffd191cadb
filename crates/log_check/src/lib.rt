//! Whether bytes are the log of a legal and complete history of a script. Line by line: the processor that a line names
//! has one statement that may come next, and after it the line must be the text of the board's newest entry.
#![tactic(auto)]

mod check;
mod fault;
mod field;
mod front;
mod line;
mod numbers;
mod range;

pub use check::check_log;
pub use fault::CheckFault;
pub use range::statement_count;
