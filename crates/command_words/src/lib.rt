//! The words of the command line, and the command that they are.
#![tactic(auto)]

mod transfer;
mod words;

pub use transfer::Transfer;
pub use words::{Alone, Command, USAGE, command_of, law_words, script_name};
