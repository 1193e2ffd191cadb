//! The program `board` as a library: the commands of `board_commands` over real files and an output.
#![tactic(auto)]

mod answers;
mod line;
mod program;
mod put;

pub use line::{CommandLine, SystemLine, WordFault};
pub use program::{run_program, run_words};
