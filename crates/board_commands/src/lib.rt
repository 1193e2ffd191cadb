//! The commands of the board: from the words of the command line to the bytes that are written.
#![tactic(auto)]

mod command;
mod memory;
mod output;
mod prepare;
mod run;
mod texts;

pub use command::board;
pub use command_files::{Line, Status, Which, exit_code, fault_text};
pub use command_texts::{check_log, replay_script};
pub use command_words::{USAGE, law_words};
pub use memory::board_in_memory;
pub use run::run_script;
