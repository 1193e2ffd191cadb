//! The files of a command: which it reads, in which order, and what they must be; and how a command ends.
#![tactic(auto)]

mod fetch;
mod files;
mod good;
pub mod laws;
mod message;
mod read;
mod status;
mod table;
mod walk;

pub use logs::Line;
pub use message::fault_text;
pub use read::Read;
pub use status::{Status, Which, exit_code};
pub use walk::read_files;
