//! The texts of the board: the log of a history, a line for each entry, written whole or in pieces, each by a thread of
//! its own; the entry that a line says; and the address map, a line for each range. Each function that appends leaves what
//! the text had: where memory runs out, a part of the new words may stand after it.
#![tactic(auto)]

mod cuts;
mod fault;
mod hex;
pub mod laws;
mod line;
mod log;
mod long;
mod map;
mod read;
mod read_asked;
mod read_entry;
mod read_reply;
mod read_target;
mod read_wide;
mod reply;
mod statement;
mod tail;
mod target;
mod text;
mod whole;
mod words;

pub use board_spec::{Entry, Event, Look, Reply, Statement};
pub use cuts::cut;
pub use fault::LogFault;
pub use hex::{push_hex_byte, push_hex_long};
pub use line::Line;
pub use log::{
    log_line, push_heading, push_line, push_lines, push_log, push_parts_line, push_unnumbered,
};
pub use map::push_range;
pub use read::{Log, read_log};
pub use read_entry::parse_entry;
pub use target::push_denial;
pub use text::Text;
pub use whole::log_alone;
pub use words::{push_decimal, push_words};
