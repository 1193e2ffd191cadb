//! Histories as values: the events of a board and its replies, in the order in which they came.
#![tactic(auto)]

mod entries;
mod history;
mod kept;
mod packed;

pub use board_spec::{Entry, Event, Look, Reply};
pub use entries::Entries;
pub use history::History;
