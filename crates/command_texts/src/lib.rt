//! The texts that the commands write, each from a script and its board.
#![tactic(auto)]

mod blame;
mod board;
mod images;
pub mod laws;
mod made;
mod plays;
mod replay;
mod replay_log;
mod serial;
mod transfers;
mod writes;

pub use blame::blame_after_replay;
pub use board::open_board;
pub use images::{image_of_replay, is_same_board, log_of_resumed};
pub use made::summary_of_made;
pub use replay::{check_log, map_after_replay, replay_script, verdict_on_log};
pub use replay_log::log_of_replay;
pub use serial::sent_in_replay;
pub use transfers::transfer_after_replay;
