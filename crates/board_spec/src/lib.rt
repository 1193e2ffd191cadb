//! What the board's answers mean: the events of a history and their replies as plain types, and in
//! `specs/` the definitions that every contract above cites. `laws` proves of them what code above stands on.
#![tactic(auto)]

pub mod command;
pub mod device;
mod event;
pub mod laws;
pub mod limits;
mod map_change;
pub mod offset;
pub mod range;
pub mod stimulus;
pub mod wide;

pub use board_base::bits;
pub use device_spec::port;
pub use event::{Entry, Event, Look, Part, Parts, Reply, Statement};
pub use map_change::MapChange;
pub use stimulus::{Applied, Stimulus};
