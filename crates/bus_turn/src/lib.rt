//! The counted turn: a value that threads share by taking turns, and a list in it that only grows.
//!
//! Each caller has a pass, which knows the list as the caller has seen it and the entries that the caller added.
//! A turn is `take`, then `commit` after each entry that was added to the value's list, then `give`.
//! Nothing is claimed of progress, of fairness, or of an order in time between callers that never joined.
#![tactic(auto)]

pub mod example;
mod kept;
mod plays;
pub mod sends;
mod turn;
mod view;

pub use kept::Kept;
pub use turn::{Held, Turn, TurnOpen};
pub use view::{Order, Pass, Stage, View};
