//! The shared board: callers on threads of their own take turns at one board, and look at its memory map without a
//! turn. What they have in common is the board and the publisher of its map, with the turn at them.
#![tactic(auto)]

mod cpu;
mod live;
mod sends;
mod shared;
pub mod sharing;
mod turns;

pub use cpu::Cpu;
pub use live::{Live, LiveOpen};
pub use shared::{Answered, Origin, Shared};
pub use turns::{enter, leave};
